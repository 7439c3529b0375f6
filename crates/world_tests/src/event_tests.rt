//! Worlds of guests over four frames and two slots. An instruction is written as the word that the manual encodes it to, with
//! its text beside; what it leads to is worked out by hand.
ghost use Rattle.std.specs.Prelude.{All};
ghost use Rattle.world.specs.Events.{IsProper};

use elf32::Image;
use guest_number::GuestNo;
use guest_pages::PageKind;
use items::{Item, SeatNo, What};
use machine::{StepOut, Why};
use mips_cp0::Profile;
use page_moves::{Scan, SupplyError};
use rand_pcg::Pcg32;
use std::alloc::Global;
use std::fmt::Debug;
use std::process::Abort;
use std::sync::Arc;
use swapstore::MemStore;
use taxpolicy::Tax;
use tenant::EvictError;
use word32::Ppn;
use world::{Answer, BookCounts, Config, End, Event, Evicted, FaultError, NewGuest, Ran, World};

/// Asserts one case. The tests share it, since each assertion in a function's own body makes its proof much longer.
pub(crate) fn expect<T: PartialEq + Debug + Drop>(
    rt: &impl Abort,
    case: &'static str,
    got: T,
    wanted: T,
) {
    assert!(rt; got == wanted, "{case}: {got:?}, not {wanted:?}");
}

/// The bytes of words, in order.
fn bytes_of(rt: &impl Abort, alloc: Global, words: &[u32]) -> Vec<u8> {
    let mut bytes = Vec::new(alloc);
    for word in words {
        if bytes.extend_from_slice(&word.to_le_bytes()).is_err() {
            panic!(rt; "no memory for the words");
        }
    }
    bytes
}

/// An image of these words from 80000000 on.
fn image_of(rt: &impl Abort, alloc: Global, words: &[u32]) -> Arc<Image, Global> {
    let bytes = bytes_of(rt, alloc, words);
    if bytes.len() > 4096 {
        panic!(rt; "too many words");
    }
    let Ok(image) = Image::raw(alloc, bytes) else {
        panic!(rt; "no memory for the image");
    };
    match Arc::new(alloc, image) {
        Ok(image) => image,
        Err(_) => panic!(rt; "no memory for the image"),
    }
}

/// A load from page 1, and a store to page 2.
pub(crate) static WORDS: [u32; 3] = [
    0x3c01_8000, // lui $1,0x8000
    0x8c22_1000, // lw $2,0x1000($1)
    0xac22_2000, // sw $2,0x2000($1)
];

/// Guests of one image, whose pages 0 have a frame or a slot each: of three pages, of which each keeps two, with logs of at most 16 runs.
pub(crate) fn booted(rt: &impl Abort, alloc: Global, slots: u32, guests: usize) -> World<MemStore> {
    let mut asked = Vec::new(alloc);
    for _ in 0..guests {
        let guest = NewGuest {
            profile: Profile::One,
            image: image_of(rt, alloc, &WORDS),
            pages: 3,
            shares: 100,
            minimum: 2,
        };
        if asked.push(guest).is_err() {
            panic!(rt; "no memory for the guests");
        }
    }
    let Ok(store) = MemStore::new(alloc, slots) else {
        panic!(rt; "no memory for the store");
    };
    let config = Config {
        frames: 4,
        log_runs: 16,
        admit: false,
    };
    match World::boot(alloc, config, asked, store) {
        Ok(world) => world,
        Err((error, _store)) => panic!(rt; "no world: {error:?}"),
    }
}

/// Two guests, whose page 0 has a frame each.
pub(crate) fn started(rt: &impl Abort, alloc: Global) -> World<MemStore> {
    booted(rt, alloc, 2, 2)
}

fn page(rt: &impl Abort, number: u32) -> Ppn {
    if number >= 8 {
        panic!(rt; "there is no page {number}");
    }
    Ppn::new(number)
}

/// How many frames are free, and how many slots are used.
pub(crate) fn room(world: &World<MemStore>) -> (u32, u32) {
    (world.free(), world.slots_used())
}

pub(crate) fn kind(
    rt: &impl Abort,
    world: &World<MemStore>,
    g: usize,
    number: u32,
) -> Option<PageKind> {
    if g >= world.count() {
        panic!(rt; "there is no guest {g}");
    }
    world.kind(g, page(rt, number))
}

pub(crate) const TAX: Tax = Tax { percent: 75 };

/// What an event is answered for which no word is drawn.
pub(crate) fn apply(alloc: Global, world: &mut World<MemStore>, event: Event) -> Answer
    requires { IsProper event }
{
    world.apply(alloc, event, TAX, &mut Pcg32::new(42, 54))
}

/// The page that a step needs, if it needs one.
fn need(out: StepOut) -> Option<(u32, Why)> {
    match out {
        StepOut::Done => None,
        StepOut::Need(page, why) => Some((page.number(), why)),
    }
}

/// What a step is answered: its need, if it has one.
fn step(
    rt: &impl Abort,
    alloc: Global,
    world: &mut World<MemStore>,
    g: GuestNo,
) -> Option<(u32, Why)> {
    match apply(alloc, world, Event::Step(g)) {
        Answer::Stepped(Ok(out)) => need(out),
        _ => panic!(rt; "no step"),
    }
}

pub(crate) fn supply(
    rt: &impl Abort,
    alloc: Global,
    world: &mut World<MemStore>,
    g: GuestNo,
    number: u32,
) -> Result<(), SupplyError> {
    match apply(alloc, world, Event::Supply(g, page(rt, number))) {
        Answer::Supplied(answer) => answer,
        _ => panic!(rt; "no supply"),
    }
}

pub(crate) fn evict(
    rt: &impl Abort,
    alloc: Global,
    world: &mut World<MemStore>,
    g: GuestNo,
    number: u32,
) -> Result<Evicted, EvictError> {
    match apply(alloc, world, Event::Evict(g, page(rt, number))) {
        Answer::Evicted(answer) => answer,
        _ => panic!(rt; "no eviction"),
    }
}

fn scan(
    rt: &impl Abort,
    alloc: Global,
    world: &mut World<MemStore>,
    g: GuestNo,
    number: u32,
) -> Scan {
    match apply(alloc, world, Event::Scan(g, page(rt, number))) {
        Answer::Scanned(answer) => answer,
        _ => panic!(rt; "no scan"),
    }
}

/// Two pages of equal bytes come to share one frame: the second page that is scanned has the digest with which the first was noted,
/// and becomes the entry; the first then joins it.
pub(crate) fn share(rt: &impl Abort, alloc: Global, world: &mut World<MemStore>) {
    expect(
        rt,
        "noted",
        scan(rt, alloc, world, GuestNo::new(0), 0),
        Scan::Noted,
    );
    match scan(rt, alloc, world, GuestNo::new(1), 0) {
        Scan::Admitted(other) => expect(
            rt,
            "of guest 0",
            (other.guest.number(), other.page.number()),
            (0, 0),
        ),
        other => panic!(rt; "admitted: {other:?}"),
    }
    expect(rt, "two frames free", room(world), (2, 0));
    expect(
        rt,
        "joined",
        scan(rt, alloc, world, GuestNo::new(0), 0),
        Scan::Joined,
    );
    expect(rt, "three frames free", room(world), (3, 0));
}

#[test]
fn guests_share_a_page_and_part(rt: HostRuntime) {
    let mut world = started(&rt, rt.alloc());
    share(&rt, rt.alloc(), &mut world);
    expect(
        &rt,
        "shared",
        kind(&rt, &world, 0, 0),
        Some(PageKind::Shared),
    );
    expect(
        &rt,
        "a step fetches",
        step(&rt, rt.alloc(), &mut world, GuestNo::new(0)),
        None,
    );
    expect(
        &rt,
        "parted",
        supply(&rt, rt.alloc(), &mut world, GuestNo::new(0), 0),
        Ok(()),
    );
    expect(
        &rt,
        "private",
        kind(&rt, &world, 0, 0),
        Some(PageKind::Private),
    );
    expect(&rt, "a frame less", room(&world), (2, 0));
    expect(
        &rt,
        "the last",
        supply(&rt, rt.alloc(), &mut world, GuestNo::new(1), 0),
        Ok(()),
    );
    expect(&rt, "no entry left", room(&world), (2, 0));
    let _store = world.close();
}

#[test]
fn a_shared_page_that_is_evicted_frees_no_frame(rt: HostRuntime) {
    let mut world = started(&rt, rt.alloc());
    share(&rt, rt.alloc(), &mut world);
    expect(
        &rt,
        "evicted",
        evict(&rt, rt.alloc(), &mut world, GuestNo::new(0), 0),
        Ok(Evicted::Done),
    );
    expect(&rt, "the other reads it", room(&world), (3, 1));
    let need = step(&rt, rt.alloc(), &mut world, GuestNo::new(0));
    expect(&rt, "it is away", need, Some((0, Why::Swapped)));
    expect(
        &rt,
        "again",
        evict(&rt, rt.alloc(), &mut world, GuestNo::new(0), 0),
        Ok(Evicted::Skipped),
    );
    expect(
        &rt,
        "evicted too",
        evict(&rt, rt.alloc(), &mut world, GuestNo::new(1), 0),
        Ok(Evicted::Done),
    );
    expect(&rt, "now it is free", room(&world), (4, 2));
    expect(
        &rt,
        "no page 3",
        evict(&rt, rt.alloc(), &mut world, GuestNo::new(1), 3),
        Ok(Evicted::Skipped),
    );
    let _store = world.close();
}

#[test]
fn a_page_comes_back_from_its_slot(rt: HostRuntime) {
    let mut world = started(&rt, rt.alloc());
    expect(
        &rt,
        "out",
        evict(&rt, rt.alloc(), &mut world, GuestNo::new(1), 0),
        Ok(Evicted::Done),
    );
    expect(
        &rt,
        "back",
        supply(&rt, rt.alloc(), &mut world, GuestNo::new(1), 0),
        Ok(()),
    );
    expect(&rt, "slot free", room(&world), (2, 0));
    expect(
        &rt,
        "the first word",
        step(&rt, rt.alloc(), &mut world, GuestNo::new(1)),
        None,
    );
    let need = step(&rt, rt.alloc(), &mut world, GuestNo::new(1));
    expect(&rt, "page 1", need, Some((1, Why::First)));
    expect(
        &rt,
        "supplied",
        supply(&rt, rt.alloc(), &mut world, GuestNo::new(1), 1),
        Ok(()),
    );
    expect(
        &rt,
        "loaded",
        step(&rt, rt.alloc(), &mut world, GuestNo::new(1)),
        None,
    );
    let _store = world.close();
}

#[test]
fn frames_and_slots_run_out(rt: HostRuntime) {
    let mut world = started(&rt, rt.alloc());
    expect(
        &rt,
        "one frame left",
        supply(&rt, rt.alloc(), &mut world, GuestNo::new(1), 1),
        Ok(()),
    );
    expect(
        &rt,
        "the last frame",
        supply(&rt, rt.alloc(), &mut world, GuestNo::new(0), 1),
        Ok(()),
    );
    let answer = supply(&rt, rt.alloc(), &mut world, GuestNo::new(0), 2);
    expect(&rt, "no frame", answer, Err(SupplyError::NoFrame));
    expect(
        &rt,
        "one slot",
        evict(&rt, rt.alloc(), &mut world, GuestNo::new(0), 0),
        Ok(Evicted::Done),
    );
    expect(
        &rt,
        "two slots",
        evict(&rt, rt.alloc(), &mut world, GuestNo::new(0), 1),
        Ok(Evicted::Done),
    );
    let answer = evict(&rt, rt.alloc(), &mut world, GuestNo::new(1), 0);
    expect(&rt, "no slot", answer, Err(EvictError::NoSwap));
    let answer = evict(&rt, rt.alloc(), &mut world, GuestNo::new(1), 2);
    expect(&rt, "in no frame", answer, Ok(Evicted::Skipped));
    let _store = world.close();
}

/// What the books count of a world of four frames and two slots: free frames, pages in frames of their own, and pages in slots.
fn counted(free: u64, private: u64, swapped: u64) -> BookCounts {
    BookCounts {
        frames: 4,
        free,
        private,
        shared: 0,
        references: 0,
        swapped,
        slots: 2,
    }
}

#[test]
fn an_image_page_that_finds_no_frame_lies_in_a_slot(rt: HostRuntime) {
    let mut world = booted(&rt, rt.alloc(), 2, 5);
    expect(
        &rt,
        "of guest 0",
        kind(&rt, &world, 0, 0),
        Some(PageKind::Private),
    );
    expect(
        &rt,
        "of guest 4",
        kind(&rt, &world, 4, 0),
        Some(PageKind::Swapped),
    );
    expect(&rt, "one in a slot", world.books(), counted(0, 4, 1));
    let need = step(&rt, rt.alloc(), &mut world, GuestNo::new(4));
    expect(&rt, "its page 0", need, Some((0, Why::Swapped)));
    expect(
        &rt,
        "guest 0 leaves",
        evict(&rt, rt.alloc(), &mut world, GuestNo::new(0), 0),
        Ok(Evicted::Done),
    );
    expect(&rt, "both away", world.books(), counted(1, 3, 2));
    expect(
        &rt,
        "guest 4 comes",
        supply(&rt, rt.alloc(), &mut world, GuestNo::new(4), 0),
        Ok(()),
    );
    expect(&rt, "one back", world.books(), counted(0, 4, 1));
    expect(
        &rt,
        "its bytes",
        step(&rt, rt.alloc(), &mut world, GuestNo::new(4)),
        None,
    );
    let need = step(&rt, rt.alloc(), &mut world, GuestNo::new(4));
    expect(&rt, "its second word", need, Some((1, Why::First)));
    let _store = world.close();
}

/// The last byte of slot 0 is inverted.
fn damage(rt: &impl Abort, world: &mut World<MemStore>) {
    if world.books().slots == 0 {
        panic!(rt; "no slot");
    }
    if world.damage(0, 4095).is_err() {
        panic!(rt; "no memory to damage slot 0");
    }
}

#[test]
fn a_damaged_page_does_not_come_back(rt: HostRuntime) {
    let mut world = booted(&rt, rt.alloc(), 2, 5);
    expect(
        &rt,
        "guest 0 leaves",
        evict(&rt, rt.alloc(), &mut world, GuestNo::new(0), 0),
        Ok(Evicted::Done),
    );
    damage(&rt, &mut world);
    let answer = supply(&rt, rt.alloc(), &mut world, GuestNo::new(4), 0);
    expect(&rt, "damaged", answer, Err(SupplyError::SwapDamaged));
    expect(&rt, "its frame is free again", room(&world), (1, 2));
    damage(&rt, &mut world);
    let answer = supply(&rt, rt.alloc(), &mut world, GuestNo::new(4), 0);
    expect(&rt, "the same byte again", answer, Ok(()));
    let _store = world.close();
}

/// One more event.
fn add(rt: &impl Abort, events: &mut Vec<Event>, event: Event)
    requires event { IsProper event }
    requires events { All IsProper events.old.items }
    ensures { All IsProper events.new.items }
{
    if events.push(event).is_err() {
        panic!(rt; "no memory for the events");
    }
}

/// A byte of input for a guest.
pub(crate) fn input(g: GuestNo, byte: u8) -> Event
    ensures { IsProper result }
{
    let item = Item {
        seat: SeatNo::runner(),
        what: What::In(byte),
    };
    Event::Input(g, item)
}

/// Steps of two guests and what they need, in turn.
fn in_turn(rt: &impl Abort, alloc: Global) -> Vec<Event>
    ensures { All IsProper result.items }
{
    let mut events = Vec::new(alloc);
    add(rt, &mut events, Event::Step(GuestNo::new(0)));
    add(rt, &mut events, input(GuestNo::new(1), 7));
    add(rt, &mut events, Event::Step(GuestNo::new(1)));
    add(rt, &mut events, Event::Scan(GuestNo::new(0), page(rt, 0)));
    add(rt, &mut events, Event::Step(GuestNo::new(0)));
    add(rt, &mut events, Event::Fault(GuestNo::new(0)));
    add(rt, &mut events, Event::Step(GuestNo::new(0)));
    add(rt, &mut events, Event::Step(GuestNo::new(2)));
    add(rt, &mut events, Event::Steps(GuestNo::new(1), 5));
    add(rt, &mut events, Event::Run(GuestNo::new(1), 2));
    add(rt, &mut events, Event::Run(GuestNo::new(0), 0));
    add(
        rt,
        &mut events,
        Event::Probe(GuestNo::new(1), 0x8000_2000, 8),
    );
    add(
        rt,
        &mut events,
        Event::Probe(GuestNo::new(1), 0xc000_0000, 8),
    );
    events
}

/// An answer in a word.
fn word(answer: &Answer) -> &'static str {
    match answer {
        Answer::Stepped(Ok(StepOut::Done)) => "done",
        Answer::Stepped(Ok(StepOut::Need(_, _))) => "need",
        Answer::Stepped(Err(_)) => "stop",
        Answer::Ran(
            Ran {
                steps: _,
                end: End::Done,
            },
        ) => "all made",
        Answer::Ran(_) => "not all made",
        Answer::Input(Ok(_)) => "accepted",
        Answer::Input(Err(_)) => "refused",
        Answer::Fed(_) => "fed",
        Answer::Probed(Ok(_)) => "read",
        Answer::Probed(Err(_)) => "not read",
        Answer::Written(Ok(())) => "written",
        Answer::Written(Err(_)) => "not written",
        Answer::Supplied(Ok(())) => "supplied",
        Answer::Supplied(Err(_)) => "not supplied",
        Answer::Faulted(Ok(())) => "there",
        Answer::Faulted(Err(_)) => "not there",
        Answer::Evicted(_) => "evicted",
        Answer::Scanned(_) => "scanned",
        Answer::Sampled => "sampled",
        Answer::Turned(_) => "turned",
        Answer::Blocked => "blocked",
        Answer::Nowhere => "nowhere",
    }
}

// The fourth frame is for page 1 of guest 1, whose store to page 2 then finds none: each guest has two resident pages.
static IN_TURN: [&'static str; 13] = [
    "done",
    "accepted",
    "done",
    "scanned",
    "need",
    "there",
    "done",
    "nowhere",
    "not all made",
    "not all made",
    "all made",
    "read",
    "not read",
];

pub(crate) fn log_len(rt: &impl Abort, world: &World<MemStore>, g: usize) -> u64 {
    if g >= world.count() {
        panic!(rt; "there is no guest {g}");
    }
    world.guest(g).guest().log().len()
}

#[test]
fn each_guest_has_its_own_items(rt: HostRuntime) {
    let mut world = started(&rt, rt.alloc());
    let events = in_turn(&rt, rt.alloc());
    let mut rng = Pcg32::new(42, 54);
    let Ok(answers) = world.run(rt.alloc(), events, TAX, &mut rng) else {
        panic!(&rt; "no memory for the answers");
    };
    expect(&rt, "thirteen answers", answers.len(), 13);
    for k in 0..answers.len().min(13) {
        expect(&rt, "answer", word(&answers[k]), IN_TURN[k]);
    }
    expect(&rt, "guest 0", log_len(&rt, &world, 0), 2);
    expect(&rt, "guest 1", log_len(&rt, &world, 1), 3);
    let _store = world.close();
}

/// What a fault is answered. The first words of this generator are a15c02b7, 7b47f409 and ba1d3330, as PCG's reference code has them.
fn fault(
    rt: &impl Abort,
    alloc: Global,
    world: &mut World<MemStore>,
    rng: &mut Pcg32,
    g: GuestNo,
) -> Result<(), FaultError> {
    match world.apply(alloc, Event::Fault(g), TAX, rng) {
        Answer::Faulted(answer) => answer,
        _ => panic!(rt; "no fault"),
    }
}

/// All four frames are out: three are guest 0's, one is guest 1's, whose next step loads from page 1.
fn filled(rt: &impl Abort, alloc: Global) -> World<MemStore> {
    let mut world = started(rt, alloc);
    expect(
        rt,
        "page 1",
        supply(rt, alloc, &mut world, GuestNo::new(0), 1),
        Ok(()),
    );
    expect(
        rt,
        "page 2",
        supply(rt, alloc, &mut world, GuestNo::new(0), 2),
        Ok(()),
    );
    expect(
        rt,
        "the first word",
        step(rt, alloc, &mut world, GuestNo::new(1)),
        None,
    );
    world
}

#[test]
fn a_fault_takes_a_frame_from_the_victim(rt: HostRuntime) {
    let mut rng = Pcg32::new(42, 54);
    let mut world = filled(&rt, rt.alloc());
    let answer = fault(&rt, rt.alloc(), &mut world, &mut rng, GuestNo::new(1));
    expect(&rt, "page 1 of guest 1", answer, Ok(()));
    // a15c02b7 is a multiple of 3
    expect(
        &rt,
        "page 0 of guest 0",
        kind(&rt, &world, 0, 0),
        Some(PageKind::Swapped),
    );
    expect(
        &rt,
        "guest 1 loads",
        step(&rt, rt.alloc(), &mut world, GuestNo::new(1)),
        None,
    );
    let answer = fault(&rt, rt.alloc(), &mut world, &mut rng, GuestNo::new(0));
    expect(&rt, "two pages each", answer, Err(FaultError::NoFrame));
    expect(&rt, "one slot", room(&world), (0, 1));
    let _store = world.close();
}
