//! Turns of the policy in worlds of two guests of 60 pages and equal shares, over 100 frames. Six of the frames are to stay free, so where
//! the guests fill 94 or more, each with at least 47, the targets are 47 pages each.
ghost use Rattle.std.specs.Prelude.{◌<◌};
ghost use Rattle.world.specs.Events.{IsProper};

use crate::event_tests::{TAX, expect};
use elf32::Image;
use guest::Stop;
use guest_number::GuestNo;
use guest_pages::PageKind;
use items::{Item, SeatNo, What};
use mips_cp0::Profile;
use rand_core::{Rng, SeedableRng};
use rand_pcg::Pcg32;
use reclaim::Level;
use std::alloc::Global;
use std::process::Abort;
use std::sync::Arc;
use swapstore::{FaultStore, MemStore, Op};
use tenant::{Aim, EvictError};
use word32::Ppn;
use world::{Answer, Config, Event, NewGuest, Turn, World};

/// How many pages each guest has.
const PAGES: usize = 60;

/// A number of a write that is never made.
const NEVER: u64 = 1_000_000;

type Worlds = World<FaultStore<MemStore>>;

/// A guest whose image is one page of zeros.
fn guest(rt: &impl Abort, alloc: Global) -> NewGuest {
    let mut bytes = Vec::new(alloc);
    if bytes.push(0).is_err() {
        panic!(rt; "no memory for the byte");
    }
    if bytes.len() > 4096 {
        panic!(rt; "too many bytes");
    }
    let Ok(image) = Image::raw(alloc, bytes) else {
        panic!(rt; "no memory for the image");
    };
    let Ok(image) = Arc::new(alloc, image) else {
        panic!(rt; "no memory for the image");
    };
    NewGuest {
        profile: Profile::One,
        image,
        pages: PAGES as u32,
        shares: 100,
        minimum: 2,
    }
}

/// Two guests with just page 0 in a frame, whose logs may have 16 runs, over this many slots, of which the k-th write fails.
fn booted(rt: &impl Abort, alloc: Global, slots: u32, k: u64) -> Worlds {
    let mut guests = Vec::new(alloc);
    for _ in 0..2 {
        if guests.push(guest(rt, alloc)).is_err() {
            panic!(rt; "no memory for the guests");
        }
    }
    let Ok(store) = MemStore::new(alloc, slots) else {
        panic!(rt; "no memory for the store");
    };
    let config = Config {
        frames: 100,
        log_runs: 16,
        admit: false,
    };
    match World::boot(
        alloc,
        config,
        guests,
        FaultStore::new(store, Op::Write, k.max(1)),
    ) {
        Ok(world) => world,
        Err((error, _store)) => panic!(rt; "no world: {error:?}"),
    }
}

/// What an event is answered for which no word is drawn, and which is proper.
fn supply(rt: &impl Abort, alloc: Global, world: &mut Worlds, g: GuestNo, p: usize) {
    if p >= PAGES {
        panic!(rt; "there is no page {p}");
    }
    let event = Event::Supply(g, Ppn::new(p as u32));
    match world.apply(alloc, event, TAX, &mut Pcg32::seed_from_u64(1)) {
        Answer::Supplied(Ok(())) => {}
        _ => panic!(rt; "page {p} of guest {g:?} gets no frame"),
    }
}

/// The first pages of both guests get frames, this many of each.
fn fill(rt: &impl Abort, alloc: Global, world: &mut Worlds, counts: [usize; 2]) {
    for g in 0..2 {
        for p in 0..counts[g] {
            supply(rt, alloc, world, GuestNo::new(g as u32), p);
        }
    }
}

/// Two guests with this many of their first pages in frames.
fn filled(rt: &impl Abort, alloc: Global, slots: u32, k: u64, counts: [usize; 2]) -> Worlds {
    let mut world = booted(rt, alloc, slots, k);
    fill(rt, alloc, &mut world, counts);
    world
}

/// A turn of the policy.
fn turn(rt: &impl Abort, alloc: Global, world: &mut Worlds, rng: &mut Pcg32) -> Turn {
    match world.apply(alloc, Event::Level, TAX, rng) {
        Answer::Turned(Ok(turn)) => turn,
        _ => panic!(rt; "no turn"),
    }
}

/// How many pages of the guests are in frames.
fn residents(rt: &impl Abort, world: &Worlds) -> (u32, u32) {
    if world.count() != 2 {
        panic!(rt; "not two guests");
    }
    (world.guest(0).resident(), world.guest(1).resident())
}

/// Whether the guests are blocked.
fn blocked(rt: &impl Abort, world: &Worlds) -> (bool, bool) {
    if world.count() != 2 {
        panic!(rt; "not two guests");
    }
    (world.guest(0).is_blocked(), world.guest(1).is_blocked())
}

/// Checks a turn: its level, what became of the balloon targets, why it ended early, and how many pages are in frames after it.
fn check(
    rt: &impl Abort,
    alloc: Global,
    world: &mut Worlds,
    level: Level,
    aims: [Aim; 2],
    refused: Option<EvictError>,
    after: (u32, u32),
) {
    let made = turn(rt, alloc, world, &mut Pcg32::seed_from_u64(7));
    expect(rt, "the level", made.level, level);
    expect(rt, "the world's level", world.level(), level);
    assert!(rt;
        made.aims.as_slice() == aims.as_slice(),
        "targets: {:?}",
        made.aims
    );
    expect(rt, "the end", made.refused, refused);
    expect(rt, "resident pages", residents(rt, world), after);
}

/// A turn of the policy: the page of guest 0 that gets a frame before it, its level, what becomes of the target of guest 0's balloon, and
/// how many pages of the guests are in frames after it.
type Row = (Option<usize>, Level, Aim, (u32, u32));

/// Turns of guests of which 49 and 47 pages are in frames at first.
static TURNS: [Row; 6] = [
    // 4 of 100 are free
    (None, Level::High, Aim::Kept, (49, 47)),
    (Some(49), Level::Soft, Aim::Set(3), (50, 47)),
    // the same target once more makes no item
    (None, Level::Soft, Aim::Kept, (50, 47)),
    (Some(50), Level::Soft, Aim::Set(4), (51, 47)),
    // one is free: five pages are swapped out, and balloons stay
    (Some(51), Level::Hard, Aim::Kept, (47, 47)),
    (None, Level::High, Aim::Set(0), (47, 47)),
];

/// Checks the turn of a row, by which nothing is refused and the target of guest 1's balloon stays.
fn check_row(rt: &impl Abort, alloc: Global, world: &mut Worlds, row: Row) {
    let (supplied, level, aim, after) = row;
    if let Some(page) = supplied {
        supply(rt, alloc, world, GuestNo::new(0), page);
    }
    check(rt, alloc, world, level, [aim, Aim::Kept], None, after);
}

#[test]
fn balloons_inflate_and_deflate(rt: HostRuntime) {
    let alloc = rt.alloc();
    let mut world = filled(&rt, alloc, 20, NEVER, [49, 47]);
    for row in &TURNS {
        check_row(&rt, alloc, &mut world, *row);
    }
    expect(&rt, "slots", world.slots_used(), 5);
    let _store = world.close();
}

/// Steps that a guest is asked for.
#[derive(Clone, Copy)]
enum Asked {
    Step,
    Steps(u32),
    Run(u32),
}

/// The event of a guest's steps.
fn event_of(asked: Asked, g: GuestNo) -> Event
    ensures { IsProper result }
{
    match asked {
        Asked::Step => Event::Step(g),
        Asked::Steps(count) => Event::Steps(g, count),
        Asked::Run(count) => Event::Run(g, count),
    }
}

/// What steps of a guest are answered.
fn answer_of(alloc: Global, world: &mut Worlds, asked: Asked, g: GuestNo) -> &'static str {
    match world.apply(alloc, event_of(asked, g), TAX, &mut Pcg32::seed_from_u64(1)) {
        Answer::Blocked => "blocked",
        Answer::Stepped(_) => "stepped",
        Answer::Ran(_) => "ran",
        _ => "neither",
    }
}

/// Steps, whose they are, and what they are answered while guest 0 is blocked.
static BLOCKED: [(Asked, u32, &str); 5] = [
    (Asked::Step, 0, "blocked"),
    (Asked::Steps(0), 0, "blocked"),
    (Asked::Run(5), 0, "blocked"),
    (Asked::Step, 1, "stepped"),
    (Asked::Steps(0), 1, "ran"),
];

/// The same while nobody is.
static GOING: [(Asked, u32, &str); 3] = [
    (Asked::Step, 0, "stepped"),
    (Asked::Steps(0), 0, "ran"),
    (Asked::Step, 1, "stepped"),
];

/// Checks what steps are answered.
fn check_answers(
    rt: &impl Abort,
    alloc: Global,
    world: &mut Worlds,
    rows: &[(Asked, u32, &'static str)],
) {
    for (asked, g, wanted) in rows {
        expect(
            rt,
            "steps",
            answer_of(alloc, world, *asked, GuestNo::new(*g)),
            *wanted,
        );
    }
}

#[test]
fn a_guest_above_its_target_is_blocked_at_low(rt: HostRuntime) {
    let alloc = rt.alloc();
    let mut world = filled(&rt, alloc, 20, NEVER, [53, 47]);
    expect(&rt, "nobody yet", blocked(&rt, &world), (false, false));
    let low = (None, Level::Low, Aim::Kept, (47, 47));
    check_row(&rt, alloc, &mut world, low);
    expect(&rt, "guest 0", blocked(&rt, &world), (true, false));
    check_answers(&rt, alloc, &mut world, &BLOCKED);
    // six are free
    let high = (None, Level::High, Aim::Kept, (47, 47));
    check_row(&rt, alloc, &mut world, high);
    expect(&rt, "nobody", blocked(&rt, &world), (false, false));
    check_answers(&rt, alloc, &mut world, &GOING);
    let _store = world.close();
}

#[test]
fn swapping_out_ends_where_a_page_stays(rt: HostRuntime) {
    let alloc = rt.alloc();
    for k in 0..6 {
        let mut world = filled(&rt, alloc, 20, k + 1, [53, 47]);
        let left = 53 - k as u32;
        let why = Some(EvictError::SwapWrite);
        check(
            &rt,
            alloc,
            &mut world,
            Level::Low,
            [Aim::Kept, Aim::Kept],
            why,
            (left, 47),
        );
        expect(&rt, "blocked", blocked(&rt, &world), (true, false));
        let _store = world.close();
    }
    for slots in 0..6 {
        let mut world = filled(&rt, alloc, slots, NEVER, [53, 47]);
        let left = 53 - slots;
        let why = Some(EvictError::NoSwap);
        check(
            &rt,
            alloc,
            &mut world,
            Level::Low,
            [Aim::Kept, Aim::Kept],
            why,
            (left, 47),
        );
        let _store = world.close();
    }
}

#[test]
fn guests_lose_pages_one_after_another(rt: HostRuntime) {
    let alloc = rt.alloc();
    // three of each leave; of four slots, guest 0's pages take three
    let mut world = filled(&rt, alloc, 4, NEVER, [50, 50]);
    let why = Some(EvictError::NoSwap);
    check(
        &rt,
        alloc,
        &mut world,
        Level::Low,
        [Aim::Kept, Aim::Kept],
        why,
        (47, 49),
    );
    expect(&rt, "both", blocked(&rt, &world), (true, true));
    let _store = world.close();
}

/// What happens to guest 0.
fn happen(alloc: Global, world: &mut Worlds, event: Event)
    requires { IsProper event }
{
    let _answer = world.apply(alloc, event, TAX, &mut Pcg32::seed_from_u64(1));
}

/// The log of guest 0 has its 16 runs: an item differs from the one before it each time.
fn fill_log(alloc: Global, world: &mut Worlds) {
    for _ in 0..8 {
        let seat = SeatNo::new(1);
        let what = What::Drain;
        happen(
            alloc,
            world,
            Event::Input(GuestNo::new(0), Item { seat, what }),
        );
        let what = What::Target(5);
        happen(
            alloc,
            world,
            Event::Input(GuestNo::new(0), Item { seat, what }),
        );
    }
}

/// The target of guest 0's balloon.
fn target(rt: &impl Abort, world: &Worlds) -> u32 {
    if world.count() != 2 {
        panic!(rt; "not two guests");
    }
    world.guest(0).guest().view().devices.target()
}

#[test]
fn a_guest_whose_log_is_full_is_left_out(rt: HostRuntime) {
    let alloc = rt.alloc();
    let mut world = filled(&rt, alloc, 20, NEVER, [50, 47]);
    fill_log(alloc, &mut world);
    let made = turn(&rt, alloc, &mut world, &mut Pcg32::seed_from_u64(7));
    expect(&rt, "the level", made.level, Level::Soft);
    expect(&rt, "left out", made.left_out(), 1);
    if made.aims.len() != 2 {
        panic!(&rt; "not two guests");
    }
    expect(&rt, "guest 0", made.aims[0], Aim::LeftOut(Stop::LogFull));
    expect(&rt, "guest 1", made.aims[1], Aim::Kept);
    expect(&rt, "its target", target(&rt, &world), 5);
    let _store = world.close();
}

/// Which pages of guest 0 are in frames, as a place in `resident` for each.
fn in_frames(rt: &impl Abort, world: &Worlds) -> [bool; PAGES] {
    if world.count() != 2 {
        panic!(rt; "not two guests");
    }
    let mut resident = [false; PAGES];
    for p in 0..PAGES {
        resident[p] = world.kind(0, Ppn::new(p as u32)) == Some(PageKind::Private);
    }
    resident
}

/// The first page at or after one that is in a frame, going round.
fn next_resident(resident: &[bool; PAGES], start: usize) -> usize
    ensures { result < 60 }
{
    for k in 0..PAGES {
        let p = (start % PAGES + k) % PAGES;
        if resident[p] {
            return p;
        }
    }
    0
}

#[test]
fn pages_are_drawn_by_the_words_of_the_generator(rt: HostRuntime) {
    let alloc = rt.alloc();
    for seed in 0..20 {
        let mut world = filled(&rt, alloc, 20, NEVER, [53, 47]);
        let mut rng = Pcg32::seed_from_u64(seed);
        let mut twin = Pcg32::seed_from_u64(seed);
        let mut wanted = in_frames(&rt, &world);
        for _ in 0..6 {
            let word = twin.next_u32() as usize;
            let p = next_resident(&wanted, word % PAGES);
            wanted[p] = false;
        }
        let made = turn(&rt, alloc, &mut world, &mut rng);
        expect(&rt, "the level", made.level, Level::Low);
        let found = in_frames(&rt, &world);
        assert!(&rt; found == wanted, "seed {seed}");
        expect(&rt, "no word more", rng.next_u32(), twin.next_u32());
        let _store = world.close();
    }
}
