//! Thousands of random events over four guests. After each the books add up, and in the end the log of each guest replays on the table
//! machine to the state that it is in.
ghost use Rattle.std.specs.Prelude.{◌<◌};
ghost use Rattle.world.specs.Events.{IsProper};

use dump::{dump, steps_in};
use elf32::Image;
use flatvm::Flat;
use guest_log::Log;
use guest_number::GuestNo;
use items::{DebugRegister, Entry, Item, SeatNo, What};
use mips_cp0::Profile;
use rand_core::{Rng, SeedableRng};
use rand_pcg::Pcg32;
use std::alloc::Global;
use std::process::Abort;
use std::sync::Arc;
use swapstore::MemStore;
use taxpolicy::Tax;
use word32::Ppn;
use world::{Config, Event, NewGuest, World};

const GUESTS: u32 = 4;

/// How many pages each guest has.
const PAGES: u32 = 8;

/// Counts in register 2, stores the count to each of eight pages in turn and loads beside it, passes a byte of the console's input on to
/// its output, and gives page 5.
static WORDS: [u32; 15] = [
    0x3c01_8000, // lui $1,0x8000
    0x2442_0001, // addiu $2,$2,1
    0x3043_0007, // andi $3,$2,7
    0x0003_1b00, // sll $3,$3,12
    0x0061_1821, // addu $3,$3,$1
    0xac62_0100, // sw $2,256($3)
    0x8c64_0200, // lw $4,512($3)
    0x00a4_2821, // addu $5,$5,$4
    0x3c06_bf00, // lui $6,0xbf00
    0x8cc7_0004, // lw $7,4($6)
    0xacc7_0008, // sw $7,8($6)
    0x2408_0005, // addiu $8,$0,5
    0xacc8_0018, // sw $8,24($6)
    0x1000_fff3, // beq $0,$0,0x80000004
    0x0000_0000, // sll $0,$0,0
];

fn image(rt: &impl Abort, alloc: Global) -> Arc<Image, Global> {
    let mut bytes = Vec::new(alloc);
    for word in &WORDS {
        if bytes.extend_from_slice(&word.to_le_bytes()).is_err() {
            panic!(rt; "no memory for the words");
        }
    }
    if bytes.len() > 4096 {
        panic!(rt; "too many words");
    }
    let Ok(image) = Image::raw(alloc, bytes) else {
        panic!(rt; "no memory for the image");
    };
    match Arc::new(alloc, image) {
        Ok(image) => image,
        Err(_) => panic!(rt; "no memory for the image"),
    }
}

/// The world of four guests on 12 frames and 24 slots, of which only one page of each has a frame.
fn booted(rt: &impl Abort, alloc: Global) -> World<MemStore> {
    let mut guests = Vec::new(alloc);
    for g in 0..GUESTS {
        let guest = NewGuest {
            profile: Profile::One,
            image: image(rt, alloc),
            pages: PAGES,
            shares: 100 + g,
            minimum: 2,
        };
        if guests.push(guest).is_err() {
            panic!(rt; "no memory for the guests");
        }
    }
    let Ok(store) = MemStore::new(alloc, 24) else {
        panic!(rt; "no memory for the store");
    };
    let config = Config {
        frames: 12,
        log_runs: 1 << 20,
        admit: false,
    };
    match World::boot(alloc, config, guests, store) {
        Ok(world) => world,
        Err((error, _store)) => panic!(rt; "no world: {error:?}"),
    }
}

/// A number below another.
fn below(dice: &mut Pcg32, limit: u32) -> u32
    requires { 0 < limit }
    ensures { result < limit }
{
    dice.next_u32() % limit
}

/// An address in the guest's memory or in the page behind it.
fn address(dice: &mut Pcg32) -> u32 {
    0x8000_0000 + below(dice, (PAGES + 1) * 4096)
}

fn bytes(rt: &impl Abort, alloc: Global, dice: &mut Pcg32, count: u32) -> Vec<u8> {
    let mut bytes = Vec::new(alloc);
    for _ in 0..count {
        if bytes.push(below(dice, 256) as u8).is_err() {
            panic!(rt; "no memory for bytes");
        }
    }
    bytes
}

/// An item of one of the seats.
fn item(dice: &mut Pcg32, g: GuestNo) -> Event
    ensures { IsProper result }
{
    let (seat, what) = match below(dice, 4) {
        0 => (0, What::In(below(dice, 256) as u8)),
        1 => (1, What::Drain),
        2 => (2, What::Target(below(dice, PAGES + 1))),
        _ => (
            3,
            What::Poke {
                register: DebugRegister::new(below(dice, 32) as u8),
                value: dice.next_u32(),
            },
        ),
    };
    Event::Input(
        g,
        Item {
            seat: SeatNo::new(seat),
            what,
        },
    )
}

/// What happens to a page.
fn page_event(dice: &mut Pcg32, g: GuestNo) -> Event
    ensures { IsProper result }
{
    let p = Ppn::new(below(dice, PAGES + 1));
    match below(dice, 3) {
        0 => Event::Supply(g, p),
        1 => Event::Evict(g, p),
        _ => Event::Scan(g, p),
    }
}

/// What a debugger does to memory.
fn memory_event(rt: &impl Abort, alloc: Global, dice: &mut Pcg32, g: GuestNo) -> Event
    ensures { IsProper result }
{
    let at = address(dice);
    if below(dice, 2) == 0 {
        return Event::Probe(g, at, 1 + below(dice, 1024));
    }
    let count = 1 + below(dice, 16);
    let bytes = bytes(rt, alloc, dice, count);
    if bytes.is_empty() || bytes.len() > 1024 {
        panic!(rt; "{} bytes", bytes.len());
    }
    Event::Write(g, at, bytes)
}

fn event(rt: &impl Abort, alloc: Global, dice: &mut Pcg32) -> Event
    ensures { IsProper result }
{
    let g = GuestNo::new(below(dice, GUESTS));
    match below(dice, 8) {
        0 => Event::Steps(g, below(dice, 20)),
        1 => Event::Run(g, below(dice, 40)),
        2 => Event::Fault(g),
        3 => memory_event(rt, alloc, dice, g),
        4 | 5 => page_event(dice, g),
        _ => item(dice, g),
    }
}

/// The books add up.
fn check_books(rt: &impl Abort, world: &World<MemStore>) {
    let books = world.books();
    let frames = books.free.checked_add(books.private);
    assert!(rt;
        frames.and_then(|sum| sum.checked_add(books.shared)) == Some(12),
        "{books:?}"
    );
    assert!(rt; books.swapped == u64::from(world.slots_used()), "{books:?}");
}

/// What a log says happens to the reference machine.
fn replay(rt: &impl Abort, flat: &mut Flat, log: &Log) {
    for entry in log.entries() {
        replay_entry(rt, flat, entry);
    }
    if let Some(entry) = log.last_steps() {
        replay_entry(rt, flat, &entry);
    }
}

fn replay_entry(rt: &impl Abort, flat: &mut Flat, entry: &Entry) {
    match entry {
        Entry::Steps { seat: _, count } => {
            for _ in 0..*count {
                flat.step();
            }
        }
        Entry::One(item) => match flat.input(&item.what) {
            Ok(reply) => drop(reply),
            Err(_) => panic!(rt; "the reference machine refuses an item"),
        },
    }
}

/// The guest is in the state that the reference machine is in after its log.
fn compare(rt: &impl Abort, alloc: Global, world: &World<MemStore>, g: usize) {
    if g >= world.count() {
        panic!(rt; "there is no guest {g}");
    }
    let guest = world.guest(g).guest();
    let image = image(rt, alloc);
    if !image.fits(PAGES) {
        panic!(rt; "the image has no room");
    }
    let Ok(mut flat) = Flat::boot(alloc, Profile::One, &image, PAGES) else {
        panic!(rt; "no memory for the reference machine");
    };
    replay(rt, &mut flat, guest.log());
    let steps = steps_in(guest.log());
    let (Ok(wanted), Ok(got)) = (
        dump(alloc, flat.view(), steps, None),
        dump(alloc, guest.view(), steps, None),
    ) else {
        panic!(rt; "no memory for the dumps");
    };
    assert!(rt; got == wanted, "guest {g}: {got} but {wanted}");
}

/// A thousand random events of a seed, and how many steps they make.
fn play(rt: &impl Abort, alloc: Global, seed: u64) {
    let mut world = booted(rt, alloc);
    let mut dice = Pcg32::seed_from_u64(seed);
    let mut rng = Pcg32::seed_from_u64(seed);
    for _ in 0..1000 {
        let event = event(rt, alloc, &mut dice);
        drop(world.apply(alloc, event, Tax { percent: 75 }, &mut rng));
        check_books(rt, &world);
    }
    for g in 0..GUESTS as usize {
        compare(rt, alloc, &world, g);
    }
    drop(world.close());
}

#[test]
fn seed_1(rt: HostRuntime) {
    play(&rt, rt.alloc(), 1);
}

#[test]
fn seed_2(rt: HostRuntime) {
    play(&rt, rt.alloc(), 2);
}

#[test]
fn seed_3(rt: HostRuntime) {
    play(&rt, rt.alloc(), 3);
}

#[test]
fn seed_4(rt: HostRuntime) {
    play(&rt, rt.alloc(), 4);
}
