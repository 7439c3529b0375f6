//! The calls of a world of one guest: its steps, its log and its seats, and reads of its memory.
ghost use Rattle.std.specs.Prelude.{◌<◌};

use super::code::Code;
use super::code::Code::*;
use super::expect;
use super::run::{LOG_RUNS, TAX, boot_world, guest_of, make_steps, raw_image, run_steps};
use guest::{Guest, Refused};
use guest_log::{Log, Stop};
use items::{Item, SeatNo, What};
use mips_cp0::Profile;
use mips_instr::Reg;
use rand_pcg::Pcg32;
use std::process::Abort;
use std::test::Fail;
use swapstore::MemStore;
use world::{DebugError, End, Ran, RunStop, World};

const COUNTING: [Code; 4] = [
    Word(0x2421_0001), // addiu $1,$1,1
    Word(0x2421_0001),
    Word(0x2421_0001),
    Word(0x0020_0000), // a word of no row
];

/// A world of one guest with 2 pages that has booted this code.
fn booted<R: AllocGlobal + Abort>(rt: &R, code: &[Code]) -> Result<World<MemStore>, Fail> {
    let image = raw_image(rt, "boot", code)?;
    boot_world(rt, "boot", Profile::Two, image, 2)
}

/// Checks PC and register 1, and how many steps were made by seat 0, in how many runs.
fn check_steps(rt: &impl Abort, guest: &Guest, (pc, count): (u32, u32), (steps, runs): (u64, u32)) {
    let cpu = guest.view().cpu;
    let log = guest.log();
    expect(
        rt,
        ("after steps", steps),
        (
            (cpu.pc(), cpu.reg(Reg::new(1))),
            (log.len(), log.is_empty(), log.runs()),
        ),
        ((pc, count), (steps, steps == 0, runs)),
    );
}

/// Checks the guest at boot, after three steps, and after a fourth that is an exception.
fn check_exception<R: AllocGlobal + Abort>(rt: &R, world: &mut World<MemStore>) {
    check_steps(rt, guest_of(rt, world), (0x8000_0000, 0), (0, 0));
    make_steps(rt, world, 3);
    check_steps(rt, guest_of(rt, world), (0x8000_000c, 3), (3, 1));
    make_steps(rt, world, 1);
    world.is_sound();
    check_steps(rt, guest_of(rt, world), (0x8000_0180, 3), (4, 1));
}

#[test]
fn a_guest_steps_into_an_exception(rt: HostRuntime) -> Result<(), Fail> {
    let mut world = booted(&rt, &COUNTING)?;
    check_exception(&rt, &mut world);
    let _store = world.close();
    Ok(())
}

/// The console's input becomes a byte more, and a step is made: two runs of the log.
fn type_and_step<R: AllocGlobal + Abort>(rt: &R, world: &mut World<MemStore>) {
    if world.count() == 0 {
        panic!(rt; "there is no guest");
    }
    let item = Item {
        seat: SeatNo::runner(),
        what: What::In(7),
    };
    assert!(rt; world.input(0, item).is_ok());
    make_steps(rt, world, 1);
}

/// A step of a guest whose log is full.
fn check_full<R: AllocGlobal + Abort>(rt: &R, world: &mut World<MemStore>) {
    let end = End::Stop(RunStop::LogFull);
    expect(
        rt,
        "at last",
        run_steps(rt, world, 1),
        Ran { steps: 0, end },
    );
    let runs = guest_of(rt, world).log().runs();
    expect(rt, "runs", runs, LOG_RUNS);
}

#[test]
fn a_guest_stops_where_its_log_is_full(rt: HostRuntime) -> Result<(), Fail> {
    let mut world = booted(&rt, &COUNTING)?;
    for _ in 0..LOG_RUNS / 2 {
        type_and_step(&rt, &mut world);
    }
    check_full(&rt, &mut world);
    let _store = world.close();
    Ok(())
}

/// Seats, how many steps there are once each has made its one, and in how many runs.
static ONE_STEP_EACH: [(u8, u64, u32); 7] = [
    (1, 1, 1),
    (1, 2, 1),
    (0, 3, 2),
    (0, 4, 2),
    (3, 5, 3),
    (3, 6, 3),
    (1, 7, 4),
];

/// Adds a step of a seat, and checks how many steps there are, and in how many runs.
fn check_step(rt: &impl Abort, log: &mut Log, seat: u8, len: u64, runs: u32)
    requires { seat < 4 }
{
    assert!(rt; log.make_room().is_ok(), "item {len}");
    log.step(SeatNo::new(seat));
    expect(
        rt,
        ("after item", len),
        (log.len(), log.runs()),
        (len, runs),
    );
}

fn check_one_step_each(rt: &impl Abort, log: &mut Log) {
    for (seat, len, runs) in &ONE_STEP_EACH {
        check_step(rt, log, *seat % 4, *len, *runs);
    }
}

#[test]
fn neighbouring_steps_of_one_seat_are_one_run(rt: HostRuntime) {
    let mut log = Log::new(rt.alloc(), 4);
    expect(&rt, "at first", (log.len(), log.runs()), (0, 0));
    check_one_step_each(&rt, &mut log);
    expect(&rt, "at last", log.make_room(), Err(Stop::LogFull));
}

/// It stores to the last word of two pages, maps fffff000 to physical address 1000 and 0 to 0, and then enters user mode.
const MAPPING: [Code; 18] = [
    Word(0x3c02_8000), // lui $2,0x8000
    Word(0x3c01_7654), // lui $1,0x7654
    Word(0x3421_3210), // ori $1,$1,0x3210
    Word(0xac41_1ffc), // sw $1,0x1ffc($2)
    Word(0x2401_e000), // addiu $1,$0,0xe000
    Word(0x4081_5000), // mtc0 $1,EntryHi: ffffe000
    Word(0x2401_0042), // addiu $1,$0,0x42: frame 1, valid
    Word(0x4081_1800), // mtc0 $1,EntryLo1
    Word(0x4200_0002), // tlbwi, of entry 0
    Word(0x2401_0001), // addiu $1,$0,1
    Word(0x4081_0000), // mtc0 $1,Index
    Word(0x4080_5000), // mtc0 $0,EntryHi
    Word(0x2401_0002), // addiu $1,$0,2: frame 0, valid
    Word(0x4081_1000), // mtc0 $1,EntryLo0
    Word(0x4080_1800), // mtc0 $0,EntryLo1
    Word(0x4200_0002), // tlbwi, of entry 1
    Word(0x2401_0010), // addiu $1,$0,0x10: UM
    Word(0x4081_6000), // mtc0 $1,Status
];

/// Reads as the machine boots, and what they give. The buffer has as many bytes.
static GIVEN_AT_BOOT: [(u32, &[u8]); 8] = [
    // the image's words, the lowest byte first
    (
        0x8000_0000,
        &[0x00, 0x80, 0x02, 0x3c, 0x54, 0x76, 0x01, 0x3c],
    ),
    (0x8000_0003, &[0x3c, 0x54, 0x76]),
    (0xa000_0004, &[0x54]),
    // the last bytes of memory
    (0x8000_1ffd, &[0, 0, 0]),
    // no byte has its place anywhere
    (0x0000_0000, &[]),
    (0x8000_2000, &[]),
    (0xc000_0000, &[]),
    (0xffff_ffff, &[]),
];

/// Reads of so many bytes that are refused as the machine boots.
static REFUSED_AT_BOOT: [(u32, usize); 6] = [
    // past the end of memory, and across it
    (0x8000_2000, 1),
    (0x8000_1ffe, 3),
    (0xa000_1fff, 2),
    // the first byte alone has no place: there is no valid entry for kuseg, and kseg0 is longer than memory
    (0x7fff_ffff, 2),
    (0x9fff_ffff, 2),
    // from the last address to the first: no valid entry is for either page
    (0xffff_ffff, 2),
];

static GIVEN_WHERE_MAPPED: [(u32, &[u8]); 4] = [
    // kseg0, which user mode may not reach itself
    (0x8000_0000, &[0x00, 0x80, 0x02, 0x3c]),
    (0x8000_1ffc, &[0x10, 0x32, 0x54, 0x76]),
    (0xffff_fffc, &[0x10, 0x32, 0x54, 0x76]),
    // from the last address to the first
    (0xffff_fffe, &[0x54, 0x76, 0x00, 0x80, 0x02]),
];

static REFUSED_WHERE_MAPPED: [(u32, usize); 3] = [
    // from a page that is not valid, and into one
    (0xffff_efff, 2),
    (0x0000_0fff, 2),
    (0xffff_ffff, 0x1002),
];

/// Checks the answer of a read and what its buffer has then. It had the bytes a5.
fn check_read<R: AllocGlobal + Abort>(
    rt: &R,
    guest: &Guest,
    address: u32,
    answer: Result<(), Refused>,
    bytes: &[u8],
) -> Result<(), Fail> {
    let mut buffer = vec![in rt.alloc(); 0xa5; bytes.len()]?;
    let found = guest.debug_read(address, &mut buffer);
    expect(rt, address, (found, buffer.as_slice()), (answer, bytes));
    Ok(())
}

/// The same by the world's own call, where there is at least 1 byte, and there are at most 1,024.
fn check_world_read<R: AllocGlobal + Abort>(
    rt: &R,
    world: &mut World<MemStore>,
    address: u32,
    answer: Result<(), DebugError>,
    bytes: &[u8],
) -> Result<(), Fail> {
    if world.count() == 0 || bytes.is_empty() || bytes.len() > 1024 {
        return Ok(());
    }
    let mut buffer = vec![in rt.alloc(); 0xa5; bytes.len()]?;
    let mut rng = Pcg32::new(42, 54);
    let found = world.debug_read(rt.alloc(), 0, address, &mut buffer, TAX, &mut rng);
    expect(rt, address, (found, buffer.as_slice()), (answer, bytes));
    Ok(())
}

fn check_given<R: AllocGlobal + Abort>(
    rt: &R,
    world: &mut World<MemStore>,
    reads: &[(u32, &[u8])],
) -> Result<(), Fail> {
    for (address, bytes) in reads {
        check_read(rt, guest_of(rt, world), *address, Ok(()), *bytes)?;
        check_world_read(rt, world, *address, Ok(()), *bytes)?;
    }
    Ok(())
}

fn check_refused<R: AllocGlobal + Abort>(
    rt: &R,
    world: &mut World<MemStore>,
    reads: &[(u32, usize)],
) -> Result<(), Fail> {
    for (address, count) in reads {
        let unread = vec![in rt.alloc(); 0xa5; *count]?;
        let refused = Err(Refused::Machine);
        check_read(rt, guest_of(rt, world), *address, refused, &unread)?;
        let no_place = Err(DebugError::NoPlace);
        check_world_read(rt, world, *address, no_place, &unread)?;
    }
    Ok(())
}

fn check_at_boot<R: AllocGlobal + Abort>(rt: &R, world: &mut World<MemStore>) -> Result<(), Fail> {
    check_given(rt, world, &GIVEN_AT_BOOT)?;
    check_refused(rt, world, &REFUSED_AT_BOOT)
}

#[test]
fn a_guest_gives_its_bytes_at_boot(rt: HostRuntime) -> Result<(), Fail> {
    let mut world = booted(&rt, &MAPPING)?;
    let checked = check_at_boot(&rt, &mut world);
    let _store = world.close();
    checked
}

fn check_where_mapped<R: AllocGlobal + Abort>(
    rt: &R,
    world: &mut World<MemStore>,
) -> Result<(), Fail> {
    let is_user_mode = guest_of(rt, world).view().cpu.cp0().is_user_mode();
    expect(rt, "user mode", is_user_mode, true);
    check_given(rt, world, &GIVEN_WHERE_MAPPED)?;
    check_refused(rt, world, &REFUSED_WHERE_MAPPED)
}

#[test]
fn a_guest_gives_its_bytes_where_mapped(rt: HostRuntime) -> Result<(), Fail> {
    let mut world = booted(&rt, &MAPPING)?;
    make_steps(&rt, &mut world, MAPPING.len());
    let checked = check_where_mapped(&rt, &mut world);
    let _store = world.close();
    checked
}
