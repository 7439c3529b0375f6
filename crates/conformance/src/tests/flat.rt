//! The reference machine's own calls: images of one and of two segments, and its replies.
use super::code::Code;
use super::code::Code::*;
use super::expect;
use super::run::{boot_table_machine, raw_image, state_of, step_table_machine};
use elf32::{Image, Segment};
use flatvm::Flat;
use items::{Item, SeatNo, What};
use mips_cp0::Profile;
use mips_instr::Reg;
use std::alloc::{AllocError, Global};
use std::process::Abort;
use std::test::Fail;

/// `lui $2,0x8000`, `lw $1,0x1000($2)`, `lw $3,0x1004($2)`, and then a word of no row.
static CODE: [u8; 16] = [
    0x00, 0x80, 0x02, 0x3c, 0x00, 0x10, 0x41, 0x8c, 0x04, 0x10, 0x43, 0x8c, 0x00, 0x00, 0x20, 0x00,
];

static DATA: [u8; 4] = [0xef, 0xbe, 0xad, 0xde];

fn segment(alloc: Global, address: u32, bytes: &[u8], size: u32) -> Result<Segment, AllocError> {
    Ok(Segment {
        address,
        bytes: bytes.to_vec(alloc)?,
        size,
    })
}

/// The data, and then the code.
fn two_segments(alloc: Global) -> Result<Vec<Segment>, AllocError> {
    let mut segments = Vec::new(alloc);
    segments.push(segment(alloc, 0x8000_1000, &DATA, 0x1000)?)?;
    segments.push(segment(alloc, 0x8000_0000, &CODE, 16)?)?;
    Ok(segments)
}

/// Three steps, and then one of a word of no row.
fn check_two_segments(rt: &impl Abort, flat: &mut Flat) {
    step_table_machine(flat, 3);
    let cpu = flat.view().cpu;
    expect(
        rt,
        "registers 1 and 3",
        (cpu.reg(Reg::new(1)), cpu.reg(Reg::new(3))),
        (0xdead_beef, 0),
    );
    let state = state_of(cpu);
    expect(
        rt,
        "after the loads",
        state,
        (0x8000_000c, [0, 0], [0, 0, 0, 0]),
    );
    flat.step();
    let state = state_of(flat.view().cpu);
    let system = [2, 10 << 2, 0x8000_000c, 0];
    expect(rt, "a word of no row", state, (0x8000_0180, [0, 0], system));
}

#[test]
fn an_image_of_two_segments_runs(rt: HostRuntime) -> Result<(), Fail> {
    let image = Image {
        entry: 0x8000_0000,
        segments: two_segments(rt.alloc())?,
    };
    expect(&rt, "pages", [image.fits(1), image.fits(2)], [false, true]);
    let mut flat = boot_table_machine(&rt, "two segments", Profile::One, &image, 2)?;
    check_two_segments(&rt, &mut flat);
    Ok(())
}

#[test]
fn an_image_without_segments_is_zeros(rt: HostRuntime) -> Result<(), Fail> {
    let image = Image {
        entry: 0x8000_1ffc,
        segments: Vec::new(rt.alloc()),
    };
    let mut flat = boot_table_machine(&rt, "no segments", Profile::One, &image, 2)?;
    // the last word of memory, `sll $0,$0,0`, and then a fetch past it
    step_table_machine(&mut flat, 2);
    let state = state_of(flat.view().cpu);
    let system = [2, 6 << 2, 0x8000_2000, 0];
    expect(&rt, "two steps", state, (0x8000_0180, [0, 0], system));
    Ok(())
}

#[test]
fn seats_have_their_numbers(rt: HostRuntime) {
    let item = Item {
        seat: SeatNo::new(3),
        what: What::Step,
    };
    let numbers = (item.seat.number(), SeatNo::runner().number());
    expect(&rt, "numbers", numbers, (3, 0));
}

/// It maps 4000 to physical address 1000 and 5000 to 2000, sets ERL, and then enters user mode.
const MAPPING: [Code; 11] = [
    Word(0x2401_4000), // addiu $1,$0,0x4000
    Word(0x4081_5000), // mtc0 $1,EntryHi
    Word(0x2401_0042), // addiu $1,$0,0x42: frame 1, valid
    Word(0x4081_1000), // mtc0 $1,EntryLo0
    Word(0x2401_0082), // addiu $1,$0,0x82: frame 2, valid
    Word(0x4081_1800), // mtc0 $1,EntryLo1
    Word(0x4200_0002), // tlbwi
    Word(0x2401_0004), // addiu $1,$0,4: ERL
    Word(0x4081_6000), // mtc0 $1,Status
    Word(0x2401_0010), // addiu $1,$0,0x10: UM
    Word(0x4081_6000), // mtc0 $1,Status
];

/// Addresses of unmapped segments, and of mapped ones that no entry is for, with two pages of memory.
static SEGMENTS: [(u32, Option<u32>); 12] = [
    // kseg0: the first byte, the last byte of memory and the one past it, the end
    (0x8000_0000, Some(0)),
    (0x8000_1fff, Some(0x1fff)),
    (0x8000_2000, None),
    (0x9fff_ffff, None),
    // kseg1
    (0xa000_0123, Some(0x123)),
    (0xa000_1fff, Some(0x1fff)),
    (0xa000_2000, None),
    (0xbfff_ffff, None),
    // kseg2 and kseg3
    (0xc000_0000, None),
    (0xffff_ffff, None),
    // kuseg
    (0x0000_6000, None),
    (0x7fff_ffff, None),
];

const UNMAPPED_PAGES: [(u32, Option<u32>); 3] = [(0, None), (0x4000, None), (0x5000, None)];

const MAPPED_PAGES: [(u32, Option<u32>); 5] = [
    (0x3fff, None),
    (0x4000, Some(0x1000)),
    (0x4fff, Some(0x1fff)),
    // mapped past memory
    (0x5000, None),
    (0x5fff, None),
];

/// While ERL is set kuseg is unmapped.
const IDENTICAL: [(u32, Option<u32>); 3] = [(0x1fff, Some(0x1fff)), (0x2000, None), (0x4000, None)];

/// A state that the steps lead to.
struct State {
    name: &'static str,
    /// How many steps it is from the state before.
    steps: usize,
    error_level: bool,
    user_mode: bool,
    /// Addresses of kuseg, and where they are in memory.
    pages: &'static [(u32, Option<u32>)],
}

static STATES: [State; 4] = [
    State {
        name: "boot",
        steps: 0,
        error_level: false,
        user_mode: false,
        pages: &UNMAPPED_PAGES,
    },
    State {
        name: "mapped",
        steps: 7,
        error_level: false,
        user_mode: false,
        pages: &MAPPED_PAGES,
    },
    State {
        name: "error level",
        steps: 2,
        error_level: true,
        user_mode: false,
        pages: &IDENTICAL,
    },
    State {
        name: "user mode",
        steps: 2,
        error_level: false,
        user_mode: true,
        pages: &MAPPED_PAGES,
    },
];

fn check_probes(rt: &impl Abort, flat: &Flat, state: &str, probes: &[(u32, Option<u32>)]) {
    for (address, place) in probes {
        let found = flat.probe(*address).map(|at| at.number());
        expect(rt, (state, *address), found, *place);
    }
}

fn check_state(rt: &impl Abort, flat: &Flat, state: &State) {
    let cp0 = flat.view().cpu.cp0();
    let mode = (cp0.is_error_level(), cp0.is_user_mode());
    expect(rt, state.name, mode, (state.error_level, state.user_mode));
    check_probes(rt, flat, state.name, &SEGMENTS);
    check_probes(rt, flat, state.name, state.pages);
}

fn check_states(rt: &impl Abort, flat: &mut Flat) {
    for state in &STATES {
        step_table_machine(flat, state.steps);
        check_state(rt, flat, state);
    }
}

#[test]
fn probes_find_memory(rt: HostRuntime) -> Result<(), Fail> {
    let image = raw_image(&rt, "probes", &MAPPING)?;
    let mut flat = boot_table_machine(&rt, "probes", Profile::One, &image, 2)?;
    check_states(&rt, &mut flat);
    Ok(())
}
