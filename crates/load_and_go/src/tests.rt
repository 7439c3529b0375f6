//! Texts that are booted and run, and texts that are refused, worked out by hand.

use crate::{BootError, TextError, boot_text, flat_text};
use elf32::Fault;
use masm::AsmFault;
use mips_cp0::Profile;
use mips_instr::Reg;
use mips_step::Cpu;
use rand_pcg::Pcg32;
use std::process::Abort;
use std::test::Fail;
use swapstore::{FaultStore, MemStore, Op, SwapStore};
use taxpolicy::Tax;
use tenant::Tenant;
use world::{Config, End, Ran, World};

const TAX: Tax = Tax { percent: 75 };

/// A loop that adds 5, 4, 3, 2, 1 and 0 to register 2. It is left after 1 + 6 * 3 instructions.
const ADDING: &str = "addiu $1,$0,5\nloop: addu $2,$2,$1\nbne $1,$0,loop\naddiu $1,$1,-1\n";

/// Two segments, the second of which is entered and jumps to the word of the first.
const TWO_SEGMENTS: &str = "
    .entry start
    .word start
    .byte 1
    .byte 0xff
    .byte -2
    .space 5
    .org 0x80000100
start:
    lui $2,0x8000
    lw $3,0($2)
    jr $3
    sll $0,$0,0
";

/// Virtual addresses, and the bytes from there on once `TWO_SEGMENTS` is booted with 16 pages.
static BYTES_OF_TWO_SEGMENTS: [(u32, &[u8]); 7] = [
    (0x8000_0000, &[0x00, 0x01, 0x00, 0x80]),
    (0x8000_0004, &[0x01, 0xff, 0xfe, 0, 0, 0, 0, 0]),
    // nothing is listed from 8000000c to 800000ff
    (0x8000_000c, &[0, 0, 0, 0]),
    (0x8000_00fe, &[0, 0, 0x00, 0x80, 0x02, 0x3c]),
    (0x8000_0104, &[0x00, 0x00, 0x43, 0x8c, 0x08, 0x00, 0x60, 0]),
    (0x8000_010c, &[0, 0, 0, 0]),
    // the end of memory
    (0x8000_fffc, &[0, 0, 0, 0]),
];

/// Words in each of six pages, of which the first has a program that loads the last one.
const SIX_PAGES: &str = "
    lui $1,0x8000
    lw $2,0x5004($1)
    .org 0x80001000
    .word 0x11111111
    .org 0x80002000
    .word 0x22222222
    .org 0x80003000
    .word 0x33333333
    .org 0x80004ffc
    .word 0x44444444
    .word 0x55555555
    .word 0x66666666
";

/// Virtual addresses, and the bytes from there on once `SIX_PAGES` is booted with 16 pages.
static BYTES_OF_SIX_PAGES: [(u32, &[u8]); 8] = [
    (0x8000_0004, &[0x04, 0x50, 0x22, 0x8c]),
    (0x8000_1000, &[0x11, 0x11, 0x11, 0x11]),
    (0x8000_1ffe, &[0, 0, 0x22, 0x22, 0x22, 0x22, 0, 0]),
    (0x8000_3000, &[0x33, 0x33, 0x33, 0x33]),
    // across two pages, forth and back
    (0x8000_4ffe, &[0x44, 0x44, 0x55, 0x55, 0x55, 0x55]),
    (0x8000_0000, &[0x00, 0x80, 0x01, 0x3c]),
    (0x8000_4ffc, &[0x44, 0x44, 0x44, 0x44, 0x55, 0x55]),
    (0x8000_5004, &[0x66, 0x66, 0x66, 0x66, 0, 0]),
];

/// The profile and the numbers of a world of one guest, and the write of its store that fails, counted from 1.
#[derive(Clone, Copy)]
struct Numbers {
    profile: Profile,
    frames: u32,
    slots: u32,
    pages: u32,
    shares: u32,
    failing: u64,
}

/// A frame for each page and one more, and no slot.
const ROOMY: Numbers = Numbers {
    profile: Profile::Two,
    frames: 17,
    slots: 0,
    pages: 16,
    shares: 100,
    failing: 100,
};

/// Four frames, and three slots.
const CROWDED: Numbers = Numbers {
    frames: 4,
    slots: 3,
    ..ROOMY
};

type Store = FaultStore<MemStore>;

/// The world of a text, or why it isn't booted. A store that comes back has as many slots as before.
fn booted<R: AllocGlobal + Abort>(
    rt: &R,
    text: &str,
    numbers: &Numbers,
) -> Result<World<Store>, BootError> {
    let Ok(store) = MemStore::new(rt.alloc(), numbers.slots) else {
        return Err(NO_MEMORY);
    };
    let store = FaultStore::new(store, Op::Write, numbers.failing.max(1));
    let config = Config {
        frames: numbers.frames,
        log_runs: 16,
        admit: false,
    };
    match boot_text(
        rt.alloc(),
        numbers.profile,
        text,
        config,
        numbers.pages,
        numbers.shares,
        store,
    ) {
        Ok(world) => Ok(world),
        Err((error, store)) => {
            assert_eq!(rt; store.slot_count(), numbers.slots);
            Err(error)
        }
    }
}

const NO_MEMORY: BootError = BootError::Text {
    error: TextError::Memory,
};

/// The world's guest.
fn guest_of<'a>(rt: &impl Abort, world: &'a World<Store>) -> &'a Tenant {
    match world.tenants() {
        [guest] => guest,
        _ => panic!(rt; "there is one guest"),
    }
}

fn make_steps<R: AllocGlobal + Abort>(rt: &R, world: &mut World<Store>, count: u32) {
    assert_eq!(rt; world.count(), 1);
    let ran = world.run_steps(rt.alloc(), 0, count, TAX, &mut Pcg32::new(42, 54));
    let end = End::Done;
    assert_eq!(rt; ran, Ran { steps: count, end });
}

/// What is left of a run: PC and general registers.
fn check_cpu(rt: &impl Abort, cpu: &Cpu, pc: u32, regs: &[(Reg, u32)]) {
    assert_eq!(rt; cpu.pc(), pc);
    for (number, value) in regs {
        assert_eq!(rt; cpu.reg(*number), *value);
    }
}

/// A text is booted with 16 pages on both machines, and runs to these values.
fn check_run<R: AllocGlobal + Abort>(
    rt: &R,
    text: &str,
    numbers: &Numbers,
    steps: u32,
    pc: u32,
    regs: &[(Reg, u32)],
) -> Result<(), Fail> {
    let mut world = booted(rt, text, numbers)?;
    make_steps(rt, &mut world, steps);
    check_cpu(rt, guest_of(rt, &world).guest().view().cpu, pc, regs);
    let _store = world.close();
    check_flat_run(rt, numbers.profile, text, steps, pc, regs)
}

fn check_flat_run<R: AllocGlobal + Abort>(
    rt: &R,
    profile: Profile,
    text: &str,
    steps: u32,
    pc: u32,
    regs: &[(Reg, u32)],
) -> Result<(), Fail> {
    let mut flat = flat_text(rt.alloc(), profile, text, 16)?;
    for _ in 0..steps {
        flat.step();
    }
    check_cpu(rt, flat.view().cpu, pc, regs);
    Ok(())
}

#[test]
fn booted_programs_run(rt: HostRuntime) -> Result<(), Fail> {
    check_run(
        &rt,
        ADDING,
        &ROOMY,
        19,
        0x8000_0010,
        &[(Reg::new(1), 0xffff_ffff), (Reg::new(2), 0x0000_000f)],
    )?;
    check_run(
        &rt,
        TWO_SEGMENTS,
        &ROOMY,
        4,
        0x8000_0100,
        &[(Reg::new(2), 0x8000_0000), (Reg::new(3), 0x8000_0100)],
    )
}

/// A profile, and Random and Config1 as its first two instructions read them.
static PROFILES: [(Profile, u32, u32); 2] = [
    (Profile::One, 0x0e, 0x1e00_0000),
    (Profile::Two, 0x1e, 0x3e00_0000),
];

#[test]
fn booted_programs_read_their_profile(rt: HostRuntime) -> Result<(), Fail> {
    for (profile, random, config1) in &PROFILES {
        check_run(
            &rt,
            "mfc0 $1,$1,0\nmfc0 $2,$16,1\n",
            &Numbers {
                profile: *profile,
                ..ROOMY
            },
            2,
            0x8000_0008,
            &[(Reg::new(1), *random), (Reg::new(2), *config1)],
        )?;
    }
    Ok(())
}

#[test]
fn a_booted_program_runs_from_slots(rt: HostRuntime) -> Result<(), Fail> {
    check_run(
        &rt,
        SIX_PAGES,
        &CROWDED,
        2,
        0x8000_0008,
        &[(Reg::new(1), 0x8000_0000), (Reg::new(2), 0x6666_6666)],
    )
}

/// Reads at least 1 and at most 1,024 bytes.
fn check_bytes<R: AllocGlobal + Abort>(
    rt: &R,
    world: &mut World<Store>,
    address: u32,
    bytes: &[u8],
) -> Result<(), Fail> {
    assert!(rt; world.count() == 1 && !bytes.is_empty() && bytes.len() <= 1024);
    let mut buffer = vec![in rt.alloc(); 0xa5; bytes.len()]?;
    let mut rng = Pcg32::new(42, 54);
    let answer = world.debug_read(rt.alloc(), 0, address, &mut buffer, TAX, &mut rng);
    assert_eq!(rt;
        (answer, buffer.as_slice()),
        (Ok(()), bytes),
        "{address:08x}"
    );
    Ok(())
}

fn check_memory<R: AllocGlobal + Abort>(
    rt: &R,
    world: &mut World<Store>,
    listed: &[(u32, &[u8])],
) -> Result<(), Fail> {
    for (address, bytes) in listed {
        check_bytes(rt, world, *address, *bytes)?;
    }
    Ok(())
}

#[test]
fn memory_has_what_is_listed(rt: HostRuntime) -> Result<(), Fail> {
    let mut world = booted(&rt, TWO_SEGMENTS, &ROOMY)?;
    assert_eq!(&rt; guest_of(&rt, &world).guest().view().cpu.pc(), 0x8000_0100);
    let checked = check_memory(&rt, &mut world, &BYTES_OF_TWO_SEGMENTS);
    let _store = world.close();
    checked
}

#[test]
fn slots_have_what_is_listed(rt: HostRuntime) -> Result<(), Fail> {
    let mut world = booted(&rt, SIX_PAGES, &CROWDED)?;
    assert_eq!(&rt; (world.free(), world.slots_used()), (0, 2));
    let checked = check_memory(&rt, &mut world, &BYTES_OF_SIX_PAGES);
    let _store = world.close();
    checked
}

/// Texts that are refused for so many pages, why, and the error's text.
const REFUSALS: [(&str, u32, TextError, &str); 6] = [
    (
        "bne $1,$0,nowhere",
        16,
        TextError::Assembler {
            fault: AsmFault::UnknownName,
            line: 1,
        },
        "asm 5 line 1",
    ),
    (
        "eret\nhalt",
        16,
        TextError::Assembler {
            fault: AsmFault::Mnemonic,
            line: 2,
        },
        "asm 2 line 2",
    ),
    (
        "",
        16,
        TextError::Assembler {
            fault: AsmFault::Empty,
            line: 0,
        },
        "asm 8 line 0",
    ),
    (
        ".org 0x80010000\neret",
        16,
        TextError::Executable {
            fault: Fault::Place,
        },
        "elf 7",
    ),
    // one byte of it is past the end
    (
        "eret\n.org 0x8000fffd\n.space 4",
        16,
        TextError::Executable {
            fault: Fault::Place,
        },
        "elf 7",
    ),
    (
        "eret",
        0,
        TextError::Executable {
            fault: Fault::Place,
        },
        "elf 7",
    ),
];

/// Why a text isn't booted in a world.
fn refusal<R: AllocGlobal + Abort>(rt: &R, text: &str, numbers: &Numbers) -> Option<BootError> {
    match booted(rt, text, numbers) {
        Ok(world) => {
            let _store = world.close();
            None
        }
        Err(error) => Some(error),
    }
}

/// Why a text isn't booted on the reference machine.
fn flat_refusal<R: AllocGlobal + Abort>(rt: &R, text: &str, pages: u32) -> Option<TextError> {
    assert!(rt; pages <= 1 << 20);
    flat_text(rt.alloc(), Profile::Two, text, pages).err()
}

/// Checks the error of booting a text on either machine, `None` where it boots.
fn check_error<R: AllocGlobal + Abort>(rt: &R, text: &str, pages: u32, want: Option<TextError>) {
    let guest = refusal(rt, text, &Numbers { pages, ..ROOMY });
    let flat = flat_refusal(rt, text, pages);
    let in_world = want.map(|error| BootError::Text { error });
    assert_eq!(rt; (guest, flat), (in_world, want), "{text:?}");
}

fn check_says<R: AllocGlobal + Abort>(rt: &R, error: BootError, says: &str) -> Result<(), Fail> {
    let said = format!(in rt.alloc(); "{error}")?;
    assert_eq!(rt; said.as_str(), says);
    Ok(())
}

#[test]
fn texts_are_refused(rt: HostRuntime) -> Result<(), Fail> {
    for (text, pages, error, says) in REFUSALS {
        check_error(&rt, text, pages, Some(error));
        check_says(&rt, BootError::Text { error }, says)?;
    }
    check_says(&rt, NO_MEMORY, "memory")
}

#[test]
fn the_last_bytes_of_memory_are_listed(rt: HostRuntime) {
    for (text, pages) in [
        (".org 0x80010000\neret", 17),
        (".org 0x8000fffc\neret", 16),
        ("eret\n.org 0x8000fffd\n.space 3", 16),
        ("eret", 2),
    ] {
        check_error(&rt, text, pages, None);
    }
    assert_eq!(&rt; flat_refusal(&rt, "eret", 1), None);
}

/// Texts whose world is refused, why, and the error's text.
const WORLDS: [(&str, Numbers, tenant::BootError, &str); 8] = [
    (
        "eret",
        Numbers { pages: 1, ..ROOMY },
        tenant::BootError::Limits,
        "boot 1",
    ),
    (
        "eret",
        Numbers {
            profile: Profile::One,
            pages: 16_385,
            ..ROOMY
        },
        tenant::BootError::Limits,
        "boot 1",
    ),
    (
        "eret",
        Numbers {
            pages: 32_769,
            ..ROOMY
        },
        tenant::BootError::Limits,
        "boot 1",
    ),
    (
        "eret",
        Numbers { shares: 0, ..ROOMY },
        tenant::BootError::Limits,
        "boot 1",
    ),
    (
        "eret",
        Numbers { frames: 3, ..ROOMY },
        tenant::BootError::Limits,
        "boot 1",
    ),
    (
        SIX_PAGES,
        Numbers {
            slots: 1,
            ..CROWDED
        },
        tenant::BootError::Room,
        "boot 3",
    ),
    (
        SIX_PAGES,
        Numbers {
            failing: 1,
            ..CROWDED
        },
        tenant::BootError::Store,
        "boot 4",
    ),
    (
        SIX_PAGES,
        Numbers {
            failing: 2,
            ..CROWDED
        },
        tenant::BootError::Store,
        "boot 4",
    ),
];

#[test]
fn worlds_are_refused(rt: HostRuntime) -> Result<(), Fail> {
    for (text, numbers, error, says) in &WORLDS {
        let want = BootError::World { error: *error };
        assert_eq!(&rt; refusal(&rt, *text, numbers), Some(want), "{text:?}");
        check_says(&rt, want, *says)?;
    }
    Ok(())
}

#[test]
fn the_most_pages_of_a_profile_are_booted(rt: HostRuntime) {
    for (profile, pages) in [(Profile::One, 16_384), (Profile::Two, 32_768)] {
        let most = Numbers {
            profile,
            pages,
            ..ROOMY
        };
        assert_eq!(&rt; refusal(&rt, "eret", &most), None);
    }
}

#[test]
fn a_text_is_refused_before_its_world(rt: HostRuntime) {
    let small = Numbers { frames: 3, ..ROOMY };
    for (text, pages, error, _) in REFUSALS {
        let found = refusal(&rt, text, &Numbers { pages, ..small });
        assert_eq!(&rt; found, Some(BootError::Text { error }), "{text:?}");
    }
}

/// Whether an error says that a request for memory was refused.
fn is_memory(error: BootError) -> bool {
    match error {
        BootError::Text { error } => error == TextError::Memory,
        BootError::World { error } => error == tenant::BootError::Memory,
    }
}

/// Checks that a text is refused for this error or for want of memory.
fn check_refused<R: AllocGlobal + Abort>(rt: &R, text: &str, numbers: &Numbers, want: BootError) {
    match refusal(rt, text, numbers) {
        Some(found) => assert!(rt; found == want || is_memory(found), "{text:?}"),
        None => panic!(rt; "{text:?}"),
    }
}

/// Where a request for memory is refused, that is the answer, and no other one changes.
#[test]
fn the_error_or_want_of_memory(rt: HostRuntime) {
    for (text, pages, error, _) in REFUSALS {
        let numbers = Numbers { pages, ..ROOMY };
        check_refused(&rt, text, &numbers, BootError::Text { error });
    }
    for (text, numbers, error, _) in &WORLDS {
        check_refused(&rt, *text, numbers, BootError::World { error: *error });
    }
}

fn check_word(rt: &impl Abort, world: &World<Store>, address: u32, want: [u8; 4]) {
    let mut word = [0; 4];
    let answer = guest_of(rt, world).guest().debug_read(address, &mut word);
    assert_eq!(rt; (answer, word), (Ok(()), want));
}

#[test]
fn the_guest_or_want_of_memory(rt: HostRuntime) {
    match booted(&rt, TWO_SEGMENTS, &ROOMY) {
        Ok(world) => {
            check_word(&rt, &world, 0x8000_0104, [0x00, 0x00, 0x43, 0x8c]);
            let _store = world.close();
        }
        Err(found) => assert!(&rt; is_memory(found)),
    }
}

#[test]
fn the_table_machine_or_want_of_memory(rt: HostRuntime) {
    match flat_text(rt.alloc(), Profile::Two, TWO_SEGMENTS, 16) {
        Ok(flat) => assert_eq!(rt; flat.view().cpu.pc(), 0x8000_0100),
        Err(found) => assert!(rt; found == TextError::Memory),
    }
}
