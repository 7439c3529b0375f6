//! Tables of the registers, of exception entry, of the timer and of the interrupts.
use super::expect;
use mips_cp0::{Coprocessor, Cp0, Exc, Profile};
use std::process::Abort;

// Number, select, and what a read gives at boot, after a write of FFFFFFFF, and after one of 00000000.
static REGISTERS: [(u32, u32, u32, u32, u32); 18] = [
    (0, 0, 0, 0x0000_000f, 0),
    (1, 0, 0x0000_000f, 0x0000_000f, 0x0000_000f),
    (2, 0, 0, 0x03ff_ffff, 0),
    (3, 0, 0, 0x03ff_ffff, 0),
    (4, 0, 0, 0xff80_0000, 0),
    (5, 0, 0, 0, 0),
    (6, 0, 0, 0x0000_000f, 0),
    (8, 0, 0, 0, 0),
    (9, 0, 0, 0xffff_ffff, 0),
    (10, 0, 0, 0xffff_e0ff, 0),
    (11, 0, 0, 0xffff_ffff, 0),
    (12, 0, 0, 0x1040_ff17, 0),
    (13, 0, 0, 0x0080_0300, 0),
    (14, 0, 0, 0xffff_ffff, 0),
    (15, 0, 0, 0, 0),
    (16, 0, 0x8000_0082, 0x8000_0082, 0x8000_0082),
    (16, 1, 0x1e00_0000, 0x1e00_0000, 0x1e00_0000),
    (30, 0, 0, 0xffff_ffff, 0),
];

// What a register reads as at boot, after a write of FFFFFFFF, and after one of 00000000.
fn reads(number: u32, select: u32) -> (u32, u32, u32) {
    let mut cp0 = Cp0::boot(Profile::One);
    let boot = cp0.read(number, select, 0);
    cp0.write(number, select, 0xffff_ffff);
    let ones = cp0.read(number, select, 0);
    cp0.write(number, select, 0);
    (boot, ones, cp0.read(number, select, 0))
}

#[test]
fn registers_read_and_write(rt: HostRuntime) {
    for row in &REGISTERS {
        let (number, select, boot, ones, zeros) = *row;
        let values = (boot, ones, zeros);
        expect(&rt, (number, select), reads(number, select), values);
    }
}

fn is_register(number: u32, select: u32) -> bool {
    for row in &REGISTERS {
        let (known, known_select, _, _, _) = *row;
        if number == known && select == known_select {
            return true;
        }
    }
    false
}

// A write to each number that is no register's reads as zero.
fn others_read_zero(rt: &impl Abort, cp0: &mut Cp0, number: u32) {
    for select in 0..8 {
        if !is_register(number, select) {
            cp0.write(number, select, 0xffff_ffff);
            expect(rt, (number, select), cp0.read(number, select, 0), 0);
        }
    }
}

// Each register reads as at boot.
fn registers_are_untouched(rt: &impl Abort, cp0: &Cp0) {
    for row in &REGISTERS {
        let (number, select, boot, _, _) = *row;
        let value = cp0.read(number, select, 0);
        expect(rt, ("untouched", number, select), value, boot);
    }
}

#[test]
fn other_numbers_read_zero(rt: HostRuntime) {
    let mut cp0 = Cp0::boot(Profile::One);
    for number in 0..32 {
        others_read_zero(&rt, &mut cp0, number);
    }
    registers_are_untouched(&rt, &cp0);
}

// The lines and what Cause shows of them.
static LINES: [(u8, u32); 6] = [
    (0x00, 0),
    (0x04, 0x0400),
    (0x08, 0x0800),
    (0x0c, 0x0c00),
    (0xf3, 0),
    (0xff, 0x0c00),
];

#[test]
fn cause_shows_the_lines(rt: HostRuntime) {
    let mut cp0 = Cp0::boot(Profile::One);
    for row in &LINES {
        let (lines, shown) = *row;
        expect(&rt, ("lines", lines), cp0.read(13, 0, lines), shown);
    }
    cp0.write(13, 0, 0xffff_ffff);
    let after = (cp0.read(13, 0, 0xff), cp0.read(12, 0, 0xff));
    expect(&rt, "Cause and Status", after, (0x0080_0f00, 0));
}

// An exception, its code, the coprocessor that it names, the offset of its vector with EXL clear, the address that
// BadVAddr takes, and whether Context and EntryHi take it too.
static EXCEPTIONS: [(Exc, u32, u32, u32, Option<u32>, bool); 18] = [
    (Exc::Interrupt, 0, 0, 0x180, None, false),
    (
        Exc::Modified {
            address: 0x0040_3004,
        },
        1,
        0,
        0x180,
        Some(0x0040_3004),
        true,
    ),
    (
        Exc::TlbLoad {
            address: 0x0040_3004,
            refill: true,
        },
        2,
        0,
        0x000,
        Some(0x0040_3004),
        true,
    ),
    (
        Exc::TlbLoad {
            address: 0x0040_3004,
            refill: false,
        },
        2,
        0,
        0x180,
        Some(0x0040_3004),
        true,
    ),
    (
        Exc::TlbStore {
            address: 0x0040_3004,
            refill: true,
        },
        3,
        0,
        0x000,
        Some(0x0040_3004),
        true,
    ),
    (
        Exc::TlbStore {
            address: 0x0040_3004,
            refill: false,
        },
        3,
        0,
        0x180,
        Some(0x0040_3004),
        true,
    ),
    (
        Exc::AddressLoad {
            address: 0x0040_3005,
        },
        4,
        0,
        0x180,
        Some(0x0040_3005),
        false,
    ),
    (
        Exc::AddressStore {
            address: 0x0040_3005,
        },
        5,
        0,
        0x180,
        Some(0x0040_3005),
        false,
    ),
    (Exc::BusFetch, 6, 0, 0x180, None, false),
    (Exc::BusData, 7, 0, 0x180, None, false),
    (Exc::Syscall, 8, 0, 0x180, None, false),
    (Exc::Breakpoint, 9, 0, 0x180, None, false),
    (Exc::Reserved, 10, 0, 0x180, None, false),
    (
        Exc::Unusable {
            coprocessor: Coprocessor::Zero,
        },
        11,
        0,
        0x180,
        None,
        false,
    ),
    (
        Exc::Unusable {
            coprocessor: Coprocessor::One,
        },
        11,
        1,
        0x180,
        None,
        false,
    ),
    (
        Exc::Unusable {
            coprocessor: Coprocessor::Two,
        },
        11,
        2,
        0x180,
        None,
        false,
    ),
    (Exc::Overflow, 12, 0, 0x180, None, false),
    (Exc::Trap, 13, 0, 0x180, None, false),
];

// The registers after an exception in the delay slot at 80001000 that names coprocessor 2, within its handler or after
// the return from it.
fn after_an_exception(nested: bool, bootstrap: bool) -> Cp0 {
    let mut cp0 = Cp0::boot(Profile::One);
    cp0.write(12, 0, if bootstrap { 0x0040_0000 } else { 0 });
    cp0.write(4, 0, 0xabff_ffff);
    cp0.write(10, 0, 0xffff_ffff);
    let _ = cp0.enter(
        Exc::Unusable {
            coprocessor: Coprocessor::Two,
        },
        0x8000_1000,
        true,
    );
    if !nested {
        let _ = cp0.eret();
    }
    cp0
}

// EPC, Cause, Status, BadVAddr, Context and EntryHi.
fn exception_registers(cp0: &Cp0) -> [u32; 6] {
    [
        cp0.epc(),
        cp0.cause(),
        cp0.status(),
        cp0.bad_vaddr(),
        cp0.read(4, 0, 0),
        cp0.read(10, 0, 0),
    ]
}

// The vector of an exception at 80002000, and the registers that it leaves.
fn entered(exc: Exc, nested: bool, in_slot: bool, bootstrap: bool) -> (u32, [u32; 6]) {
    let mut cp0 = after_an_exception(nested, bootstrap);
    let vector = cp0.enter(exc, 0x8000_2000, in_slot);
    (vector, exception_registers(&cp0))
}

// Whether it is within a handler, whether in a delay slot, EPC and the bit BD of Cause.
static PLACES: [(bool, bool, u32, u32); 4] = [
    (false, false, 0x8000_2000, 0),
    (false, true, 0x8000_1ffc, 0x8000_0000),
    (true, false, 0x8000_0ffc, 0x8000_0000),
    (true, true, 0x8000_0ffc, 0x8000_0000),
];

// The registers that the exception of a row leaves.
fn left_by(
    row: &(Exc, u32, u32, u32, Option<u32>, bool),
    epc: u32,
    delay: u32,
    status: u32,
) -> [u32; 6] {
    let (_, code, coprocessor, _, bad, by_tlb) = *row;
    let (context, entry_hi) = if by_tlb {
        (0xab80_2010, 0x0040_20ff)
    } else {
        (0xab80_0000, 0xffff_e0ff)
    };
    let cause = delay | coprocessor << 28 | code << 2;
    [epc, cause, status, bad.unwrap_or(0), context, entry_hi]
}

// The exception of a row at each place; within a handler its vector is the general one.
fn exception_enters(
    rt: &impl Abort,
    row: &(Exc, u32, u32, u32, Option<u32>, bool),
    bootstrap: bool,
    base: u32,
    status: u32,
) {
    let (exc, _, _, offset, _, _) = *row;
    for place in &PLACES {
        let (nested, in_slot, epc, delay) = *place;
        let vector = base | if nested { 0x180 } else { offset };
        let wanted = (vector, left_by(row, epc, delay, status));
        let case = (exc, nested, in_slot, bootstrap);
        expect(rt, case, entered(exc, nested, in_slot, bootstrap), wanted);
    }
}

// Each exception with BEV clear or set, the base of the vectors then, and Status.
fn exceptions_enter(rt: &impl Abort, bootstrap: bool, base: u32, status: u32) {
    for row in &EXCEPTIONS {
        exception_enters(rt, row, bootstrap, base, status);
    }
}

#[test]
fn exceptions_enter_with_bev_clear(rt: HostRuntime) {
    exceptions_enter(&rt, false, 0x8000_0000, 0x0000_0002);
}

#[test]
fn exceptions_enter_with_bev_set(rt: HostRuntime) {
    exceptions_enter(&rt, true, 0xbfc0_0200, 0x0040_0002);
}

#[test]
fn interrupts_have_a_vector(rt: HostRuntime) {
    for (exc, status, cause, vector) in [
        (Exc::Interrupt, 0, 0, 0x8000_0180),
        (Exc::Interrupt, 0, 0x0080_0000, 0x8000_0200),
        (Exc::Interrupt, 0x0040_0000, 0x0080_0000, 0xbfc0_0400),
        (Exc::Syscall, 0, 0x0080_0000, 0x8000_0180),
        (Exc::Syscall, 0x0040_0000, 0x0080_0000, 0xbfc0_0380),
    ] {
        let mut cp0 = Cp0::boot(Profile::One);
        cp0.write(12, 0, status);
        cp0.write(13, 0, cause);
        expect(
            &rt,
            (exc, "Status", status, "Cause", cause),
            cp0.enter(exc, 0x8000_0000, false),
            vector,
        );
    }
}

// A refill of a load from user mode, and the same within a handler.
#[test]
fn refill_of_user_mode(rt: HostRuntime) {
    let exc = Exc::TlbLoad {
        address: 0x0040_3004,
        refill: true,
    };
    let mut cp0 = Cp0::boot(Profile::One);
    cp0.write(12, 0, 0x10);
    let vector = cp0.enter(exc, 0x0040_0000, false);
    expect(&rt, "vector", vector, 0x8000_0000);
    expect(
        &rt,
        "registers",
        exception_registers(&cp0),
        [
            0x0040_0000,
            0x0000_0008,
            0x0000_0012,
            0x0040_3004,
            0x0000_2010,
            0x0040_2000,
        ],
    );

    let mut nested = Cp0::boot(Profile::One);
    nested.write(12, 0, 0x12);
    nested.write(14, 0, 0x1234_5678);
    let vector = nested.enter(exc, 0x0040_0000, false);
    expect(&rt, "vector within a handler", vector, 0x8000_0180);
    expect(&rt, "EPC within a handler", nested.epc(), 0x1234_5678);
}

#[test]
fn eret_returns(rt: HostRuntime) {
    for (status, after, address) in [
        (0x0000_ff13, 0x0000_ff11, 0x8000_1000),
        (0x0000_0000, 0x0000_0000, 0x8000_1000),
        (0x0000_0006, 0x0000_0002, 0x8000_2000),
        (0x0000_0014, 0x0000_0010, 0x8000_2000),
    ] {
        let mut cp0 = Cp0::boot(Profile::One);
        cp0.write(12, 0, status);
        cp0.write(14, 0, 0x8000_1000);
        cp0.write(30, 0, 0x8000_2000);
        let returned = (cp0.eret(), cp0.status());
        expect(&rt, ("from", status), returned, (address, after));
    }
}

// Compare is 6 and the timer's interrupt is enabled by the fourth instruction; the sixth is not begun.
#[test]
fn timer_interrupts(rt: HostRuntime) {
    let mut cp0 = Cp0::boot(Profile::One);
    timer_is_not_due(&rt, &mut cp0);
    timer_is_due(&rt, &mut cp0);
    timer_is_cleared(&rt, &mut cp0);
}

// Five instructions, with the writes of the second and of the fourth.
fn timer_is_not_due(rt: &impl Abort, cp0: &mut Cp0) {
    for step in 1..6 {
        cp0.tick();
        expect(rt, ("step", step), cp0.interrupt_due(0), false);
        match step {
            2 => cp0.write(11, 0, 6),
            4 => cp0.write(12, 0, 0x8001),
            _ => (),
        }
    }
}

fn timer_is_due(rt: &impl Abort, cp0: &mut Cp0) {
    cp0.tick();
    let due = cp0.interrupt_due(0);
    let vector = cp0.enter(Exc::Interrupt, 0x8000_0014, false);
    let entered = (due, vector, cp0.interrupt_due(0));
    expect(
        rt,
        "due, vector and due then",
        entered,
        (true, 0x8000_0180, false),
    );
    expect(
        rt,
        "EPC, Cause, Status, Count and Random",
        timer_registers(cp0),
        [0x8000_0014, 0x0000_8000, 0x0000_8003, 6, 9],
    );
}

// EPC, Cause, Status, Count and Random.
fn timer_registers(cp0: &Cp0) -> [u32; 5] {
    [
        cp0.epc(),
        cp0.cause(),
        cp0.status(),
        cp0.read(9, 0, 0),
        cp0.read(1, 0, 0),
    ]
}

// The writes of Count and of Compare behind an interrupt of the timer.
fn timer_is_cleared(rt: &impl Abort, cp0: &mut Cp0) {
    cp0.write(9, 0, 0xffff_ffff);
    let left = cp0.cause();
    cp0.write(11, 0, 0);
    let cleared = (left, cp0.cause());
    expect(
        rt,
        "Cause after writes of Count and of Compare",
        cleared,
        (0x0000_8000, 0),
    );
    cp0.tick();
    let round = (cp0.read(9, 0, 0), cp0.cause());
    expect(
        rt,
        "Count goes round: Count and Cause",
        round,
        (0, 0x0000_8000),
    );
}

// The interrupts of a mask with each of the low bits of Status, and those of the other masks.
fn enabled_by_its_mask(rt: &impl Abort, cp0: &mut Cp0, lines: u8, mask: u32) {
    for level in 0..8 {
        cp0.write(12, 0, mask | level);
        let of = cp0.interrupt_due(lines);
        cp0.write(12, 0, (0x0000_ff00 ^ mask) | level);
        let due = (of, cp0.interrupt_due(lines));
        expect(
            rt,
            ("of and without", mask, level),
            due,
            (level == 1, false),
        );
    }
}

// The bits of Cause that are written, the lines, and the mask of both.
static SOURCES: [(u32, u8, u32); 5] = [
    (0x0000_0100, 0x00, 0x0000_0100),
    (0x0000_0200, 0x00, 0x0000_0200),
    (0, 0x04, 0x0000_0400),
    (0, 0x08, 0x0000_0800),
    (0, 0x0c, 0x0000_0c00),
];

#[test]
fn interrupts_are_enabled(rt: HostRuntime) {
    for row in &SOURCES {
        let (source, lines, mask) = *row;
        let mut cp0 = Cp0::boot(Profile::One);
        cp0.write(13, 0, source);
        enabled_by_its_mask(&rt, &mut cp0, lines, mask);
        cp0.write(12, 0, 0x0000_ff01);
        let due = cp0.interrupt_due(0xf3);
        expect(&rt, ("lines that are not there", source), due, source != 0);
    }
}

// One round of Random, from 15 down to Wired and back to 15.
fn goes_round(rt: &impl Abort, cp0: &mut Cp0, wired: u32) {
    for random in (wired..15).rev() {
        cp0.tick();
        expect(rt, ("Wired", wired), cp0.random(), random);
    }
    cp0.tick();
    expect(rt, ("round of Wired", wired), cp0.random(), 15);
}

// A write of Wired and two rounds.
fn goes_round_twice(rt: &impl Abort, cp0: &mut Cp0, wired: u32) {
    cp0.write(6, 0, wired);
    expect(rt, ("a write of Wired", wired), cp0.random(), 15);
    goes_round(rt, cp0, wired);
    goes_round(rt, cp0, wired);
}

#[test]
fn random_goes_round(rt: HostRuntime) {
    let mut cp0 = Cp0::boot(Profile::One);
    cp0.tick();
    expect(&rt, "one instruction after boot", cp0.read(1, 0, 0), 14);
    for wired in [0, 5, 15] {
        goes_round_twice(&rt, &mut cp0, wired);
    }
}

// Whether a Status is of user mode, and which of the three coprocessors it makes usable.
fn mode_of(status: u32) -> (bool, [bool; 3]) {
    let mut cp0 = Cp0::boot(Profile::One);
    cp0.write(12, 0, status);
    (
        cp0.is_user_mode(),
        [
            cp0.is_usable(Coprocessor::Zero),
            cp0.is_usable(Coprocessor::One),
            cp0.is_usable(Coprocessor::Two),
        ],
    )
}

#[test]
fn modes_and_coprocessors(rt: HostRuntime) {
    for (status, is_user) in [
        (0x00, false),
        (0x10, true),
        (0x12, false),
        (0x14, false),
        (0x16, false),
        (0x06, false),
    ] {
        let mode = (is_user, [!is_user, false, false]);
        expect(&rt, status, mode_of(status), mode);
        let mode = (is_user, [true, false, false]);
        expect(
            &rt,
            ("with CU0", status),
            mode_of(status | 0x1000_0000),
            mode,
        );
    }
}

// An Index, and the entry that it names.
static INDEXES: [(u32, u32); 5] = [
    (0, 0),
    (15, 15),
    (0x8000_0000, 0),
    (0x8000_0007, 7),
    (16, 0),
];

fn index_is_kept(rt: &impl Abort, cp0: &mut Cp0) {
    for row in &INDEXES {
        let (index, _) = *row;
        cp0.set_index(index);
        expect(
            rt,
            "Index and its entry",
            (cp0.read(0, 0, 0), cp0.indexed()),
            *row,
        );
    }
}

// EntryHi, EntryLo0, EntryLo1 and the address space.
fn entry_registers(cp0: &Cp0) -> ([u32; 3], u8) {
    (
        [cp0.entry_hi(), cp0.entry_lo0(), cp0.entry_lo1()],
        cp0.asid(),
    )
}

#[test]
fn registers_of_the_tlb(rt: HostRuntime) {
    let mut cp0 = Cp0::boot(Profile::One);
    index_is_kept(&rt, &mut cp0);
    cp0.set_entry(0x0040_2005, 0x83, 0x01);
    let entry = ([0x0040_2005, 0x83, 0x01], 5);
    expect(
        &rt,
        "EntryHi, EntryLo0, EntryLo1 and ASID",
        entry_registers(&cp0),
        entry,
    );
    expect(&rt, "error level", cp0.is_error_level(), false);
}
