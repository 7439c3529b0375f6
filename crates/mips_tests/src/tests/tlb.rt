//! Tables of translation, probe and the TLB instructions.
ghost use Rattle.std.specs.Prelude.{◌≡◌, length};

use super::expect;
use mips_cp0::{Cp0, Exc, Profile};
use mips_tlb::{Entry, Kind, PageHalf, Tlb};
use std::process::Abort;

// Kernel mode, user mode, the error level with user mode's bit, and a handler with it.
const KERNEL: u32 = 0x00;

const USER: u32 = 0x10;

const ERROR: u32 = 0x14;

const HANDLER: u32 = 0x12;

// Registers with Status and the current address space.
fn registers(status: u32, asid: u32) -> Cp0
    ensures { result.last_entry ≡ 15 }
{
    let mut cp0 = Cp0::boot(Profile::One);
    cp0.write(12, 0, status);
    cp0.write(10, 0, asid);
    cp0
}

// The TLB with an entry of EntryHi, EntryLo0 and EntryLo1 at an index.
fn with_entry(tlb: &mut Tlb, index: u32, entry_hi: u32, entry_lo0: u32, entry_lo1: u32)
    requires { length tlb.old ≡ 16 }
    ensures { length tlb.new ≡ 16 }
{
    let mut cp0 = Cp0::boot(Profile::One);
    cp0.write(0, 0, index);
    cp0.write(10, 0, entry_hi);
    cp0.write(2, 0, entry_lo0);
    cp0.write(3, 0, entry_lo1);
    tlb.write_indexed(&cp0);
}

// The number of the physical address that translation gives, or its exception.
fn translate(tlb: &Tlb, cp0: &Cp0, address: u32, kind: Kind) -> Result<u32, Exc> {
    tlb.translate(cp0, address, kind).map(|at| at.number())
}

// The number of the physical address that a probe gives.
fn probe(tlb: &Tlb, cp0: &Cp0, address: u32) -> Option<u32> {
    tlb.probe(cp0, address).map(|at| at.number())
}

// What a load, a fetch and a probe of an address give in address space 1, by the entries at boot.
fn at_boot(status: u32, address: u32) -> (Result<u32, Exc>, Result<u32, Exc>, Option<u32>) {
    let tlb = Tlb::boot(Profile::One);
    let cp0 = registers(status, 1);
    (
        translate(&tlb, &cp0, address, Kind::Load),
        translate(&tlb, &cp0, address, Kind::Fetch),
        probe(&tlb, &cp0, address),
    )
}

// The entries at boot are of address space 0, so in space 1 none matches.
#[test]
fn segments(rt: HostRuntime) {
    for (address, unmapped, user_may) in [
        (0x0000_0000, None, true),
        (0x7fff_ffff, None, true),
        (0x8000_0000, Some(0x0000_0000), false),
        (0x9fff_ffff, Some(0x1fff_ffff), false),
        (0xa000_0000, Some(0x0000_0000), false),
        (0xbfff_ffff, Some(0x1fff_ffff), false),
        (0xc000_0000, None, false),
        (0xdfff_ffff, None, false),
        (0xe000_0000, None, false),
        (0xffff_ffff, None, false),
    ] {
        let refill = Exc::TlbLoad {
            address,
            refill: true,
        };
        let kernel = unmapped.ok_or(refill);
        let user = if user_may {
            kernel
        } else {
            Err(Exc::AddressLoad { address })
        };
        let error = if address < 0x8000_0000 {
            Ok(address)
        } else {
            kernel
        };
        for (status, answer, probed) in [
            (KERNEL, kernel, unmapped),
            (USER, user, unmapped),
            (HANDLER, kernel, unmapped),
            (ERROR, error, error.ok()),
        ] {
            let answers = (answer, answer, probed);
            expect(&rt, (address, status), at_boot(status, address), answers);
        }
    }
}

static AT_BOOT: [(u32, Kind, Result<u32, Exc>); 1] = [(
    0,
    Kind::Load,
    Err(Exc::TlbLoad {
        address: 0,
        refill: false,
    }),
)];

// At boot each entry is that of the pair at 0 in address space 0, with no page valid.
#[test]
fn boot_entries_are_not_valid(rt: HostRuntime) {
    let tlb = Tlb::boot(Profile::One);
    let cp0 = registers(KERNEL, 0);
    translations(&rt, &tlb, &cp0, &AT_BOOT);
    for (address, asid, index) in [(0x1fff, 0, Some(0)), (0x2000, 0, None), (0, 1, None)] {
        expect(&rt, (address, asid), tlb.find(address, asid), index);
    }
}

// What translations of addresses give.
fn translations(rt: &impl Abort, tlb: &Tlb, cp0: &Cp0, rows: &[(u32, Kind, Result<u32, Exc>)]) {
    for row in rows {
        let (address, kind, answer) = *row;
        let translated = translate(tlb, cp0, address, kind);
        expect(rt, (address, kind), translated, answer);
    }
}

// Translations by an even page that is valid and not dirty and an odd one that is dirty and not valid.
static BY_KINDS: [(u32, Kind, Result<u32, Exc>); 12] = [
    (0x0040_0004, Kind::Fetch, Ok(0x0000_2004)),
    (0x0040_0004, Kind::Load, Ok(0x0000_2004)),
    (
        0x0040_0004,
        Kind::Store,
        Err(Exc::Modified {
            address: 0x0040_0004,
        }),
    ),
    (
        0x0040_1004,
        Kind::Fetch,
        Err(Exc::TlbLoad {
            address: 0x0040_1004,
            refill: false,
        }),
    ),
    (
        0x0040_1004,
        Kind::Load,
        Err(Exc::TlbLoad {
            address: 0x0040_1004,
            refill: false,
        }),
    ),
    (
        0x0040_1004,
        Kind::Store,
        Err(Exc::TlbStore {
            address: 0x0040_1004,
            refill: false,
        }),
    ),
    (
        0x0040_2004,
        Kind::Fetch,
        Err(Exc::TlbLoad {
            address: 0x0040_2004,
            refill: true,
        }),
    ),
    (
        0x0040_2004,
        Kind::Load,
        Err(Exc::TlbLoad {
            address: 0x0040_2004,
            refill: true,
        }),
    ),
    (
        0x0040_2004,
        Kind::Store,
        Err(Exc::TlbStore {
            address: 0x0040_2004,
            refill: true,
        }),
    ),
    (
        0x8000_0000,
        Kind::Fetch,
        Err(Exc::AddressLoad {
            address: 0x8000_0000,
        }),
    ),
    (
        0x8000_0000,
        Kind::Load,
        Err(Exc::AddressLoad {
            address: 0x8000_0000,
        }),
    ),
    (
        0x8000_0000,
        Kind::Store,
        Err(Exc::AddressStore {
            address: 0x8000_0000,
        }),
    ),
];

#[test]
fn kinds_raise_their_exceptions(rt: HostRuntime) {
    let mut tlb = Tlb::boot(Profile::One);
    with_entry(&mut tlb, 0, 0x0040_0000, 0x0000_0082, 0x0000_00c4);
    let cp0 = registers(USER, 0);
    translations(&rt, &tlb, &cp0, &BY_KINDS);
}

// Addresses and what a probe of them gives.
static PROBES: [(u32, Option<u32>); 4] = [
    (0xc040_0004, Some(0x0000_2004)),
    (0xc040_1004, None),
    (0xc040_2004, None),
    (0x8000_7000, Some(0x0000_7000)),
];

fn probes_answer(rt: &impl Abort, tlb: &Tlb, status: u32) {
    let cp0 = registers(status, 0);
    for row in &PROBES {
        let (address, answer) = *row;
        expect(rt, (address, status), probe(tlb, &cp0, address), answer);
    }
}

#[test]
fn probe_is_a_kernel_load(rt: HostRuntime) {
    let mut tlb = Tlb::boot(Profile::One);
    with_entry(&mut tlb, 0, 0xc040_0000, 0x0000_0082, 0x0000_00c4);
    for status in [KERNEL, USER, HANDLER] {
        probes_answer(&rt, &tlb, status);
    }
}

// EPC, BadVAddr, Context, EntryHi, Cause and Status.
fn exception_registers(cp0: &Cp0) -> [u32; 6] {
    [
        cp0.epc(),
        cp0.bad_vaddr(),
        cp0.read(4, 0, 0),
        cp0.entry_hi(),
        cp0.cause(),
        cp0.status(),
    ]
}

// A fetch, the load that has no entry, and the vector and the registers of its exception.
fn refill_enters_by(rt: &impl Abort, tlb: &Tlb, cp0: &mut Cp0, vector: u32, epc: u32) {
    let exc = Exc::TlbLoad {
        address: 0x0040_3004,
        refill: true,
    };
    let translated = [
        translate(tlb, cp0, 0x0040_0000, Kind::Fetch),
        translate(tlb, cp0, 0x0040_3004, Kind::Load),
    ];
    let wanted = [Ok(0x0000_2000), Err(exc)];
    expect(rt, ("translations", vector), translated, wanted);
    let entered = cp0.enter(exc, 0x0040_0000, false);
    let after = (entered, exception_registers(cp0));
    let registers = [
        epc,
        0x0040_3004,
        0x0000_2010,
        0x0040_2000,
        0x0000_0008,
        0x0000_0012,
    ];
    expect(rt, ("vector", vector), after, (vector, registers));
}

// A refill of a load from user mode: EntryHi is the pair of the address, and the handler is that of a refill, or the
// general one within a handler.
#[test]
fn refill_enters(rt: HostRuntime) {
    let mut tlb = Tlb::boot(Profile::One);
    with_entry(&mut tlb, 0, 0x0040_0000, 0x0000_0083, 0x0000_0001);
    for (status, epc_before, vector, epc) in [
        (0x10, 0, 0x8000_0000, 0x0040_0000),
        (0x12, 0x1234_5678, 0x8000_0180, 0x1234_5678),
    ] {
        let mut cp0 = registers(status, 0);
        cp0.write(14, 0, epc_before);
        refill_enters_by(&rt, &tlb, &mut cp0, vector, epc);
    }
}

#[test]
fn store_to_a_page_not_dirty_enters(rt: HostRuntime) {
    let mut tlb = Tlb::boot(Profile::One);
    with_entry(&mut tlb, 3, 0x0000_2000, 0x0000_0102, 0x0000_0102);
    let mut cp0 = registers(KERNEL, 0);
    let exc = Exc::Modified {
        address: 0x0000_2000,
    };
    let stored = translate(&tlb, &cp0, 0x0000_2000, Kind::Store);
    expect(&rt, "store", stored, Err(exc));
    let vector = cp0.enter(exc, 0x8000_0000, false);
    expect(&rt, "vector", vector, 0x8000_0180);
    expect(&rt, "Cause", cp0.cause(), 0x0000_0004);
}

#[test]
fn least_index_decides(rt: HostRuntime) {
    let mut tlb = Tlb::boot(Profile::One);
    with_entry(&mut tlb, 9, 0x0000_2000, 0x0000_0142, 0x0000_0142);
    with_entry(&mut tlb, 3, 0x0000_2000, 0x0000_0102, 0x0000_0102);
    let mut cp0 = registers(KERNEL, 0);
    let loaded = translate(&tlb, &cp0, 0x0000_2000, Kind::Load);
    let found = (loaded, tlb.find(0x0000_2000, 0));
    expect(&rt, "load and entry", found, (Ok(0x0000_4000), Some(3)));
    cp0.write(10, 0, 0x0000_2000);
    tlb.probe_index(&mut cp0);
    expect(&rt, "Index", cp0.read(0, 0, 0), 3);
}

// Loads from the even and from the odd page of the pair at 2000 in an address space.
fn loads(tlb: &Tlb, asid: u32) -> [Result<u32, Exc>; 2] {
    let cp0 = registers(KERNEL, asid);
    [
        translate(tlb, &cp0, 0x0000_2abc, Kind::Load),
        translate(tlb, &cp0, 0x0000_3abc, Kind::Load),
    ]
}

// The loads where the entry matches, and where none does.
const FOUND: [Result<u32, Exc>; 2] = [Ok(0x0000_4abc), Ok(0x0000_5abc)];

const MISSED: [Result<u32, Exc>; 2] = [
    Err(Exc::TlbLoad {
        address: 0x0000_2abc,
        refill: true,
    }),
    Err(Exc::TlbLoad {
        address: 0x0000_3abc,
        refill: true,
    }),
];

// EntryLo0 and EntryLo1, and whether an entry of these is global.
static GLOBALS: [(u32, u32, bool); 4] = [
    (0x103, 0x143, true),
    (0x102, 0x143, false),
    (0x103, 0x142, false),
    (0x102, 0x142, false),
];

// The loads in an address space by an entry of address space 7 of a row.
fn space_loads(rt: &impl Abort, row: &(u32, u32, bool), asid: u32) {
    let (lo0, lo1, is_global) = *row;
    let mut tlb = Tlb::boot(Profile::One);
    with_entry(&mut tlb, 15, 0x0000_2007, lo0, lo1);
    let wanted = if is_global || asid == 7 {
        FOUND
    } else {
        MISSED
    };
    expect(rt, (lo0, lo1, asid), loads(&tlb, asid), wanted);
}

#[test]
fn address_spaces(rt: HostRuntime) {
    for row in &GLOBALS {
        for asid in [7, 6, 0, 0xff] {
            space_loads(&rt, row, asid);
        }
    }
}

#[test]
fn halves_and_ends_of_a_pair(rt: HostRuntime) {
    let mut tlb = Tlb::boot(Profile::One);
    with_entry(&mut tlb, 1, 0xffff_e000, 0x03ff_ffc3, 0x0000_0003);
    let cp0 = registers(KERNEL, 0x33);
    for (address, answer) in [
        (
            0xffff_dfff,
            Err(Exc::TlbLoad {
                address: 0xffff_dfff,
                refill: true,
            }),
        ),
        (0xffff_e000, Ok(0xffff_f000)),
        (0xffff_efff, Ok(0xffff_ffff)),
        (0xffff_f000, Ok(0x0000_0000)),
        (0xffff_ffff, Ok(0x0000_0fff)),
    ] {
        let loaded = translate(&tlb, &cp0, address, Kind::Load);
        expect(&rt, address, loaded, answer);
    }
}

// The TLB with an entry of EntryHi, EntryLo0 and EntryLo1 at index 7 and at Random, 15.
fn written(hi: u32, lo0: u32, lo1: u32) -> Tlb
    ensures { length result ≡ 16 }
{
    let mut tlb = Tlb::boot(Profile::One);
    let mut cp0 = Cp0::boot(Profile::One);
    cp0.write(10, 0, hi);
    cp0.write(2, 0, lo0);
    cp0.write(3, 0, lo1);
    cp0.set_index(0x8000_0007);
    tlb.write_indexed(&cp0);
    tlb.write_random(&cp0);
    tlb
}

// EntryHi, EntryLo0 and EntryLo1 once the entry at an index is read into them.
fn read(tlb: &Tlb, index: u32) -> (u32, u32, u32)
    requires { length tlb.now ≡ 16 }
{
    let mut cp0 = registers(KERNEL, 1);
    cp0.set_index(index);
    tlb.read_indexed(&mut cp0);
    (cp0.entry_hi(), cp0.entry_lo0(), cp0.entry_lo1())
}

// What is written from the registers and read back: C and PFN stay, G is that of both.
static WRITTEN: [(u32, u32, u32, u32, u32); 4] = [
    (
        0xffff_e0ff,
        0x03ff_ffff,
        0x03ff_ffff,
        0x03ff_ffff,
        0x03ff_ffff,
    ),
    (
        0x0040_2005,
        0x0000_0087,
        0x0000_00de,
        0x0000_0086,
        0x0000_00de,
    ),
    (
        0x0040_2005,
        0x0000_0086,
        0x0000_00df,
        0x0000_0086,
        0x0000_00de,
    ),
    (
        0x0000_0000,
        0x0000_0000,
        0x0000_0000,
        0x0000_0000,
        0x0000_0000,
    ),
];

#[test]
fn entries_are_written_and_read(rt: HostRuntime) {
    for row in &WRITTEN {
        let (hi, lo0, lo1, read_lo0, read_lo1) = *row;
        let tlb = written(hi, lo0, lo1);
        let entry = (hi, read_lo0, read_lo1);
        let got = [read(&tlb, 7), read(&tlb, 15), read(&tlb, 6)];
        let wanted = [entry, entry, (0, 0, 0)];
        expect(&rt, ("entries 7, 15 and 6", lo0, lo1), got, wanted);
    }
}

#[test]
fn probe_fails_where_none_matches(rt: HostRuntime) {
    let tlb = Tlb::boot(Profile::One);
    for (hi, index) in [
        (0x0000_0000, 0),
        (0x0000_2000, 0x8000_0000),
        (0x0000_0001, 0x8000_0000),
    ] {
        let mut cp0 = registers(KERNEL, hi);
        tlb.probe_index(&mut cp0);
        expect(&rt, ("EntryHi", hi), cp0.read(0, 0, 0), index);
    }
}

// EntryHi, EntryLo0 and EntryLo1 of an entry.
fn words_of(entry: &Entry) -> (u32, u32, u32) {
    (
        entry.entry_hi(),
        entry.even.entry_lo(true),
        entry.odd.entry_lo(true),
    )
}

#[test]
fn entries_by_index(rt: HostRuntime) {
    let mut tlb = Tlb::boot(Profile::One);
    let even = PageHalf::in_entry_lo(0x0000_009e);
    let first = tlb.read(0);
    let entry = Entry {
        global: true,
        even,
        ..first
    };
    tlb.write(15, entry);
    let read = [tlb.read(15), tlb.read(14)];
    expect(&rt, "entries 15 and 14", read, [entry, tlb.read(0)]);
    let words = words_of(&entry);
    expect(&rt, "the words of entry 15", words, (0, 0x9f, 1));
}
