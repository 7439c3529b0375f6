//! The calls of each store with ample memory and space, the slots of a book, and a digest.
ghost use Rattle.std.specs.Prelude.{◌≡◌, ◌+◌};

use crate::{Damage, Failed, FaultStore, FileStore, MemStore, Op, SlotBook, SwapStore, digest};
use frames::SlotTicket;
use std::fmt::Debug;
use std::fs::{self, File};
use std::process::Abort;
use std::test::Fail;

/// How many slots the stores have.
const SLOTS: u32 = 4;

/// Calls in turn: a write of a page to a slot, or a read that must give it.
const CALLS: [(Op, u32, u8); 10] = [
    (Op::Write, 2, 7),
    (Op::Write, 0, 5),
    (Op::Read, 2, 7),
    (Op::Write, 3, 9),
    (Op::Read, 0, 5),
    (Op::Write, 2, 8),
    (Op::Read, 3, 9),
    (Op::Read, 2, 8),
    (Op::Write, 1, 6),
    (Op::Read, 0, 5),
];

/// Asserts one case. The tests share it, since each assertion in a function's own body makes its proof much longer.
fn expect<C: Debug + Drop, T: PartialEq + Debug + Drop>(
    rt: &impl Abort,
    case: C,
    got: T,
    wanted: T,
) {
    assert!(rt; got == wanted, "{case:?}: {got:?}, not {wanted:?}");
}

/// A page of one byte, but for the first and the last.
fn page_of(byte: u8) -> [u8; 4096] {
    let mut page = [byte; 4096];
    page[0] = byte.wrapping_add(100);
    page[4095] = byte.wrapping_add(200);
    page
}

/// Makes a call; whether it answered `Ok`.
fn made<S: SwapStore>(rt: &impl Abort, store: &mut S, call: (Op, u32, u8)) -> bool {
    let (op, slot, byte) = call;
    if slot >= store.slot_count() {
        panic!(rt; "there is no slot {slot}");
    }
    match op {
        Op::Write => store.write(slot, &page_of(byte)).is_ok(),
        Op::Read => {
            let mut page = [0; 4096];
            match store.read(slot, &mut page) {
                Ok(()) => {
                    expect(rt, call, page == page_of(byte), true);
                    true
                }
                Err(Failed) => false,
            }
        }
    }
}

/// Makes all calls, of which one fails, if any, and then succeeds where it is made again.
fn run<S: SwapStore>(rt: &impl Abort, store: &mut S, failing: Option<usize>) {
    for (i, call) in CALLS.iter().enumerate() {
        let fails = failing == Some(i);
        expect(rt, i, made(rt, store, *call), !fails);
        if fails {
            expect(rt, (i, "again"), made(rt, store, *call), true);
        }
    }
    expect(rt, failing, store.failures(), u64::from(failing.is_some()));
}

/// The stores that fail at a call: which, and at what place it stands.
const FAULTS: [(Op, u64, usize); 4] = [
    (Op::Read, 1, 2),
    (Op::Read, 4, 7),
    (Op::Write, 1, 0),
    (Op::Write, 4, 5),
];

#[test]
fn stores_in_memory(rt: HostRuntime) -> Result<(), Fail> {
    run(&rt, &mut MemStore::new(rt.alloc(), SLOTS)?, None);
    for (op, k, failing) in FAULTS {
        let mut store = FaultStore::new(MemStore::new(rt.alloc(), SLOTS)?, op, k);
        run(&rt, &mut store, Some(failing));
        expect(&rt, op, store.into_store().failures(), 0);
    }
    Ok(())
}

#[test]
fn stores_in_a_file(rt: HostRuntime) -> Result<(), Fail> {
    let path = "stores_in_a_file.swap";
    let mut options = File::options();
    options.read(true).write(true).create(true).truncate(true);
    run(
        &rt,
        &mut FileStore::new(options.open(&rt, path)?, SLOTS),
        None,
    );
    let bytes = fs::read(&rt, path)?;
    expect(&rt, "length", bytes.len(), 4 * 4096);
    for (place, byte) in [(0, 105), (4096, 106), (8191, 206), (8192, 108)] {
        expect(&rt, place, bytes.get(place).copied(), Some(byte));
    }
    for (op, k, failing) in FAULTS {
        let file = options.open(&rt, path)?;
        let mut store = FaultStore::new(FileStore::new(file, SLOTS), op, k);
        run(&rt, &mut store, Some(failing));
    }
    fs::remove_file(&rt, path)?;
    Ok(())
}

#[test]
fn a_medium_that_is_too_short(rt: HostRuntime) -> Result<(), Fail> {
    let medium = vec![in rt.alloc(); 0; 2 * 4096]?;
    let mut store = FileStore::new(medium, SLOTS);
    expect(
        &rt,
        "within",
        made(&rt, &mut store, (Op::Write, 1, 3)),
        true,
    );
    expect(
        &rt,
        "beyond",
        made(&rt, &mut store, (Op::Write, 2, 3)),
        false,
    );
    expect(
        &rt,
        "beyond",
        made(&rt, &mut store, (Op::Read, 3, 3)),
        false,
    );
    expect(
        &rt,
        "still there",
        made(&rt, &mut store, (Op::Read, 1, 3)),
        true,
    );
    expect(&rt, "failures", store.failures(), 2);
    let medium = store.into_medium();
    expect(&rt, "4096", medium.get(4096).copied(), Some(103));
    expect(&rt, "4095", medium.get(4095).copied(), Some(0));
    Ok(())
}

/// Damages a byte of slot 1; whether the store has that slot.
fn damaged<S: Damage>(rt: &impl Abort, store: &mut S, byte: u32) {
    if store.slot_count() < 2 || byte >= 4096 {
        panic!(rt; "there is no byte {byte} of slot 1");
    }
    if store.damage(1, byte).is_err() {
        panic!(rt; "no memory to damage byte {byte}");
    }
}

/// The bytes of slot 1 that are not those of a page.
fn differences<S: SwapStore>(rt: &impl Abort, store: &mut S, page: &[u8; 4096]) -> usize {
    let mut got = [0; 4096];
    if store.slot_count() < 2 || store.read(1, &mut got).is_err() {
        panic!(rt; "slot 1 is not read");
    }
    got.iter().zip(page).filter(|(a, b)| *a != *b).count()
}

#[test]
fn damage_of_a_byte(rt: HostRuntime) -> Result<(), Fail> {
    let memory = MemStore::new(rt.alloc(), SLOTS)?;
    let mut store = FaultStore::new(memory, Op::Write, 2);
    expect(
        &rt,
        "written",
        made(&rt, &mut store, (Op::Write, 1, 3)),
        true,
    );
    damaged(&rt, &mut store, 17);
    let mut page = page_of(3);
    expect(&rt, "one", differences(&rt, &mut store, &page), 1);
    page[17] = 252;
    expect(&rt, "that one", differences(&rt, &mut store, &page), 0);
    damaged(&rt, &mut store, 17);
    expect(&rt, "none", differences(&rt, &mut store, &page_of(3)), 0);
    expect(&rt, "no failure", store.failures(), 0);
    Ok(())
}

fn taken(rt: &impl Abort, book: &mut SlotBook, number: u32) -> SlotTicket
    ensures { book.new.out ≡ book.old.out + 1 }
{
    match book.take() {
        Some(slot) => {
            expect(rt, "slot", slot.number(), number);
            slot
        }
        None => panic!(rt; "slot {number} is not free"),
    }
}

#[test]
fn the_lowest_slot_comes_first(rt: HostRuntime) -> Result<(), Fail> {
    let mut book = SlotBook::new(rt.alloc(), 3)?;
    let first = taken(&rt, &mut book, 0);
    let second = taken(&rt, &mut book, 1);
    let third = taken(&rt, &mut book, 2);
    match book.take() {
        Some(slot) => panic!(rt; "slot {} is free", slot.close()),
        None => {}
    }
    expect(&rt, "used", (book.used(), book.total()), (3, 3));
    book.give(third);
    book.give(first);
    expect(&rt, "used", (book.used(), book.total()), (1, 3));
    let again = taken(&rt, &mut book, 0);
    let last = taken(&rt, &mut book, 2);
    book.give(second);
    book.give(last);
    book.give(again);
    book.close();
    let large = SlotBook::new(rt.alloc(), 131_072)?;
    let total = large.total();
    large.close();
    expect(&rt, "total", total, 131_072);
    Ok(())
}

#[test]
fn a_digest(rt: HostRuntime) {
    // FIPS 180-4, the example of one block
    let wanted: [u8; 32] = [
        0xba, 0x78, 0x16, 0xbf, 0x8f, 0x01, 0xcf, 0xea, 0x41, 0x41, 0x40, 0xde, 0x5d, 0xae, 0x22,
        0x23, 0xb0, 0x03, 0x61, 0xa3, 0x96, 0x17, 0x7a, 0x9c, 0xb4, 0x10, 0xff, 0x61, 0xf2, 0x00,
        0x15, 0xad,
    ];
    expect(&rt, "abc", digest(b"abc"), wanted);
}
