//! Pages that come and go over one pool, a store in memory and a table of shared frames; the books are exact after each move.
ghost use Rattle.std.specs.Prelude.{◌≡◌, ℕ, ◌<◌, [], ◌∷◌, None, length, replicate};
ghost use Rattle.frames.specs.Counts.{count_of, below};
ghost use Rattle.guest_pages.specs.declared.page.Page.TheVariants.{Zero};
ghost use Rattle.page_moves.specs.Books.{Books};

use crate::{SupplyError, evict_in, store_first, supply_first, supply_swapped};
use framepool::Pool;
use guest_pages::{GuestPages, PageKind};
use sharetab::Shares;
use std::alloc::Global;
use std::fmt::Debug;
use std::process::Abort;
use swapstore::{Damage, FaultStore, MemStore, Op, SlotBook, SwapStore};
use word32::Ppn;

/// Asserts one case. The tests share it, since each assertion in a function's own body makes its proof much longer.
fn expect<T: PartialEq + Debug + Drop>(rt: &impl Abort, case: &'static str, got: T, wanted: T) {
    assert!(rt; got == wanted, "{case}: {got:?}, not {wanted:?}");
}

/// Four pages, three frames and two slots.
struct Parts<S> {
    map: GuestPages,
    pool: Pool,
    slots: SlotBook,
    shares: Shares,
    store: S,
}

fn new_map(rt: &impl Abort, alloc: Global) -> GuestPages
    ensures { result ≡ replicate 4 Zero }
{
    match GuestPages::new(alloc, 4) {
        Ok(map) => map,
        Err(_) => panic!(rt; "no memory for the pages"),
    }
}

fn new_pool(rt: &impl Abort, alloc: Global) -> Pool
    ensures each_once { (k : ℕ) → count_of k result.free ≡ below k 3 }
    ensures none_out { result.out ≡ 0 }
{
    match Pool::new(alloc, 3) {
        Ok(pool) => pool,
        Err(_) => panic!(rt; "no memory for the pool"),
    }
}

fn new_slots(rt: &impl Abort, alloc: Global) -> SlotBook
    ensures each_once { (k : ℕ) → count_of k result.free ≡ below k 2 }
    ensures none_used { result.out ≡ 0 }
{
    match SlotBook::new(alloc, 2) {
        Ok(slots) => slots,
        Err(_) => panic!(rt; "no memory for the slots"),
    }
}

fn new_shares(rt: &impl Abort, alloc: Global) -> Shares
    ensures { result.entries ≡ replicate 3 None }
{
    match Shares::new(alloc, 3) {
        Ok(shares) => shares,
        Err(_) => panic!(rt; "no memory for the table"),
    }
}

fn new_store(rt: &impl Abort, alloc: Global) -> MemStore {
    match MemStore::new(alloc, 2) {
        Ok(store) => store,
        Err(_) => panic!(rt; "no memory for the store"),
    }
}

fn started<S>(rt: &impl Abort, alloc: Global, store: S) -> Parts<S>
    ensures { Books 3 2 (result.map ∷ []) result.shares.entries result.pool result.slots }
{
    Parts {
        map: new_map(rt, alloc),
        pool: new_pool(rt, alloc),
        slots: new_slots(rt, alloc),
        shares: new_shares(rt, alloc),
        store,
    }
}

fn closed<S: Drop>(parts: Parts<S>) {
    let Parts {
        map,
        pool,
        slots,
        shares,
        store: _,
    } = parts;
    map.close();
    pool.close();
    slots.close();
    shares.close();
}

/// A page that is there.
fn page(rt: &impl Abort, map: &GuestPages, p: u32) -> Ppn
    ensures { result < length map.now }
{
    if p >= 4 {
        panic!(rt; "no page {p}");
    }
    if p >= map.len() {
        panic!(rt; "no page {p}");
    }
    Ppn::new(p)
}

/// A page gets a frame of zeros.
fn first(rt: &impl Abort, alloc: Global, parts: &mut Parts<MemStore>, p: u32)
    requires { Books 3 2 (parts.old.map ∷ []) parts.old.shares.entries parts.old.pool parts.old.slots }
    ensures { Books 3 2 (parts.new.map ∷ []) parts.new.shares.entries parts.new.pool parts.new.slots }
{
    let page = page(rt, &parts.map, p);
    match parts.map.kind(page) {
        PageKind::Zero => {}
        other => panic!(rt; "page {p} is {other:?}"),
    }
    let Some(no) = parts.pool.take() else {
        panic!(rt; "no frame is free");
    };
    match supply_first(alloc, &mut parts.map, page, no) {
        Ok(()) => {}
        Err(no) => panic!(rt; "no memory for frame {}", no.close()),
    }
}

/// A resident page goes to the lowest slot that is free, and the frame that came free to the pool. Whether one did.
fn evicted(rt: &impl Abort, parts: &mut Parts<MemStore>, p: u32) -> bool
    requires { Books 3 2 (parts.old.map ∷ []) parts.old.shares.entries parts.old.pool parts.old.slots }
    ensures { Books 3 2 (parts.new.map ∷ []) parts.new.shares.entries parts.new.pool parts.new.slots }
{
    let page = page(rt, &parts.map, p);
    if !parts.map.kind(page).is_resident() {
        panic!(rt; "page {p} is in no frame");
    }
    let Some(slot) = parts.slots.take() else {
        panic!(rt; "no slot is free");
    };
    if slot.number() >= parts.store.slot_count() {
        panic!(rt; "no slot {}", slot.close());
    }
    match evict_in(
        &mut parts.map,
        page,
        slot,
        &mut parts.store,
        &mut parts.shares,
    ) {
        Ok(Some(no)) => {
            parts.pool.give(no);
            true
        }
        Ok(None) => false,
        Err(slot) => panic!(rt; "slot {} is not written", slot.close()),
    }
}

/// A page that was never touched goes to the lowest slot that is free, with these bytes. Where the slot is not written, it is
/// free again. Whether the page went.
fn stored<S: SwapStore>(rt: &impl Abort, parts: &mut Parts<S>, p: u32, bytes: &[u8; 4096]) -> bool
    requires { Books 3 2 (parts.old.map ∷ []) parts.old.shares.entries parts.old.pool parts.old.slots }
    ensures { Books 3 2 (parts.new.map ∷ []) parts.new.shares.entries parts.new.pool parts.new.slots }
{
    let page = page(rt, &parts.map, p);
    match parts.map.kind(page) {
        PageKind::Zero => {}
        other => panic!(rt; "page {p} is {other:?}"),
    }
    let Some(slot) = parts.slots.take() else {
        panic!(rt; "no slot is free");
    };
    if slot.number() >= parts.store.slot_count() {
        panic!(rt; "no slot {}", slot.close());
    }
    match store_first(&mut parts.map, page, bytes, slot, &mut parts.store) {
        Ok(()) => true,
        Err(slot) => {
            parts.slots.give(slot);
            false
        }
    }
}

/// A page comes back from its slot, or not.
fn back(
    rt: &impl Abort,
    alloc: Global,
    parts: &mut Parts<MemStore>,
    p: u32,
) -> Result<(), SupplyError>
    requires { Books 3 2 (parts.old.map ∷ []) parts.old.shares.entries parts.old.pool parts.old.slots }
    ensures { Books 3 2 (parts.new.map ∷ []) parts.new.shares.entries parts.new.pool parts.new.slots }
{
    let page = page(rt, &parts.map, p);
    match parts.map.kind(page) {
        PageKind::Swapped => {}
        other => panic!(rt; "page {p} is {other:?}"),
    }
    let (slot, _digest) = parts.map.away(page);
    if slot >= parts.store.slot_count() {
        panic!(rt; "no slot {slot}");
    }
    let Some(no) = parts.pool.take() else {
        panic!(rt; "no frame is free");
    };
    match supply_swapped(alloc, &mut parts.map, page, no, &mut parts.store) {
        Ok(slot) => {
            parts.slots.give(slot);
            Ok(())
        }
        Err((no, error)) => {
            parts.pool.give(no);
            Err(error)
        }
    }
}

/// All bits of the first byte of slot 0 are inverted.
fn damage(rt: &impl Abort, store: &mut MemStore) {
    if store.slot_count() == 0 {
        panic!(rt; "no slot");
    }
    if store.damage(0, 0).is_err() {
        panic!(rt; "no memory to damage slot 0");
    }
}

/// Whether a page is in a frame and has these bytes.
fn shows<S>(rt: &impl Abort, parts: &Parts<S>, p: u32, bytes: &[u8; 4096]) -> bool {
    match parts.map.peek(page(rt, &parts.map, p)) {
        Some(shown) => shown == bytes.as_slice(),
        None => false,
    }
}

/// A page whose bytes differ at both ends and between.
fn some_bytes() -> [u8; 4096] {
    let mut bytes = [0x5a; 4096];
    bytes[0] = 1;
    bytes[4095] = 2;
    bytes
}

/// How many frames are free, how many pages are private, shared and swapped, how many entries and tickets there are, and how
/// many slots are used.
fn counts<S>(parts: &Parts<S>) -> ([u32; 6], u64) {
    let counts = [
        parts.pool.free(),
        parts.map.private(),
        parts.map.shared(),
        parts.map.swapped(),
        parts.shares.shared(),
        parts.slots.used(),
    ];
    (counts, parts.shares.tickets())
}

#[test]
fn a_page_goes_to_a_slot_and_comes_back(rt: HostRuntime) {
    let mut parts = started(&rt, rt.alloc(), new_store(&rt, rt.alloc()));
    first(&rt, rt.alloc(), &mut parts, 0);
    first(&rt, rt.alloc(), &mut parts, 3);
    let free = evicted(&rt, &mut parts, 3);
    expect(&rt, "its frame came free", free, true);
    expect(&rt, "in a slot", counts(&parts), ([2, 1, 0, 1, 0, 1], 0));

    damage(&rt, &mut parts.store);
    let answer = back(&rt, rt.alloc(), &mut parts, 3);
    let damaged = Err(SupplyError::SwapDamaged);
    expect(&rt, "damaged", answer, damaged);
    expect(&rt, "still there", counts(&parts), ([2, 1, 0, 1, 0, 1], 0));
    damage(&rt, &mut parts.store);
    let answer = back(&rt, rt.alloc(), &mut parts, 3);
    expect(&rt, "undamaged", answer, Ok(()));
    expect(&rt, "back", counts(&parts), ([1, 2, 0, 0, 0, 0], 0));
    closed(parts);
}

#[test]
fn a_page_begins_in_a_slot_and_comes_back(rt: HostRuntime) {
    let mut parts = started(&rt, rt.alloc(), new_store(&rt, rt.alloc()));
    let went = stored(&rt, &mut parts, 2, &some_bytes());
    expect(&rt, "written", went, true);
    expect(&rt, "in a slot", counts(&parts), ([3, 0, 0, 1, 0, 1], 0));
    let answer = back(&rt, rt.alloc(), &mut parts, 2);
    expect(&rt, "supplied", answer, Ok(()));
    expect(&rt, "in a frame", counts(&parts), ([2, 1, 0, 0, 0, 0], 0));
    let same = shows(&rt, &parts, 2, &some_bytes());
    expect(&rt, "its bytes", same, true);
    closed(parts);
}

#[test]
fn a_slot_that_is_not_written_comes_back(rt: HostRuntime) {
    let store = FaultStore::new(new_store(&rt, rt.alloc()), Op::Write, 1);
    let mut parts = started(&rt, rt.alloc(), store);
    let went = stored(&rt, &mut parts, 2, &some_bytes());
    expect(&rt, "not written", went, false);
    expect(&rt, "untouched", counts(&parts), ([3, 0, 0, 0, 0, 0], 0));
    expect(&rt, "one failure", parts.store.failures(), 1);
    let went = stored(&rt, &mut parts, 2, &some_bytes());
    expect(&rt, "written", went, true);
    expect(&rt, "in a slot", counts(&parts), ([3, 0, 0, 1, 0, 1], 0));
    closed(parts);
}
