//! Two owners of slots of one store, which is written to, read and freed.
ghost use Rattle.std.specs.Prelude.{◌≡◌, ℕ, ◌+◌, ◌<◌, [], ◌∷◌, IfSome, IfNone, IsSome, OnOk, IfOk, Some, true, List, length};
ghost use Rattle.sha2.specs.Sha256.{sha256};
ghost use Rattle.frames.specs.Counts.{one_at, count_of, below};
ghost use Rattle.swapstore.specs.Holding.{AreHeld, AreHeldByDigest, AllStay, OthersStay};
ghost use Rattle.slot_contents.specs.Contents.{slots_of, written_to, without};
ghost use Rattle.slot_contents.specs.Shares.{IsOwners, IsStores, owner_share, store_share, its_written, its_free};

use crate::{Bytes, ContentShare, Contents, Owners, deal, failed, freed, meet, read, wrote};
use frames::SlotTicket;
use std::alloc::{AllocError, Global};
use std::fmt::Debug;
use std::marker::Brand;
use std::process::Abort;
use std::snapshot::Snapshot;
use std::test::Fail;
use swapstore::{FaultStore, MemStore, Op, SlotBook, SwapStore};

// A store with its free slots.
struct Swap<S> {
    store: S,
    book: SlotBook,
    share: ContentShare,
}

fn note_as<S: SwapStore, B: Bytes>(
    contents: &Contents,
    owner: &mut ContentShare,
    swap: &mut Swap<S>,
    slot: u32,
    before: &Snapshot<S>,
    bytes: &[u8],
)
    requires owner { IsOwners contents.now.id owner.old }
    requires swap { IsStores contents.now (S.held before.now.value) swap.old.share }
    requires taken { (k : ℕ) → count_of k (its_free swap.old.share) ≡ count_of k swap.old.book.free + one_at k slot }
    requires others { OthersStay slot (S.held before.now.value) (S.held swap.old.store) }
    requires written { AreHeld (S.held swap.old.store slot) bytes.now }
    requires bytes { B.bytes ≡ bytes.now }
    ensures owner { owner.new ≡ owner_share contents.now.id (record { slot = slot; bytes = bytes.now } ∷ its_written owner.old) }
    ensures share { swap.new.share ≡ store_share contents.now (S.held swap.new.store) swap.new.book.free }
    ensures swap { (swap.new.store ≡ swap.old.store) × (swap.new.book ≡ swap.old.book) }
{
    let _ = bytes;
    wrote::<S, B>(
        contents,
        owner,
        &mut swap.share,
        slot,
        before,
        &swap.store,
        &swap.book,
    );
}

fn note<S: SwapStore>(
    contents: &Contents,
    owner: &mut ContentShare,
    swap: &mut Swap<S>,
    slot: u32,
    before: &Snapshot<S>,
    bytes: &[u8],
)
    requires owner { IsOwners contents.now.id owner.old }
    requires swap { IsStores contents.now (S.held before.now.value) swap.old.share }
    requires taken { (k : ℕ) → count_of k (its_free swap.old.share) ≡ count_of k swap.old.book.free + one_at k slot }
    requires others { OthersStay slot (S.held before.now.value) (S.held swap.old.store) }
    requires written { AreHeld (S.held swap.old.store slot) bytes.now }
    ensures owner { owner.new ≡ owner_share contents.now.id (record { slot = slot; bytes = bytes.now } ∷ its_written owner.old) }
    ensures share { swap.new.share ≡ store_share contents.now (S.held swap.new.store) swap.new.book.free }
    ensures swap { (swap.new.store ≡ swap.old.store) × (swap.new.book ≡ swap.old.book) }
{
    note_as::<S, Brand>(contents, owner, swap, slot, before, bytes);
}

// A slot that was taken is free again, where a write to it failed.
fn put_back<S: SwapStore>(
    contents: &Contents,
    swap: &mut Swap<S>,
    slot: SlotTicket,
    before: &Snapshot<S>,
)
    requires share { IsStores contents.now (S.held before.now.value) swap.old.share }
    requires taken { (k : ℕ) → count_of k (its_free swap.old.share) ≡ count_of k swap.old.book.free + one_at k slot }
    requires out { 0 < swap.old.book.out }
    requires others { OthersStay slot (S.held before.now.value) (S.held swap.old.store) }
    ensures share { swap.new.share ≡ store_share contents.now (S.held swap.new.store) swap.new.book.free }
    ensures store { swap.new.store ≡ swap.old.store }
{
    let number = slot.number();
    swap.book.give(slot);
    failed(
        contents,
        &mut swap.share,
        number,
        before,
        &swap.store,
        &swap.book,
    );
}

// An owner writes a page to the free slot of the lowest number; None where there is none, or the store fails.
fn write<S: SwapStore>(
    contents: &Contents,
    owner: &mut ContentShare,
    swap: &mut Swap<S>,
    page: &[u8],
) -> Option<SlotTicket>
    requires owner { IsOwners contents.now.id owner.old }
    requires share { swap.old.share ≡ store_share contents.now (S.held swap.old.store) swap.old.book.free }
    requires page { length page.now ≡ 4096 }
    ensures share { swap.new.share ≡ store_share contents.now (S.held swap.new.store) swap.new.book.free }
    ensures owner { IfSome result (λ slot. owner.new ≡ owner_share contents.now.id (record { slot = slot; bytes = page.now } ∷ its_written owner.old)) }
    ensures none { IfNone result (owner.new ≡ owner.old) }
    ensures out { IsSome result → 0 < swap.new.book.out }
{
    let before = Snapshot::of(&swap.store);
    let Some(slot) = swap.book.take() else {
        return None;
    };
    let number = slot.number();
    if number >= swap.store.slot_count() {
        put_back(contents, swap, slot, &before);
        return None;
    }
    match swap.store.write(number, page) {
        Ok(()) => {
            note(contents, owner, swap, number, &before, page);
            Some(slot)
        }
        Err(_) => {
            put_back(contents, swap, slot, &before);
            None
        }
    }
}

// Whether a slot was read.
fn read_slot<S: SwapStore>(store: &mut S, slot: u32, page: &mut [u8]) -> bool
    requires page { length page.old ≡ 4096 }
    ensures known { result ≡ true → S.true_to_digests store.old → IsSome (S.held store.old slot) }
    ensures read { result ≡ true → S.true_to_digests store.old → AreHeldByDigest (S.held store.old slot) page.new }
    ensures held { AllStay (S.held store.old) (S.held store.new) }
{
    if slot >= store.slot_count() {
        return false;
    }
    store.read(slot, page).is_ok()
}

// A slot of an owner is read, and is free then. Of a store that is true to digests the bytes are those that were written, where they have
// their SHA-256.
fn read_back<S: SwapStore>(
    contents: &Contents,
    owner: &mut ContentShare,
    swap: &mut Swap<S>,
    slot: SlotTicket,
    page: &mut [u8],
) -> bool
    requires owner { IsOwners contents.now.id owner.old }
    requires share { swap.old.share ≡ store_share contents.now (S.held swap.old.store) swap.old.book.free }
    requires its_own { 0 < count_of slot (slots_of (its_written owner.old)) }
    requires out { 0 < swap.old.book.out }
    requires page { length page.old ≡ 4096 }
    ensures share { swap.new.share ≡ store_share contents.now (S.held swap.new.store) swap.new.book.free }
    ensures owner { owner.new ≡ owner_share contents.now.id (without slot (its_written owner.old)) }
    ensures bytes { result ≡ true → S.true_to_digests swap.old.store → (last : List ℕ) → written_to (its_written owner.old) slot ≡ Some last →
        sha256 page.new ≡ sha256 last → page.new ≡ last }
{
    let before = Snapshot::of(&swap.store);
    let number = slot.number();
    meet(contents, owner, &mut swap.share, &swap.store);
    let is_read = read_slot(&mut swap.store, number, page);
    read(contents, &mut swap.share, &before, &swap.store);
    swap.book.give(slot);
    freed(
        contents,
        owner,
        &mut swap.share,
        number,
        &swap.store,
        &swap.book,
    );
    is_read
}

// Two owners with no slot.
struct TwoWithout;

impl Owners for TwoWithout {
    ghost use Rattle.std.specs.Prelude.{[], ◌∷◌};

    ghost slots = { [] ∷ [] ∷ [] };
}

// Asserts one case.
fn expect<T: PartialEq + Debug + Drop>(rt: &impl Abort, case: &'static str, got: T, wanted: T) {
    assert!(rt; got == wanted, "{case}: {got:?}, not {wanted:?}");
}

// The contents of a store, and two owners with no slot.
struct Shares {
    contents: Contents,
    store: ContentShare,
    one: ContentShare,
    two: ContentShare,
}

fn two_owners<S: SwapStore>(
    alloc: Global,
    slots: u32,
    store: &S,
    book: &SlotBook,
) -> Result<Shares, AllocError>
    requires free { (k : ℕ) → count_of k book.now.free ≡ below k slots }
    ensures store { IfOk result (λ made. made.store ≡ store_share made.contents (S.held store.now) book.now.free) }
    ensures one { IfOk result (λ made. made.one ≡ owner_share made.contents.id []) }
    ensures two { IfOk result (λ made. made.two ≡ owner_share made.contents.id []) }
{
    let (contents, mut all) = deal::<S, TwoWithout>(alloc, slots, store, book)?;
    let mut held = contents.part(&mut all);
    let mut share = contents.part(&mut all);
    contents.lend(&mut share, &mut held);
    let one = contents.part(&mut all);
    let two = contents.part(&mut all);
    Ok(Shares {
        contents,
        store: share,
        one,
        two,
    })
}

// A page of one byte again and again goes to a slot and comes back: the first byte that comes, or that nothing came.
fn there_and_back<S: SwapStore>(
    contents: &Contents,
    owner: &mut ContentShare,
    swap: &mut Swap<S>,
    byte: u8,
) -> Option<u8>
    requires owner { IsOwners contents.now.id owner.old }
    requires share { swap.old.share ≡ store_share contents.now (S.held swap.old.store) swap.old.book.free }
    ensures share { swap.new.share ≡ store_share contents.now (S.held swap.new.store) swap.new.book.free }
    ensures owner { IsOwners contents.now.id owner.new }
{
    let Some(slot) = write(contents, owner, swap, &[byte; 4096]) else {
        return None;
    };
    let mut page = [0; 4096];
    let is_read = read_back(contents, owner, swap, slot, &mut page);
    if is_read { Some(page[0]) } else { None }
}

// The answers of each owner's page, over a store of two slots.
fn answers<S: SwapStore + Drop>(
    rt: &impl Abort,
    alloc: Global,
    store: S,
) -> (Option<u8>, Option<u8>) {
    let Ok(book) = SlotBook::new(alloc, 2) else {
        panic!(rt; "no memory for the slots");
    };
    let Ok(shares) = two_owners(alloc, 2, &store, &book) else {
        book.close();
        panic!(rt; "no memory for the contents");
    };
    let Shares {
        contents,
        store: share,
        mut one,
        mut two,
    } = shares;
    let mut swap = Swap { store, book, share };
    let first = there_and_back(&contents, &mut one, &mut swap, 7);
    let second = there_and_back(&contents, &mut two, &mut swap, 9);
    let Swap {
        store: _,
        book,
        share: _,
    } = swap;
    book.close();
    (first, second)
}

#[test]
fn pages_go_to_slots_and_come_back(rt: HostRuntime) -> Result<(), Fail> {
    let alloc = rt.alloc();
    let store = MemStore::new(alloc, 2)?;
    expect(
        &rt,
        "each page",
        answers(&rt, alloc, store),
        (Some(7), Some(9)),
    );
    let store = FaultStore::new(MemStore::new(alloc, 2)?, Op::Write, 1);
    expect(
        &rt,
        "a write fails",
        answers(&rt, alloc, store),
        (None, Some(9)),
    );
    let store = FaultStore::new(MemStore::new(alloc, 2)?, Op::Read, 2);
    expect(
        &rt,
        "a read fails",
        answers(&rt, alloc, store),
        (Some(7), None),
    );
    Ok(())
}
