//! Machine memory that takes over what lies around guests.
ghost use Rattle.std.specs.Prelude.{◌≡◌, ◌+◌, ◌<◌, ◌≤◌, ◌^◌, ℕ, List, [], ◌∷◌, ◌++◌, IfOk, IfErr, OnOk, length, map, take, drop, sum_by, vec_capacity};
ghost use Rattle.std.specs.List.{range_with_len};
ghost use Rattle.guest_pages.specs.Outline.{outline};
ghost use Rattle.page_moves.specs.Books.{Books as AreExact};
ghost use Rattle.accounts.specs.declared.account.Account.{Account};
ghost use Rattle.accounts.specs.declared.account.Account.TheVariants as account;
ghost use Rattle.frames.specs.Counts.{count_of, below};
ghost use Rattle.slot_contents.specs.declared.content.Content.{Content};
ghost use Rattle.slot_contents.specs.declared.content.Content.TheVariants as content;
ghost use Rattle.slot_contents.specs.Held.{listed};
ghost use Rattle.slot_contents.specs.Shares.{store_share};
ghost use Rattle.machine_memory.specs.Dealt.{slots_in, guest_part};
ghost use Rattle.shared_pool.specs.Balance.{hand, all_parts};
ghost use Rattle.machine_memory.specs.Memories.{IsPassOf, AreLevel};

use crate::{Gathered, MachineMemory, Stake};
use accounts::{BookShare, Books, Extent};
use framepool::Pool;
use keyed_lock::KeyedLock;
use lent_pages::{Swap, SwapKey, Table, TableKey};
use page_moves::Pages;
use shared_pool::{PoolPass, SharedPool};
use sharetab::Shares;
use slot_contents::{ContentShare, Contents, Owners};
use std::alloc::{AllocError, Global};
use std::marker::Brand;
use std::snapshot::Snapshot;
use std::sync::Wait;
use swapstore::{SlotBook, SwapStore};

/// What lies around guests while one thread has it.
pub struct Around<S> {
    /// How many frames there are.
    pub frames: u32,
    /// The free frames.
    pub pool: Pool,
    /// The free slots.
    pub slots: SlotBook,
    /// The shared frames.
    pub shares: Shares,
    /// The store of the pages that are in slots.
    pub store: S,
}

/// Machine memory, and what is to be handed out of it.
#[derive(Drop)]
pub struct Booted<S: SwapStore + Drop> {
    /// The memory.
    pub memory: MachineMemory<S>,
    /// A stake for each guest, in the order of the guests.
    pub stakes: Vec<Stake>,
    /// A pass of the pool, of whoever has no guest.
    pub pass: PoolPass,
    /// No account, of whoever comes to gather those of all guests.
    pub gathered: Gathered,
}

// What asks for memory, but for the locks, before anything is taken over.
#[derive(Drop)]
struct Room {
    extent: Extent,
    books: Books,
    accounts: BookShare,
    contents: Contents,
    written: ContentShare,
    pool: SharedPool,
    pass: PoolPass,
    stakes: Vec<Stake>,
}

fn deal_contents_as<P: Pages, S: SwapStore, O: Owners>(
    alloc: Global,
    guests: &[P],
    store: &S,
    book: &SlotBook,
) -> Result<(Contents, ContentShare), AllocError>
    requires apart { (k : ℕ) → count_of k book.now.free + sum_by (count_of k) O.slots ≤ below k (S.slots store.now) }
    requires owners { O.slots ≡ map (λ g. slots_in (P.pages g)) guests.now }
    ensures key { IfOk result (λ made. made.0.key ≡ S.slots store.now) }
    ensures parts { IfOk result (λ made. made.1 ≡ record {
      ledger = made.0.id;
      parts = content.Store (listed made.0.key (S.held store.now)) ∷ content.Free book.now.free ∷ map (λ g. guest_part (S.held store.now) (P.pages g)) guests.now;
    }) }
{
    let _ = guests;
    let (contents, written) = slot_contents::deal::<S, O>(alloc, store.slot_count(), store, book)?;
    Ok((contents, written))
}

// What was written to the slots: what the store holds, of each guest in order.
fn deal_contents<P: Pages, S: SwapStore>(
    alloc: Global,
    guests: &[P],
    store: &S,
    book: &SlotBook,
) -> Result<(Contents, ContentShare), AllocError>
    requires apart { (k : ℕ) → count_of k book.now.free + sum_by (count_of k) (map (λ g. slots_in (P.pages g)) guests.now) ≤ below k (S.slots store.now) }
    ensures key { IfOk result (λ made. made.0.key ≡ S.slots store.now) }
    ensures parts { IfOk result (λ made. made.1 ≡ record {
      ledger = made.0.id;
      parts = content.Store (listed made.0.key (S.held store.now)) ∷ content.Free book.now.free ∷ map (λ g. guest_part (S.held store.now) (P.pages g)) guests.now;
    }) }
{
    deal_contents_as::<P, S, Brand>(alloc, guests, store, book)
}

// The store's share, with the free slots; those of the guests are left.
#[tactic(auto, using(crate::proofs::Dealing::two_first, crate::proofs::Stakes::left_after))]
fn store_part(contents: &Contents, written: &mut ContentShare) -> ContentShare
    requires { written.old.ledger ≡ contents.now.id }
    ensures written { written.new ≡ record written.old { parts = drop 2 written.old.parts } }
    ensures store { result ≡ record written.old { parts = take 2 written.old.parts } }
{
    let mut held = contents.part(written);
    let mut share = contents.part(written);
    contents.lend(&mut share, &mut held);
    share
}

// The accounts lie in one share, no frame in the pool, and no stake in the list, which has room for all.
fn make_room<P: Pages, S: SwapStore>(
    alloc: Global,
    guests: &[P],
    around: &Around<S>,
) -> Result<Room, AllocError>
    requires some { 0 < around.now.frames }
    requires few { length guests.now < 2 ^ 32 }
    requires exact { AreExact around.now.frames (S.slots around.now.store) (map P.pages guests.now) around.now.shares.entries around.now.pool around.now.slots }
    ensures extent { IfOk result (λ room. room.extent ≡ room.books.key) }
    ensures key { IfOk result (λ room. room.books.key ≡ record { guests = length guests.now; frames = around.now.frames; slots = S.slots around.now.store }) }
    ensures accounts { IfOk result (λ room. room.accounts ≡ record {
      ledger = room.books.id;
      parts = account.Slots around.now.slots ∷ account.Table around.now.shares.entries ∷
          (map (λ g. account.Guest (outline (P.pages g))) guests.now ++ map account.Frame around.now.pool.free);
    }) }
    ensures written { IfOk result (λ room. room.written ≡ record {
      ledger = room.contents.id;
      parts = content.Store (listed room.contents.key (S.held around.now.store)) ∷ content.Free around.now.slots.free ∷
          map (λ g. guest_part (S.held around.now.store) (P.pages g)) guests.now;
    }) }
    ensures pool { IfOk result (λ room. room.pass.pool ≡ room.pool.id) }
    ensures hand { IfOk result (λ room. room.pass.hand ≡ hand all_parts (range_with_len 0 around.now.frames) [] (range_with_len 0 around.now.frames) room.books.id) }
    ensures stakes { IfOk result (λ room. (room.stakes.items ≡ []) × (vec_capacity room.stakes ≡ length guests.now)) }
{
    let extent = Extent {
        guests: guests.len() as u32,
        frames: around.frames,
        slots: around.store.slot_count(),
    };
    let (books, accounts) = accounts::deal(
        alloc,
        extent,
        guests,
        &around.shares,
        &around.pool,
        &around.slots,
    )?;
    let (contents, written) = deal_contents(alloc, guests, &around.store, &around.slots)?;
    let (pool, pass) = SharedPool::new(alloc, around.frames, &books)?;
    let stakes = Vec::with_capacity(alloc, guests.len())?;
    Ok(Room {
        extent,
        books,
        accounts,
        contents,
        written,
        pool,
        pass,
        stakes,
    })
}

// What comes under the locks.
struct Lots<S> {
    slots: SlotBook,
    shares: Shares,
    store: S,
}

// The shared frames are under a lock, and so are the slots with their store; their accounts, which come first, go with them.
fn lock_up<S: SwapStore + Drop, R: Wait>(
    rt: &R,
    alloc: Global,
    books: Books,
    contents: Contents,
    pool: SharedPool,
    extent: Extent,
    accounts: &mut BookShare,
    written: &mut ContentShare,
    lots: Lots<S>,
) -> Result<MachineMemory<S>, Lots<S>>
    requires size { S.slots lots.store ≡ books.key.slots }
    requires extent { extent ≡ books.key }
    requires accounts { (more : List Account) × (accounts.old ≡ record { ledger = books.id; parts = account.Slots lots.slots ∷ account.Table lots.shares.entries ∷ more }) }
    requires written { (more : List Content) × (written.old ≡ record { ledger = contents.id; parts = content.Store (listed contents.key (S.held lots.store)) ∷ content.Free lots.slots.free ∷ more }) }
    ensures memory { IfOk result (λ memory. memory ≡ record { books = books; contents = contents; pool = pool; first = lots.store }) }
    ensures written { written.new ≡ record written.old { parts = drop 2 written.old.parts } }
    ensures accounts { accounts.new ≡ record accounts.old { parts = drop 2 accounts.old.parts } }
    ensures back { IfErr result (λ back. (back.slots ≡ lots.slots) × (back.store ≡ lots.store)) }
{
    let Lots {
        slots,
        shares,
        store,
    } = lots;
    let slots_account = books.part(accounts);
    let table_account = books.part(accounts);
    let held = store_part(&contents, written);
    let table_key = TableKey {
        books: Snapshot::of(&books),
    };
    let swap_key = SwapKey {
        books: Snapshot::of(&books),
        contents: Snapshot::of(&contents),
        first: Snapshot::of(&store),
    };
    let table = Table {
        shares,
        share: table_account,
    };
    let table = match KeyedLock::new(alloc, table, &table_key) {
        Ok(lock) => lock,
        Err(Table { shares, share: _ }) => {
            return Err(Lots {
                slots,
                shares,
                store,
            });
        }
    };
    let swap = Swap {
        slots,
        store,
        share: slots_account,
        contents: held,
    };
    match KeyedLock::new(alloc, swap, &swap_key) {
        Ok(swap) => Ok(MachineMemory {
            books,
            contents,
            pool,
            table,
            swap,
            extent,
        }),
        Err(swap) => {
            let Swap {
                slots,
                store,
                share: _,
                contents: _,
            } = swap;
            let (table, loan) = table.take(rt);
            loan.keep();
            let Table { shares, share: _ } = table;
            Err(Lots {
                slots,
                shares,
                store,
            })
        }
    }
}

impl<S: SwapStore + Drop> MachineMemory<S> {
    ghost use Rattle.std.specs.Prelude.{◌≡◌, ◌+◌, ◌<◌, ◌≤◌, ◌^◌, ℕ, List, [], ◌∷◌, ◌++◌, IfOk, IfErr, length, map, drop, vec_capacity};
    ghost use Rattle.frames.specs.Counts.{count_of};
    ghost use Rattle.guest_pages.specs.Outline.{outline};
    ghost use Rattle.page_moves.specs.Books.{Books as AreExact};
    ghost use Rattle.accounts.specs.declared.account.Account.TheVariants as account;
    ghost use Rattle.accounts.specs.OwnerShares.{free_share};
    ghost use Rattle.machine_memory.specs.Dealt.{guest_part, Each, IsFound, IsKeptBy};
    ghost use Rattle.machine_memory.specs.Memories.{IsPassOf, AreLevel};

    // Each guest has a stake; the accounts of the free frames are left.
    fn hand_out<P: Pages>(
        &self,
        guests: &[P],
        accounts: &mut BookShare,
        written: &mut ContentShare,
        pass: &mut PoolPass,
        stakes: &mut Vec<Stake>,
        free: &Pool,
    )
        requires room { (stakes.old.items ≡ []) × (length guests.now ≤ vec_capacity stakes.old) }
        requires accounts { accounts.old ≡ record { ledger = self.now.books.id; parts = map (λ g. account.Guest (outline (P.pages g))) guests.now ++ map account.Frame free.now.free } }
        requires written { written.old ≡ record { ledger = self.now.contents.id; parts = map (λ g. guest_part (S.held self.now.first) (P.pages g)) guests.now } }
        requires pass { IsPassOf self.now pass.old }
        requires parts { length guests.now < pass.old.hand.parts }
        ensures stakes { AreLevel self.now stakes.new.items (map P.pages guests.now) }
        ensures contents { Each (IsFound (S.held self.now.first)) stakes.new.items (map P.pages guests.now) }
        ensures accounts { accounts.new ≡ free_share self.now.books.id free.now.free }
        ensures pass { IsPassOf self.now pass.new }
        ensures put { pass.new.hand.put ≡ pass.old.hand.put }
    {
        for _guest in guests {
            let share = self.books.part(accounts);
            let pass = self.pool.another(pass);
            let contents = self.contents.part(written);
            stakes.push_reserved(Stake {
                share,
                pass,
                contents,
            });
        }
    }

    // The free frames come into the pool.
    fn fill<R: Wait>(
        &self,
        rt: &R,
        mut free: Pool,
        mut accounts: BookShare,
        pass: &mut PoolPass,
    ) -> Gathered
        requires accounts { accounts ≡ free_share self.now.books.id free.free }
        requires pass { IsPassOf self.now pass.old }
        ensures pass { IsPassOf self.now pass.new }
        ensures put { (k : ℕ) → count_of k pass.new.hand.put ≡ count_of k pass.old.hand.put + count_of k free.free }
        ensures left { result ≡ record { ledger = self.now.books.id; pages = [] } }
    {
        while let Some(no) = free.take() {
            let account = accounts::free_frame(&self.books, &mut accounts, &no, &free);
            self.pool.give_as(rt, pass, no, account);
        }
        free.close();
        Gathered::of(accounts)
    }

    /// Machine memory that has what lies around these guests, whose books are exact, and 1 frame or more. All free frames are in its
    /// pool, given by the pass that comes with it; each guest has a level stake. Where the store is true to digests, a guest's pages that are kept
    /// by what it holds are kept by what the guest's stake says that was written to their slots (`kept`).
    ///
    /// Where a request for memory is refused, all comes back: the pool, the slots and the store as they were, and the shared frames, of
    /// which no clause says that they are as they were.
    pub fn new<P: Pages, R: Wait>(
        rt: &R,
        alloc: Global,
        guests: &[P],
        around: Around<S>,
    ) -> Result<Booted<S>, Around<S>>
        requires some { 0 < around.frames }
        requires few { length guests.now < 2 ^ 32 }
        requires exact { AreExact around.frames (S.slots around.store) (map P.pages guests.now) around.shares.entries around.pool around.slots }
        ensures key { IfOk result (λ booted. booted.memory.books.key ≡ record { guests = length guests.now; frames = around.frames; slots = S.slots around.store }) }
        ensures first { IfOk result (λ booted. booted.memory.first ≡ around.store) }
        ensures stakes { IfOk result (λ booted. AreLevel booted.memory booted.stakes.items (map P.pages guests.now)) }
        ensures kept { IfOk result (λ booted. S.true_to_digests around.store → Each (IsKeptBy (S.held around.store)) booted.stakes.items (map P.pages guests.now)) }
        ensures pass { IfOk result (λ booted. IsPassOf booted.memory booted.pass) }
        ensures free { IfOk result (λ booted. (k : ℕ) → count_of k booted.pass.hand.put ≡ count_of k around.pool.free) }
        ensures gathered { IfOk result (λ booted. booted.gathered ≡ record { ledger = booted.memory.books.id; pages = [] }) }
        ensures back { IfErr result (λ back. (back.frames ≡ around.frames) × (back.pool ≡ around.pool) × (back.slots ≡ around.slots) × (back.store ≡ around.store)) }
    {
        let Ok(room) = make_room(alloc, guests, &around) else {
            return Err(around);
        };
        let Room {
            extent,
            books,
            mut accounts,
            contents,
            mut written,
            pool: queue,
            mut pass,
            mut stakes,
        } = room;
        let Around {
            frames,
            pool,
            slots,
            shares,
            store,
        } = around;
        let lots = Lots {
            slots,
            shares,
            store,
        };
        match lock_up(
            rt,
            alloc,
            books,
            contents,
            queue,
            extent,
            &mut accounts,
            &mut written,
            lots,
        ) {
            Ok(memory) => {
                memory.hand_out(
                    guests,
                    &mut accounts,
                    &mut written,
                    &mut pass,
                    &mut stakes,
                    &pool,
                );
                let gathered = memory.fill(rt, pool, accounts, &mut pass);
                Ok(Booted {
                    memory,
                    stakes,
                    pass,
                    gathered,
                })
            }
            Err(lots) => {
                let Lots {
                    slots,
                    shares,
                    store,
                } = lots;
                Err(Around {
                    frames,
                    pool,
                    slots,
                    shares,
                    store,
                })
            }
        }
    }
}
