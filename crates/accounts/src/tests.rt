//! Two guests, a table of shared frames, a swap store and free frames over one set of books, through each move. Each helper below is
//! written over any `Pages`, as the crates above are.
ghost use Rattle.std.specs.Prelude.{◌≡◌, ℕ, ◌+◌, ◌<◌, ◌⊎◌, OnOk, OnErr, IfOk, IfSome, IfNone, List, [], ◌∷◌, ◌++◌, None, IsTrue, length, replicate};
ghost use Rattle.std.specs.Option.{option_to_list};
ghost use Rattle.frames.specs.Counts.{count_of, below};
ghost use Rattle.guest_pages.specs.declared.page.Page.TheVariants.{Zero};
ghost use Rattle.guest_pages.specs.Pages.{kind_at, is_resident};
ghost use Rattle.page_moves.specs.Books.{Books as AreExact};
ghost use Rattle.accounts.specs.declared.account.Account.TheVariants.{Table, Slots};
ghost use Rattle.accounts.specs.Exact.{free_list};
ghost use Rattle.accounts.specs.OwnerShares.{share_of, guest_share, free_share};

use crate::{
    BookShare, Books, Extent, deal, free_frame, give, meet_both, meet_slots, meet_table, settle,
    settle_both, settle_slots, settle_table, take,
};
use framepool::Pool;
use frames::FrameNo;
use guest_number::GuestNo;
use guest_pages::{GuestPages, PageKind, Returned};
use page_moves::{
    Pages, Scan, SupplyError, evict_in, scan_in, supply_copy, supply_first, supply_swapped,
};
use sharetab::{GuestPage, Shares};
use std::alloc::Global;
use std::fmt::Debug;
use std::process::Abort;
use swapstore::{MemStore, SlotBook, SwapStore};
use word32::Ppn;

struct Owner<P> {
    pages: P,
    share: BookShare,
}

struct Entries {
    shares: Shares,
    share: BookShare,
}

struct Swap<S> {
    book: SlotBook,
    store: S,
    share: BookShare,
}

struct Free {
    pool: Pool,
    share: BookShare,
}

/// A free frame comes into a guest's hand; None where none is free.
fn taken<P: Pages>(books: &Books, guest: &mut Owner<P>, free: &mut Free) -> Option<FrameNo>
    requires guest { guest.old.share ≡ guest_share books.now.id (P.pages guest.old.pages) [] }
    requires free { free.old.share ≡ free_share books.now.id free.old.pool.free }
    ensures guest { guest.new.share ≡ guest_share books.now.id (P.pages guest.new.pages) (option_to_list result) }
    ensures pages { guest.new.pages ≡ guest.old.pages }
    ensures free { free.new.share ≡ free_share books.now.id free.new.pool.free }
{
    let Some(no) = free.pool.take() else {
        return None;
    };
    let frame = free_frame(books, &mut free.share, &no, &free.pool);
    take(books, &mut guest.share, frame, &guest.pages, &no);
    Some(no)
}

/// Under a guest's lock: a page gets the frame in hand.
#[tactic(auto, using(crate::proofs::Settled::first_moved))]
fn first<P: Pages>(
    alloc: Global,
    books: &Books,
    guest: &mut Owner<P>,
    p: Ppn,
    no: FrameNo,
) -> Result<(), FrameNo>
    requires there { p < length (P.pages guest.old.pages) }
    requires kind { (kind_at (P.pages guest.old.pages) p ≡ PageKind.Zero) ⊎ (kind_at (P.pages guest.old.pages) p ≡ PageKind.Given) }
    requires guest { guest.old.share ≡ guest_share books.now.id (P.pages guest.old.pages) (no ∷ []) }
    ensures ok { OnOk result (guest.new.share ≡ guest_share books.now.id (P.pages guest.new.pages) []) }
    ensures err { OnErr result (guest.new.share ≡ guest_share books.now.id (P.pages guest.new.pages) (no ∷ [])) }
{
    match supply_first(alloc, &mut guest.pages, p, no) {
        Ok(()) => {
            settle(books, &mut guest.share, &guest.pages, &None);
            Ok(())
        }
        Err(no) => Err(no),
    }
}

/// Under the locks of a guest and of the table: a shared page gets the frame in hand, and what came free is in hand.
#[tactic(auto, using(crate::proofs::Settled::copy_moved))]
fn copied<P: Pages>(
    alloc: Global,
    books: &Books,
    guest: &mut Owner<P>,
    p: Ppn,
    no: FrameNo,
    table: &mut Entries,
) -> Result<Option<FrameNo>, FrameNo>
    requires there { p < length (P.pages guest.old.pages) }
    requires kind { kind_at (P.pages guest.old.pages) p ≡ PageKind.Shared }
    requires guest { guest.old.share ≡ guest_share books.now.id (P.pages guest.old.pages) (no ∷ []) }
    requires table { table.old.share ≡ share_of books.now.id (Table table.old.shares.entries) }
    ensures ok { IfOk result (λ came_free. guest.new.share ≡ guest_share books.now.id (P.pages guest.new.pages) (option_to_list came_free)) }
    ensures err { OnErr result (guest.new.share ≡ guest_share books.now.id (P.pages guest.new.pages) (no ∷ [])) }
    ensures table { table.new.share ≡ share_of books.now.id (Table table.new.shares.entries) }
{
    meet_table(books, &mut guest.share, &mut table.share, &table.shares);
    match supply_copy(alloc, &mut guest.pages, p, no, &mut table.shares) {
        Ok(came_free) => {
            settle_table(
                books,
                &mut guest.share,
                &mut table.share,
                &guest.pages,
                &came_free,
                &table.shares,
            );
            Ok(came_free)
        }
        Err(no) => Err(no),
    }
}

/// Under the locks of a guest and of the table: a page is scanned, and what came free is in hand.
#[tactic(auto, using(crate::proofs::Settled::scan_moved))]
fn scanned<P: Pages>(
    books: &Books,
    guest: &mut Owner<P>,
    number: GuestNo,
    p: Ppn,
    table: &mut Entries,
) -> (Scan, Option<FrameNo>)
    requires guest { guest.old.share ≡ guest_share books.now.id (P.pages guest.old.pages) [] }
    requires table { table.old.share ≡ share_of books.now.id (Table table.old.shares.entries) }
    ensures guest { guest.new.share ≡ guest_share books.now.id (P.pages guest.new.pages) (option_to_list result.1) }
    ensures table { table.new.share ≡ share_of books.now.id (Table table.new.shares.entries) }
{
    meet_table(books, &mut guest.share, &mut table.share, &table.shares);
    let (scan, came_free) = scan_in(&mut guest.pages, number, p, &mut table.shares);
    settle_table(
        books,
        &mut guest.share,
        &mut table.share,
        &guest.pages,
        &came_free,
        &table.shares,
    );
    (scan, came_free)
}

/// Under all three locks: a page goes to a slot, and what came free is in hand; where no slot is free or the store fails, None, and
/// the page stays.
fn evicted<P: Pages, S: SwapStore>(
    books: &Books,
    guest: &mut Owner<P>,
    p: Ppn,
    table: &mut Entries,
    swap: &mut Swap<S>,
) -> Option<Option<FrameNo>>
    requires there { p < length (P.pages guest.old.pages) }
    requires resident { IsTrue (is_resident (kind_at (P.pages guest.old.pages) p)) }
    requires guest { guest.old.share ≡ guest_share books.now.id (P.pages guest.old.pages) [] }
    requires table { table.old.share ≡ share_of books.now.id (Table table.old.shares.entries) }
    requires slots { swap.old.share ≡ share_of books.now.id (Slots swap.old.book) }
    requires store { S.slots swap.old.store ≡ books.now.key.slots }
    ensures gone { IfSome result (λ came_free. guest.new.share ≡ guest_share books.now.id (P.pages guest.new.pages) (option_to_list came_free)) }
    ensures stays { IfNone result (guest.new.share ≡ guest_share books.now.id (P.pages guest.new.pages) []) }
    ensures table { table.new.share ≡ share_of books.now.id (Table table.new.shares.entries) }
    ensures store { S.slots swap.new.store ≡ S.slots swap.old.store }
    ensures slots { swap.new.share ≡ share_of books.now.id (Slots swap.new.book) }
{
    meet_both(
        books,
        &mut guest.share,
        &mut table.share,
        &mut swap.share,
        &table.shares,
        &swap.book,
    );
    let Some(slot) = swap.book.take() else {
        return None;
    };
    match evict_in(
        &mut guest.pages,
        p,
        slot,
        &mut swap.store,
        &mut table.shares,
    ) {
        Ok(came_free) => {
            settle_both(
                books,
                &mut guest.share,
                &mut table.share,
                &mut swap.share,
                &guest.pages,
                &came_free,
                &table.shares,
                &swap.book,
            );
            Some(came_free)
        }
        Err(slot) => {
            swap.book.give(slot);
            settle_slots(
                books,
                &mut guest.share,
                &mut swap.share,
                &guest.pages,
                &None,
                &swap.book,
            );
            None
        }
    }
}

/// Under the locks of a guest and of the swap store: a page comes back from its slot into the frame in hand.
fn back<P: Pages, S: SwapStore>(
    alloc: Global,
    books: &Books,
    guest: &mut Owner<P>,
    p: Ppn,
    no: FrameNo,
    swap: &mut Swap<S>,
) -> Result<(), (FrameNo, SupplyError)>
    requires there { p < length (P.pages guest.old.pages) }
    requires kind { kind_at (P.pages guest.old.pages) p ≡ PageKind.Swapped }
    requires guest { guest.old.share ≡ guest_share books.now.id (P.pages guest.old.pages) (no ∷ []) }
    requires slots { swap.old.share ≡ share_of books.now.id (Slots swap.old.book) }
    requires store { S.slots swap.old.store ≡ books.now.key.slots }
    ensures ok { OnOk result (guest.new.share ≡ guest_share books.now.id (P.pages guest.new.pages) []) }
    ensures err { OnErr result (guest.new.share ≡ guest_share books.now.id (P.pages guest.new.pages) (no ∷ [])) }
    ensures store { S.slots swap.new.store ≡ S.slots swap.old.store }
    ensures slots { swap.new.share ≡ share_of books.now.id (Slots swap.new.book) }
{
    meet_slots(books, &mut guest.share, &mut swap.share, &swap.book);
    match supply_swapped(alloc, &mut guest.pages, p, no, &mut swap.store) {
        Ok(slot) => {
            swap.book.give(slot);
            settle_slots(
                books,
                &mut guest.share,
                &mut swap.share,
                &guest.pages,
                &None,
                &swap.book,
            );
            Ok(())
        }
        Err(back) => Err(back),
    }
}

/// A page is given to the balloon while only the guest's lock is held, so that its share is that of the pages before; then what it
/// handed back goes back under the locks that it takes. The frame in hand, if one.
#[tactic(auto, using(crate::proofs::Settled::given_nothing_moved, crate::proofs::Settled::given_frame_moved))]
fn given<S: SwapStore>(
    books: &Books,
    guest: &mut Owner<GuestPages>,
    p: Ppn,
    table: &mut Entries,
    swap: &mut Swap<S>,
) -> Option<FrameNo>
    requires there { p < length guest.old.pages }
    requires guest { guest.old.share ≡ guest_share books.now.id guest.old.pages [] }
    requires table { table.old.share ≡ share_of books.now.id (Table table.old.shares.entries) }
    requires slots { swap.old.share ≡ share_of books.now.id (Slots swap.old.book) }
    ensures guest { guest.new.share ≡ guest_share books.now.id guest.new.pages (option_to_list result) }
    ensures table { table.new.share ≡ share_of books.now.id (Table table.new.shares.entries) }
    ensures store { S.slots swap.new.store ≡ S.slots swap.old.store }
    ensures slots { swap.new.share ≡ share_of books.now.id (Slots swap.new.book) }
{
    match guest.pages.give(p) {
        Returned::Nothing => {
            settle(books, &mut guest.share, &guest.pages, &None);
            None
        }
        Returned::Frame(frame) => {
            let hand = Some(frame.strip());
            settle(books, &mut guest.share, &guest.pages, &hand);
            hand
        }
        Returned::Ticket(ticket) => {
            meet_table(books, &mut guest.share, &mut table.share, &table.shares);
            let hand = table.shares.leave(ticket);
            settle_table(
                books,
                &mut guest.share,
                &mut table.share,
                &guest.pages,
                &hand,
                &table.shares,
            );
            hand
        }
        Returned::Slot(slot) => {
            meet_slots(books, &mut guest.share, &mut swap.share, &swap.book);
            swap.book.give(slot);
            settle_slots(
                books,
                &mut guest.share,
                &mut swap.share,
                &guest.pages,
                &None,
                &swap.book,
            );
            None
        }
    }
}

/// Under all locks: two guests, who are all, the table and the swap store find exact books, with free frames that lie elsewhere.
fn audited<P: Pages, S>(
    books: &Books,
    one: &mut Owner<P>,
    two: &mut Owner<P>,
    table: &mut Entries,
    swap: &mut Swap<S>,
)
    requires all { books.now.key.guests ≡ 2 }
    requires one { one.old.share ≡ guest_share books.now.id (P.pages one.old.pages) [] }
    requires two { two.old.share ≡ guest_share books.now.id (P.pages two.old.pages) [] }
    requires table { table.old.share ≡ share_of books.now.id (Table table.old.shares.entries) }
    requires slots { swap.old.share ≡ share_of books.now.id (Slots swap.old.book) }
    ensures one { one.new ≡ one.old }
    ensures two { two.new ≡ two.old }
    ensures table { table.new ≡ table.old }
    ensures slots { swap.new ≡ swap.old }
    ensures exact { (free : List ℕ) × (out : ℕ) × AreExact books.now.key.frames books.now.key.slots
        (P.pages one.old.pages ∷ P.pages two.old.pages ∷ []) table.old.shares.entries (free_list free out) swap.old.book }
{
    books.lend(&mut two.share, &mut one.share);
    books.lend(&mut two.share, &mut table.share);
    books.lend(&mut two.share, &mut swap.share);
    books.learn(&mut two.share);
    swap.share = books.part(&mut two.share);
    table.share = books.part(&mut two.share);
    one.share = books.part(&mut two.share);
}

/// The frame in a guest's hand, if one, is free again, and put away with its account. Whether there was one.
fn freed<P: Pages>(books: &Books, guest: &mut Owner<P>, hand: Option<FrameNo>) -> bool
    requires guest { guest.old.share ≡ guest_share books.now.id (P.pages guest.old.pages) (option_to_list hand) }
    ensures guest { guest.new.share ≡ guest_share books.now.id (P.pages guest.new.pages) [] }
    ensures pages { guest.new.pages ≡ guest.old.pages }
{
    match hand {
        Some(no) => {
            let _account = give(books, &mut guest.share, &guest.pages, &no);
            let _number = no.close();
            true
        }
        None => false,
    }
}

struct World {
    books: Books,
    one: Owner<GuestPages>,
    two: Owner<GuestPages>,
    table: Entries,
    swap: Swap<MemStore>,
    free: Free,
}

/// Two guests of two pages, six frames and two slots.
struct Parts {
    guests: [GuestPages; 2],
    shares: Shares,
    pool: Pool,
    book: SlotBook,
    store: MemStore,
}

fn new_map(rt: &impl Abort, alloc: Global) -> GuestPages
    ensures { result ≡ replicate 2 Zero }
{
    match GuestPages::new(alloc, 2) {
        Ok(map) => map,
        Err(_) => panic!(rt; "no memory for the pages"),
    }
}

fn new_pool(rt: &impl Abort, alloc: Global) -> Pool
    ensures each_once { (k : ℕ) → count_of k result.free ≡ below k 6 }
    ensures none_out { result.out ≡ 0 }
{
    match Pool::new(alloc, 6) {
        Ok(pool) => pool,
        Err(_) => panic!(rt; "no memory for the pool"),
    }
}

fn new_book(rt: &impl Abort, alloc: Global) -> SlotBook
    ensures each_once { (k : ℕ) → count_of k result.free ≡ below k 2 }
    ensures none_used { result.out ≡ 0 }
{
    match SlotBook::new(alloc, 2) {
        Ok(book) => book,
        Err(_) => panic!(rt; "no memory for the slots"),
    }
}

fn new_shares(rt: &impl Abort, alloc: Global) -> Shares
    ensures { result.entries ≡ replicate 6 None }
{
    match Shares::new(alloc, 6) {
        Ok(shares) => shares,
        Err(_) => panic!(rt; "no memory for the table"),
    }
}

fn new_store(rt: &impl Abort, alloc: Global) -> MemStore
    ensures { length result.pages ≡ 2 }
{
    match MemStore::new(alloc, 2) {
        Ok(store) => store,
        Err(_) => panic!(rt; "no memory for the store"),
    }
}

fn new_parts(rt: &impl Abort, alloc: Global) -> Parts
    ensures exact { AreExact 6 2 result.guests result.shares.entries result.pool result.book }
    ensures guests { length result.guests ≡ 2 }
    ensures slots { length result.store.pages ≡ 2 }
{
    Parts {
        guests: [new_map(rt, alloc), new_map(rt, alloc)],
        shares: new_shares(rt, alloc),
        pool: new_pool(rt, alloc),
        book: new_book(rt, alloc),
        store: new_store(rt, alloc),
    }
}

fn dealt(rt: &impl Abort, alloc: Global) -> World
    ensures guests { result.books.key.guests ≡ 2 }
    ensures one { result.one.share ≡ guest_share result.books.id result.one.pages [] }
    ensures two { result.two.share ≡ guest_share result.books.id result.two.pages [] }
    ensures table { result.table.share ≡ share_of result.books.id (Table result.table.shares.entries) }
    ensures slots { result.swap.share ≡ share_of result.books.id (Slots result.swap.book) }
    ensures store { length result.swap.store.pages ≡ result.books.key.slots }
    ensures free { result.free.share ≡ free_share result.books.id result.free.pool.free }
{
    let Parts {
        guests,
        shares,
        pool,
        book,
        store,
    } = new_parts(rt, alloc);
    let extent = Extent {
        guests: 2,
        frames: 6,
        slots: 2,
    };
    let Ok((books, mut all)) = deal(alloc, extent, &guests, &shares, &pool, &book) else {
        panic!(rt; "no memory for the books");
    };
    let swap = Swap {
        book,
        store,
        share: books.part(&mut all),
    };
    let table = Entries {
        shares,
        share: books.part(&mut all),
    };
    let [first, second] = guests;
    let one = Owner {
        pages: first,
        share: books.part(&mut all),
    };
    let two = Owner {
        pages: second,
        share: books.part(&mut all),
    };
    let free = Free { pool, share: all };
    World {
        books,
        one,
        two,
        table,
        swap,
        free,
    }
}

/// A page that is there.
fn page(rt: &impl Abort, map: &GuestPages, p: u32) -> Ppn
    ensures { result < length map.now }
{
    if p >= 2 {
        panic!(rt; "no page {p}");
    }
    if p >= map.len() {
        panic!(rt; "no page {p}");
    }
    Ppn::new(p)
}

/// Page 0 is of this kind.
fn first_page(rt: &impl Abort, map: &GuestPages, kind: PageKind) -> Ppn
    ensures there { result < length map.now }
    ensures kind { kind_at map.now result ≡ kind }
{
    let p = page(rt, map, 0);
    if map.kind(p) != kind {
        panic!(rt; "page 0 is {:?}", map.kind(p));
    }
    p
}

/// Page 0 of a guest gets a frame of zeros.
fn supplied(
    rt: &impl Abort,
    alloc: Global,
    books: &Books,
    guest: &mut Owner<GuestPages>,
    free: &mut Free,
)
    requires guest { guest.old.share ≡ guest_share books.now.id guest.old.pages [] }
    requires free { free.old.share ≡ free_share books.now.id free.old.pool.free }
    ensures guest { guest.new.share ≡ guest_share books.now.id guest.new.pages [] }
    ensures free { free.new.share ≡ free_share books.now.id free.new.pool.free }
{
    let p = first_page(rt, &guest.pages, PageKind::Zero);
    let Some(no) = taken(books, guest, free) else {
        panic!(rt; "no frame is free");
    };
    match first(alloc, books, guest, p, no) {
        Ok(()) => {}
        Err(no) => panic!(rt; "no memory for frame {}", no.close()),
    }
}

/// The shared page 0 of a guest gets a frame of its own. Whether the shared one came free.
fn unshared(
    rt: &impl Abort,
    alloc: Global,
    books: &Books,
    guest: &mut Owner<GuestPages>,
    table: &mut Entries,
    free: &mut Free,
) -> bool
    requires guest { guest.old.share ≡ guest_share books.now.id guest.old.pages [] }
    requires table { table.old.share ≡ share_of books.now.id (Table table.old.shares.entries) }
    requires free { free.old.share ≡ free_share books.now.id free.old.pool.free }
    ensures guest { guest.new.share ≡ guest_share books.now.id guest.new.pages [] }
    ensures table { table.new.share ≡ share_of books.now.id (Table table.new.shares.entries) }
    ensures free { free.new.share ≡ free_share books.now.id free.new.pool.free }
{
    let p = first_page(rt, &guest.pages, PageKind::Shared);
    let Some(no) = taken(books, guest, free) else {
        panic!(rt; "no frame is free");
    };
    match copied(alloc, books, guest, p, no, table) {
        Ok(came_free) => freed(books, guest, came_free),
        Err(no) => panic!(rt; "no memory for frame {}", no.close()),
    }
}

/// Page 0 of a guest is scanned. What is answered, and whether a frame came free.
fn scan(
    books: &Books,
    guest: &mut Owner<GuestPages>,
    number: u32,
    table: &mut Entries,
) -> (Scan, bool)
    requires guest { guest.old.share ≡ guest_share books.now.id guest.old.pages [] }
    requires table { table.old.share ≡ share_of books.now.id (Table table.old.shares.entries) }
    ensures guest { guest.new.share ≡ guest_share books.now.id guest.new.pages [] }
    ensures table { table.new.share ≡ share_of books.now.id (Table table.new.shares.entries) }
{
    let (answer, came_free) = scanned(books, guest, GuestNo::new(number), Ppn::new(0), table);
    (answer, freed(books, guest, came_free))
}

/// Page 0 of a guest goes to a slot. Whether its frame came free.
fn stored(
    rt: &impl Abort,
    books: &Books,
    guest: &mut Owner<GuestPages>,
    table: &mut Entries,
    swap: &mut Swap<MemStore>,
) -> bool
    requires guest { guest.old.share ≡ guest_share books.now.id guest.old.pages [] }
    requires table { table.old.share ≡ share_of books.now.id (Table table.old.shares.entries) }
    requires slots { swap.old.share ≡ share_of books.now.id (Slots swap.old.book) }
    requires store { length swap.old.store.pages ≡ books.now.key.slots }
    ensures guest { guest.new.share ≡ guest_share books.now.id guest.new.pages [] }
    ensures table { table.new.share ≡ share_of books.now.id (Table table.new.shares.entries) }
    ensures slots { swap.new.share ≡ share_of books.now.id (Slots swap.new.book) }
    ensures store { length swap.new.store.pages ≡ books.now.key.slots }
{
    let p = page(rt, &guest.pages, 0);
    if !guest.pages.kind(p).is_resident() {
        panic!(rt; "page 0 is in no frame");
    }
    match evicted(books, guest, p, table, swap) {
        Some(came_free) => freed(books, guest, came_free),
        None => panic!(rt; "page 0 stays"),
    }
}

/// Page 0 of a guest comes back from its slot.
fn restored(
    rt: &impl Abort,
    alloc: Global,
    books: &Books,
    guest: &mut Owner<GuestPages>,
    swap: &mut Swap<MemStore>,
    free: &mut Free,
)
    requires guest { guest.old.share ≡ guest_share books.now.id guest.old.pages [] }
    requires slots { swap.old.share ≡ share_of books.now.id (Slots swap.old.book) }
    requires store { length swap.old.store.pages ≡ books.now.key.slots }
    requires free { free.old.share ≡ free_share books.now.id free.old.pool.free }
    ensures guest { guest.new.share ≡ guest_share books.now.id guest.new.pages [] }
    ensures slots { swap.new.share ≡ share_of books.now.id (Slots swap.new.book) }
    ensures store { length swap.new.store.pages ≡ books.now.key.slots }
    ensures free { free.new.share ≡ free_share books.now.id free.new.pool.free }
{
    let p = first_page(rt, &guest.pages, PageKind::Swapped);
    let Some(no) = taken(books, guest, free) else {
        panic!(rt; "no frame is free");
    };
    match back(alloc, books, guest, p, no, swap) {
        Ok(()) => {}
        Err((no, error)) => panic!(rt; "frame {}: {error:?}", no.close()),
    }
}

/// Page 0 of a guest is given to the balloon. Whether a frame came free.
fn ballooned(
    rt: &impl Abort,
    books: &Books,
    guest: &mut Owner<GuestPages>,
    table: &mut Entries,
    swap: &mut Swap<MemStore>,
) -> bool
    requires guest { guest.old.share ≡ guest_share books.now.id guest.old.pages [] }
    requires table { table.old.share ≡ share_of books.now.id (Table table.old.shares.entries) }
    requires slots { swap.old.share ≡ share_of books.now.id (Slots swap.old.book) }
    requires store { length swap.old.store.pages ≡ books.now.key.slots }
    ensures guest { guest.new.share ≡ guest_share books.now.id guest.new.pages [] }
    ensures table { table.new.share ≡ share_of books.now.id (Table table.new.shares.entries) }
    ensures slots { swap.new.share ≡ share_of books.now.id (Slots swap.new.book) }
    ensures store { length swap.new.store.pages ≡ books.now.key.slots }
{
    let p = page(rt, &guest.pages, 0);
    let hand = given(books, guest, p, table, swap);
    freed(books, guest, hand)
}

/// How many pages are private, shared and swapped, how many entries there are, and how many slots are used.
fn counts(guest: &Owner<GuestPages>, table: &Entries, swap: &Swap<MemStore>) -> [u32; 5] {
    [
        guest.pages.private(),
        guest.pages.shared(),
        guest.pages.swapped(),
        table.shares.shared(),
        swap.book.used(),
    ]
}

/// Asserts one case. The tests share it, since each assertion in a function's own body makes its proof much longer.
fn expect<T: PartialEq + Debug + Drop>(rt: &impl Abort, case: &'static str, got: T, wanted: T) {
    assert!(rt; got == wanted, "{case}: {got:?}, not {wanted:?}");
}

fn close_owner(owner: Owner<GuestPages>) {
    let Owner { pages, share: _ } = owner;
    pages.close();
}

fn closed(world: World) {
    let World {
        books: _,
        one,
        two,
        table,
        swap,
        free,
    } = world;
    close_owner(one);
    close_owner(two);
    let Entries { shares, share: _ } = table;
    shares.close();
    let Swap {
        book,
        store: _,
        share: _,
    } = swap;
    book.close();
    let Free { pool, share: _ } = free;
    pool.close();
}

#[test]
fn each_move_leaves_exact_books(rt: HostRuntime) {
    let alloc = rt.alloc();
    let mut w = dealt(&rt, alloc);
    supplied(&rt, alloc, &w.books, &mut w.one, &mut w.free);
    supplied(&rt, alloc, &w.books, &mut w.two, &mut w.free);
    let noted = scan(&w.books, &mut w.one, 0, &mut w.table);
    expect(&rt, "noted", noted, (Scan::Noted, false));
    let other = GuestPage {
        guest: GuestNo::new(0),
        page: Ppn::new(0),
    };
    let admitted = scan(&w.books, &mut w.two, 1, &mut w.table);
    expect(&rt, "admitted", admitted, (Scan::Admitted(other), false));
    let joined = scan(&w.books, &mut w.one, 0, &mut w.table);
    expect(&rt, "joined", joined, (Scan::Joined, true));
    expect(
        &rt,
        "shared",
        counts(&w.one, &w.table, &w.swap),
        [0, 1, 0, 1, 0],
    );
    audited(&w.books, &mut w.one, &mut w.two, &mut w.table, &mut w.swap);

    let free = unshared(&rt, alloc, &w.books, &mut w.one, &mut w.table, &mut w.free);
    expect(&rt, "one ticket is out", free, false);
    let free = stored(&rt, &w.books, &mut w.two, &mut w.table, &mut w.swap);
    expect(&rt, "the last ticket is back", free, true);
    expect(
        &rt,
        "stored",
        counts(&w.two, &w.table, &w.swap),
        [0, 0, 1, 0, 1],
    );
    restored(&rt, alloc, &w.books, &mut w.two, &mut w.swap, &mut w.free);
    expect(
        &rt,
        "restored",
        counts(&w.two, &w.table, &w.swap),
        [1, 0, 0, 0, 0],
    );
    audited(&w.books, &mut w.one, &mut w.two, &mut w.table, &mut w.swap);
    closed(w);
}

#[test]
fn tickets_that_pages_hand_back_leave(rt: HostRuntime) {
    let alloc = rt.alloc();
    let mut w = dealt(&rt, alloc);
    supplied(&rt, alloc, &w.books, &mut w.one, &mut w.free);
    supplied(&rt, alloc, &w.books, &mut w.two, &mut w.free);
    let _noted = scan(&w.books, &mut w.one, 0, &mut w.table);
    let _admitted = scan(&w.books, &mut w.two, 1, &mut w.table);
    let _joined = scan(&w.books, &mut w.one, 0, &mut w.table);
    let free = ballooned(&rt, &w.books, &mut w.two, &mut w.table, &mut w.swap);
    expect(&rt, "one ticket is out", free, false);
    let free = ballooned(&rt, &w.books, &mut w.one, &mut w.table, &mut w.swap);
    expect(&rt, "the last ticket is back", free, true);
    expect(
        &rt,
        "given",
        counts(&w.one, &w.table, &w.swap),
        [0, 0, 0, 0, 0],
    );
    audited(&w.books, &mut w.one, &mut w.two, &mut w.table, &mut w.swap);
    closed(w);
}

#[test]
fn what_else_pages_hand_back_goes_back(rt: HostRuntime) {
    let alloc = rt.alloc();
    let mut w = dealt(&rt, alloc);
    supplied(&rt, alloc, &w.books, &mut w.one, &mut w.free);
    let free = stored(&rt, &w.books, &mut w.one, &mut w.table, &mut w.swap);
    expect(&rt, "its own frame", free, true);
    let free = ballooned(&rt, &w.books, &mut w.one, &mut w.table, &mut w.swap);
    expect(&rt, "a slot", free, false);
    expect(
        &rt,
        "given",
        counts(&w.one, &w.table, &w.swap),
        [0, 0, 0, 0, 0],
    );
    supplied(&rt, alloc, &w.books, &mut w.two, &mut w.free);
    let free = ballooned(&rt, &w.books, &mut w.two, &mut w.table, &mut w.swap);
    expect(&rt, "a frame", free, true);
    let free = ballooned(&rt, &w.books, &mut w.two, &mut w.table, &mut w.swap);
    expect(&rt, "nothing", free, false);
    audited(&w.books, &mut w.one, &mut w.two, &mut w.table, &mut w.swap);
    closed(w);
}
