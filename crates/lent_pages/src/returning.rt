//! What a page that was given to the balloon handed back.
ghost use Rattle.std.specs.Prelude.{◌≡◌, ℕ, List, []};
ghost use Rattle.std.specs.Option.{option_to_list};
ghost use Rattle.guest_pages.specs.declared.page.Returned.TheVariants as returned;
ghost use Rattle.sharetab.specs.Entries.{EntriesAre};
ghost use Rattle.accounts.specs.OwnerShares.{guest_share};
ghost use Rattle.page_moves.specs.Faith.{Kept};
ghost use Rattle.lent_pages.specs.Contents.{IsWritten, IsWrittenBack, IsHolding, its_slots};
ghost use Rattle.lent_pages.specs.Locked.{IsTable, IsSwap};
ghost use Rattle.lent_pages.specs.Returns.{IsBehind, KeepsFramesBack};

use crate::{Swap, SwapKey, Table};
use accounts::{BookShare, Books};
use frames::{Frame, FrameNo, ShareTicket, SlotTicket};
use keyed_lock::KeyedLock;
use page_moves::Pages;
use slot_contents::{ContentShare, Contents};
use swapstore::SwapStore;

/// A page was given to the balloon that was in no frame and no slot.
pub fn nothing_returned<P: Pages>(books: &Books, share: &mut BookShare, pages: &P)
    requires { IsBehind books.now.id share.old returned.Nothing (P.pages pages.now) }
    ensures share { share.new ≡ guest_share books.now.id (P.pages pages.now) [] }
    ensures frames { (entries : EntriesAre) → KeepsFramesBack books.now.id share.old returned.Nothing entries (P.pages pages.now) [] entries }
{
    accounts::settle(books, share, pages, &None);
}

/// The frame of a page that was given to the balloon is in hand.
pub fn frame_returned<P: Pages>(
    books: &Books,
    share: &mut BookShare,
    pages: &P,
    frame: Frame,
) -> Option<FrameNo>
    requires { IsBehind books.now.id share.old (returned.Frame frame) (P.pages pages.now) }
    ensures share { share.new ≡ guest_share books.now.id (P.pages pages.now) (option_to_list result) }
    ensures frames { (entries : EntriesAre) → KeepsFramesBack books.now.id share.old (returned.Frame frame) entries (P.pages pages.now) (option_to_list result) entries }
{
    let hand = Some(frame.strip());
    accounts::settle(books, share, pages, &hand);
    hand
}

/// The ticket of a page that was given to the balloon goes back to its entry; the frame is in hand where that was the last one. The
/// table's lock is held.
pub fn ticket_returned<P: Pages>(
    books: &Books,
    share: &mut BookShare,
    pages: &P,
    ticket: ShareTicket,
    table: &mut Table,
) -> Option<FrameNo>
    requires behind { IsBehind books.now.id share.old (returned.Ticket ticket) (P.pages pages.now) }
    requires table { IsTable books.now table.old.shares.entries table.old.share }
    ensures share { share.new ≡ guest_share books.now.id (P.pages pages.now) (option_to_list result) }
    ensures table { IsTable books.now table.new.shares.entries table.new.share }
    ensures frames { KeepsFramesBack books.now.id share.old (returned.Ticket ticket) table.old.shares.entries (P.pages pages.now) (option_to_list result) table.new.shares.entries }
{
    accounts::meet_table(books, share, &mut table.share, &table.shares);
    let hand = table.shares.leave(ticket);
    accounts::settle_table(books, share, &mut table.share, pages, &hand, &table.shares);
    hand
}

/// The slot of a page that was given to the balloon is free. The swap book's lock is held.
pub fn slot_returned<P: Pages, S: SwapStore + Drop>(
    books: &Books,
    contents: &Contents,
    share: &mut BookShare,
    written: &mut ContentShare,
    pages: &P,
    slot: SlotTicket,
    swap: &mut Swap<S>,
    swap_lock: &KeyedLock<Swap<S>, SwapKey<S>>,
)
    requires behind { IsBehind books.now.id share.old (returned.Slot slot) (P.pages pages.now) }
    requires swap { IsSwap S.honest S.true_to_digests S.slots books.now swap_lock.now.key.first.value swap.old.slots swap.old.store swap.old.share }
    requires written { IsWrittenBack contents.now.id written.old (returned.Slot slot) (P.pages pages.now) }
    requires holding { IsHolding S.held contents.now swap.old.slots swap.old.store swap.old.contents }
    ensures share { share.new ≡ guest_share books.now.id (P.pages pages.now) [] }
    ensures swap { IsSwap S.honest S.true_to_digests S.slots books.now swap_lock.now.key.first.value swap.new.slots swap.new.store swap.new.share }
    ensures written { IsWritten contents.now.id written.new (P.pages pages.now) }
    ensures holding { IsHolding S.held contents.now swap.new.slots swap.new.store swap.new.contents }
    ensures kept { (view : ℕ → List ℕ) → Kept (its_slots written.old) view (P.pages pages.now) → Kept (its_slots written.new) view (P.pages pages.now) }
    ensures frames { (entries : EntriesAre) → KeepsFramesBack books.now.id share.old (returned.Slot slot) entries (P.pages pages.now) [] entries }
{
    accounts::meet_slots(books, share, &mut swap.share, &swap.slots);
    let number = slot.number();
    swap.slots.give(slot);
    accounts::settle_slots(books, share, &mut swap.share, pages, &None, &swap.slots);
    slot_contents::freed(
        contents,
        written,
        &mut swap.contents,
        number,
        &swap.store,
        &swap.slots,
    );
}
