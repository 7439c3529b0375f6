//! Laws of the bus and of its definitions.
ghost use Rattle.std.specs.Prelude.{◌≡◌, ℕ, ◌*◌, ◌<◌, ◌≤◌, ◌^◌, IfSome, List, length, None, slice_set};
ghost use Rattle.mips_tlb.specs.declared.kind.Kind.{Kind};
ghost use Rattle.mips_tlb.specs.declared.kind.Kind.TheVariants.{Store};
ghost use Rattle.guest_pages.specs.declared.page.Page.{Page};
ghost use Rattle.guest_pages.specs.declared.page.PageKind.{PageKind};
ghost use Rattle.guest_pages.specs.Pages.{page_at, kind_at, is_resident, AreWhole, HasOwnTicket};
ghost use Rattle.guest_pages.specs.Outline.{outline};
ghost use Rattle.guest_bus.specs.Buses.{GuestBusIs, IsSettled, board_of};
ghost use Rattle.guest_bus.specs.Lacking.{lacks_in};

use crate::GuestBus;

impl GuestBus {
    /// A law of the type: each page has 4,096 bytes, a shared page the ticket of the frame that it reads, and the balloon knows
    /// each page and no other, of which there are at most 2^20. A page that waits is one of them.
    pub fn sound(&self)
        ensures whole { AreWhole self.now.pages }
        ensures tickets { (p : ℕ) → HasOwnTicket (page_at self.now.pages p) }
        ensures known { length self.now.pages ≡ length self.now.devices.balloon.given }
        ensures few { length self.now.pages ≤ 2 ^ 20 }
        ensures waiting { IfSome self.now.waiting (λ p. p < length self.now.pages) }
    {
        self.map.sound();
        let _pages = self.devices.pages();
    }
}

/// A law: what a settled bus keeps and the board behind it are the whole bus. So where an access leaves both, it has changed
/// nothing.
#[tactic(auto, using(crate::proofs::Same::same_buses))]
pub fn kept_and_board_are_the_bus()
    ensures { (a b : GuestBusIs) → AreWhole a.pages → AreWhole b.pages → IsSettled a → IsSettled b →
        outline a.pages ≡ outline b.pages → board_of a ≡ board_of b → a ≡ b }
{}

/// A law: what is lacking is told by what is kept, by the kinds of the pages alone.
#[tactic(auto, using(guest_pages::proofs::Outlines::outline_kind))]
pub fn what_is_kept_tells_what_is_lacking()
    ensures kept { (pages : List Page) (page : ℕ) (kind : Kind) → lacks_in (outline pages) page kind ≡ lacks_in pages page kind }
    ensures private { (pages : List Page) (page : ℕ) (kind : Kind) → kind_at pages page ≡ PageKind.Private → lacks_in pages page kind ≡ None }
    ensures stored { (pages : List Page) (page : ℕ) → lacks_in pages page Store ≡ None → kind_at pages page ≡ PageKind.Private }
{}
