//! Laws of what is seen of a guest.
ghost use Rattle.std.specs.Prelude.{◌≡◌, ◌↔◌, ◌*◌, ◌<◌, ℕ, [], None, length};
ghost use Rattle.word32.specs.Zeros.{zeros};
ghost use Rattle.elf32.specs.declared.image.Image.{Image};
ghost use Rattle.elf32.specs.Images.{FitsPages};
ghost use Rattle.machine.specs.Board.{page_bytes};
ghost use Rattle.machine.specs.Boot.{boot_memory};
ghost use Rattle.machine.specs.Replies.{bytes_at, SomePlaceIn};
ghost use Rattle.page_moves.specs.Faith.{Faithful};
ghost use Rattle.guest.specs.Guests.{GuestIs, view_of, standing, without_pages, Intact, IsSized};
ghost use Rattle.guest.specs.Loading.{IsBeside};
ghost use Rattle.guest.specs.Views.{pages_seen};

/// A law: a guest to which nothing has happened since its boot is intact once its pages are those of the machine that its
/// image boots.
pub fn a_booted_guest_is_intact()
    ensures { (g : GuestIs) → g.log.items ≡ [] → g.cpu ≡ g.boot.cpu → g.bus.devices ≡ g.boot.board.devices →
        length g.boot.board.memory ≡ length g.bus.pages * 4096 → Faithful (pages_seen g.boot) g.bus.pages → Intact g }
{}

/// A law: a page that no segment of the image reaches is zeros as the image boots.
#[tactic(auto, using(crate::proofs::BootPages::beside_is_zeros))]
pub fn a_page_beside_the_image_is_zeros()
    ensures { (image : Image) (pages p : ℕ) → p < pages → FitsPages image pages → IsBeside image p → page_bytes p (boot_memory image pages) ≡ zeros 4096 }
{}

/// A law: where pages leave their places and all else of the guest stays, its view stays; and it is intact after that exactly
/// where the pages are the view's.
#[tactic(auto, using(crate::proofs::Keeping::same_view))]
pub fn what_pages_do_the_view_does_not_see()
    ensures view { (g g' : GuestIs) → without_pages g' ≡ without_pages g → view_of g' ≡ view_of g }
    ensures intact { (g g' : GuestIs) → without_pages g' ≡ without_pages g → length g'.bus.pages ≡ length g.bus.pages →
        Intact g → Faithful (pages_seen (view_of g)) g'.bus.pages → Intact g' }
    ensures faithful { (g : GuestIs) → Intact g → Faithful (pages_seen (view_of g)) g.bus.pages }
{}

/// A law: bytes of an intact guest have places in memory exactly where those of its view have, and in the same pages.
#[tactic(auto, using(crate::proofs::Placing::view_none, crate::proofs::Placing::view_places))]
pub fn an_intact_guest_has_the_places_of_its_view()
    ensures none { (g : GuestIs) (address count : ℕ) → Intact g → IsSized g →
        ((bytes_at (standing g) address count ≡ None) ↔ (bytes_at (view_of g) address count ≡ None)) }
    ensures pages { (g : GuestIs) (address count page : ℕ) → Intact g → IsSized g →
        (SomePlaceIn (standing g) address count page ↔ SomePlaceIn (view_of g) address count page) }
{}

/// A law: where pages leave their places and all else of a guest stays, its bytes have the places that they had.
#[tactic(auto, using(crate::proofs::Placing::moved_none, crate::proofs::Placing::moved_places))]
pub fn places_stay_where_pages_move()
    ensures none { (g g' : GuestIs) (address count : ℕ) → without_pages g' ≡ without_pages g → length g'.bus.pages ≡ length g.bus.pages →
        IsSized g → IsSized g' → bytes_at (standing g') address count ≡ None → bytes_at (standing g) address count ≡ None }
    ensures pages { (g g' : GuestIs) (address count page : ℕ) → without_pages g' ≡ without_pages g → length g'.bus.pages ≡ length g.bus.pages →
        IsSized g → IsSized g' → SomePlaceIn (standing g') address count page → SomePlaceIn (standing g) address count page }
{}
