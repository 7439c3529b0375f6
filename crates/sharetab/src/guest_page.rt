//! The pages of guests.
ghost use Rattle.std.specs.Prelude.{◌≡◌, ◌↔◌, IsTrue};

use guest_number::GuestNo;
use word32::Ppn;

/// A page of a guest.
#[derive(Clone, Copy, Debug, PartialEq, Eq)]
pub struct GuestPage {
    /// The guest.
    pub guest: GuestNo,
    /// The number of the page in the guest's memory.
    pub page: Ppn,
}
