//! Who is asked before the steps of a guest.

use guest_number::GuestNo;

/// Someone who is asked before steps of a guest, under its lock: a test, or whoever lets threads take turns. No clause speaks of what it
/// does.
pub trait Gate {
    ghost use Rattle.std.specs.Prelude.{◌<◌};

    /// Is asked before the next steps of the guest of this number, of which a slice has made so many.
    fn before_step(&self, guest: GuestNo, done: u32);

    /// How many steps of the guest may be made from then on before it is asked again, 1 or more.
    fn quiet(&self, guest: GuestNo, done: u32) -> u32
        ensures { 0 < result };
}

/// Nobody is asked.
#[derive(Drop)]
pub struct Open;

impl Gate for Open {
    fn before_step(&self, _guest: GuestNo, _done: u32) {}

    fn quiet(&self, _guest: GuestNo, _done: u32) -> u32 {
        u32::MAX
    }
}
