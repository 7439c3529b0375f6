//! The bus of a guest whose memory is pages: the processor runs on it as on a plain memory, but an access to a page that is
//! not there for it is answered `Need`.
//!
//! The value of a `GuestBus` is its pages, its devices and the page that waits (`GuestBusIs`); `specs/Buses.antt` has the
//! board behind it (`board_of`), in which a page that is in no frame is zeros, and `specs/Lacking.antt` why a page is lacking
//! (`lack_of`). A page that the guest gives to the balloon waits in its place until the bus's owner calls `settle`, which
//! hands back what the page held; the board shows zeros at once. The crates above use the bus by `PhysBus`, `settle` after a
//! step that gave a page, the remaps (`supply_zero`, `supply_copy`, `supply_swapped`, `swap_out`, `share`, `admit`), each one
//! equation on the pages with what becomes of the board, and `input` for what else happens to a guest. `laws` says that what
//! is kept and the board are the whole bus, once it is settled.
#![tactic(auto)]

mod accesses;
pub mod bus;
pub mod input;
pub mod laws;
pub mod remaps;
#[cfg(test)]
mod tests;

pub use bus::GuestBus;
pub use input::InputError;
