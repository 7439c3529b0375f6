//! A world of guests that share one pool of machine frames and one swap store, in one thread.
//!
//! In clauses a `World` is a record, `WorldIs`, and its guests are `TenantIs` (`specs/Worlds.antt`, `specs/Tenants.antt`). What every
//! world keeps is `Sound`: the books are exact, so that each frame is free, one page's, or an entry's whose count is how many pages
//! name it; and while the store is true to digests each guest is its run (`IsKept`). `World::is_sound` hands it out. What happens
//! is an `Event`, and `World::run` does events one after another: after them the log of each guest has just its own items more
//! (`own`, `specs/Events.antt`), whatever the others did and wherever pages went. What a call leaves as it was around the guests is
//! said by one relation, `AroundStays`, or by a stronger one, `OnlyBooksChange` or `SameAround` (`specs/Worlds.antt`).
//!
//! What is answered to an event is said by one definition, `IsAnswered` (`specs/Answers.antt`), a row for each kind of event; what a turn of
//! the policy does by `IsTurn` (`specs/Turns.antt`); and that guests that are admitted by their minimums get a frame for each page that
//! they need by `FindsRoom` (`specs/Admission.antt`). Which pages leave their frames for that is said from moment to moment
//! (`specs/Choices.antt`): the policy's victims, by the tax and the generator's words in turn, and none while a frame is free; and which
//! words each event goes by is `GoesByWords` (`specs/Words.antt`).
//!
//! Each event works on lent parts, with one guest's pages, by `page_moves`; `specs/Lent.antt` has what exact books say of those.
#![tactic(auto)]

mod applying;
pub mod books;
pub mod boot;
mod damage;
pub mod debugging;
pub mod events;
pub mod faulting;
pub mod parts;
pub mod room;
pub mod running;
pub mod samples;
pub mod turns;
pub mod world;

pub use books::BookCounts;
pub use booting::{Config, NewGuest, are_within_limits};
pub use debugging::DebugError;
pub use events::{Answer, Event, Fed};
pub use faulting::FaultError;
pub use parts::Parts;
pub use running::{End, Ran, RunStop};
pub use tenant::{Cause, MoveCounts};
pub use turns::Turn;
pub use world::{Evicted, World};
