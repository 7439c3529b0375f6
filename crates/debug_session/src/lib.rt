//! A debugger's connection to one guest of a host, without the connection: it is fed the bytes that come, and says which go back.
//!
//! The crates above use `Session`: while one is open its guest is held. A line is framed and read by `debugline`, and done by the host's
//! calls with the guest's seat. Whoever has the connection asks for one slice after another while a `cont` goes on (`State::Running`), and
//! looks for bytes between them.
//!
//! Definitions: `specs/Talks.antt` has what each line leads to (`TakesLine`), and what was said up to a moment (`HasTalked`): which lines came is
//! a matter of all bytes that came, however they were cut; `laws` has what follows for a talk without `cont`.
#![tactic(auto)]

mod asking;
pub mod laws;
mod obeying;
pub mod session;
pub mod state;
mod stepping;
mod telling;

pub use session::Session;
pub use state::State;
pub use stepping::SLICE;
