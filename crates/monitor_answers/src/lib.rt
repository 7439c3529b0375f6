//! What the monitor answers to the orders of those who run a host.
//!
//! The crates above use `hear`: a line is read by `monitor::parse` and done by the host's calls, with the guest's seat of number 1 and its
//! right to put bytes for its console (`MonitorHand`). `Answer::text` is the answer's lines; it is told again where memory was refused, so that
//! no console output is lost.
//!
//! Definitions: `specs/Orders.antt` has what each order leads to (`Leads`), `specs/Texts.antt` the lines of each answer (`answer_text`),
//! `specs/Hands.antt` the hands.
#![tactic(auto)]

pub mod answer;
pub mod hand;
pub mod hearing;
mod listing;
pub mod orders;
mod texts;

pub use answer::{Answer, GuestLine, Way};
pub use hand::MonitorHand;
pub use hearing::hear;
pub use orders::carry_out;
