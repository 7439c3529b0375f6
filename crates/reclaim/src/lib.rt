//! What a host does for want of memory, turn by turn: the level of free memory, and what it asks of each guest (Waldspurger,
//! "Memory Resource Management in VMware ESX Server", OSDI 2002, sections 3 and 6.3). It knows numbers alone.
//!
//! The crates above use `next_level`, the level to which moves lead (`Moves`, `Chain` and `IsSettled`, and the value of
//! `next_level_of`), and `plan`, the level of a turn and the `Action` asked of each guest (`actions_of`, by the targets of
//! `taxpolicy`). The definitions are `specs/Levels` and `Plans`; `laws` says that moves lead to one level, three at most, what
//! a guest may be asked for, and that guests are left their targets where pages are swapped out.
#![tactic(auto)]

pub mod laws;
pub mod level;
pub mod planning;
#[cfg(test)]
mod tests;
pub mod turn;

pub use level::{Level, next_level};
pub use planning::plan;
pub use turn::{Action, Plan};
