//! The number of a guest: the one type that it has, from the scripts and the monitor that name guests to the table of shared frames, which says
//! whose page an entry is. So it can't be mixed with a page's number, a slot's or a count.
//!
//! The crates above use `GuestNo::new`, `number` and `index`, which in clauses are all the number itself.
#![tactic(auto)]

mod number;

pub use number::GuestNo;
