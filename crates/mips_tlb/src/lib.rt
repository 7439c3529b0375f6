//! The translation lookaside buffer (MIPS32 Architecture For Programmers, volume III, Virtual Memory).
//!
//! The crates above use `Tlb`, in clauses the list of its entries: `translate` is address translation by cases
//! (`translation`), `probe` that of a load of kernel mode (`probed`), and the TLB instructions are methods whose
//! contracts are `after_read`, `after_write_indexed`, `after_write_random` and `after_probe`. `Kind` is what an access is
//! for, with the exceptions that it raises. Translation takes a virtual address, which is a word, to a `PhysAddr`.
#![tactic(auto)]

pub mod fields;
pub mod instructions;
pub mod kind;
pub mod laws;
pub mod physical;
pub mod tlb;
pub mod translation;

pub use fields::{Coherence, Vpn2};
pub use kind::Kind;
pub use physical::PhysAddr;
pub use tlb::{Entry, PageHalf, Tlb};
pub use translation::{KSEG0, KSEG2, direct_address};
