//! What instructions compute, over integers (MIPS32 Architecture For Programmers, volume II, the Operation sections).
//!
//! The crates above use `arith` (sums and differences modulo 2^32 or with overflow, bitwise operations, comparisons as
//! 1 or 0, the low word of a product), `shift`, `multiply` and `divide` (over HI and LO), `count_leading`, `compare`,
//! and `merge_left`, `merge_right`, `store_left`, `store_right` (parts of words at any address).
#![tactic(auto)]

pub mod arithmetic;
pub mod comparing;
pub mod counting;
pub mod dividing;
pub mod merging;
pub mod multiplying;
pub mod shifting;

pub use arithmetic::{ArithOp, arith};
pub use comparing::{Comparison, compare};
pub use counting::{LeadingBits, count_leading};
pub use dividing::divide;
pub use merging::{merge_left, merge_right, store_left, store_right};
pub use multiplying::{Accumulation, HiLo, Signedness, multiply};
pub use shifting::{ShiftKind, shift};
