//! What was written to the slots of a swap store, kept over several locks: what the store holds, which slots are free, and what each owner
//! of pages has written to its slots are parts of one ledger, in shares without bytes that lie where the store, the free slots and the
//! owner lie.
//!
//! So an owner that holds its own lock knows what its slots hold, whatever others did with theirs: only a free slot is written to, and no
//! slot is two owners'. `wrote` and `failed` follow a write, `read` a read, `freed` a slot that is free again; `meet` tells that each slot
//! of an owner holds what the owner wrote there. What a read then gives is told by `read`: of a store that is true to digests the bytes that
//! were written, where they have their SHA-256.
//!
//! Definitions: `specs/Contents.antt` has the parts and the rule, `specs/Shares.antt` the shares of each owner and of the store. No clause
//! here depends on which stores are to be trusted, so the shares' types name no store.
#![tactic(auto)]

pub mod content;
pub mod dealing;
pub mod freeing;
pub mod laws;
pub mod reading;
pub mod rule;
#[cfg(test)]
mod tests;
pub mod writing;

pub use content::{Content, Written};
pub use dealing::{Owners, deal};
pub use freeing::freed;
pub use reading::{meet, read};
pub use rule::{ContentShare, Contents, RightContents};
pub use writing::{Bytes, failed, wrote};
