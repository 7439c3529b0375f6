//! What can be done.
ghost use Rattle.std.specs.Prelude.{IfOk};
ghost use Rattle.memory_bench.specs.Answers.{Answers};

use crate::accesses::{WORDS, mapped, plain};
use crate::appending::{append_items, append_steps, looks};
use crate::sharing::{digests, shared};
use std::alloc::{AllocError, Global};

/// What is done in each round.
#[derive(Clone, Copy)]
pub enum Work {
    /// A step of the processor is appended to a log.
    AppendStep,
    /// An item is appended to a log.
    Append,
    /// A seat looks how long a log is.
    Look,
    /// A word is read from the pages of a guest.
    Load,
    /// A word is written to the pages of a guest.
    Store,
    /// A word is read from plain memory.
    PlainLoad,
    /// A word is written to plain memory.
    PlainStore,
    /// A page is offered to a table of shared frames.
    Offer,
    /// A page joins a shared frame.
    Join,
    /// The SHA-256 of a page is computed.
    Digest,
}

impl Work {
    /// The work of a name.
    pub fn named(name: &str) -> Option<Work> {
        match name {
            "append_step" => Some(Work::AppendStep),
            "append" => Some(Work::Append),
            "look" => Some(Work::Look),
            "load" => Some(Work::Load),
            "store" => Some(Work::Store),
            "plain_load" => Some(Work::PlainLoad),
            "plain_store" => Some(Work::PlainStore),
            "offer" => Some(Work::Offer),
            "join" => Some(Work::Join),
            "digest" => Some(Work::Digest),
            _ => None,
        }
    }

    /// Does so many rounds; a number that depends on them. `AllocError` where memory is refused.
    pub fn rounds(self, alloc: Global, count: u32) -> Result<u64, AllocError>
        ensures { IfOk result (Answers self count) }
    {
        match self {
            Work::AppendStep => append_steps(alloc, count),
            Work::Append => append_items(alloc, count),
            Work::Look => looks(alloc, count),
            Work::Load => mapped(alloc, WORDS, count),
            Work::Store => mapped(alloc, count, WORDS),
            Work::PlainLoad => plain(alloc, WORDS, count),
            Work::PlainStore => plain(alloc, count, WORDS),
            Work::Offer => shared(alloc, count, 0),
            Work::Join => shared(alloc, 0, count),
            Work::Digest => Ok(digests(count)),
        }
    }
}
