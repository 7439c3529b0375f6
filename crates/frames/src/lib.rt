//! Machine frames, shared frames and slots as tokens: values with a number that can neither be copied nor dropped, so
//! that each lies in one place until it is spent. `SharePage` alone can be copied.
//!
//! Definitions: `specs/Counts.antt` has how often a number stands in a collection (`one_at`, `count_of`, `below`), in which
//! the books of all crates above are kept, with its laws in `laws`; `specs/Frames.antt` what is seen of a frame and of a
//! shared frame, `specs/FreeList.antt` what is seen of the free lists above. The crates above use `Frame` (`zeroed`,
//! `bytes`, `bytes_mut`, `strip`), `SharedFrame` (`join`, `leave`), which counts its tickets, and the lemmas of
//! `proofs/Counting.antt`.
//!
//! A `FrameNo` and a `SlotTicket` come from `Numbers` alone, which gives each number below its total once; a `ShareTicket`
//! from a `SharedFrame` alone, which counts it; a `SharedFrame` from a `Frame`, whose number it keeps. Nothing here forbids
//! a second `Numbers`, whose tokens would have the numbers of the first. That there is one for the frames and one for the
//! slots is for the crates that make the free lists; what shows it are the books above, which count every number wherever
//! it lies.
#![tactic(auto)]

pub mod frame;
pub mod frame_no;
pub mod laws;
pub mod numbers;
pub mod share_page;
pub mod share_ticket;
pub mod shared_frame;
pub mod slot;
#[cfg(test)]
mod tests;

pub use frame::Frame;
pub use frame_no::FrameNo;
pub use numbers::Numbers;
pub use share_page::SharePage;
pub use share_ticket::ShareTicket;
pub use shared_frame::SharedFrame;
pub use slot::SlotTicket;
