//! What a script says is done in a world of one thread, and the reply to each event.
//!
//! `simulate` boots a world, does the events that the blocks of a script come to, one after another, and writes the reply to each as soon as
//! it is done. What is done by an event is an `Act` (`act_of`): most are an event of the world, done by `World::apply`; the others read the
//! books, a guest's state or how often its pages have moved, or damage a slot of the store. What is answered to an act is `Said`, and its line
//! is `said_text`. The contract of `simulate` says it by two relations
//! (`specs/Transcripts.antt`): each act was done in the world that the one before it left (`AllDone`), an event of the world just as
//! `World::apply` has it (`Happens`), by the words of the generator of the seed, from its first on; and what is shown of a guest, its
//! console's output, the bytes of its memory and its dump, is that of the machine that its image boots, run alone on the items that its
//! own events added (`AllShow`). The second holds where the store is true to digests at the end, so also after a damage that a SHA-256
//! tells. Where memory is refused on the way, the same is so of the first events, whose replies are written (`BreaksOff`). How often pages
//! have moved is beside all this: no clause says the numbers. Whatever was done, whoever keeps logs (`LogKeeper`) gets that of each guest at
//! the end; that it does isn't said by a clause.
#![tactic(auto)]

pub mod acts;
mod blocks;
mod doing;
pub mod keeping;
pub mod pages;
pub mod said;
pub mod text;
pub mod transcript;

pub use acts::Act;
pub use keeping::LogKeeper;
pub use pages::PageCounts;
pub use said::Said;
pub use transcript::{SimError, simulate};
