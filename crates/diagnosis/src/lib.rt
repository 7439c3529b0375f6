//! Words for what was refused: what was found, where, and what to try.
//!
//! The crates above use `Words`, a line of printable ASCII characters whatever was put into it, and the calls that answer
//! one: `elf::explain` (the first fault of an executable, `first_fault`, with what its bytes say of it), `raw::explain`,
//! `source::explain` and `script_line::explain` (a line of a text, and what may stand there), `boot::of_machine`,
//! `boot::of_number` and `boot::of_guests`. `source::excerpt_of` answers the line with a caret
//! under its wrong word. `log::reason` and `file::reason` are tables, and `log::header` is what a log says of its machine.
//! `pages::least_pages` is the least number of pages that holds a segment, of those that a memory may have (`Memory`). Nothing is
//! read but what is passed, and each error is want of memory.
#![tactic(auto)]

pub mod boot;
pub mod elf;
pub mod excerpt;
pub mod file;
pub mod forms;
pub mod headers;
pub mod log;
pub mod memory;
pub mod pages;
pub mod raw;
pub mod script_line;
pub mod segments;
pub mod source;
pub mod words;

pub use excerpt::Excerpt;
pub use memory::Memory;
pub use words::Words;
