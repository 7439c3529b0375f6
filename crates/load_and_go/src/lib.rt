//! A load-and-go assembler: from a text in assembly language to a machine that has booted its program.
//!
//! The text is assembled to an executable, that is read, and the image is booted, all in memory. The crates above use
//! `boot_text`, whose world has one guest, the view of which holds the listing that the text means (`Means`, `Holds`);
//! `guest_of_text`, for a world of several guests; `flat_text`, which does the same with the reference machine; and the errors,
//! `TextError` and `BootError`. That assembler, executable and boot fit together is the law `booted_machine_holds_its_listing`.
#![tactic(auto)]

pub mod boot;
pub mod error;
pub mod laws;

pub use boot::{boot_text, flat_text, guest_of_text};
pub use error::{BootError, TextError};

#[cfg(test)]
mod tests;
