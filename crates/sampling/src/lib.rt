//! Which part of its pages a guest uses, by a sample of them (Waldspurger, "Memory Resource Management in VMware ESX Server", OSDI
//! 2002, section 5.3): pages are drawn at random, and their marks are cleared; an access sets its page's mark; at the end of the
//! period the draws are counted whose page is marked.
//!
//! The crates above use `Marks`, in clauses of each page whether it is marked, of which `touch` is on the path of each access, `count`
//! counts draws and `clear` takes their marks; and `Sample`, whose `next` ends one period and begins the next. The marks lie with the
//! pages, and the sample with the policy, who draws (`taxpolicy`). The definitions are `specs/Samples`.
#![tactic(auto)]

pub mod laws;
pub mod marks;
pub mod sample;
#[cfg(test)]
mod tests;

pub use marks::Marks;
pub use sample::Sample;
