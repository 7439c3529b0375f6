//! Which words of memory PC led to in all runs.
ghost use Rattle.std.specs.Prelude.{◌≡◌, ◌≤◌, ◌^◌, ◌*◌, IfOk, OnOk, [], string_bytes};
ghost use Rattle.runs.specs.Coverage.{no_coverage};
ghost use Rattle.fuzz_command.specs.Firsts.{with_first, with_firsts};

use crate::line::address_of;
use dump::push_word;
use reset_machine::Cover;
use std::alloc::{AllocError, Global};
use std::marker::Model;

/// Which words of memory PC led to in all runs, and the text that tells them: a line for each, in the order in which it did so first, with its
/// address and the name of the input whose run it was. In clauses it is `FirstsAre`.
#[derive(Drop)]
pub(crate) struct Coverage {
    cover: Cover,
    text: String,
}

impl Model for Coverage {
    ghost use Rattle.std.specs.Prelude.{string_bytes};
    ghost use Rattle.fuzz_command.specs.Firsts.{FirstsAre};

    ghost Value = { FirstsAre };

    ghost view = { λ c. record { coverage = c.cover; text = string_bytes c.text } };
}

impl Coverage {
    /// It is told of no word.
    pub(crate) fn none(alloc: Global) -> Coverage
        ensures { result ≡ record { coverage = no_coverage; text = [] } }
    {
        Coverage {
            cover: Cover::none(alloc),
            text: String::new(alloc),
        }
    }

    /// It is told of each word of so many pages, at most 2^20, of which none is reached. `AllocError` where a request for memory was refused.
    pub(crate) fn new(alloc: Global, pages: u32) -> Result<Coverage, AllocError>
        requires { pages ≤ 2 ^ 20 }
        ensures { IfOk result (λ c. c ≡ record { coverage = record { words = pages * 1024; reached = [] }; text = [] }) }
    {
        Ok(Coverage {
            cover: Cover::new(alloc, pages)?,
            text: String::new(alloc),
        })
    }

    /// A word is reached in the run of an input of this name.
    #[tactic(auto, using(crate::proofs::Firsts::first_added, crate::proofs::Firsts::none_added))]
    fn add_word(&mut self, name: &str, word: u32) -> Result<(), AllocError>
        ensures { OnOk result (self.new ≡ with_first name.now word self.old) }
    {
        if !self.cover.reach(word) {
            return Ok(());
        }
        push_word(&mut self.text, address_of(word))?;
        writeln!(self.text, " {name}")
    }

    /// Words are reached in the run of an input of this name, by their numbers and in this order. `AllocError` where a request for memory was
    /// refused; then lines are lacking.
    pub(crate) fn add(&mut self, name: &str, words: &[u32]) -> Result<(), AllocError>
        ensures { OnOk result (self.new ≡ with_firsts name.now words.now self.old) }
    {
        for word in words {
            self.add_word(name, *word)?;
        }
        Ok(())
    }

    /// The text.
    pub(crate) fn text(&self) -> &str
        ensures { result.now ≡ self.now.text }
    {
        &self.text
    }
}
