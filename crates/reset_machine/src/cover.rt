//! The words of memory that were reached.
ghost use Rattle.std.specs.Prelude.{◌≡◌, ◌<◌, ◌≤◌, ◌^◌, ◌*◌, ◌/◌, ◌++◌, ◌∷◌, true, false, length, IfOk, []};
ghost use Rattle.runs.specs.Coverage.{is_more, is_reached, no_coverage, with_word};
ghost use Rattle.reset_machine.specs.Covers.{IsCover, NoneMarked};

use machine::PhysAddr;
use std::alloc::{AllocError, Global};
use std::marker::Model;
use word32::PAGE_SIZE;

/// How many words a page has.
const PAGE_WORDS: u32 = PAGE_SIZE / 4;

/// The words of a memory, from its first on, that PC led to: which they are, and a list of them in the order in which it did so first. In
/// clauses it is a coverage, `CoverageIs`.
#[derive(Drop)]
pub struct Cover {
    marked: Vec<bool>,
    list: Vec<u32>,
}

impl Model for Cover {
    ghost use Rattle.std.specs.Prelude.{◌≤◌, length};
    ghost use Rattle.std.specs.Vec.{vec_capacity};
    ghost use Rattle.runs.specs.Coverage.{CoverageIs};
    ghost use Rattle.reset_machine.specs.Covers.{IsCover};

    ghost Value = { CoverageIs };

    ghost view = { λ c. record { words = length c.marked.items; reached = c.list.items } };

    ghost invariant = { λ c. IsCover c.marked.items c.list.items × (length c.marked.items ≤ vec_capacity c.list) };
}

impl Cover {
    /// It is told of no word.
    #[tactic(auto, using(crate::proofs::Covering::nothing_marked))]
    pub fn none(alloc: Global) -> Cover
        ensures { result ≡ no_coverage }
    {
        Cover {
            marked: Vec::new(alloc),
            list: Vec::new(alloc),
        }
    }

    /// It is told of each word of so many pages, at most 2^20, and none is reached. `AllocError` where a request for memory was refused; no later
    /// call makes one.
    #[tactic(auto, using(crate::proofs::Covering::no_word_marked))]
    pub fn new(alloc: Global, pages: u32) -> Result<Cover, AllocError>
        requires { pages ≤ 2 ^ 20 }
        ensures { IfOk result (λ c. c ≡ record { words = pages * 1024; reached = [] }) }
    {
        let words = (pages * PAGE_WORDS) as usize;
        let marked = vec![in alloc; false; words]?;
        let list = Vec::with_capacity(alloc, words)?;
        Ok(Cover { marked, list })
    }

    /// Whether it is told of any word.
    #[inline(always)]
    pub fn is_kept(&self) -> bool
        ensures kept { result ≡ true → 0 < self.now.words }
        ensures none { result ≡ false → self.now.words ≡ 0 }
    {
        !self.marked.is_empty()
    }

    /// Whether the word that holds an address is reached.
    #[tactic(auto, using(crate::proofs::Covering::marked_as_reached, crate::proofs::Covering::past_not_reached))]
    pub fn has(&self, at: PhysAddr) -> bool
        ensures { result ≡ is_reached (at / 4) self.now.reached }
    {
        let word = (at.number() / 4) as usize;
        word < self.marked.len() && self.marked[word]
    }

    /// Whether the word that holds an address is one that it is told of and that is not reached.
    #[tactic(auto, using(crate::proofs::Covering::marked_as_reached))]
    pub fn lacks(&self, at: PhysAddr) -> bool
        ensures { result ≡ is_more (at / 4) self.now }
    {
        let word = (at.number() / 4) as usize;
        word < self.marked.len() && !self.marked[word]
    }

    /// The word of this number is reached. The answer is whether it is one that was not.
    #[tactic(auto, using(crate::proofs::Covering::marked_as_reached))]
    pub fn reach(&mut self, word: u32) -> bool
        ensures new { self.new ≡ with_word word self.old }
        ensures told { result ≡ is_more word self.old }
    {
        if (word as usize) < self.marked.len() && !self.marked[word as usize] {
            self.add(word);
            true
        } else {
            false
        }
    }

    /// `reach` of a word that was not, by its number.
    #[tactic(auto, using(crate::proofs::Covering::room_to_reach, crate::proofs::Covering::word_reached, crate::proofs::Covering::not_marked_yet))]
    fn add(&mut self, word: u32)
        requires there { word < self.old.words }
        requires clear { is_reached word self.old.reached ≡ false }
        ensures { self.new ≡ record self.old { reached = self.old.reached ++ word ∷ [] } }
    {
        self.list.push_reserved(word);
        self.marked[word as usize] = true;
    }

    /// None is reached any more. It costs those that were.
    pub fn forget(&mut self)
        ensures { self.new ≡ record self.old { reached = [] } }
    {
        unmark(&mut self.marked, &self.list);
        self.list.clear();
    }

    /// The words that are reached, by their numbers, in the order in which PC led to them first.
    pub fn reached(&self) -> &[u32]
        ensures { result.now ≡ self.now.reached }
    {
        &self.list
    }
}

/// Takes the marks of words away, which are those of a list.
#[tactic(auto, using(crate::proofs::Covering::all_among, crate::proofs::Covering::listed_there, crate::proofs::Covering::none_among))]
fn unmark(marked: &mut [bool], list: &[u32])
    requires { IsCover marked.old list.now }
    ensures size { length marked.new ≡ length marked.old }
    ensures none { NoneMarked marked.new }
{
    for index in 0..list.len() {
        marked[list[index] as usize] = false;
    }
}
