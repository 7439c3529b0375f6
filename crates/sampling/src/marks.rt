//! The marks of touched pages.
ghost use Rattle.std.specs.Prelude.{◌≡◌, ◌<◌, ◌≤◌, ◌^◌, IfOk, length, replicate, slice_set, false, true};
ghost use Rattle.sampling.specs.Samples.{is_marked, marked_draws, cleared};

use std::alloc::{AllocError, Global};
use std::marker::Model;
use taxpolicy::SAMPLE_SIZE;
use word32::Ppn;

/// Of each page of a memory, by its number, whether it is marked as touched. In clauses it is a list of truth values.
#[derive(Drop)]
pub struct Marks {
    touched: Vec<bool>,
}

impl Model for Marks {
    ghost use Rattle.std.specs.Prelude.{Bool, List, ◌≤◌, ◌^◌, length};

    ghost Value = { List Bool };

    ghost view = { λ m. m.touched.items };

    ghost invariant = { λ m. length m.touched.items ≤ 2 ^ 20 };
}

impl Marks {
    /// The marks of a memory of so many pages, at most 2^20: none is marked. `AllocError` where a request for memory was refused.
    pub fn new(alloc: Global, pages: u32) -> Result<Marks, AllocError>
        requires { pages ≤ 2 ^ 20 }
        ensures { IfOk result (λ marks. marks ≡ replicate pages false) }
    {
        let touched = vec![in alloc; false; pages as usize]?;
        Ok(Marks { touched })
    }

    /// How many pages the memory has, at most 2^20.
    pub fn pages(&self) -> u32
        ensures value { result ≡ length self.now }
        ensures small { result ≤ 2 ^ 20 }
    {
        self.touched.len() as u32
    }

    /// Marks a page.
    #[inline(always)]
    pub fn touch(&mut self, page: Ppn)
        requires { page < length self.old }
        ensures { self.new ≡ slice_set self.old page true }
    {
        self.touched[page.number() as usize] = true;
    }

    /// Whether the page of this number is marked; one that there isn't is not.
    pub fn is_marked(&self, page: u32) -> bool
        ensures { result ≡ is_marked self.now page }
    {
        let place = page as usize;
        place < self.touched.len() && self.touched[place]
    }

    /// How many draws are of a marked page; a page that was drawn twice counts twice.
    pub fn count(&self, draws: &[u32; SAMPLE_SIZE]) -> u16
        ensures value { result ≡ marked_draws self.now draws.now }
        ensures small { result ≤ 100 }
    {
        draws.iter().filter(|page| self.is_marked(**page)).count() as u16
    }

    /// Takes the mark of the page of this number; nothing changes where there is no such page.
    fn take(&mut self, page: u32)
        ensures { self.new ≡ slice_set self.old page false }
    {
        let place = page as usize;
        if place < self.touched.len() {
            self.touched[place] = false;
        }
    }

    /// Takes the marks of the pages that were drawn.
    #[tactic(auto, using(crate::proofs::Clearing::length_cleared, crate::proofs::Clearing::cleared_more))]
    pub fn clear(&mut self, draws: &[u32; SAMPLE_SIZE])
        ensures marks { self.new ≡ cleared draws.now self.old }
        ensures count { length self.new ≡ length self.old }
    {
        for page in draws {
            self.take(*page);
        }
    }
}
