//! The balloon.
ghost use Rattle.std.specs.Prelude.{◌≡◌, ◌≤◌, ◌^◌, length, IfOk};
ghost use Rattle.dev_balloon.specs.Balloon.{fresh_balloon, is_given, given_count, can_be_given, page_given, page_taken, with_target};

use std::alloc::{AllocError, Global};
use std::marker::Model;
use word32::Ppn;

/// The balloon of a guest. In clauses it is its target and of each page whether it is given, `BalloonIs`.
#[derive(Drop)]
pub struct Balloon {
    target: u32,
    /// How many pages are given.
    count: u32,
    /// Of each page, by its number, whether it is given.
    given: Vec<bool>,
}

impl Model for Balloon {
    ghost use Rattle.std.specs.Prelude.{◌≡◌, ◌≤◌, ◌^◌, length, count_by};
    ghost use Rattle.dev_balloon.specs.Balloon.{BalloonIs};

    ghost Value = { BalloonIs };

    ghost view = { λ b. record { target = b.target; given = b.given.items } };

    ghost invariant = { λ b. (b.count ≡ count_by (λ given. given) b.given.items) × (length b.given.items ≤ 2 ^ 20) };
}

impl Balloon {
    /// The balloon of a memory of so many pages, at most 2^20: its target is 0, and no page is given. `AllocError` where a
    /// request for memory was refused.
    pub fn new(alloc: Global, pages: u32) -> Result<Balloon, AllocError>
        requires { pages ≤ 2 ^ 20 }
        ensures { IfOk result (λ balloon. balloon ≡ fresh_balloon pages) }
    {
        let given = vec![in alloc; false; pages as usize]?;
        Ok(Balloon {
            target: 0,
            count: 0,
            given,
        })
    }

    /// The same balloon once more, for a snapshot: it has the same target and the same pages. `AllocError` where a request for
    /// memory was refused.
    pub fn try_clone(&self) -> Result<Balloon, AllocError>
        ensures { IfOk result (λ balloon. balloon ≡ self.now) }
    {
        let given = self.given.clone()?;
        Ok(Balloon {
            target: self.target,
            count: self.count,
            given,
        })
    }

    /// How many pages the memory has, at most 2^20.
    pub fn pages(&self) -> u32
        ensures value { result ≡ length self.now.given }
        ensures small { result ≤ 2 ^ 20 }
    {
        self.given.len() as u32
    }

    /// How many pages it is asked to hold.
    pub fn target(&self) -> u32
        ensures { result ≡ self.now.target }
    {
        self.target
    }

    /// Asks it to hold so many pages. It may be more than there are.
    pub fn set_target(&mut self, target: u32)
        ensures { self.new ≡ with_target target self.old }
    {
        self.target = target;
    }

    /// How many pages are given.
    pub fn given(&self) -> u32
        ensures value { result ≡ given_count self.now }
        ensures within { result ≤ length self.now.given }
    {
        self.count
    }

    /// Whether a page is given; a page that there isn't is not.
    pub fn is_given(&self, page: Ppn) -> bool
        ensures { result ≡ is_given page self.now }
    {
        let place = page.number() as usize;
        place < self.given.len() && self.given[place]
    }

    /// Gives a page, and answers whether it became given: not where it is given already, nor where there is no such page.
    pub fn give(&mut self, page: Ppn) -> bool
        ensures became { result ≡ can_be_given page self.old }
        ensures given { self.new ≡ page_given page self.old }
    {
        let place = page.number() as usize;
        if place < self.given.len() && !self.given[place] {
            self.given[place] = true;
            self.count += 1;
            true
        } else {
            false
        }
    }

    /// Takes a page out of the given ones. Nothing changes where it is not given.
    pub fn take(&mut self, page: Ppn)
        ensures { self.new ≡ page_taken page self.old }
    {
        let place = page.number() as usize;
        if place < self.given.len() && self.given[place] {
            self.given[place] = false;
            self.count -= 1;
        }
    }

    /// What an access to a page does: it takes the page out of the given ones.
    #[inline(always)]
    #[tactic(auto, using(crate::proofs::Counting::none_to_take))]
    pub fn touch(&mut self, page: Ppn)
        ensures { self.new ≡ page_taken page self.old }
    {
        if self.count != 0 {
            self.take_accessed(page);
        }
    }

    // `touch` where some page is given, which is rare: apart, so that the test alone stands at each access.
    #[cold]
    #[inline(never)]
    fn take_accessed(&mut self, page: Ppn)
        ensures { self.new ≡ page_taken page self.old }
    {
        self.take(page);
    }
}
