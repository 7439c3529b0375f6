//! Marks of pages.
ghost use Rattle.std.specs.Prelude.{◌≡◌, ℕ, ◌+◌, ◌<◌, ◌≤◌, ◌^◌, true, false, None, IfOk, IfSome, length, replicate, slice_set, []};
ghost use Rattle.reset_machine.specs.Marks.{is_marked};

use std::alloc::{AllocError, Global};
use std::marker::Model;
use word32::Ppn;

/// Which pages of a memory are marked, and a list of them. In clauses they are `MarksAre`.
#[derive(Drop)]
pub struct Marks {
    marked: Vec<bool>,
    list: Vec<Ppn>,
}

impl Model for Marks {
    ghost use Rattle.std.specs.Prelude.{◌≤◌, length};
    ghost use Rattle.std.specs.Vec.{vec_capacity};
    ghost use Rattle.reset_machine.specs.Marks.{MarksAre, AreListed};

    ghost Value = { MarksAre };

    ghost view = { λ m. record { marked = m.marked.items; list = m.list.items } };

    ghost invariant = { λ m. AreListed m.marked.items m.list.items × (length m.marked.items ≤ vec_capacity m.list) };
}

impl Marks {
    /// Marks for a memory of so many pages, none of which is marked. `AllocError` where a request for memory was refused; no later call
    /// makes one.
    #[tactic(auto, using(crate::proofs::Marking::none_listed))]
    pub fn new(alloc: Global, pages: u32) -> Result<Marks, AllocError>
        ensures marked { IfOk result (λ m. m.marked ≡ replicate pages false) }
        ensures list { IfOk result (λ m. m.list ≡ []) }
    {
        let marked = vec![in alloc; false; pages as usize]?;
        let list = Vec::with_capacity(alloc, pages as usize)?;
        Ok(Marks { marked, list })
    }

    /// How many pages the memory has.
    #[inline(always)]
    pub fn pages(&self) -> usize
        ensures { result ≡ length self.now.marked }
    {
        self.marked.len()
    }

    /// How many pages are in the list.
    #[tactic(auto, using(crate::proofs::Marking::few_pages, crate::proofs::Marking::empty_none))]
    pub fn count(&self) -> usize
        ensures value { result ≡ length self.now.list }
        ensures within { result ≤ length self.now.marked }
        ensures none { result ≡ 0 → (page : ℕ) → is_marked page self.now.marked ≡ false }
    {
        self.list.len()
    }

    /// Marks a page. Mostly it is marked already, so that the test alone stands at each store.
    #[inline(always)]
    #[tactic(auto, using(crate::proofs::Marking::set_again))]
    pub fn mark(&mut self, page: Ppn)
        requires { page < length self.old.marked }
        ensures { self.new.marked ≡ slice_set self.old.marked page true }
    {
        if !self.marked[page.number() as usize] {
            self.add(page);
        }
    }

    /// `mark` of a page that is not marked.
    #[cold]
    #[inline(never)]
    #[tactic(auto, using(crate::proofs::Marking::room_to_add, crate::proofs::Marking::page_listed))]
    fn add(&mut self, page: Ppn)
        requires there { page < length self.old.marked }
        requires clear { is_marked page self.old.marked ≡ false }
        ensures { self.new.marked ≡ slice_set self.old.marked page true }
    {
        self.list.push_reserved(page);
        self.marked[page.number() as usize] = true;
    }

    /// Takes a page off the list and its mark away; None where no page is marked, and then nothing has changed.
    #[tactic(auto, using(crate::proofs::Marking::last_within, crate::proofs::Marking::last_taken, crate::proofs::Marking::empty_none))]
    pub fn take(&mut self) -> Option<Ppn>
        ensures there { IfSome result (λ page. page < length self.old.marked) }
        ensures marked { IfSome result (λ page. self.new.marked ≡ slice_set self.old.marked page false) }
        ensures fewer { IfSome result (λ page. length self.new.list + 1 ≡ length self.old.list) }
        ensures none { result ≡ None → (page : ℕ) → is_marked page self.old.marked ≡ false }
        ensures empty { result ≡ None → self.old.list ≡ [] }
        ensures unchanged { result ≡ None → self.new ≡ self.old }
    {
        let page = self.list.pop()?;
        self.marked[page.number() as usize] = false;
        Some(page)
    }
}
