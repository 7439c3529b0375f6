//! The hints of a table of shared frames.
ghost use Rattle.std.specs.Prelude.{◌≡◌, ℕ, List, Some, None, IfOk, OnOk, OnErr, IfSome, IfNone};
ghost use Rattle.sharetab.specs.Maps.{at_page};
ghost use Rattle.sharetab.specs.Hints.{NoOtherHas, OnePageEach, Notes};
ghost use Rattle.sharetab.specs.declared.guest_page.GuestPage.{GuestPage};

use crate::GuestPage;
use crate::digest_map::DigestMap;
use crate::page_map::PageMap;
use std::alloc::{AllocError, Global};
use std::marker::Model;

/// The digest that each page was last noted with; no two pages have the same. In clauses it is a list of pairs, read by
/// `at_page`.
#[derive(Drop)]
pub struct Hints {
    by_page: PageMap,
    by_digest: DigestMap<GuestPage>,
}

impl Model for Hints {
    ghost use Rattle.std.specs.Prelude.{ℕ, List};
    ghost use Rattle.sharetab.specs.Hints.{Inverts};

    ghost Value = { List ((ℕ × ℕ) × List ℕ) };

    ghost view = { λ h. h.by_page };

    ghost invariant = { λ h. Inverts h.by_page h.by_digest };
}

impl Hints {
    /// No hint.
    #[tactic(auto, using(crate::proofs::Hinting::inverts_none))]
    pub fn new(alloc: Global) -> Hints
        ensures { (page : GuestPage) → at_page result page ≡ None }
    {
        Hints {
            by_page: PageMap::new(alloc),
            by_digest: DigestMap::new(alloc),
        }
    }

    /// A law of the type: no two pages were last noted with one digest.
    #[tactic(auto, using(crate::proofs::Hinting::one_page_each))]
    pub fn one_page_each(&self)
        ensures { OnePageEach self.now }
    {
        // The law follows from the invariant, which is known once the value is read.
        let _hints = &self.by_page;
    }

    /// The other page that was last noted with a digest; where there is none, the page is noted with it.
    pub fn note(
        &mut self,
        digest: &[u8; 32],
        page: GuestPage,
    ) -> Result<Option<GuestPage>, AllocError>
        ensures other { IfOk result (λ answer. IfSome answer (λ other. (other ≡ page → ⊥) × (at_page self.old other ≡ Some digest.now))) }
        ensures stays { IfOk result (λ answer. IfSome answer (λ _. self.new ≡ self.old)) }
        ensures no_other { IfOk result (λ answer. IfNone answer (NoOtherHas self.old digest.now page)) }
        ensures noted { IfOk result (λ answer. IfNone answer (Notes self.old digest.now page self.new)) }
        ensures err { OnErr result (self.new ≡ self.old) }
    {
        match self.by_digest.find(digest) {
            Some(other) if other == page => Ok(None),
            Some(other) => Ok(Some(other)),
            None => {
                self.put(digest, &page)?;
                Ok(None)
            }
        }
    }

    // A page is noted with a digest that no page was last noted with.
    fn put(&mut self, digest: &[u8; 32], page: &GuestPage) -> Result<(), AllocError>
        requires { (other : GuestPage) → at_page self.old other ≡ Some digest.now → ⊥ }
        ensures noted { OnOk result (Notes self.old digest.now page.now self.new) }
        ensures err { OnErr result (self.new ≡ self.old) }
    {
        self.by_digest.put(digest, *page)?;
        match self.by_page.put(page, digest) {
            Ok(None) => {}
            Ok(Some(old)) => self.by_digest.remove(&old),
            Err(failed) => {
                self.by_digest.remove(digest);
                return Err(failed);
            }
        }
        Ok(())
    }
}
