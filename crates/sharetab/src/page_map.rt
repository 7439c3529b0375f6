//! The digests of some pages.
ghost use Rattle.std.specs.Prelude.{◌≡◌, ℕ, List, Some, None, IfOk, OnOk, OnErr};
ghost use Rattle.sharetab.specs.Maps.{at_page};
ghost use Rattle.sharetab.specs.declared.guest_page.GuestPage.{GuestPage};

use crate::GuestPage;
use std::alloc::{AllocError, Global};
use std::collections::HashMap;
use std::marker::Model;

/// A digest for each of some pages. In clauses it is a list of pairs, read by `at_page`.
#[derive(Drop)]
pub struct PageMap {
    map: HashMap<(u32, u32), [u8; 32]>,
}

impl Model for PageMap {
    ghost use Rattle.std.specs.Prelude.{ℕ, List};

    ghost Value = { List ((ℕ × ℕ) × List ℕ) };

    ghost view = { λ m. m.map.entries };
}

impl PageMap {
    /// A map with nothing in it.
    pub fn new(alloc: Global) -> PageMap
        ensures { (page : GuestPage) → at_page result page ≡ None }
    {
        PageMap {
            map: HashMap::new(alloc),
        }
    }

    /// Keeps a digest for a page; the one that was kept.
    pub fn put(
        &mut self,
        page: &GuestPage,
        digest: &[u8; 32],
    ) -> Result<Option<[u8; 32]>, AllocError>
        ensures old { IfOk result (λ old. old ≡ at_page self.old page.now) }
        ensures here { OnOk result (at_page self.new page.now ≡ Some digest.now) }
        ensures others { OnOk result ((other : GuestPage) → (other ≡ page.now → ⊥) → at_page self.new other ≡ at_page self.old other) }
        ensures err { OnErr result (self.new ≡ self.old) }
    {
        Ok(
            self.map
                .insert((page.guest.number(), page.page.number()), *digest)?,
        )
    }
}
