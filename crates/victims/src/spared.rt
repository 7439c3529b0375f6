//! Pages that stay.
ghost use Rattle.std.specs.Prelude.{◌≡◌};
ghost use Rattle.victims.specs.Victims.{is_one_of, spared_of};

use word32::Ppn;

/// Pages of a guest that no eviction takes.
#[derive(Clone, Copy, Debug, PartialEq, Eq)]
pub struct Spared {
    /// The guest's number.
    pub guest: usize,
    /// Its pages, one of them twice where it is the only one.
    pub pages: (Ppn, Ppn),
}

/// The pages of a guest that are spared.
pub fn spared_of(spared: &Option<Spared>, guest: usize) -> Option<(Ppn, Ppn)>
    ensures { result ≡ spared_of spared.now guest }
{
    match spared {
        None => None,
        Some(spared) => if spared.guest == guest {
            Some(spared.pages)
        } else {
            None
        },
    }
}

/// Whether a page is one of two.
pub(crate) fn is_one_of(pages: &Option<(Ppn, Ppn)>, p: Ppn) -> bool
    ensures { result ≡ is_one_of pages.now p }
{
    match pages {
        None => false,
        Some(pages) => pages.0.number() == p.number() || pages.1.number() == p.number(),
    }
}
