//! How many pages are where.
ghost use Rattle.std.specs.Prelude.{◌≡◌, ◌+◌, ◌<◌, ◌≤◌, ◌^◌};
ghost use Rattle.guest_pages.specs.Holdings.{one_private, one_shared, one_swapped};

use crate::Page;

/// How many pages of a map are private, shared and swapped.
#[derive(Clone, Copy)]
pub(crate) struct Counts {
    pub(crate) private: u32,
    pub(crate) shared: u32,
    pub(crate) swapped: u32,
}

impl Counts {
    /// The counts without a page that they count.
    pub(crate) fn without(self, page: &Page) -> Counts
        requires private { one_private page.now ≤ self.private }
        requires shared { one_shared page.now ≤ self.shared }
        requires swapped { one_swapped page.now ≤ self.swapped }
        ensures private { result.private + one_private page.now ≡ self.private }
        ensures shared { result.shared + one_shared page.now ≡ self.shared }
        ensures swapped { result.swapped + one_swapped page.now ≡ self.swapped }
    {
        let mut counts = self;
        match page {
            Page::Private(_) => counts.private -= 1,
            Page::Shared(_, _) => counts.shared -= 1,
            Page::Swapped(_, _) => counts.swapped -= 1,
            Page::Zero => {}
            Page::Given => {}
        }
        counts
    }

    /// The counts with one more page.
    pub(crate) fn with(self, page: &Page) -> Counts
        requires private { self.private + one_private page.now < 2 ^ 32 }
        requires shared { self.shared + one_shared page.now < 2 ^ 32 }
        requires swapped { self.swapped + one_swapped page.now < 2 ^ 32 }
        ensures private { result.private ≡ self.private + one_private page.now }
        ensures shared { result.shared ≡ self.shared + one_shared page.now }
        ensures swapped { result.swapped ≡ self.swapped + one_swapped page.now }
    {
        let mut counts = self;
        match page {
            Page::Private(_) => counts.private += 1,
            Page::Shared(_, _) => counts.shared += 1,
            Page::Swapped(_, _) => counts.swapped += 1,
            Page::Zero => {}
            Page::Given => {}
        }
        counts
    }
}
