//! Pages that a debugger's accesses want.
ghost use Rattle.std.specs.Prelude.{◌≡◌};
ghost use Rattle.guest_pages.specs.declared.page.PageKind.{PageKind};
ghost use Rattle.victims.specs.Wanted.{is_wanted};

use guest_pages::PageKind;

/// What a debugger does to bytes.
#[derive(Clone, Copy, Debug, PartialEq, Eq)]
pub enum Access {
    /// It reads them.
    Read,
    /// It writes them.
    Write,
}

/// Whether a page of a kind is to be supplied before it is accessed: one that is read where it is in a slot, one that is written to where
/// it has no frame of its own.
pub fn is_wanted(access: Access, kind: PageKind) -> bool
    ensures { result ≡ is_wanted access kind }
{
    match access {
        Access::Read => kind == PageKind::Swapped,
        Access::Write => kind != PageKind::Private,
    }
}
