//! What whoever audits takes before it takes the guests' locks.
use keyed_lock::{Close, Fits};
use machine_memory::Gathered;
use std::snapshot::Snapshot;

/// What the accounts that lie under the auditor's lock fit: none of the books, as they were at first.
#[derive(Drop)]
pub(crate) struct AuditorKey {
    pub first: Snapshot<Gathered>,
}

/// The accounts that are gathered while nobody audits: none.
pub(crate) struct Auditor {
    pub gathered: Gathered,
}

impl Close for Auditor {
    fn close(self) {
        let Auditor { gathered } = self;
        drop(gathered);
    }
}

impl Fits<AuditorKey> for Auditor {
    ghost use Rattle.std.specs.Prelude.{◌≡◌};

    ghost fits = { λ key auditor. auditor.gathered ≡ key.first.value };
}

impl Auditor {
    ghost use Rattle.std.specs.Prelude.{◌≡◌};

    /// The accounts.
    pub fn into_gathered(self) -> Gathered
        ensures { result ≡ self.gathered }
    {
        let Auditor { gathered } = self;
        gathered
    }
}
