//! The shared frames, under a lock.
use accounts::{BookShare, Books};
use keyed_lock::{Close, Fits};
use sharetab::Shares;
use std::snapshot::Snapshot;

/// What the shared frames fit: the books.
#[derive(Drop)]
pub struct TableKey {
    pub books: Snapshot<Books>,
}

/// The shared frames, with their account.
pub struct Table {
    pub shares: Shares,
    pub share: BookShare,
}

impl Close for Table {
    fn close(self) {
        let Table { shares, share: _ } = self;
        shares.close();
    }
}

impl Fits<TableKey> for Table {
    ghost use Rattle.lent_pages.specs.Locked.{IsTable};

    ghost fits = { λ key table. IsTable key.books.value table.shares.entries table.share };
}
