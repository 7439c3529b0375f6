//! Free frames that wait.
ghost use Rattle.std.specs.Prelude.{◌≡◌};
ghost use Rattle.accounts.specs.declared.account.Account.TheVariants.{Frame};
ghost use Rattle.accounts.specs.OwnerShares.{share_of};
ghost use Rattle.shared_pool.specs.Resting.{resting_is};

use accounts::BookShare;
use frames::FrameNo;
use std::marker::Model;

/// The number of a free frame with its account, as they lie in the queue. In clauses it is a record, `RestingIs`. Where it is
/// dropped with the queue, the number is closed.
pub struct Resting {
    no: FrameNo,
    share: BookShare,
}

impl Model for Resting {
    ghost use Rattle.std.specs.Prelude.{◌≡◌};
    ghost use Rattle.accounts.specs.declared.account.Account.TheVariants.{Frame};
    ghost use Rattle.accounts.specs.OwnerShares.{share_of};
    ghost use Rattle.shared_pool.specs.Resting.{RestingIs};

    ghost Value = { RestingIs };

    ghost view = { λ r. record { number = r.no; ledger = r.share.ledger } };

    ghost invariant = { λ r. r.share ≡ share_of r.share.ledger (Frame r.no) };
}

impl Resting {
    pub(crate) fn new(no: FrameNo, share: BookShare) -> Resting
        requires { share ≡ share_of share.ledger (Frame no) }
        ensures { result ≡ resting_is no share.ledger }
    {
        Resting { no, share }
    }

    pub(crate) fn into_parts(self) -> (FrameNo, BookShare)
        ensures number { result.0 ≡ self.number }
        ensures share { result.1 ≡ share_of self.ledger (Frame self.number) }
    {
        let Resting { no, share } = self;
        (no, share)
    }
}

impl Drop for Resting {
    fn drop(self) {
        let Self { no, share: _ } = self;
        let _number = no.close();
    }
}
