//! Whether a guest is its run still, once a page of it came from a slot.
ghost use Rattle.std.specs.Prelude.{◌≡◌, ◌&&◌};
ghost use Rattle.cell.specs.Narrowing.{comes_right};

use guest::Guest;
use lasting_truth::{Keeper, Narrowing, Truth};
use std::marker::Brand;
use word32::Ppn;

// The truth holds still where it held and what the proof chooses, for which the guest and the page are told, is true.
fn narrow_by<N: Narrowing>(truth: &Truth, keeper: &mut Keeper, guest: &Guest, page: Ppn)
    requires { keeper.old.truth ≡ truth.now.id }
    ensures { keeper.new ≡ record keeper.old { holds = keeper.old.holds && N.still } }
{
    let _ = guest;
    let _ = page;
    truth.narrow::<N>(keeper);
}

// The truth of a guest, of which a page has got a frame or has not, holds still exactly where it held, and the page is in its slot still or
// shows the bytes of the guest's own run.
pub(crate) fn narrow(truth: &Truth, keeper: &mut Keeper, guest: &Guest, page: Ppn)
    requires { keeper.old.truth ≡ truth.now.id }
    ensures { keeper.new ≡ record keeper.old { holds = keeper.old.holds && comes_right guest.now page } }
{
    narrow_by::<Brand>(truth, keeper, guest, page);
}
