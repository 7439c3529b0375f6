//! Laws of talks.
ghost use Rattle.std.specs.Prelude.{ℕ, List};
ghost use Rattle.debugline.specs.Lines.{Line, IsLines};
ghost use Rattle.cell.specs.declared.cell.Front.{Front};
ghost use Rattle.cell.specs.declared.seat.Seat.{Seat};
ghost use Rattle.debug_session.specs.declared.session.Session.{Session};
ghost use Rattle.debug_session.specs.declared.state.State.TheVariants.{Ready};
ghost use Rattle.debug_session.specs.Talks.{HasTalked, HaveNoCont, TakesLines};

use debugline::laws::a_stream_has_one_list_of_lines;
use swapstore::SwapStore;

/// A law: where no line asks for a `cont`, what was talked is what the lines of all that came lead to, one after another, and nothing else;
/// however it was cut into pieces, these are the same lines.
pub fn a_talk_without_cont_goes_by_its_lines<S: SwapStore + Drop>()
    ensures { (front : Front S) (start seat : Seat) (came sent : List ℕ) (session : Session) (lines : List Line) (rest : Line)
        → HasTalked front start came sent session seat → IsLines came lines rest → HaveNoCont lines
        → TakesLines front Ready start lines session.state seat sent }
{
    a_stream_has_one_list_of_lines();
}
