//! Console input, a byte after another.
ghost use Rattle.std.specs.Prelude.{◌≡◌, ◌+◌, ◌≤◌, None, length, take, IfSome};
ghost use Rattle.runs.specs.Runs.{fed};

use crate::Runnable;
use guest_log::Stop;

/// Takes the bytes as console input, one after another, and tells how many it took; and why the machine stops, where that is
/// before the last.
pub fn feed_all<M: Runnable>(machine: &mut M, bytes: &[u8]) -> (usize, Option<Stop>)
    requires { length (M.state machine.old).board.devices.console.input + length bytes.now ≤ 256 }
    ensures few { result.0 ≤ length bytes.now }
    ensures all { result.1 ≡ None → result.0 ≡ length bytes.now }
    ensures state { M.state machine.new ≡ fed (take result.0 bytes.now) (M.state machine.old) }
    ensures kept { M.kept machine.new ≡ M.kept machine.old }
    ensures covered { M.coverage machine.new ≡ M.coverage machine.old }
    ensures reason { IfSome result.1 (M.may_stop machine.new) }
{
    let mut taken = 0;
    for byte in bytes {
        if let Err(stop) = machine.feed(*byte) {
            return (taken, Some(stop));
        }
        taken += 1;
    }
    (taken, None)
}
