//! Programs and the states that they have to end in, worked out from the architecture manual, and the machines' own calls.
mod branches;
mod changed_code;
mod code;
mod coprocessors;
mod exceptions;
mod fetches;
mod flat;
mod guest_steps;
mod interrupts;
mod layout;
mod linked;
mod many_steps;
mod past_memory;
mod refills;
mod run;
mod translations;
mod unaligned;
mod vectors;

use std::fmt::Debug;
use std::process::Abort;

/// Asserts one case. The tests share it, since each assertion in a function's own body makes its proof much longer.
fn expect<C: Debug + Drop, T: PartialEq + Debug + Drop>(
    rt: &impl Abort,
    case: C,
    got: T,
    wanted: T,
) {
    assert!(rt; got == wanted, "{case:?}: {got:?}, not {wanted:?}");
}
