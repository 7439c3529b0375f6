//! The tests of the crates that the processor is made of, each by its public calls.
mod alu;
mod cp0;
mod debug;
mod isa;
mod many_steps;
mod profiles;
mod sparse;
mod step;
mod tlb;

use std::fmt::Debug;
use std::process::Abort;

/// Asserts one case. The tests share it, since each assertion in a function's own body makes its proof much longer.
fn expect<C: Debug + Drop, T: PartialEq + Debug + Drop>(
    rt: &impl Abort,
    case: C,
    got: T,
    wanted: T,
) {
    assert!(rt; got == wanted, "{case:?}: {got:?}, not {wanted:?}");
}
