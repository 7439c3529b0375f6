//! Programs of the architecture on both machines: the reference machine and a guest of a world.
//!
//! The crate has tests alone. Each of its programs is a few instructions, with the steps to make and the state that the
//! machine has to be in after them, worked out from the architecture manual: the general registers, HI and LO, PC, and the
//! system registers Status, Cause, EPC and BadVAddr. That both machines are in the same state is proved (`world`,
//! `guest`, `flatvm`, `mips_step`); that the definition they share is the architecture's is what these programs try. Those of
//! `many_steps` have no such state: they are run on both machines in slices, which a guest makes at once.
#![tactic(auto)]

#[cfg(test)]
mod tests;
