//! The tests of the crates that the processor is made of: `mips_isa`, `mips_alu`, `mips_cp0`, `mips_tlb`, `mips_step` and
//! `mips_fast`.
//!
//! They stand apart from these so that a run of the tests proves them alone.
#![tactic(auto)]

#[cfg(test)]
mod tests;
