//! The tags of the items of a log file.

/// Steps of the processor.
pub(crate) const STEPS: u8 = 1;

/// A byte of console input.
pub(crate) const INPUT: u8 = 2;

/// The console's output is taken.
pub(crate) const DRAIN: u8 = 3;

/// How many pages the balloon is asked to hold.
pub(crate) const TARGET: u8 = 4;

/// A debugger writes a register.
pub(crate) const POKE: u8 = 5;

/// A debugger writes bytes.
pub(crate) const WRITE: u8 = 6;
