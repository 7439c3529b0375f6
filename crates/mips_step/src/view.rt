//! What is seen of a machine.
use crate::Cpu;
use devices::Devices;

/// What is seen of a machine beside its memory.
#[derive(Clone, Copy)]
pub struct View<'a> {
    /// The processor.
    pub cpu: &'a Cpu,
    /// The console, and the balloon with the pages that were given to it.
    pub devices: &'a Devices,
}
