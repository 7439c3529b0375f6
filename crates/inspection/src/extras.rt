//! What is printed behind a dump.
ghost use Rattle.std.specs.Prelude.{◌≡◌, ◌++◌, OnOk, string_bytes};
ghost use Rattle.inspection.specs.Extras as spec;

use crate::memory::push_memory;
use crate::registers::push_processor;
use runs::Runnable;
use std::alloc::{AllocError, Global};

/// The greatest length of a region of memory that a command line may ask for, in bytes.
pub const LONGEST_REGION: u32 = 1024;

/// Bytes of memory.
#[derive(Clone, Copy, Debug, PartialEq, Eq)]
pub struct Region {
    /// The virtual address of the first.
    pub address: u32,
    /// How many.
    pub length: u32,
}

/// What is printed behind a dump.
#[derive(Debug, Drop)]
pub struct Extras {
    /// Whether the registers that the dump leaves out are.
    pub all: bool,
    /// The bytes of memory that are, in order.
    pub memory: Vec<Region>,
}

/// Writes what is wanted of a machine. An error says that a request for memory was refused.
pub fn push_extras<M: Runnable>(
    alloc: Global,
    out: &mut String,
    machine: &M,
    extras: &Extras,
) -> Result<(), AllocError>
    ensures { OnOk result (string_bytes out.new ≡ string_bytes out.old ++ spec.extras_text extras.now (M.state machine.now)) }
{
    push_all(out, machine, extras.all)?;
    push_regions(alloc, out, machine, &extras.memory)
}

fn push_all<M: Runnable>(out: &mut String, machine: &M, all: bool) -> Result<(), AllocError>
    ensures { OnOk result (string_bytes out.new ≡ string_bytes out.old ++ spec.all_text all (M.state machine.now)) }
{
    if all {
        let view = machine.view();
        push_processor(out, view.cpu, view.devices.lines())
    } else {
        Ok(())
    }
}

fn push_regions<M: Runnable>(
    alloc: Global,
    out: &mut String,
    machine: &M,
    regions: &[Region],
) -> Result<(), AllocError>
    ensures { OnOk result (string_bytes out.new ≡ string_bytes out.old ++ spec.regions_text (M.state machine.now) regions.now) }
{
    for region in regions {
        push_memory(alloc, out, machine, *region)?;
    }
    Ok(())
}
