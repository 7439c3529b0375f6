//! The text of bytes of memory.
ghost use Rattle.std.specs.Prelude.{◌≡◌, ◌≤◌, ◌++◌, OnOk, string_bytes};
ghost use Rattle.inspection.specs.Extras as extras;
ghost use Rattle.inspection.specs.Memory as spec;

use crate::extras::Region;
use dump::push_digits;
use masm::HexWord;
use runs::Runnable;
use std::alloc::{AllocError, Global};

/// Writes the bytes of a region, in lines of 16.
pub fn push_memory<M: Runnable>(
    alloc: Global,
    out: &mut String,
    machine: &M,
    region: Region,
) -> Result<(), AllocError>
    ensures { OnOk result (string_bytes out.new ≡ string_bytes out.old ++ extras.region_text (M.state machine.now) region) }
{
    let Region { address, length } = region;
    for line in 0..length.div_ceil(16) {
        let start = line * 16;
        let count = (length - start).min(16);
        push_line(alloc, out, machine, address.wrapping_add(start), count)?;
    }
    Ok(())
}

/// Writes some bytes on a line, or that one of them has no place in memory.
fn push_line<M: Runnable>(
    alloc: Global,
    out: &mut String,
    machine: &M,
    address: u32,
    count: u32,
) -> Result<(), AllocError>
    ensures { OnOk result (string_bytes out.new ≡ string_bytes out.old ++ spec.bytes_text (M.state machine.now) address count) }
{
    let mut bytes = vec![in alloc; 0; count as usize]?;
    let read = machine.read(address, bytes.as_mut_slice());
    push_address(out, address)?;
    match read {
        Ok(()) => push_digits(out, bytes.as_slice())?,
        Err(_) => out.push_str("no place")?,
    }
    out.push_str("\n")
}

#[tactic(auto, unfolding(crate::specs::Memory::label_text))]
fn push_address(out: &mut String, address: u32) -> Result<(), AllocError>
    ensures { OnOk result (string_bytes out.new ≡ string_bytes out.old ++ spec.label_text address) }
{
    let address = HexWord(address);
    write!(out, "mem {address} ")
}
