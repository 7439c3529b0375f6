//! The command `dis`.
ghost use Rattle.std.specs.Prelude.{◌≡◌, IfErr, IfOk, IfSome, string_bytes};
ghost use Rattle.commands.specs.Faults.{IsDisFault, IsElfFault, IsElfRefusal};
ghost use Rattle.masm.specs.Disassembly.{IsDisassemblyOf};

use crate::fault::{Fault, of_file};
use crate::image_file::{elf_file, image_in};
use crate::order::Dis;
use masm::disassembly_of;
use std::alloc::Global;
use std::fs::File;
use std::io::Read;
use std::rt::Files;

/// How many pages of memory kseg0 reaches.
const KSEG0_PAGES: u32 = 131_072;

/// The disassembly of the executable in a file: a line for each word that the file has of a segment.
///
/// An error is `File` where the file can't be read, `Elf` with its first fault, and `Memory` where a request for memory was
/// refused.
pub fn disassemble_file<'a, R: Files + AllocGlobal>(
    rt: &R,
    order: Dis<'a>,
) -> Result<String, Fault<'a>>
    ensures { IfErr result (λ fault. IsDisFault order.entry fault) }
{
    let file = of_file(order.image, File::open(rt, order.image))?;
    disassembly(rt.alloc(), file, order.image)
}

/// The disassembly of the executable in the file of this name, with the errors of `disassemble_file`.
pub fn disassembly<'a, F: Read + Drop>(
    alloc: Global,
    file: F,
    name: &'a str,
) -> Result<String, Fault<'a>>
    ensures lines { IfSome (F.remaining file) (λ all. IfOk result (λ lines. IsDisassemblyOf all (string_bytes lines))) }
    ensures refused { IfSome (F.remaining file) (λ all. IfErr result (λ fault. IsElfRefusal all 131072 fault)) }
    ensures faults { IfErr result (λ fault. IsElfFault (Fault.File name.entry) fault) }
{
    match of_file(name, elf_file(alloc, file))? {
        Some(bytes) => disassembly_in(alloc, &bytes),
        None => Err(Fault::Elf {
            fault: elf32::Fault::Identification,
        }),
    }
}

/// The disassembly of the executable of these bytes.
fn disassembly_in<'a>(alloc: Global, bytes: &[u8]) -> Result<String, Fault<'a>>
    ensures lines { IfOk result (λ lines. IsDisassemblyOf bytes.now (string_bytes lines)) }
    ensures refused { IfErr result (λ fault. IsElfRefusal bytes.now 131072 fault) }
    ensures faults { IfErr result (λ fault. IsElfFault Fault.Memory fault) }
{
    let image = image_in(alloc, bytes, KSEG0_PAGES)?;
    Ok(disassembly_of(alloc, &image)?)
}
