//! The command `asm`.
ghost use Rattle.std.specs.Prelude.{◌≡◌, ◌≢◌, ◌⊎◌, IfErr, IfOk, IfSome, OnOk};
ghost use Rattle.masm.specs.Executables.{IsExecutableOf};
ghost use Rattle.commands.specs.Faults.{IsAsmFault, IsAsmRefusal, IsAsmRunFault};
ghost use Rattle.commands.specs.Sources.{source_text};

use crate::fault::{Fault, of_file};
use crate::image_file::whole_file;
use crate::order::Asm;
use masm::assemble;
use output_file::{is_one_file, write_file};
use std::alloc::Global;
use std::fs::File;
use std::io::Read;
use std::rt::Files;

/// Assembles the source of a file, and writes the executable into another file, which is made only once the source is
/// assembled (`output_file::write_file`): where that is refused, the file is as before.
///
/// An error is `Asm` with the source's first fault and its line; `File` where the source can't be read or the executable
/// can't be written, and where both are one file, by one name or by two, which is found before it is read; `Memory` where a request for
/// memory was refused.
pub fn assemble_file<'a, R: Files + AllocGlobal>(rt: &R, order: Asm<'a>) -> Result<(), Fault<'a>>
    ensures apart { OnOk result (order.entry.source ≢ order.entry.output) }
    ensures faults { IfErr result (λ fault. IsAsmRunFault order.entry fault) }
{
    if is_one_file(rt, order.source, order.output) {
        return Err(Fault::File { name: order.output });
    }
    let source = of_file(order.source, File::open(rt, order.source))?;
    let executable = executable_of(rt.alloc(), source, order.source)?;
    of_file(order.output, write_file(rt, order.output, &executable))
}

/// The executable of the source in the file of this name.
///
/// An error is `Asm` with the source's first fault and its line, `Memory` where a request for memory was refused, and `File`
/// where the file can't be read.
pub fn executable_of<'a, F: Read + Drop>(
    alloc: Global,
    file: F,
    name: &'a str,
) -> Result<Vec<u8>, Fault<'a>>
    ensures means { IfSome (F.remaining file) (λ all. IfOk result (λ executable. IsExecutableOf (source_text all) executable.items)) }
    ensures refused { IfSome (F.remaining file) (λ all. IfErr result (λ fault. IsAsmRefusal all fault)) }
    ensures faults { IfErr result (λ fault. IsAsmFault (Fault.File name.entry) fault) }
{
    let bytes = of_file(name, whole_file(alloc, file))?;
    executable_in(alloc, &bytes)
}

/// The executable of the source of these bytes.
fn executable_in<'a>(alloc: Global, bytes: &[u8]) -> Result<Vec<u8>, Fault<'a>>
    ensures means { IfOk result (λ executable. IsExecutableOf (source_text bytes.now) executable.items) }
    ensures refused { IfErr result (λ fault. IsAsmRefusal bytes.now fault) }
    ensures faults { IfErr result (λ fault. IsAsmFault Fault.Memory fault) }
{
    let text = String::from_utf8_lossy(alloc, bytes)?;
    Ok(assemble(alloc, &text)?)
}
