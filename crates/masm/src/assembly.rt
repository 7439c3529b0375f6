//! Assembling.
ghost use Rattle.std.specs.Prelude.{◌≡◌, map, IfOk, IfErr, IfSome, Some};
ghost use Rattle.std.specs.Str.Lines.{lines};
ghost use Rattle.masm.specs.Answers.{fault_in};
ghost use Rattle.masm.specs.Assembly.{Means, first_fault};
ghost use Rattle.masm.specs.Executables.{IsExecutableOf};
ghost use Rattle.masm.specs.Images.{IsImageOf};
ghost use Rattle.masm.specs.Listings.{Listing};
ghost use Rattle.masm_lines.specs.Views.{text_view};

use crate::AsmError;
use crate::output::image_of;
use crate::reading::names_of;
use elf32::laws::written_file_stands_for_its_image;
use elf32::{Image, write};
use std::alloc::{AllocError, Global};

/// The image of the listing that a text means. The error is the text's first fault with its line, or comes where memory
/// is refused.
pub fn assemble_image(alloc: Global, text: &str) -> Result<Image, AsmError>
    // What is answered stands for the listing that the text means.
    ensures image { IfOk result (λ image. (listing : Listing) × Means text.now listing × IsImageOf listing image) }
    // A refusal for another cause than memory is the text's first fault, with its line.
    ensures fault { IfErr result (λ error. IfSome (fault_in error) (λ fault. first_fault text.now ≡ Some fault)) }
{
    let lines = lines_of(alloc, text)?;
    let names = names_of(alloc, &lines)?;
    image_of(alloc, &lines, &names)
}

/// The ELF32 executable of the listing that a text means: a machine with the 131072 pages that kseg0 reaches can load it.
/// The error is the text's first fault with its line, or comes where memory is refused.
pub fn assemble(alloc: Global, text: &str) -> Result<Vec<u8>, AsmError>
    // What is answered stands for an image of the listing that the text means.
    ensures file { IfOk result (λ file. IsExecutableOf text.now file.items) }
    // A refusal for another cause than memory is the text's first fault, with its line.
    ensures fault { IfErr result (λ error. IfSome (fault_in error) (λ fault. first_fault text.now ≡ Some fault)) }
{
    let image = assemble_image(alloc, text)?;
    written_file_stands_for_its_image();
    Ok(write(alloc, &image)?)
}

/// The lines of a text.
fn lines_of(alloc: Global, text: &str) -> Result<Vec<&str>, AllocError>
    ensures { IfOk result (λ parts. map text_view parts.items ≡ lines text.now) }
{
    text.lines().collect(alloc)
}
