//! Images as lines of assembly language.
ghost use Rattle.std.specs.Prelude.{◌≡◌, ◌++◌, ◌<◌, length, OnOk, IfOk, IfErr, IfSome, Some, string_bytes};
ghost use Rattle.masm.specs.Answers.{fault_in};
ghost use Rattle.masm.specs.Assembly.{first_fault};
ghost use Rattle.masm.specs.Disassembly as spec;
ghost use Rattle.mips_instr.specs.Operands.{hex_byte};

use crate::{AsmError, assemble_image};
use elf32::Image;
use mips_instr::text;
use mips_isa::decode;
use std::alloc::{AllocError, Global};
use std::fmt;

/// A word that is written as its eight hexadecimal digits.
#[derive(Clone, Copy)]
pub struct HexWord(pub u32);

impl fmt::Display for HexWord {
    ghost output = { λ digits. Some (spec.hex_word digits.0) };

    #[tactic(auto, using(crate::proofs::DisassemblyLines::two_digits))]
    fn fmt<W: fmt::Write>(&self, f: &mut fmt::Formatter<W>) -> fmt::Result {
        let word = self.0;
        let (a, b) = (word >> 24, (word >> 16) % 0x100);
        let (c, d) = ((word >> 8) % 0x100, word % 0x100);
        write!(f, "{a:02x}{b:02x}{c:02x}{d:02x}")
    }
}

/// A byte that is written as its two hexadecimal digits.
#[derive(Clone, Copy)]
pub struct HexByte(pub u8);

impl fmt::Display for HexByte {
    ghost output = { λ digits. Some (hex_byte digits.0) };

    #[tactic(auto, using(crate::proofs::DisassemblyLines::two_digits))]
    fn fmt<W: fmt::Write>(&self, f: &mut fmt::Formatter<W>) -> fmt::Result {
        let byte = self.0;
        write!(f, "{byte:02x}")
    }
}

/// The line of a word at an address: both as eight hexadecimal digits, and the instruction, or `.word` where the word
/// encodes none.
#[tactic(auto, unfolding(crate::specs::Disassembly::word_line))]
fn push_word(alloc: Global, out: &mut String, address: u32, word: u32) -> Result<(), AllocError>
    ensures { OnOk result (string_bytes out.new ≡ string_bytes out.old ++ spec.word_line address word) }
{
    let (place, digits) = (HexWord(address), HexWord(word));
    match decode(word) {
        Some(instr) => {
            let line = text(alloc, instr, address)?;
            writeln!(out, "{place} {digits} {line}")
        }
        None => writeln!(out, "{place} {digits} .word 0x{digits}"),
    }
}

/// The line of a byte at an address: the address as eight hexadecimal digits, the byte as two.
#[tactic(auto, unfolding(crate::specs::Disassembly::byte_line))]
fn push_byte(out: &mut String, address: u32, byte: u8) -> Result<(), AllocError>
    ensures { OnOk result (string_bytes out.new ≡ string_bytes out.old ++ spec.byte_line address byte) }
{
    let (place, digits) = (HexWord(address), HexByte(byte));
    writeln!(out, "{place} {digits} .byte 0x{digits}")
}

/// The lines of bytes that are too few for a word.
fn push_bytes(out: &mut String, address: u32, bytes: &[u8]) -> Result<(), AllocError>
    requires { length bytes.now < 4 }
    ensures { OnOk result (string_bytes out.new ≡ string_bytes out.old ++ spec.lines_at address bytes.now) }
{
    let mut at = address;
    for &byte in bytes {
        push_byte(out, at, byte)?;
        at = at.wrapping_add(1);
    }
    Ok(())
}

/// The lines of a segment: one for each whole word from its first byte on, and one for each byte behind the last of them.
fn push_segment(
    alloc: Global,
    out: &mut String,
    address: u32,
    bytes: &[u8],
) -> Result<(), AllocError>
    ensures { OnOk result (string_bytes out.new ≡ string_bytes out.old ++ spec.lines_at address bytes.now) }
{
    let (mut at, mut rest) = (address, bytes);
    while let [a, b, c, d, more @ ..] = rest {
        push_word(alloc, out, at, u32::from_le_bytes([*a, *b, *c, *d]))?;
        at = at.wrapping_add(4);
        rest = more;
    }
    push_bytes(out, at, rest)
}

/// The lines of an image's file bytes, in the order of its segments: address, word, text.
pub fn disassembly_of(alloc: Global, image: &Image) -> Result<String, AllocError>
    ensures { IfOk result (λ lines. string_bytes lines ≡ spec.image_lines image.now.segments.items) }
{
    let mut out = String::new(alloc);
    for segment in &image.segments {
        push_segment(alloc, &mut out, segment.address, &segment.bytes)?;
    }
    Ok(out)
}

/// The lines of the image that a text is assembled to, with the errors of `assemble_image`. They are what `disassembly_of`
/// answers of the image of the text's executable, as the law `listing_is_disassembly_of_the_executable` says.
pub fn listing(alloc: Global, text: &str) -> Result<String, AsmError>
    // The lines are those of an image that stands for the listing that the text means.
    ensures lines { IfOk result (λ lines. spec.IsListingOf text.now (string_bytes lines)) }
    // A refusal for another cause than memory is the text's first fault, with its line.
    ensures fault { IfErr result (λ error. IfSome (fault_in error) (λ fault. first_fault text.now ≡ Some fault)) }
{
    let image = assemble_image(alloc, text)?;
    Ok(disassembly_of(alloc, &image)?)
}
