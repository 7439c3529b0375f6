//! The ranges of numbers.
ghost use Rattle.std.specs.Prelude.{◌≡◌, ◌<◌, ◌≤◌, ◌^◌, IfOk};
ghost use Rattle.masm_lines.specs.Ranges.{bits_within, field_bits, signed_half_bits, half_bits, either_half_bits, word_bits, byte_bits, address_bits};

use crate::AsmFault;

/// A number from `-least` to `greatest` as bits, a negative one modulo 2^`width`.
#[tactic(auto, unfolding(crate::specs::Ranges::bits_within))]
fn bits_within(width: u32, least: u32, greatest: u32, number: i64) -> Result<u32, AsmFault>
    requires width { width ≤ 32 }
    requires least { least < 2 ^ width }
    requires greatest { greatest < 2 ^ width }
    ensures value { result ≡ bits_within width least greatest number }
    ensures small { IfOk result (λ bits. bits < 2 ^ width) }
{
    let magnitude = number.unsigned_abs();
    if number.is_negative() {
        if magnitude <= u64::from(least) {
            Ok(((1u64 << width) - magnitude) as u32)
        } else {
            Err(AsmFault::Range)
        }
    } else if magnitude <= u64::from(greatest) {
        Ok(magnitude as u32)
    } else {
        Err(AsmFault::Range)
    }
}

/// A field of the word, up to its greatest number.
#[tactic(auto, using(crate::proofs::Signs::negative_size), unfolding(crate::specs::Ranges::bits_within))]
pub fn field_bits(greatest: u32, number: i64) -> Result<u32, AsmFault>
    ensures value { result ≡ field_bits greatest number }
    ensures small { IfOk result (λ bits. bits ≤ greatest) }
{
    bits_within(32, 0, greatest, number)
}

/// A signed half-word.
pub fn signed_half_bits(number: i64) -> Result<u16, AsmFault>
    ensures { result ≡ signed_half_bits number }
{
    Ok(bits_within(16, 0x8000, 0x7fff, number)? as u16)
}

/// A half-word without sign.
pub fn half_bits(number: i64) -> Result<u16, AsmFault>
    ensures { result ≡ half_bits number }
{
    Ok(bits_within(16, 0, 0xffff, number)? as u16)
}

/// A half-word, with or without sign.
pub fn either_half_bits(number: i64) -> Result<u16, AsmFault>
    ensures { result ≡ either_half_bits number }
{
    Ok(bits_within(16, 0x8000, 0xffff, number)? as u16)
}

/// A word, with or without sign.
pub fn word_bits(number: i64) -> Result<u32, AsmFault>
    ensures { result ≡ word_bits number }
{
    bits_within(32, 0x8000_0000, 0xffff_ffff, number)
}

/// A byte, with or without sign.
pub fn byte_bits(number: i64) -> Result<u8, AsmFault>
    ensures { result ≡ byte_bits number }
{
    Ok(bits_within(8, 0x80, 0xff, number)? as u8)
}

/// An address, or a count of bytes.
pub fn address_bits(number: i64) -> Result<u32, AsmFault>
    ensures { result ≡ address_bits number }
{
    bits_within(32, 0, 0xffff_ffff, number)
}
