//! Shorter numbers as words, with their sign copied.
ghost use Rattle.std.specs.Prelude.{◌≡◌, ℕ, ◌<◌, ◌^◌};
ghost use Rattle.std.specs.Int.{cast_signed, w8, w16, w32};
ghost use Rattle.word32.specs.Sign.{sign_extended_byte, sign_extended_half};

/// A byte as a word: bit 7 is copied to bits 31 to 8.
pub fn sext8(byte: u8) -> u32
    ensures { result ≡ sign_extended_byte byte }
{
    if byte < 0x80 {
        u32::from(byte)
    } else {
        u32::from(byte) + 0xffff_ff00
    }
}

/// A half-word as a word: bit 15 is copied to bits 31 to 16.
pub fn sext16(half: u16) -> u32
    ensures { result ≡ sign_extended_half half }
{
    if half < 0x8000 {
        u32::from(half)
    } else {
        u32::from(half) + 0xffff_0000
    }
}

/// A law: a byte and its extension are the same signed number.
pub fn byte_keeps_its_signed_value()
    ensures { (byte : ℕ) → byte < 2 ^ 8 → cast_signed w32 (sign_extended_byte byte) ≡ cast_signed w8 byte }
{}

/// A law: a half-word and its extension are the same signed number.
pub fn half_keeps_its_signed_value()
    ensures { (half : ℕ) → half < 2 ^ 16 → cast_signed w32 (sign_extended_half half) ≡ cast_signed w16 half }
{}
