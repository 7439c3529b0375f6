//! The sign of a half-word.
ghost use Rattle.std.specs.Prelude.{◌≡◌};
ghost use Rattle.word32.specs.Sign.{sign_extended_half};

/// What `word32::sext16` answers, in a form of which the compiler makes one machine instruction.
#[inline(always)]
pub(crate) fn extended(half: u16) -> u32
    ensures { result ≡ sign_extended_half half }
{
    i32::from(half.cast_signed()).cast_unsigned()
}
