//! The Cause register.
ghost use Rattle.std.specs.Prelude.{◌≡◌, ⊤, [], ◌∷◌, codes};
ghost use Rattle.mips_cp0.specs.Cause.{shown_cause};
ghost use Rattle.mips_cp0.specs.Entered.{with_code, with_delay};

use crate::Exc;
use crate::bits::replace_bits;
use bitflags::{Flag, Flags, bitflag_items};

/// The Cause register (volume III, Cause register), as its 32 bits.
#[derive(Clone, Copy, Debug, PartialEq, Eq)]
pub struct Cause(pub u32);

bitflag_items! {
    impl Cause: u32 {
        /// ExcCode: the code of the last exception.
        const EXC_CODE = 0x0000_007c;
        /// The interrupts of software are pending, IP1 and IP0.
        const SOFTWARE = 0x0000_0300;
        /// The interrupts of the lines are pending, IP3 and IP2.
        const LINES = 0x0000_0c00;
        /// The interrupt of the timer is pending.
        const IP7 = 0x0000_8000;
        /// The interrupts that are pending, IP7 to IP0.
        const IP = 0x0000_ff00;
        /// Interrupts have a vector of their own.
        const IV = 0x0080_0000;
        /// The coprocessor that could not be used.
        const CE = 0x3000_0000;
        /// The last exception was raised in a branch delay slot.
        const BD = 0x8000_0000;
    }
}

impl Flags for Cause {
    type Bits = u32;

    ghost exact = { ⊤ };

    ghost table = { (codes "EXC_CODE", 0x7c) ∷ (codes "SOFTWARE", 0x300) ∷ (codes "LINES", 0xc00) ∷ (codes "IP7", 0x8000) ∷ (codes "IP", 0xff00)
        ∷ (codes "IV", 0x800000) ∷ (codes "CE", 0x30000000) ∷ (codes "BD", 0x80000000) ∷ [] };

    ghost set_of = { λ c. c.0 };

    fn flags<'a>() -> &'a [Flag<Cause>] {
        Cause::FLAGS
    }

    fn bits(&self) -> u32 {
        self.0
    }

    fn from_bits_retain(bits: u32) -> Cause {
        Cause(bits)
    }
}

impl Cause {
    /// As it shows while these interrupt lines are raised. Bit k of `lines` is the line of IPk; there are those of IP3
    /// and IP2, and the other bits have no effect.
    pub fn shown(self, lines: u8) -> Cause
        ensures { result.0 ≡ shown_cause lines self.0 }
    {
        Cause(replace_bits(Cause::LINES.0, u32::from(lines) << 8, self.0))
    }

    // With BD set or clear.
    pub(crate) fn with_delay(self, in_slot: bool) -> Cause
        ensures { result.0 ≡ with_delay in_slot self.0 }
    {
        let mut cause = self;
        if in_slot {
            cause.insert(Cause::BD);
        } else {
            cause.remove(Cause::BD);
        }
        cause
    }

    // With CE and ExcCode of an exception.
    pub(crate) fn with_code(self, exc: Exc) -> Cause
        ensures { result.0 ≡ with_code exc self.0 }
    {
        let fields = (exc.coprocessor_error() << 28) + (exc.code() << 2);
        Cause(replace_bits(Cause::CE.0 | Cause::EXC_CODE.0, fields, self.0))
    }
}
