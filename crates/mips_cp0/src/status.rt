//! The Status register.
ghost use Rattle.std.specs.Prelude.{◌≡◌, ⊤, [], ◌∷◌, codes};
ghost use Rattle.mips_cp0.specs.Status.{is_user_mode, is_usable};

use crate::Coprocessor;
use bitflags::{Flag, Flags, bitflag_items};

/// The Status register (volume III, Status register), as its 32 bits.
#[derive(Clone, Copy, Debug, PartialEq, Eq)]
pub struct Status(pub u32);

bitflag_items! {
    impl Status: u32 {
        /// Interrupts are enabled.
        const IE = 0x0000_0001;
        /// The exception level, set by each exception.
        const EXL = 0x0000_0002;
        /// The error level.
        const ERL = 0x0000_0004;
        /// The base mode is user mode.
        const UM = 0x0000_0010;
        /// The interrupts that are enabled, IM7 to IM0.
        const IM = 0x0000_ff00;
        /// The exception vectors are those of bootstrap.
        const BEV = 0x0040_0000;
        /// Coprocessor 0 may be used in user mode.
        const CU0 = 0x1000_0000;
    }
}

impl Flags for Status {
    type Bits = u32;

    ghost exact = { ⊤ };

    ghost table = { (codes "IE", 0x1) ∷ (codes "EXL", 0x2) ∷ (codes "ERL", 0x4) ∷ (codes "UM", 0x10) ∷ (codes "IM", 0xff00) ∷ (codes "BEV", 0x400000)
        ∷ (codes "CU0", 0x10000000) ∷ [] };

    ghost set_of = { λ s. s.0 };

    fn flags<'a>() -> &'a [Flag<Status>] {
        Status::FLAGS
    }

    fn bits(&self) -> u32 {
        self.0
    }

    fn from_bits_retain(bits: u32) -> Status {
        Status(bits)
    }
}

impl Status {
    /// Whether instructions run in user mode: UM is set, EXL and ERL are clear (volume III, Operating Modes).
    pub fn is_user_mode(self) -> bool
        ensures { result ≡ is_user_mode self.0 }
    {
        self.contains(Status::UM) && !self.contains(Status::EXL) && !self.contains(Status::ERL)
    }

    /// Whether the instructions of a coprocessor may be used: those of coprocessor 0 in kernel mode or with CU0 set,
    /// those of coprocessors 1 and 2 never, since there are none.
    pub fn is_usable(self, coprocessor: Coprocessor) -> bool
        ensures { result ≡ is_usable coprocessor self.0 }
    {
        match coprocessor {
            Coprocessor::Zero => self.contains(Status::CU0) || !self.is_user_mode(),
            Coprocessor::One | Coprocessor::Two => false,
        }
    }
}
