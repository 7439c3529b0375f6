//! The registers that a debugger can name.
ghost use Rattle.std.specs.Prelude.{◌≡◌, ℕ, ◌<◌};
ghost use Rattle.std.specs.Option.{SomeIff};

use std::marker::Model;

/// The number by which a debugger names a register of a MIPS processor, 0 to 37: 0 to 31 the general registers, 32 `sr`
/// (Status), 33 `lo`, 34 `hi`, 35 `bad` (BadVAddr), 36 `cause`, 37 `pc`. In clauses it is the number.
#[derive(Clone, Copy, Debug, PartialEq, Eq)]
pub struct DebugRegister {
    number: u8,
}

impl Model for DebugRegister {
    ghost Value = { ℕ };

    ghost view = { λ r. r.number };

    ghost invariant = { λ r. r.number < 38 };

    ghost inverse = { λ n. record { number = n } };
}

impl DebugRegister {
    /// The register of this number, which is below 38.
    pub fn new(number: u8) -> DebugRegister
        requires { number < 38 }
        ensures { result ≡ number }
    {
        DebugRegister { number }
    }

    /// The register of this number, or none where the number is 38 or more.
    pub fn find(number: u8) -> Option<DebugRegister>
        ensures { SomeIff result (number < 38) number }
    {
        if number < 38 {
            Some(DebugRegister { number })
        } else {
            None
        }
    }

    /// Its number, below 38.
    pub fn number(self) -> u8
        ensures value { result ≡ self }
        ensures small { result < 38 }
    {
        self.number
    }
}
