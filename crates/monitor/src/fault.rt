//! Why a line is no order.
use std::error::Error;
use std::fmt;

/// Why a line is no order: the first of these that it has.
#[derive(Clone, Copy, Debug, PartialEq, Eq)]
pub enum Fault {
    /// No order has such a first word with so many words behind it, or the line is longer than `MOST_BYTES`.
    Command,
    /// A number isn't decimal digits of less than 2^32, or bytes aren't pairs of hexadecimal digits.
    Number,
    /// There is no such guest.
    Guest,
    /// A number is out of its range.
    Range,
    /// A request for memory was refused.
    Memory,
}

impl Fault {
    ghost use Rattle.std.specs.Prelude.{◌≡◌};
    ghost use Rattle.monitor.specs.Faults.{fault_text};

    /// What is answered, without the line feed that ends its line.
    pub fn text(self) -> &'static str
        ensures { result.now ≡ fault_text self }
    {
        match self {
            Fault::Command => "error command",
            Fault::Number => "error number",
            Fault::Guest => "error guest",
            Fault::Range => "error range",
            Fault::Memory => "error stop 5",
        }
    }
}

impl fmt::Display for Fault {
    fn fmt<W: fmt::Write>(&self, f: &mut fmt::Formatter<W>) -> fmt::Result {
        f.write_str(self.text())
    }
}

impl Error for Fault {}
