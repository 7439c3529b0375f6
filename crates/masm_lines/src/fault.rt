//! The faults of a text.
ghost use Rattle.std.specs.Prelude.{◌≡◌, Some};
ghost use Rattle.masm_lines.specs.Faults.{fault_number, fault_text};

use std::fmt;

/// What is wrong with a text. A line by itself has one of the first four; the others are of what lines mean together.
#[derive(Clone, Copy, Debug, PartialEq, Eq)]
pub enum AsmFault {
    /// A character that is no ASCII, or a first word that is neither a name nor a directive.
    Syntax,
    /// A first word that names no instruction and no directive.
    Mnemonic,
    /// An operand that is none, or operands of another form or number than the instruction or directive has.
    Operand,
    /// A number out of its range, or a target that is out of reach or no multiple of 4.
    Range,
    /// A name that is no label.
    UnknownName,
    /// A label that an earlier line has.
    DoubleName,
    /// Content that may not stand where it would: an instruction or a word at an address that is no multiple of 4, an
    /// address outside 80000000 to 9FFFFFFF, bytes over earlier bytes, or a 65th segment with content.
    Place,
    /// A text with no content.
    Empty,
    /// An entry that is no multiple of 4 or lies in no segment.
    Entry,
}

impl AsmFault {
    /// Its number, 1 to 9 in the order above.
    pub fn number(self) -> u32
        ensures { result ≡ fault_number self }
    {
        match self {
            AsmFault::Syntax => 1,
            AsmFault::Mnemonic => 2,
            AsmFault::Operand => 3,
            AsmFault::Range => 4,
            AsmFault::UnknownName => 5,
            AsmFault::DoubleName => 6,
            AsmFault::Place => 7,
            AsmFault::Empty => 8,
            AsmFault::Entry => 9,
        }
    }
}

impl fmt::Display for AsmFault {
    ghost output = { λ fault. Some (fault_text fault) };

    fn fmt<W: fmt::Write>(&self, f: &mut fmt::Formatter<W>) -> fmt::Result {
        f.write_str(match *self {
            AsmFault::Syntax => "syntax",
            AsmFault::Mnemonic => "unknown mnemonic",
            AsmFault::Operand => "operands",
            AsmFault::Range => "number out of range",
            AsmFault::UnknownName => "unknown name",
            AsmFault::DoubleName => "name given twice",
            AsmFault::Place => "place",
            AsmFault::Empty => "no content",
            AsmFault::Entry => "entry",
        })
    }
}
