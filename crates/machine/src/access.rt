//! What an access asks for and what it may be refused for.
ghost use Rattle.std.specs.Prelude.{◌≡◌};
ghost use Rattle.machine.specs.Answer.{refused_need};

use word32::Ppn;

/// What an access reaches.
#[derive(Clone, Copy, Debug, PartialEq, Eq)]
pub enum Size {
    /// One byte.
    Byte,
    /// Two bytes, at a multiple of 2.
    Half,
    /// Four bytes, at a multiple of 4.
    Word,
    /// The part of LWL and SWL: of the aligned word that has the address, the bytes up to that at the address.
    Left,
    /// The part of LWR and SWR: of the aligned word that has the address, the bytes from that at the address on.
    Right,
}

/// Why a page is lacking.
#[derive(Clone, Copy, Debug, PartialEq, Eq)]
pub enum Why {
    /// It was never touched, or was given away: it needs a frame of zeros.
    First,
    /// Its bytes were written to a slot: it needs a frame and those bytes.
    Swapped,
    /// It is shared and is to be written to: it needs a frame of its own with the same bytes.
    Copy,
}

/// Why an access is refused.
#[derive(Clone, Copy, Debug, PartialEq, Eq)]
pub enum Refusal {
    /// The page of this number is lacking: after it is supplied the access can be made.
    Need(Ppn, Why),
    /// There is nothing at the address that answers such an access.
    Bus,
}

/// What a step answers.
#[derive(Clone, Copy, Debug, PartialEq, Eq)]
pub enum StepOut {
    /// The step is made.
    Done,
    /// The step needs this page first, and nothing has changed.
    Need(Ppn, Why),
}

impl Refusal {
    /// The page that an access needs, or `None` where the bus refuses it.
    pub fn need(self) -> Option<(Ppn, Why)>
        ensures { result ≡ refused_need self }
    {
        match self {
            Refusal::Need(page, why) => Some((page, why)),
            Refusal::Bus => None,
        }
    }
}
