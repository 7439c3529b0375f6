//! Why a byte of input is refused.
ghost use Rattle.std.specs.Prelude.{◌≡◌};

/// As many bytes of input wait as there is room for.
#[derive(Clone, Copy, Debug, PartialEq, Eq)]
pub struct InputFull;

impl InputFull {
    /// Its number, 1.
    pub fn number(self) -> u32
        ensures { result ≡ 1 }
    {
        1
    }
}
