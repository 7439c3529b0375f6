//! The names of the system registers.
ghost use Rattle.std.specs.Prelude.{◌≡◌};
ghost use Rattle.mips_cp0.specs.Access.{register_at};

/// A system register (volume III, CP0 registers).
#[derive(Clone, Copy, Debug, PartialEq, Eq)]
pub enum SystemRegister {
    Index,
    Random,
    EntryLo0,
    EntryLo1,
    Context,
    PageMask,
    Wired,
    BadVAddr,
    Count,
    EntryHi,
    Compare,
    Status,
    Cause,
    Epc,
    PrId,
    Config,
    Config1,
    ErrorEpc,
}

impl SystemRegister {
    /// The register of a number and a select, as MFC0 and MTC0 give them; None where there is none.
    pub fn at(number: u32, select: u32) -> Option<SystemRegister>
        ensures { result ≡ register_at number select }
    {
        match (number, select) {
            (0, 0) => Some(SystemRegister::Index),
            (1, 0) => Some(SystemRegister::Random),
            (2, 0) => Some(SystemRegister::EntryLo0),
            (3, 0) => Some(SystemRegister::EntryLo1),
            (4, 0) => Some(SystemRegister::Context),
            (5, 0) => Some(SystemRegister::PageMask),
            (6, 0) => Some(SystemRegister::Wired),
            (8, 0) => Some(SystemRegister::BadVAddr),
            (9, 0) => Some(SystemRegister::Count),
            (10, 0) => Some(SystemRegister::EntryHi),
            (11, 0) => Some(SystemRegister::Compare),
            (12, 0) => Some(SystemRegister::Status),
            (13, 0) => Some(SystemRegister::Cause),
            (14, 0) => Some(SystemRegister::Epc),
            (15, 0) => Some(SystemRegister::PrId),
            (16, 0) => Some(SystemRegister::Config),
            (16, 1) => Some(SystemRegister::Config1),
            (30, 0) => Some(SystemRegister::ErrorEpc),
            _ => None,
        }
    }
}
