//! The exceptions.
ghost use Rattle.std.specs.Prelude.{◌≡◌, ◌<◌};
ghost use Rattle.mips_cp0.specs.Exception.{exc_code, coprocessor_number, coprocessor_error, tlb_address, fault_address};

/// A coprocessor that an instruction may need.
#[derive(Clone, Copy, Debug, PartialEq, Eq)]
pub enum Coprocessor {
    Zero,
    One,
    Two,
}

impl Coprocessor {
    /// Its number, 0 to 2.
    pub fn number(self) -> u32
        ensures value { result ≡ coprocessor_number self }
        ensures small { result < 3 }
    {
        match self {
            Coprocessor::Zero => 0,
            Coprocessor::One => 1,
            Coprocessor::Two => 2,
        }
    }
}

/// An exception, with what its entry records. An address is the virtual address that was accessed.
#[derive(Clone, Copy, Debug, PartialEq, Eq)]
pub enum Exc {
    /// Int: an interrupt that is pending and enabled.
    Interrupt,
    /// Mod: a store through a TLB entry that is not dirty.
    Modified { address: u32 },
    /// TLBL: a fetch or load with no TLB entry (`refill`), or with one that is not valid.
    TlbLoad { address: u32, refill: bool },
    /// TLBS: a store with no TLB entry (`refill`), or with one that is not valid.
    TlbStore { address: u32, refill: bool },
    /// AdEL: a fetch or load at an address that is not aligned, or not of user mode.
    AddressLoad { address: u32 },
    /// AdES: a store at an address that is not aligned, or not of user mode.
    AddressStore { address: u32 },
    /// IBE: a fetch that the bus refuses.
    BusFetch,
    /// DBE: a load or store that the bus refuses.
    BusData,
    /// Sys: SYSCALL.
    Syscall,
    /// Bp: BREAK.
    Breakpoint,
    /// RI: a word of no row, or a row that may not stand there.
    Reserved,
    /// CpU: an instruction of a coprocessor that may not be used.
    Unusable { coprocessor: Coprocessor },
    /// Ov: a signed sum or difference that is no word.
    Overflow,
    /// Tr: a trap whose condition holds.
    Trap,
}

impl Exc {
    /// The exception code, 0 to 13, as Cause shows it (volume III, Cause register, ExcCode field).
    pub fn code(self) -> u32
        ensures value { result ≡ exc_code self }
        ensures small { result < 14 }
    {
        match self {
            Exc::Interrupt => 0,
            Exc::Modified { .. } => 1,
            Exc::TlbLoad { .. } => 2,
            Exc::TlbStore { .. } => 3,
            Exc::AddressLoad { .. } => 4,
            Exc::AddressStore { .. } => 5,
            Exc::BusFetch => 6,
            Exc::BusData => 7,
            Exc::Syscall => 8,
            Exc::Breakpoint => 9,
            Exc::Reserved => 10,
            Exc::Unusable { .. } => 11,
            Exc::Overflow => 12,
            Exc::Trap => 13,
        }
    }

    /// The number of the coprocessor that may not be used, and 0 in each other exception (volume III, Cause register,
    /// CE field).
    pub fn coprocessor_error(self) -> u32
        ensures value { result ≡ coprocessor_error self }
        ensures small { result < 3 }
    {
        match self {
            Exc::Unusable { coprocessor } => coprocessor.number(),
            _ => 0,
        }
    }

    /// The address of an exception of the TLB, which Context and EntryHi take over; None for each other exception.
    pub fn tlb_address(self) -> Option<u32>
        ensures { result ≡ tlb_address self }
    {
        match self {
            Exc::Modified { address }
            | Exc::TlbLoad { address, .. }
            | Exc::TlbStore { address, .. } => Some(address),
            _ => None,
        }
    }

    /// The address of an address error or of an exception of the TLB, which BadVAddr takes over; None for each other
    /// exception.
    pub fn fault_address(self) -> Option<u32>
        ensures { result ≡ fault_address self }
    {
        match self {
            Exc::AddressLoad { address } | Exc::AddressStore { address } => Some(address),
            _ => self.tlb_address(),
        }
    }
}
