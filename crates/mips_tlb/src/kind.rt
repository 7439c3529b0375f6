//! What an access is for.
ghost use Rattle.std.specs.Prelude.{◌≡◌};
ghost use Rattle.mips_tlb.specs.Translation.{address_error, tlb_exception};

use mips_cp0::Exc;

/// What an access is for: it decides the exceptions that the access may raise.
#[derive(Clone, Copy, Debug, PartialEq, Eq)]
pub enum Kind {
    Fetch,
    Load,
    Store,
}

impl Kind {
    /// The exception of an address that is not aligned or not of user mode: AdES of a store, else AdEL.
    pub fn address_error(self, address: u32) -> Exc
        ensures { result ≡ address_error self address }
    {
        match self {
            Kind::Fetch | Kind::Load => Exc::AddressLoad { address },
            Kind::Store => Exc::AddressStore { address },
        }
    }

    /// The exception of an address with no TLB entry (`refill`), or with one that is not valid: TLBS of a store, else
    /// TLBL.
    pub fn tlb_exception(self, address: u32, refill: bool) -> Exc
        ensures { result ≡ tlb_exception self address refill }
    {
        match self {
            Kind::Fetch | Kind::Load => Exc::TlbLoad { address, refill },
            Kind::Store => Exc::TlbStore { address, refill },
        }
    }
}
