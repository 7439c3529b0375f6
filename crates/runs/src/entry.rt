//! Whether a step has entered an exception.
ghost use Rattle.std.specs.Prelude.{◌≡◌};
ghost use Rattle.mips_cp0.specs.Entered.{vector_base};
ghost use Rattle.runs.specs.Entries as spec;

use bitflags::Flags;
use mips_cp0::Status;
use mips_step::Cpu;

/// The offsets of the handlers beside the first, of refills: of interrupts of their own, and of all else.
const INTERRUPT_OFFSET: u32 = 0x200;

const GENERAL_OFFSET: u32 = 0x180;

/// Whether an exception was entered since Status was this.
pub fn has_entered(cpu: &Cpu, before: u32) -> bool
    ensures { result ≡ spec.entered_since before cpu.now }
{
    !Status(before).contains(Status::EXL)
        && Status(cpu.cp0().status()).contains(Status::EXL)
        && is_vector(before, cpu.pc())
}

/// Whether an address is that of a handler while Status is this.
fn is_vector(status: u32, address: u32) -> bool
    ensures { result ≡ spec.is_vector status address }
{
    let base = vector_base(status);
    address == base || address == base + GENERAL_OFFSET || address == base + INTERRUPT_OFFSET
}

/// The base of the handlers' addresses.
fn vector_base(status: u32) -> u32
    ensures { result ≡ vector_base status }
{
    if Status(status).contains(Status::BEV) {
        0xbfc0_0200
    } else {
        0x8000_0000
    }
}
