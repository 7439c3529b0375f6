//! The state of the processor, and how control moves.
ghost use Rattle.std.specs.Prelude.{◌≡◌, ◌≢◌, ◌%◌, IfSome, IfOk, Ok};
ghost use Rattle.machine.specs.Processor.{Processor, reg, with_reg, boot_processor};
ghost use Rattle.machine.specs.Places.{alignment, place, data_address};

pub use self::counter::Counter;
use crate::sign::extended;
use machine::Size;
use mips_cp0::{Cp0, Exc, Profile};
use mips_instr::Reg;
use mips_tlb::{Kind, PhysAddr, Tlb, direct_address};
use std::marker::Model;

mod control;
pub mod counter;
mod debug;
mod snapshot;
mod system;

/// The processor's registers. In clauses they are a record, `Processor`.
#[derive(Drop)]
pub struct Cpu {
    regs: [u32; 32],
    hi: u32,
    lo: u32,
    counter: Counter,
    ll_bit: bool,
    cp0: Cp0,
    tlb: Tlb,
}

impl Model for Cpu {
    ghost use Rattle.machine.specs.Processor.{Processor};
    ghost use Rattle.mips_tlb.specs.Entries.{BelongTogether};

    ghost Value = { Processor };

    ghost view = { λ c. record { regs = c.regs; hi = c.hi; lo = c.lo; pc = c.counter.pc; slot = c.counter.slot; ll_bit = c.ll_bit; cp0 = c.cp0; tlb = c.tlb } };

    ghost invariant = { λ c. BelongTogether c.tlb c.cp0 };
}

impl Cpu {
    /// A processor as a machine of a profile boots, at its entry address.
    #[tactic(auto, using(mips_tlb::proofs::Used::boot_together))]
    pub fn boot(profile: Profile, entry: u32) -> Cpu
        ensures { result ≡ boot_processor profile entry }
    {
        Cpu {
            regs: [0; 32],
            hi: 0,
            lo: 0,
            counter: Counter::at(entry),
            ll_bit: false,
            cp0: Cp0::boot(profile),
            tlb: Tlb::boot(profile),
        }
    }

    /// A general register; register 0 reads 0.
    pub fn reg(&self, r: Reg) -> u32
        ensures { result ≡ reg self.now r }
    {
        let r = r.number();
        self.regs[r as usize]
    }

    /// HI.
    pub fn hi(&self) -> u32
        ensures { result ≡ self.now.hi }
    {
        self.hi
    }

    /// LO.
    pub fn lo(&self) -> u32
        ensures { result ≡ self.now.lo }
    {
        self.lo
    }

    /// The program counter: the virtual address of the next instruction.
    pub fn pc(&self) -> u32
        ensures { result ≡ self.now.pc }
    {
        self.counter.pc()
    }

    /// The address that follows the next instruction, where that stands in a delay slot.
    pub fn slot(&self) -> Option<u32>
        ensures { result ≡ self.now.slot }
    {
        self.counter.slot()
    }

    /// LLbit: whether an SC would store.
    pub fn ll_bit(&self) -> bool
        ensures { result ≡ self.now.ll_bit }
    {
        self.ll_bit
    }

    /// The system registers.
    pub fn cp0(&self) -> &Cp0
        ensures { result.now ≡ self.now.cp0 }
    {
        &self.cp0
    }

    /// The TLB.
    pub fn tlb(&self) -> &Tlb
        ensures { result.now ≡ self.now.tlb }
    {
        &self.tlb
    }

    /// Writes a general register; a write to register 0 does nothing.
    pub fn set_reg(&mut self, r: Reg, value: u32)
        ensures { self.new ≡ with_reg r value self.old }
    {
        let r = r.number();
        if r != 0 {
            self.regs[r as usize] = value;
        }
    }

    /// Writes a general register other than register 0, which asks nothing.
    #[inline(always)]
    pub fn set_nonzero_reg(&mut self, r: Reg, value: u32)
        requires { r ≢ 0 }
        ensures { self.new ≡ with_reg r value self.old }
    {
        self.regs[r.number() as usize] = value;
    }

    /// The virtual address that a load or a store names.
    pub fn data_address(&self, base: Reg, offset: u16) -> u32
        ensures { result ≡ data_address self.now base offset }
    {
        self.reg(base).wrapping_add(extended(offset))
    }

    /// The physical address of an aligned access in kseg0 or kseg1 in kernel mode; `None` of the others, which `place` tells.
    /// Most accesses are such, and come by without a call.
    #[tactic(auto, using(machine::proofs::Aligned::place_aligned))]
    #[inline(always)]
    pub fn direct_place(&self, _kind: Kind, size: Size, address: u32) -> Option<PhysAddr>
        ensures place { IfSome result (λ at. place _kind size self.now address ≡ Ok at) }
        ensures aligned { IfSome result (λ at. at % alignment size ≡ 0) }
    {
        if address % alignment(size) == 0 {
            direct_address(&self.cp0, address)
        } else {
            None
        }
    }

    /// The physical address of an access at a virtual address, or the exception that it raises.
    #[tactic(auto, using(machine::proofs::Aligned::place_aligned))]
    pub fn place(&self, kind: Kind, size: Size, address: u32) -> Result<PhysAddr, Exc>
        ensures place { result ≡ place kind size self.now address }
        ensures aligned { IfOk result (λ at. at % alignment size ≡ 0) }
    {
        if address % alignment(size) == 0 {
            self.tlb.translate(&self.cp0, address, kind)
        } else {
            Err(kind.address_error(address))
        }
    }
}

/// What the address of an access is a multiple of.
pub fn alignment(size: Size) -> u32
    ensures { result ≡ alignment size }
{
    match size {
        Size::Byte | Size::Left | Size::Right => 1,
        Size::Half => 2,
        Size::Word => 4,
    }
}
