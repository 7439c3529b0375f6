//! The instructions on HI and LO, LLbit, the system registers and the TLB.
ghost use Rattle.std.specs.Prelude.{◌≡◌};
ghost use Rattle.mips_cp0.specs.Status.{is_usable};
ghost use Rattle.machine.specs.Operations.{moved_from, moved_to, with_hi_lo, cp0_moved, tlb_done, exception_returned};

use super::Cpu;
use super::counter::Counter;
use mips_alu::HiLo;
use mips_cp0::Coprocessor;
use mips_instr::{Cp0MoveOp, MoveFromOp, MoveToOp, Reg, Select, TlbOp};

impl Cpu {
    /// HI and LO together.
    pub fn hi_lo(&self) -> HiLo
        ensures { result ≡ record { hi = self.now.hi; lo = self.now.lo } }
    {
        HiLo {
            hi: self.hi,
            lo: self.lo,
        }
    }

    pub(crate) fn move_from(&mut self, op: MoveFromOp, r: Reg)
        ensures { self.new ≡ moved_from op r self.old }
    {
        let value = match op {
            MoveFromOp::Mfhi => self.hi,
            MoveFromOp::Mflo => self.lo,
        };
        self.set_reg(r, value);
        self.advance();
    }

    pub(crate) fn move_to(&mut self, op: MoveToOp, value: u32)
        ensures { self.new ≡ moved_to op value self.old }
    {
        match op {
            MoveToOp::Mthi => self.hi = value,
            MoveToOp::Mtlo => self.lo = value,
        }
        self.advance();
    }

    pub fn set_hi_lo(&mut self, value: HiLo)
        ensures { self.new ≡ record self.old { hi = value.hi; lo = value.lo } }
    {
        self.hi = value.hi;
        self.lo = value.lo;
    }

    pub(crate) fn put_hi_lo(&mut self, value: HiLo)
        ensures { self.new ≡ with_hi_lo value self.old }
    {
        self.set_hi_lo(value);
        self.advance();
    }

    pub(crate) fn set_ll_bit(&mut self, value: bool)
        ensures { self.new ≡ record self.old { ll_bit = value } }
    {
        self.ll_bit = value;
    }

    /// Whether a coprocessor may be used.
    pub(crate) fn is_usable(&self, coprocessor: Coprocessor) -> bool
        ensures { result ≡ is_usable coprocessor self.now.cp0.status }
    {
        self.cp0.is_usable(coprocessor)
    }

    pub(crate) fn move_cp0(&mut self, op: Cp0MoveOp, lines: u8, r: Reg, number: Reg, select: Select)
        ensures { self.new ≡ cp0_moved op lines r number select self.old }
    {
        match op {
            Cp0MoveOp::Mfc0 => {
                let value = self.cp0.read(number.number(), select.bits(), lines);
                self.set_reg(r, value);
            }
            Cp0MoveOp::Mtc0 => {
                let value = self.reg(r);
                self.cp0.write(number.number(), select.bits(), value);
            }
        }
        self.advance();
    }

    pub(crate) fn do_tlb(&mut self, op: TlbOp)
        ensures { self.new ≡ tlb_done op self.old }
    {
        match op {
            TlbOp::Tlbr => self.tlb.read_indexed(&mut self.cp0),
            TlbOp::Tlbwi => self.tlb.write_indexed(&self.cp0),
            TlbOp::Tlbwr => self.tlb.write_random(&self.cp0),
            TlbOp::Tlbp => self.tlb.probe_index(&mut self.cp0),
        }
        self.advance();
    }

    /// ERET.
    pub(crate) fn return_from_exception(&mut self)
        ensures { self.new ≡ exception_returned self.old }
    {
        self.counter = Counter::at(self.cp0.eret());
        self.ll_bit = false;
    }
}
