//! A processor once more.
ghost use Rattle.std.specs.Prelude.{◌≡◌};

use super::Cpu;

impl Cpu {
    /// The same processor once more, for a snapshot.
    pub fn again(&self) -> Cpu
        ensures { result ≡ self.now }
    {
        let mut regs = [0; 32];
        regs.copy_from_slice(&self.regs);
        Cpu {
            regs,
            hi: self.hi,
            lo: self.lo,
            counter: self.counter.again(),
            ll_bit: self.ll_bit,
            cp0: self.cp0.again(),
            tlb: self.tlb.again(),
        }
    }
}
