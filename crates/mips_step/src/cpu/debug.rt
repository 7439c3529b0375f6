//! What a debugger does to the registers.
ghost use Rattle.std.specs.Prelude.{◌≡◌};
ghost use Rattle.machine.specs.Poking.{poked};

use super::Cpu;
use super::counter::Counter;
use items::DebugRegister;
use mips_cp0::SystemRegister;

impl Cpu {
    /// A debugger's write of a register. Register 0 and BadVAddr stay; of Status and Cause the bits are written that MTC0
    /// writes; a write of PC also leaves the delay slot.
    pub fn poke(&mut self, register: DebugRegister, value: u32)
        ensures { self.new ≡ poked register value self.old }
    {
        match register.number() {
            0 | 35 => {}
            32 => self.cp0.set_value(SystemRegister::Status, value),
            33 => self.lo = value,
            34 => self.hi = value,
            36 => self.cp0.set_value(SystemRegister::Cause, value),
            37 => self.counter = Counter::at(value),
            number => self.regs[number as usize] = value,
        }
    }
}
