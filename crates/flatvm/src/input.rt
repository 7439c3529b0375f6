//! What happens to a machine on a plain memory, but for steps.
ghost use Rattle.std.specs.Prelude.{◌≡◌, ◌↔◌, true, false, IfOk, OnOk, OnErr, IsErrOf, Err};
ghost use Rattle.items.specs.Items.{is_step};
ghost use Rattle.items.specs.declared.item.What.TheVariants.{Drain, Write};
ghost use Rattle.machine.specs.Step.{machine_with};
ghost use Rattle.machine.specs.Answers.{replied};
ghost use Rattle.machine.specs.Items.{accepts, after, reply};

use crate::FlatBus;
use items::What;
use machine::{Rejection, Reply, WRITE_LIMIT};
use mips_step::{Cpu, debug};

impl FlatBus {
    /// What happens to the machine of this bus and a processor, but for a step.
    ///
    /// It answers `Machine` exactly where the machine does not accept it, and `Memory` only where a request for memory was
    /// refused, which a Drain makes alone. The machine is then as before.
    pub fn input(&mut self, cpu: &mut Cpu, what: &What) -> Result<Reply, Rejection>
        requires { is_step what.now ≡ false }
        ensures after { OnOk result (machine_with cpu.new self.new ≡ after what.now (machine_with cpu.old self.old)) }
        ensures reply { IfOk result (λ r. replied r ≡ reply what.now (machine_with cpu.old self.old)) }
        ensures accepted { OnOk result (accepts what.now (machine_with cpu.old self.old) ≡ true) }
        ensures refused { IsErrOf result Rejection.Machine ↔ (accepts what.now (machine_with cpu.old self.old) ≡ false) }
        ensures memory { IsErrOf result Rejection.Memory → what.now ≡ Drain }
        ensures unchanged { OnErr result ((self.new ≡ self.old) × (cpu.new ≡ cpu.old)) }
    {
        match what {
            What::Step => unreachable!(),
            What::In(byte) => self.feed(*byte),
            What::Drain => self.drain(),
            What::Target(pages) => {
                self.set_target(*pages);
                Ok(Reply::Done)
            }
            What::Poke { register, value } => {
                cpu.poke(*register, *value);
                Ok(Reply::Done)
            }
            What::Write { address, bytes } => self.write(cpu, *address, bytes.as_slice()),
        }
    }

    // A write of a debugger.
    fn write(&mut self, cpu: &Cpu, address: u32, bytes: &[u8]) -> Result<Reply, Rejection>
        ensures after { OnOk result (machine_with cpu.now self.new ≡ after (Write address bytes.now) (machine_with cpu.now self.old)) }
        ensures reply { IfOk result (λ r. replied r ≡ reply (Write address bytes.now) (machine_with cpu.now self.old)) }
        ensures accepted { OnOk result (accepts (Write address bytes.now) (machine_with cpu.now self.old) ≡ true) }
        ensures refused { IsErrOf result Rejection.Machine ↔ (accepts (Write address bytes.now) (machine_with cpu.now self.old) ≡ false) }
        ensures error { OnErr result (result ≡ Err Rejection.Machine) }
        ensures unchanged { OnErr result (self.new ≡ self.old) }
    {
        if bytes.len() > WRITE_LIMIT {
            return Err(Rejection::Machine);
        }
        match debug::write(cpu, self, address, bytes) {
            Ok(()) => Ok(Reply::Done),
            Err(_) => Err(Rejection::Machine),
        }
    }
}
