//! What happens to a machine whose memory is pages, but for steps.
ghost use Rattle.std.specs.Prelude.{◌≡◌, ◌↔◌, ◌<◌, ◌≢◌, ℕ, true, false, IfOk, OnOk, OnErr, IsErrOf, IsOk, Err, None, Some, length};
ghost use Rattle.items.specs.Items.{is_step};
ghost use Rattle.items.specs.declared.item.What.TheVariants.{Drain, Write};
ghost use Rattle.dev_console.specs.Console.{input_room};
ghost use Rattle.devices.specs.Devices.{device_input_fed, device_output_drained, device_target_set};
ghost use Rattle.mips_tlb.specs.declared.kind.Kind.TheVariants.{Store};
ghost use Rattle.machine.specs.Step.{machine_with};
ghost use Rattle.machine.specs.Answers.{replied};
ghost use Rattle.machine.specs.Items.{accepts, after, reply};
ghost use Rattle.guest_pages.specs.Outline.{outline};
ghost use Rattle.guest_bus.specs.Buses.{IsSettled, board_of};
ghost use Rattle.guest_bus.specs.Lacking.{lacks_in};
ghost use Rattle.guest_bus.specs.Writes.{WritesTo, WritesWhereThere, write_error};

use crate::GuestBus;
use items::What;
use machine::{Reply, WRITE_LIMIT};
use mips_step::{Cpu, Unreached, debug};
use word32::Ppn;

/// Why nothing happens to a machine. It is then as before.
#[derive(Clone, Copy, Debug, PartialEq, Eq)]
pub enum InputError {
    /// The machine refuses it: 256 bytes of console input wait, or a write is longer than 1,024 bytes or has a byte with no
    /// place in memory.
    Machine,
    /// A request for memory was refused.
    Memory,
    /// A byte of the write lies in this page, which is not there for stores: after it is supplied the write can be made.
    Away(Ppn),
}

impl InputError {
    // Why a write is not made.
    fn of(unreached: Unreached) -> InputError
        ensures { result ≡ write_error unreached }
    {
        match unreached {
            Unreached::NoPlace => InputError::Machine,
            Unreached::Away(page) => InputError::Away(page),
        }
    }
}

impl GuestBus {
    /// What happens to the machine of this bus and a processor, but for a step.
    ///
    /// It answers `Machine` exactly where the machine does not accept it, `Memory` only where a request for memory was
    /// refused, which a Drain makes alone, and `Away` only of a write, with a page that one of its bytes lies in and that is
    /// not there for stores. The machine is then as before. Where pages are, and what they hold, stays.
    pub fn input(&mut self, cpu: &mut Cpu, what: &What) -> Result<Reply, InputError>
        requires settled { IsSettled self.old }
        requires no_step { is_step what.now ≡ false }
        ensures after { OnOk result (machine_with cpu.new (board_of self.new) ≡ after what.now (machine_with cpu.old (board_of self.old))) }
        ensures reply { IfOk result (λ r. replied r ≡ reply what.now (machine_with cpu.old (board_of self.old))) }
        ensures accepted { OnOk result (accepts what.now (machine_with cpu.old (board_of self.old)) ≡ true) }
        ensures there { OnOk result (WritesWhereThere what.now (lacks_in self.old.pages) (machine_with cpu.old (board_of self.old))) }
        ensures refused { IsErrOf result InputError.Machine ↔ (accepts what.now (machine_with cpu.old (board_of self.old)) ≡ false) }
        ensures memory { IsErrOf result InputError.Memory → what.now ≡ Drain }
        ensures away { (page : ℕ) → IsErrOf result (InputError.Away page) → lacks_in self.old.pages page Store ≢ None }
        ensures its_page { (page : ℕ) → IsErrOf result (InputError.Away page) → WritesTo what.now (machine_with cpu.old (board_of self.old)) page }
        ensures unchanged { OnErr result ((self.new ≡ self.old) × (cpu.new ≡ cpu.old)) }
        ensures outline { outline self.new.pages ≡ outline self.old.pages }
        ensures settled { IsSettled self.new }
    {
        match what {
            What::Step => unreachable!(),
            What::In(byte) => self.feed(*byte),
            What::Drain => self.drain(),
            What::Target(pages) => {
                self.set_target(*pages);
                Ok(Reply::Done)
            }
            What::Poke { register, value } => {
                cpu.poke(*register, *value);
                Ok(Reply::Done)
            }
            What::Write { address, bytes } => self.write(cpu, *address, bytes.as_slice()),
        }
    }

    /// Adds a byte of the console's input, for which the console has room: `Devices::has_input_room` is the test. It is what `input` does
    /// by such an item, and can't be refused.
    pub fn take_in(&mut self, byte: u8)
        requires { length self.old.devices.console.input < input_room }
        ensures { self.new ≡ record self.old { devices = device_input_fed byte self.old.devices } }
    {
        if self.devices.feed(byte).is_err() {
            unreachable!()
        }
    }

    // Adds a byte of the console's input, which is refused exactly where the console has no room for it.
    fn feed(&mut self, byte: u8) -> Result<Reply, InputError>
        ensures fed { OnOk result (self.new ≡ record self.old { devices = device_input_fed byte self.old.devices }) }
        ensures reply { IfOk result (λ r. replied r ≡ None) }
        ensures room { IsOk result ↔ (length self.old.devices.console.input < input_room) }
        ensures refused { OnErr result (self.new ≡ self.old) }
        ensures error { OnErr result (result ≡ Err InputError.Machine) }
    {
        match self.devices.feed(byte) {
            Ok(()) => Ok(Reply::Done),
            Err(_) => Err(InputError::Machine),
        }
    }

    // Takes the console's output. It answers `Memory` where a request for memory was refused.
    fn drain(&mut self) -> Result<Reply, InputError>
        ensures drained { OnOk result (self.new ≡ record self.old { devices = device_output_drained self.old.devices }) }
        ensures reply { IfOk result (λ r. replied r ≡ Some self.old.devices.console.output) }
        ensures refused { OnErr result (self.new ≡ self.old) }
        ensures error { OnErr result (result ≡ Err InputError.Memory) }
    {
        match self.devices.drain() {
            Ok(bytes) => Ok(Reply::Output(bytes)),
            Err(_) => Err(InputError::Memory),
        }
    }

    // Asks the balloon to hold so many pages.
    fn set_target(&mut self, pages: u32)
        ensures { self.new ≡ record self.old { devices = device_target_set pages self.old.devices } }
    {
        self.devices.set_target(pages);
    }

    // A write of a debugger.
    fn write(&mut self, cpu: &Cpu, address: u32, bytes: &[u8]) -> Result<Reply, InputError>
        requires settled { IsSettled self.old }
        ensures after { OnOk result (machine_with cpu.now (board_of self.new) ≡ after (Write address bytes.now) (machine_with cpu.now (board_of self.old))) }
        ensures reply { IfOk result (λ r. replied r ≡ None) }
        ensures accepted { OnOk result (accepts (Write address bytes.now) (machine_with cpu.now (board_of self.old)) ≡ true) }
        ensures there { OnOk result (WritesWhereThere (Write address bytes.now) (lacks_in self.old.pages) (machine_with cpu.now (board_of self.old))) }
        ensures refused { IsErrOf result InputError.Machine ↔ (accepts (Write address bytes.now) (machine_with cpu.now (board_of self.old)) ≡ false) }
        ensures memory { IsErrOf result InputError.Memory → ⊥ }
        ensures away { (page : ℕ) → IsErrOf result (InputError.Away page) → lacks_in self.old.pages page Store ≢ None }
        ensures its_page { (page : ℕ) → IsErrOf result (InputError.Away page) → WritesTo (Write address bytes.now) (machine_with cpu.now (board_of self.old)) page }
        ensures unchanged { OnErr result (self.new ≡ self.old) }
        ensures outline { outline self.new.pages ≡ outline self.old.pages }
        ensures settled { IsSettled self.new }
    {
        if bytes.len() > WRITE_LIMIT {
            return Err(InputError::Machine);
        }
        match debug::write(cpu, self, address, bytes) {
            Ok(()) => Ok(Reply::Done),
            Err(unreached) => Err(InputError::of(unreached)),
        }
    }
}
