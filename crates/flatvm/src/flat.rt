//! The reference machine.
ghost use Rattle.std.specs.Prelude.{◌≡◌, ◌≤◌, ◌^◌, ◌↔◌, ℕ, true, false, IfOk, OnOk, OnErr, IsErrOf};
ghost use Rattle.elf32.specs.Images.{FitsPages};
ghost use Rattle.machine.specs.Step.{Machine, machine_with, step};
ghost use Rattle.items.specs.declared.item.What.TheVariants.{Drain};
ghost use Rattle.machine.specs.Answers.{replied};
ghost use Rattle.machine.specs.Boot.{boot_machine};
ghost use Rattle.machine.specs.Items.{accepts, after, reply};
ghost use Rattle.machine.specs.Replies.{probe};

use crate::FlatBus;
use devices::Devices;
use elf32::Image;
use items::What;
use machine::{PhysAddr, Rejection, Reply, StepOut};
use mips_cp0::Profile;
use mips_step::{Cpu, View, debug};
use std::alloc::{AllocError, Global};
use std::marker::Model;

/// The reference machine: a processor over one plain memory with its devices. In clauses it is a `Machine`.
#[derive(Drop)]
pub struct Flat {
    cpu: Cpu,
    bus: FlatBus,
}

impl Model for Flat {
    ghost use Rattle.machine.specs.Step.{Machine, machine_with};

    ghost Value = { Machine };

    ghost view = { λ f. machine_with f.cpu f.bus };
}

impl Flat {
    /// The machine of a profile that an image boots, with a memory of `pages` pages, at most 2^20, which hold the image.
    pub fn boot(
        alloc: Global,
        profile: Profile,
        image: &Image,
        pages: u32,
    ) -> Result<Flat, AllocError>
        requires fits { FitsPages image.now pages }
        requires few { pages ≤ 2 ^ 20 }
        ensures { IfOk result (λ f. f ≡ boot_machine profile image.now pages) }
    {
        Ok(Flat {
            cpu: Cpu::boot(profile, image.entry),
            bus: FlatBus::boot(alloc, image, pages)?,
        })
    }

    /// One step. It is short enough for the loops that make steps to hold it, since it is they that are to be fast.
    #[tactic(auto, using(crate::proofs::Never::never_lacks))]
    #[inline(always)]
    pub fn step(&mut self)
        ensures { self.new ≡ step self.old }
    {
        match self.cpu.step(&mut self.bus) {
            StepOut::Done => {}
            StepOut::Need(_, _) => unreachable!(),
        }
    }

    /// What happens to the machine, a step too.
    ///
    /// It answers `Machine` exactly where the machine does not accept it, and `Memory` only where a request for memory was
    /// refused, which a Drain makes alone. The machine is then as before.
    pub fn input(&mut self, what: &What) -> Result<Reply, Rejection>
        ensures after { OnOk result (self.new ≡ after what.now self.old) }
        ensures reply { IfOk result (λ r. replied r ≡ reply what.now self.old) }
        ensures accepted { OnOk result (accepts what.now self.old ≡ true) }
        ensures refused { IsErrOf result Rejection.Machine ↔ (accepts what.now self.old ≡ false) }
        ensures memory { IsErrOf result Rejection.Memory → what.now ≡ Drain }
        ensures unchanged { OnErr result (self.new ≡ self.old) }
    {
        match what {
            What::Step => {
                self.step();
                Ok(Reply::Done)
            }
            other => self.bus.input(&mut self.cpu, other),
        }
    }

    /// What is seen of the machine beside its memory.
    pub fn view(&self) -> View<'_>
        ensures cpu { result.cpu.now ≡ self.now.cpu }
        ensures devices { result.devices.now ≡ self.now.board.devices }
    {
        View {
            cpu: &self.cpu,
            devices: self.bus.devices(),
        }
    }

    /// The physical address in memory that a virtual address leads to, as for a load of kernel mode, whatever mode runs;
    /// None where such a load would raise an exception or reaches no memory.
    pub fn probe(&self, address: u32) -> Option<PhysAddr>
        ensures { result ≡ probe self.now address }
    {
        debug::probe(&self.cpu, &self.bus, address)
    }
}
