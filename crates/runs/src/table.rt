//! The reference machine as one that runs.
ghost use Rattle.std.specs.Prelude.{◌≡◌, ◌≤◌, ◌^◌, ◌<◌, None, Some, length, IfOk, OnOk, OnErr};
ghost use Rattle.elf32.specs.Images.{FitsPages};
ghost use Rattle.items.specs.declared.item.What.TheVariants.{In};
ghost use Rattle.machine.specs.Step.{step};
ghost use Rattle.machine.specs.Boot.{boot_machine};
ghost use Rattle.machine.specs.Items.{after};
ghost use Rattle.runs.specs.Coverage.{covered, no_coverage};
ghost use Rattle.runs.specs.Runs.{after_steps};

use crate::{NoPlace, Runnable};
use elf32::Image;
use flatvm::FlatBus;
use guest_log::Stop;
use items::What;
use machine::{Rejection, StepOut};
use mips_cp0::Profile;
use mips_step::{Cpu, Unreached, View, debug};
use std::alloc::{AllocError, Global};
use std::marker::Model;

/// The reference machine, whose memory can be read: a processor over one plain memory with its devices. In clauses it is a `Machine`.
#[derive(Drop)]
pub struct Table {
    cpu: Cpu,
    bus: FlatBus,
}

impl Model for Table {
    ghost use Rattle.machine.specs.Step.{Machine, machine_with};

    ghost Value = { Machine };

    ghost view = { λ t. machine_with t.cpu t.bus };
}

impl Table {
    /// The machine of a profile that an image boots, with a memory of `pages` pages, at most 2^20, which hold the image. An error says that a request
    /// for memory was refused.
    pub fn boot(
        alloc: Global,
        profile: Profile,
        image: &Image,
        pages: u32,
    ) -> Result<Table, AllocError>
        requires fits { FitsPages image.now pages }
        requires few { pages ≤ 2 ^ 20 }
        ensures { IfOk result (λ t. t ≡ boot_machine profile image.now pages) }
    {
        Ok(Table {
            cpu: Cpu::boot(profile, image.entry),
            bus: FlatBus::boot(alloc, image, pages)?,
        })
    }

    /// One step.
    #[tactic(auto, using(flatvm::proofs::Never::never_lacks))]
    #[inline(always)]
    fn step(&mut self)
        ensures { self.new ≡ step self.old }
    {
        match self.cpu.step(&mut self.bus) {
            StepOut::Done => {}
            StepOut::Need(_, _) => unreachable!(),
        }
    }
}

/// The reference machine never stops.
impl Runnable for Table {
    ghost state = { λ t. t };

    ghost may_stop = { λ t stop. ⊥ };

    type Kept = ();

    ghost kept = { λ t. tt };

    // It keeps none.
    ghost coverage = { λ t. no_coverage };

    #[tactic(auto, using(crate::proofs::Covered::uncovered))]
    fn steps(&mut self, count: u32) -> (u32, Option<Stop>)
        ensures all { result.0 ≡ count }
        ensures state { self.new ≡ after_steps count self.old }
        ensures covered { no_coverage ≡ covered count self.old no_coverage }
        ensures never_stops { result.1 ≡ None }
    {
        for made in 0..count {
            // The turn is the number of steps that were made: the loop's invariant speaks of it.
            let _made = made;
            self.step();
        }
        (count, None)
    }

    fn feed(&mut self, byte: u8) -> Result<(), Stop> {
        match self.bus.input(&mut self.cpu, &What::In(byte)) {
            Ok(_) => Ok(()),
            Err(rejection) => match rejection {
                Rejection::Machine => unreachable!(),
                Rejection::Memory => unreachable!(),
            },
        }
    }

    fn view(&self) -> View<'_> {
        View {
            cpu: &self.cpu,
            devices: self.bus.devices(),
        }
    }

    fn read(&self, address: u32, bytes: &mut [u8]) -> Result<(), NoPlace> {
        match debug::read(&self.cpu, &self.bus, address, bytes) {
            Ok(()) => Ok(()),
            Err(Unreached::NoPlace) => Err(NoPlace),
            Err(Unreached::Away(_)) => unreachable!(),
        }
    }
}
