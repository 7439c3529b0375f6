//! The machine that others begin as.
ghost use Rattle.std.specs.Prelude.{◌≡◌, ◌+◌, ◌*◌, ◌≤◌, ◌^◌, IfOk, OnErr, OnOk, length};
ghost use Rattle.word32.specs.Words.{patched};
ghost use Rattle.elf32.specs.Images.{FitsPages};
ghost use Rattle.machine.specs.Board.{page_bytes};
ghost use Rattle.machine.specs.Boot.{boot_machine};
ghost use Rattle.machine.specs.Step.{machine_with};
ghost use Rattle.reset_machine.specs.Watched.{HasPages};

use elf32::Image;
use flatvm::FlatBus;
use mips_cp0::Profile;
use mips_step::Cpu;
use std::alloc::{AllocError, Global};
use std::marker::Model;
use word32::Ppn;

/// A machine that stands still: others begin as it is, and go back to it (`ResetMachine`). Several may share one. It has 4,096 bytes for each of
/// its pages, at most 2^20. In clauses it is a `Machine`.
#[derive(Drop)]
pub struct Home {
    cpu: Cpu,
    bus: FlatBus,
    pages: u32,
}

impl Model for Home {
    ghost use Rattle.machine.specs.Step.{Machine, machine_with};
    ghost use Rattle.reset_machine.specs.Watched.{HasPages};

    ghost Value = { Machine };

    ghost view = { λ h. machine_with h.cpu h.bus };

    ghost invariant = { λ h. HasPages h.pages h.bus.memory };
}

impl Home {
    /// The machine of a profile that an image boots, with a memory of `pages` pages, at most 2^20, which hold the image. `AllocError` where a
    /// request for memory was refused.
    #[tactic(auto, using(crate::proofs::Homes::boot_pages))]
    pub fn boot(
        alloc: Global,
        profile: Profile,
        image: &Image,
        pages: u32,
    ) -> Result<Home, AllocError>
        requires fits { FitsPages image.now pages }
        requires few { pages ≤ 2 ^ 20 }
        ensures { IfOk result (λ h. h ≡ boot_machine profile image.now pages) }
    {
        let cpu = Cpu::boot(profile, image.entry);
        let bus = FlatBus::boot(alloc, image, pages)?;
        Ok(Home { cpu, bus, pages })
    }

    /// The machine of a processor and a memory of so many pages with its devices.
    pub(crate) fn of_parts(cpu: Cpu, bus: FlatBus, pages: u32) -> Home
        requires { HasPages pages bus.memory }
        ensures { result ≡ machine_with cpu bus }
    {
        Home { cpu, bus, pages }
    }

    /// How many pages its memory has.
    pub(crate) fn page_count(&self) -> u32
        ensures { HasPages result self.now.board.memory }
    {
        self.pages
    }

    /// Its processor once more.
    pub(crate) fn processor(&self) -> Cpu
        ensures { result ≡ self.now.cpu }
    {
        self.cpu.again()
    }

    /// Its memory with the devices once more.
    pub(crate) fn board(&self) -> Result<FlatBus, AllocError>
        ensures { IfOk result (λ bus. bus ≡ self.now.board) }
    {
        self.bus.try_clone()
    }

    /// Puts its devices, once more, in the place of those of another memory of as many pages. `AllocError` where a request for memory was
    /// refused, and nothing has changed then.
    pub(crate) fn put_devices(&self, flat: &mut FlatBus) -> Result<(), AllocError>
        requires { length flat.old.memory ≡ length self.now.board.memory }
        ensures put { OnOk result (flat.new ≡ record flat.old { devices = self.now.board.devices }) }
        ensures unchanged { OnErr result (flat.new ≡ flat.old) }
    {
        flat.copy_devices(&self.bus)
    }

    /// Puts the bytes of one of its pages in the place of those that the page has in another memory.
    pub(crate) fn put_page(&self, page: Ppn, flat: &mut FlatBus)
        requires here { page * 4096 + 4096 ≤ length flat.old.memory }
        requires there { page * 4096 + 4096 ≤ length self.now.board.memory }
        ensures { flat.new ≡ record flat.old { memory = patched flat.old.memory (page * 4096) (page_bytes page self.now.board.memory) 4096 } }
    {
        flat.copy_page(page, &self.bus);
    }
}
