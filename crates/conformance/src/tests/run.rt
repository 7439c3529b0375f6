//! A run of an image on both machines, and the state that it has to end in.

use super::code::{Code, image_of};
use super::expect;
use elf32::Image;
use flatvm::Flat;
use guest::Guest;
use mips_cp0::Profile;
use mips_instr::Reg;
use mips_step::Cpu;
use rand_pcg::Pcg32;
use std::alloc::{AllocError, Global};
use std::process::Abort;
use std::sync::Arc;
use std::test::Fail;
use swapstore::MemStore;
use taxpolicy::Tax;
use tenant::BootError;
use world::{Config, End, NewGuest, Ran, World};

/// The most pages that a physical address reaches.
pub const MOST_PAGES: u32 = 1 << 20;

/// The greatest number of runs of a guest's log.
pub const LOG_RUNS: u32 = 16;

/// Both profiles of the processor.
pub const PROFILES: [Profile; 2] = [Profile::One, Profile::Two];

pub const TAX: Tax = Tax { percent: 75 };

/// A run of a raw image, and what its machine has at the end.
#[derive(Clone, Copy)]
pub struct Run<'a> {
    pub name: &'a str,
    /// The image, which stands and is entered at 80000000.
    pub code: &'a [Code],
    /// How many pages of memory the machine has.
    pub pages: u32,
    pub steps: usize,
    pub pc: u32,
    /// HI and LO.
    pub hi_lo: [u32; 2],
    /// General registers; those that have no entry here are 0.
    pub regs: &'a [(u32, u32)],
    /// Status, Cause, EPC and BadVAddr.
    pub system: [u32; 4],
}

/// Makes the steps of each run on the reference machine and in a world of one guest, of either profile.
pub fn check_runs<R: AllocGlobal + Abort>(rt: &R, runs: &[Run]) -> Result<(), Fail> {
    for run in runs {
        check_run(rt, run)?;
    }
    Ok(())
}

/// Makes the steps on the reference machine and in a world of one guest, of either profile.
pub fn check_run<R: AllocGlobal + Abort>(rt: &R, run: &Run) -> Result<(), Fail> {
    for profile in PROFILES {
        check_run_as(rt, profile, run)?;
    }
    Ok(())
}

/// Makes the steps on the reference machine and in a world of one guest, of this profile.
pub fn check_run_as<R: AllocGlobal + Abort>(
    rt: &R,
    profile: Profile,
    run: &Run,
) -> Result<(), Fail> {
    let image = raw_image(rt, run.name, run.code)?;
    check_table_machine(rt, profile, run, &image)?;
    check_guest(rt, profile, run, image)
}

fn check_table_machine<R: AllocGlobal + Abort>(
    rt: &R,
    profile: Profile,
    run: &Run,
    image: &Image,
) -> Result<(), Fail> {
    let mut flat = boot_table_machine(rt, run.name, profile, image, run.pages)?;
    step_table_machine(&mut flat, run.steps);
    check_cpu(rt, flat.view().cpu, run, "reference machine");
    Ok(())
}

fn check_guest<R: AllocGlobal + Abort>(
    rt: &R,
    profile: Profile,
    run: &Run,
    image: Image,
) -> Result<(), Fail> {
    let mut world = boot_world(rt, run.name, profile, image, run.pages)?;
    make_steps(rt, &mut world, run.steps);
    check_stepped(rt, guest_of(rt, &world), run);
    let _store = world.close();
    Ok(())
}

/// The guest's processor, and its log, which has the steps as one run.
fn check_stepped(rt: &impl Abort, guest: &Guest, run: &Run) {
    check_cpu(rt, guest.view().cpu, run, "guest");
    let log = guest.log();
    expect(
        rt,
        (run.name, "items, runs"),
        (log.len(), log.runs()),
        (run.steps as u64, 1),
    );
}

/// The raw image of this code, of the test of this name.
pub fn raw_image<R: AllocGlobal + Abort>(rt: &R, name: &str, code: &[Code]) -> Result<Image, Fail> {
    let bytes = image_of(rt.alloc(), code)?;
    assert!(rt; bytes.len() < 1 << 32, "{name}");
    Ok(Image::raw(rt.alloc(), bytes)?)
}

/// A reference machine of a profile and of so many pages, which has to hold the image.
pub fn boot_table_machine<R: AllocGlobal + Abort>(
    rt: &R,
    name: &str,
    profile: Profile,
    image: &Image,
    pages: u32,
) -> Result<Flat, Fail> {
    assert!(rt; image.fits(pages) && pages <= MOST_PAGES, "{name}");
    Ok(Flat::boot(rt.alloc(), profile, image, pages)?)
}

/// A world of one guest of a profile and of so many pages, at least 2, which have to hold the image. It has a frame for each of them and one more, and
/// no slot.
pub fn boot_world<R: AllocGlobal + Abort>(
    rt: &R,
    name: &str,
    profile: Profile,
    image: Image,
    pages: u32,
) -> Result<World<MemStore>, Fail> {
    let guests = alone(rt.alloc(), profile, image, pages)?;
    let store = MemStore::new(rt.alloc(), 0)?;
    let config = Config {
        frames: pages.saturating_add(1).max(4),
        log_runs: LOG_RUNS,
        admit: false,
    };
    match World::boot(rt.alloc(), config, guests, store) {
        Ok(world) => Ok(world),
        Err((BootError::Memory, _store)) => Err(Fail::from(AllocError)),
        Err((error, _store)) => panic!(rt; "{name}: {error:?}"),
    }
}

/// A guest of a profile and of so many pages that is to boot the image, and no other.
fn alone(alloc: Global, profile: Profile, image: Image, pages: u32) -> Result<Vec<NewGuest>, Fail> {
    let guest = NewGuest {
        profile,
        image: Arc::new(alloc, image)?,
        pages,
        shares: 1,
        minimum: 2,
    };
    Ok(Vec::from_array(alloc, [guest])?)
}

/// The guest of a world of one.
pub fn guest_of<'a>(rt: &impl Abort, world: &'a World<MemStore>) -> &'a Guest {
    match world.tenants() {
        [tenant] => tenant.guest(),
        _ => panic!(rt; "not one guest"),
    }
}

pub fn step_table_machine(flat: &mut Flat, count: usize) {
    for _ in 0..count {
        flat.step();
    }
}

/// Makes so many steps, each of which gets the pages that it needs.
pub fn make_steps<R: AllocGlobal + Abort>(rt: &R, world: &mut World<MemStore>, count: usize) {
    let Ok(steps) = u32::try_from(count) else {
        panic!(rt; "too many steps");
    };
    let end = End::Done;
    expect(rt, "steps", run_steps(rt, world, steps), Ran { steps, end });
}

/// What becomes of so many steps.
pub fn run_steps<R: AllocGlobal + Abort>(rt: &R, world: &mut World<MemStore>, count: u32) -> Ran {
    if world.count() == 0 {
        panic!(rt; "there is no guest");
    }
    world.run_steps(rt.alloc(), 0, count, TAX, &mut Pcg32::new(42, 54))
}

/// PC, HI and LO, and then Status, Cause, EPC and BadVAddr.
pub fn state_of(cpu: &Cpu) -> (u32, [u32; 2], [u32; 4]) {
    let cp0 = cpu.cp0();
    (
        cpu.pc(),
        [cpu.hi(), cpu.lo()],
        [cp0.status(), cp0.cause(), cp0.epc(), cp0.bad_vaddr()],
    )
}

fn check_cpu(rt: &impl Abort, cpu: &Cpu, run: &Run, machine: &str) {
    expect(
        rt,
        (run.name, machine, "pc, [hi, lo], [sr, cause, epc, badva]"),
        state_of(cpu),
        (run.pc, run.hi_lo, run.system),
    );
    for number in 0..32 {
        expect(
            rt,
            (run.name, machine, number),
            cpu.reg(Reg::new(number)),
            run.reg(number),
        );
    }
}

impl Run<'_> {
    /// What the general register of this number has at the end.
    fn reg(&self, number: u32) -> u32 {
        for (listed, value) in self.regs {
            if *listed == number {
                return *value;
            }
        }
        0
    }
}
