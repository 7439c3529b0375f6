//! Steps that a world of one guest makes many at once, beside the reference machine, which makes them one by one. After each slice of steps
//! all that the two processors have is compared, and the devices, and at the end all of memory.
mod clock;
mod fields;
mod linked;
mod mapped;
mod random_words;
mod slots;

use super::code::Code;
use super::expect;
use super::run::{MOST_PAGES, PROFILES, boot_world, guest_of, make_steps, raw_image};
use devices::Devices;
use elf32::Image;
use flatvm::FlatBus;
use guest::Guest;
use machine::{Ppn, StepOut};
use mips_cp0::Profile;
use mips_instr::Reg;
use mips_step::{Cpu, debug};
use std::process::Abort;
use std::test::Fail;
use swapstore::MemStore;
use world::World;

/// How many pages of memory each machine has.
const PAGES: u32 = 6;

/// A program, and how many steps of it are made.
#[derive(Clone, Copy)]
struct Program<'a> {
    name: &'a str,
    /// The image, which stands and is entered at 80000000.
    code: &'a [Code],
    steps: u32,
}

/// The reference machine in its parts, since its memory is to be read.
#[derive(Drop)]
struct Table {
    cpu: Cpu,
    bus: FlatBus,
}

impl Table {
    fn boot<R: AllocGlobal + Abort>(
        rt: &R,
        name: &str,
        profile: Profile,
        image: &Image,
    ) -> Result<Table, Fail> {
        assert!(rt; image.fits(PAGES), "{name}");
        Ok(Table {
            cpu: Cpu::boot(profile, image.entry),
            bus: FlatBus::boot(rt.alloc(), image, PAGES)?,
        })
    }

    fn make_steps(&mut self, rt: &impl Abort, count: u32) {
        for _ in 0..count {
            expect(rt, "a step", self.cpu.step(&mut self.bus), StepOut::Done);
        }
    }
}

/// The name of a program, how many steps its slice has, and which of them it is.
type Place<'a> = (&'a str, u32, usize);

/// General registers, system registers and entries of the TLB.
fn check_registers(rt: &impl Abort, place: Place, cpu: &Cpu, wanted: &Cpu) {
    for number in 0..32 {
        let r = Reg::new(number);
        let registers = (cpu.reg(r), cpu.cp0().read(number, 0, 0));
        let wanted = (wanted.reg(r), wanted.cp0().read(number, 0, 0));
        expect(rt, (place, "registers", number), registers, wanted);
    }
    let same = cpu.tlb().entries() == wanted.tlb().entries();
    expect(rt, (place, "entries", 0), same, true);
}

/// PC, the target of the delay slot, HI and LO, and LLbit.
fn control(cpu: &Cpu) -> (u32, Option<u32>, [u32; 2], bool) {
    (cpu.pc(), cpu.slot(), [cpu.hi(), cpu.lo()], cpu.ll_bit())
}

/// The lines, how many pages are given, and how many bytes of output wait.
fn counts(devices: &Devices) -> (u8, u32, usize) {
    (devices.lines(), devices.given(), devices.output_len())
}

fn check_devices(rt: &impl Abort, place: Place, devices: &Devices, wanted: &Devices) {
    expect(rt, (place, "devices"), counts(devices), counts(wanted));
    for number in 0..PAGES {
        let page = Ppn::new(number);
        let given = devices.is_given(page);
        expect(rt, (place, "page", number), given, wanted.is_given(page));
    }
}

fn check_same(rt: &impl Abort, place: Place, guest: &Guest, table: &Table) {
    let view = guest.view();
    let state = control(view.cpu);
    expect(rt, place, state, control(&table.cpu));
    check_registers(rt, place, view.cpu, &table.cpu);
    check_devices(rt, place, view.devices, table.bus.devices());
}

/// All bytes of memory.
fn check_memory<R: AllocGlobal + Abort>(
    rt: &R,
    name: &str,
    guest: &Guest,
    table: &Table,
) -> Result<(), Fail> {
    let mut bytes = vec![in rt.alloc(); 0xa5; 4096]?;
    let mut wanted = vec![in rt.alloc(); 0x5a; 4096]?;
    for number in 0..PAGES {
        let address = 0x8000_0000 + number * 4096;
        assert!(rt; guest.debug_read(address, &mut bytes).is_ok(), "{name}");
        assert!(rt;
            debug::read(&table.cpu, &table.bus, address, &mut wanted).is_ok(),
            "{name}"
        );
        expect(
            rt,
            (name, "page", number),
            bytes.as_slice(),
            wanted.as_slice(),
        );
    }
    Ok(())
}

/// Makes slices of so many steps on both machines, and compares these after each.
fn make_slices<R: AllocGlobal + Abort>(
    rt: &R,
    name: &str,
    world: &mut World<MemStore>,
    table: &mut Table,
    slices: &[u32],
) {
    for (index, count) in slices.iter().enumerate() {
        make_steps(rt, world, *count as usize);
        table.make_steps(rt, *count);
        check_same(rt, (name, *count, index), guest_of(rt, world), table);
    }
}

/// Whether memory is compared at the end.
#[derive(Clone, Copy, PartialEq, Eq)]
enum Memory {
    Compared,
    Left,
}

/// Runs a program in slices of so many steps on both machines, of either profile.
fn check_slices<R: AllocGlobal + Abort>(
    rt: &R,
    name: &str,
    code: &[Code],
    slices: &[u32],
    memory: Memory,
) -> Result<(), Fail> {
    for profile in PROFILES {
        check_slices_as(rt, name, profile, code, slices, memory)?;
    }
    Ok(())
}

fn check_slices_as<R: AllocGlobal + Abort>(
    rt: &R,
    name: &str,
    profile: Profile,
    code: &[Code],
    slices: &[u32],
    memory: Memory,
) -> Result<(), Fail> {
    let image = raw_image(rt, name, code)?;
    let mut table = Table::boot(rt, name, profile, &image)?;
    let mut world = boot_world(rt, name, profile, image, PAGES)?;
    make_slices(rt, name, &mut world, &mut table, slices);
    let checked = match memory {
        Memory::Compared => check_memory(rt, name, guest_of(rt, &world), &table),
        Memory::Left => Ok(()),
    };
    let _store = world.close();
    checked
}

/// Runs a program with a slice that ends after each of its steps in turn, then two steps by themselves, and the others in a slice.
/// Memory is compared after every eighth.
fn check_each_end<R: AllocGlobal + Abort>(rt: &R, program: &Program) -> Result<(), Fail> {
    let Program { name, code, steps } = *program;
    for first in 0..steps {
        let others = (steps - first).saturating_sub(2);
        let memory = if first % 8 == 0 {
            Memory::Compared
        } else {
            Memory::Left
        };
        check_slices(rt, name, code, &[first, 1, 1, others], memory)?;
    }
    Ok(())
}

fn check_programs<R: AllocGlobal + Abort>(rt: &R, programs: &[Program]) -> Result<(), Fail> {
    for program in programs {
        check_each_end(rt, program)?;
    }
    Ok(())
}
