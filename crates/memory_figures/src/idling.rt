//! Two guests of equal shares on fewer frames than they have pages, of which one is idle.
ghost use Rattle.std.specs.Prelude.{◌<◌};

use crate::guests::{PAGES, guest_of, image_of, world_of};
use machine::Why;
use rand_core::SeedableRng;
use rand_pcg::Pcg32;
use std::alloc::{AllocError, Global};
use std::fmt;
use std::sync::Arc;
use swapstore::MemStore;
use taxpolicy::Tax;
use world::{Cause, End, World};

/// How many frames there are: the guests have 512 pages.
pub const FRAMES: u32 = 300;

/// How many pages the active guest uses, with that of its code.
pub const WORKING: u32 = 201;

/// Stores to 200 pages after its first one, and again.
static ACTIVE: [u32; 9] = [
    0x3c01_8000, // start:  lui $1,0x8000
    0x3402_00c8, //         ori $2,$0,200
    0x2421_1000, // store:  addiu $1,$1,4096
    0xac22_0000, //         sw $2,0($1)
    0x2442_ffff, //         addiu $2,$2,-1
    0x1440_fffc, //         bne $2,$0,store
    0x0000_0000, //         sll $0,$0,0
    0x1000_fff8, //         beq $0,$0,start
    0x0000_0000, //         sll $0,$0,0
];

/// Stores to each page after its first one, and then waits.
static IDLE: [u32; 9] = [
    0x3c01_8000, //         lui $1,0x8000
    0x3402_00ff, //         ori $2,$0,255
    0x2421_1000, // store:  addiu $1,$1,4096
    0xac22_0000, //         sw $2,0($1)
    0x2442_ffff, //         addiu $2,$2,-1
    0x1440_fffc, //         bne $2,$0,store
    0x0000_0000, //         sll $0,$0,0
    0x1000_ffff, // wait:   beq $0,$0,wait
    0x0000_0000, //         sll $0,$0,0
];

/// How many periods there are of each tax, and how many steps each guest makes in one.
pub const PERIODS: u32 = 10;

const STEPS: u32 = 20_000;

/// What a period has shown.
#[derive(Clone, Copy, Debug, PartialEq, Eq)]
pub struct Period {
    /// The tax on idle pages, in percent.
    pub tax: u8,
    /// The resident pages of the active guest.
    pub active: u32,
    /// Those of the idle one.
    pub idle: u32,
    /// How many pages of the active guest were read back from their slots.
    pub swap_ins: u32,
}

impl fmt::Display for Period {
    fn fmt<W: fmt::Write>(&self, f: &mut fmt::Formatter<W>) -> fmt::Result {
        let Period {
            tax,
            active,
            idle,
            swap_ins,
        } = *self;
        write!(f, "{tax} {active} {idle} {swap_ins}")
    }
}

/// Makes steps of a guest, with the pages that they need supplied, and counts those that were in slots.
fn run(alloc: Global, world: &mut World<MemStore>, g: usize, tax: Tax, rng: &mut Pcg32) -> u32 {
    let mut swap_ins: u32 = 0;
    let mut left = STEPS;
    // a step needs two pages at most
    for _ in 0..3 * STEPS {
        if g >= world.count() {
            break;
        }
        let ran = world.steps(g, left);
        left = left.saturating_sub(ran.steps);
        match ran.end {
            End::Need(_, Why::Swapped) => swap_ins = swap_ins.saturating_add(1),
            End::Need(_, _) => {}
            End::Done => break,
            End::Stop(_) => break,
        }
        if g >= world.count() {
            break;
        }
        if world.fault(alloc, g, Cause::Fault, tax, rng).is_err() {
            break;
        }
    }
    swap_ins
}

fn resident(world: &World<MemStore>, g: usize) -> u32 {
    if g < world.count() {
        world.guest(g).resident()
    } else {
        0
    }
}

/// A period: both guests make their steps, and then their pages are sampled.
fn next_period(alloc: Global, world: &mut World<MemStore>, percent: u8, rng: &mut Pcg32) -> Period
    requires { percent < 100 }
{
    let tax = Tax { percent };
    let swap_ins = run(alloc, world, 0, tax, rng);
    let _idle = run(alloc, world, 1, tax, rng);
    world.sample(rng);
    Period {
        tax: percent,
        active: resident(world, 0),
        idle: resident(world, 1),
        swap_ins,
    }
}

/// The idle guest touches its pages, and then both have their periods, with no tax on idle pages and then with one of 75 percent.
pub fn periods(alloc: Global) -> Result<Vec<Period>, AllocError> {
    let active = Arc::new(alloc, image_of(alloc, &ACTIVE, 1)?)?;
    let idle = Arc::new(alloc, image_of(alloc, &IDLE, 1)?)?;
    let guests = Vec::from_array(alloc, [guest_of(&active)?, guest_of(&idle)?])?;
    let mut world = world_of(alloc, FRAMES, guests)?;
    let mut rng = Pcg32::seed_from_u64(0);
    let _touched = run(alloc, &mut world, 1, Tax { percent: 0 }, &mut rng);
    let mut all = Vec::new(alloc);
    for at in 0..2 * PERIODS {
        let percent = if at < PERIODS { 0 } else { 75 };
        let next = next_period(alloc, &mut world, percent, &mut rng);
        if all.push(next).is_err() {
            drop(world.close());
            return Err(AllocError);
        }
    }
    drop(world.close());
    Ok(all)
}
