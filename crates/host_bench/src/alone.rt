//! Steps of a guest in a world, which one thread has for itself.
ghost use Rattle.std.specs.Prelude.{◌≡◌, ◌<◌, ◌≤◌, ◌*◌, length, IfOk};

use crate::guests::{CONFIG, SLOTS, STEPS, one_guest};
use std::alloc::{AllocError, Global};
use swapstore::MemStore;
use world::World;

// A world of the one guest. `AllocError` also where it is refused.
fn booted(alloc: Global) -> Result<World<MemStore>, AllocError>
    ensures { IfOk result (λ world. length world.tenants ≡ 1) }
{
    let guests = one_guest(alloc)?;
    let store = MemStore::new(alloc, SLOTS)?;
    match World::boot(alloc, CONFIG, guests, store) {
        Ok(world) => Ok(world),
        Err((_error, store)) => {
            drop(store);
            Err(AllocError)
        }
    }
}

// How many steps were made.
fn make_steps(world: &mut World<MemStore>, count: u32) -> u64
    requires { length world.old.tenants ≡ 1 }
    ensures { result ≤ 1024 * count }
{
    let mut made: u64 = 0;
    for _round in 0..count {
        made += u64::from(world.steps(0, STEPS).steps);
    }
    made
}

/// Makes so many times 1,024 steps of a guest; how many were made. `AllocError` where memory is refused.
pub fn world_steps(alloc: Global, count: u32) -> Result<u64, AllocError>
    ensures { IfOk result (λ made. made ≤ 1024 * count) }
{
    let mut world = booted(alloc)?;
    let made = make_steps(&mut world, count);
    drop(world.close());
    Ok(made)
}
