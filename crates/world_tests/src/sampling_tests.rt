//! Samples of two guests, by a generator beside the world's of the same seed.
use crate::event_tests::{TAX, expect, started};
use guest_number::GuestNo;
use rand_core::{Rng, SeedableRng};
use rand_pcg::Pcg32;
use std::alloc::Global;
use std::process::Abort;
use swapstore::MemStore;
use taxpolicy::{SAMPLE_SIZE, pick_sample};
use world::{Answer, Event, World};

/// How many pages each guest has.
const PAGES: u32 = 3;

/// A sample of all guests' pages.
fn sample(rt: &impl Abort, alloc: Global, world: &mut World<MemStore>, rng: &mut Pcg32) {
    match world.apply(alloc, Event::Sample, TAX, rng) {
        Answer::Sampled => {}
        _ => panic!(rt; "no sample"),
    }
}

/// One step of a guest.
fn step(alloc: Global, world: &mut World<MemStore>, rng: &mut Pcg32, g: GuestNo) {
    let _answer = world.apply(alloc, Event::Step(g), TAX, rng);
}

/// The pages that are drawn of a guest, and how many draws count as active.
fn sampled(
    rt: &impl Abort,
    world: &World<MemStore>,
    g: usize,
) -> (Option<[u32; SAMPLE_SIZE]>, u16) {
    if g >= world.count() {
        panic!(rt; "there is no guest {g}");
    }
    let sampled = world.guest(g).sampled();
    (sampled.draws, sampled.active)
}

/// How many draws are of page 0.
fn of_page_0(draws: &[u32; SAMPLE_SIZE]) -> u16 {
    draws.iter().filter(|page| **page == 0).count() as u16
}

#[test]
fn guests_are_sampled_one_after_another(rt: HostRuntime) {
    let alloc = rt.alloc();
    let mut world = started(&rt, alloc);
    let mut rng = Pcg32::seed_from_u64(5);
    let mut twin = Pcg32::seed_from_u64(5);
    let first = pick_sample(&mut twin, PAGES);
    let second = pick_sample(&mut twin, PAGES);
    sample(&rt, alloc, &mut world, &mut rng);
    expect(&rt, "guest 0", sampled(&rt, &world, 0), (Some(first), 100));
    expect(&rt, "guest 1", sampled(&rt, &world, 1), (Some(second), 100));
    // guest 0 fetches from page 0, and guest 1 makes no step
    step(alloc, &mut world, &mut rng, GuestNo::new(0));
    let third = pick_sample(&mut twin, PAGES);
    let fourth = pick_sample(&mut twin, PAGES);
    sample(&rt, alloc, &mut world, &mut rng);
    let active = of_page_0(&first);
    expect(&rt, "some", active > 0, true);
    let wanted = (Some(third), active);
    expect(&rt, "one page", sampled(&rt, &world, 0), wanted);
    expect(&rt, "none", sampled(&rt, &world, 1), (Some(fourth), 0));
    expect(&rt, "no word more", rng.next_u32(), twin.next_u32());
    let _store = world.close();
}
