//! Pages that leave their frames one by one.
use crate::bench::{Wanted, booted, expect};
use cell::{End, Piece};
use host_policy::Evicted;
use rand_core::{Rng, SeedableRng};
use rand_pcg::Pcg32;
use std::process::Abort;
use word32::Ppn;

/// Few pages of both guests in frames.
const FEW: Wanted = Wanted {
    resident: [4, 6],
    slots: 20,
    failing: 1_000_000,
    seed: 3,
};

// The first page that is in a frame, at or after the word modulo the pages, going round.
fn drawn(resident: &[bool; 60], word: u32) -> Ppn {
    let start = (word % 60) as usize;
    for k in 0..60 {
        let p = (start + k) % 60;
        if resident[p] {
            return Ppn::new(p as u32);
        }
    }
    Ppn::new(0)
}

/// Whose page leaves next, where both have equal shares: that of the guest with more pages in frames, guest 0 where they have as many; nobody's
/// once each has two.
static ORDER: [usize; 6] = [1, 1, 0, 1, 0, 1];

#[test]
fn pages_of_the_larger_guest_leave_first(rt: HostRuntime) {
    let bench = booted(&rt, rt.alloc(), FEW);
    let mut words = Pcg32::seed_from_u64(3);
    for g in &ORDER {
        let page = drawn(&bench.in_frames(&rt, *g), words.next_u32());
        let evicted = bench.evict_one(&rt);
        expect(&rt, "a page", evicted, Evicted::Page(*g, page));
    }
    expect(&rt, "two each", bench.resident(&rt), (2, 2));
    expect(&rt, "nobody's", bench.evict_one(&rt), Evicted::Nobody);
}

#[test]
fn a_page_stays_without_a_slot_or_where_the_store_fails(rt: HostRuntime) {
    let alloc = rt.alloc();
    let bench = booted(&rt, alloc, Wanted { slots: 0, ..FEW });
    expect(&rt, "no slot", bench.evict_one(&rt), Evicted::NoSwap);
    expect(&rt, "stays", bench.resident(&rt), (4, 6));
    let bench = booted(&rt, alloc, Wanted { failing: 1, ..FEW });
    expect(&rt, "a write", bench.evict_one(&rt), Evicted::SwapWrite);
    expect(&rt, "stays too", bench.resident(&rt), (4, 6));
}

// Whose page has left.
fn whose(evicted: Evicted) -> Option<usize> {
    match evicted {
        Evicted::Page(g, _) => Some(g),
        _ => None,
    }
}

#[test]
fn an_idle_guest_is_taxed_once_a_period_of_its_sample_is_over(rt: HostRuntime) {
    let alloc = rt.alloc();
    let wanted = Wanted {
        resident: [20, 60],
        ..FEW
    };
    let mut bench = booted(&rt, alloc, wanted);
    expect(&rt, "all active", whose(bench.evict_one(&rt)), Some(1));
    bench.turn(&rt, alloc);
    let read = Piece {
        steps: 241,
        end: End::AllMade,
    };
    expect(&rt, "guest 1 reads", bench.read_pages(&rt, alloc, 60), read);
    bench.turn(&rt, alloc);
    expect(&rt, "guest 0 is idle", whose(bench.evict_one(&rt)), Some(0));
    // another period, in which both are
    bench.turn(&rt, alloc);
    expect(&rt, "both are idle", whose(bench.evict_one(&rt)), Some(1));
}
