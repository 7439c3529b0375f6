//! Turns of the policy. Six of the frames are to stay free, so where the guests fill 94 or more, each with at least 47, the targets are 47
//! pages each.
use crate::bench::{Bench, SAMPLE_WORDS, Wanted, booted, expect};
use host_policy::Turn;
use machine_memory::EvictError;
use rand_core::{Rng, SeedableRng};
use rand_pcg::Pcg32;
use reclaim::Level;
use std::alloc::Global;
use std::process::Abort;
use std::sync::Wait;

/// Slots for all pages, and no write that fails.
const PLAIN: Wanted = Wanted {
    resident: [49, 47],
    slots: 20,
    failing: 1_000_000,
    seed: 7,
};

/// What is wanted, the level of the first turn then, why it ended early, how many pages are in frames after it, what the balloons are asked
/// for, and who is blocked.
type Row = (
    Wanted,
    Level,
    Option<EvictError>,
    (u32, u32),
    (u32, u32),
    (bool, bool),
);

const NOBODY: (bool, bool) = (false, false);

static TURNS: [Row; 9] = [
    (PLAIN, Level::High, None, (49, 47), (0, 0), NOBODY),
    (
        Wanted {
            resident: [50, 47],
            ..PLAIN
        },
        Level::Soft,
        None,
        (50, 47),
        (3, 0),
        NOBODY,
    ),
    (
        Wanted {
            resident: [47, 51],
            ..PLAIN
        },
        Level::Soft,
        None,
        (47, 51),
        (0, 4),
        NOBODY,
    ),
    (
        Wanted {
            resident: [52, 47],
            ..PLAIN
        },
        Level::Hard,
        None,
        (47, 47),
        (0, 0),
        NOBODY,
    ),
    (
        Wanted {
            resident: [53, 47],
            ..PLAIN
        },
        Level::Low,
        None,
        (47, 47),
        (0, 0),
        (true, false),
    ),
    (
        Wanted {
            resident: [50, 50],
            ..PLAIN
        },
        Level::Low,
        None,
        (47, 47),
        (0, 0),
        (true, true),
    ),
    // of four slots, guest 0's pages take three
    (
        Wanted {
            resident: [50, 50],
            slots: 4,
            ..PLAIN
        },
        Level::Low,
        Some(EvictError::NoSwap),
        (47, 49),
        (0, 0),
        (true, true),
    ),
    (
        Wanted {
            resident: [53, 47],
            slots: 0,
            ..PLAIN
        },
        Level::Low,
        Some(EvictError::NoSwap),
        (53, 47),
        (0, 0),
        (true, false),
    ),
    (
        Wanted {
            resident: [50, 50],
            failing: 3,
            ..PLAIN
        },
        Level::Low,
        Some(EvictError::SwapWrite),
        (48, 50),
        (0, 0),
        (true, true),
    ),
];

// Checks the first turn over guests.
fn check<R: Abort + Wait>(rt: &R, alloc: Global, row: &Row) -> Bench {
    let (wanted, level, refused, after, targets, blocked) = row;
    let mut bench = booted(rt, alloc, *wanted);
    let made = Turn {
        level: *level,
        left_out: 0,
        refused: *refused,
    };
    expect(rt, "the turn", bench.turn(rt, alloc), made);
    expect(rt, "the policy's level", bench.policy.level(rt), *level);
    expect(rt, "in frames", bench.resident(rt), *after);
    expect(rt, "targets", bench.targets(rt), *targets);
    expect(rt, "blocked", bench.blocked(rt), *blocked);
    bench
}

#[test]
fn first_turns(rt: HostRuntime) {
    for row in &TURNS {
        drop(check(&rt, rt.alloc(), row));
    }
}

#[test]
fn a_second_turn_asks_for_nothing_twice_and_lets_guests_go_on(rt: HostRuntime) {
    let alloc = rt.alloc();
    let mut soft = check(&rt, alloc, &TURNS[1]);
    let lens = (soft.log_len(&rt, 0), soft.log_len(&rt, 1));
    expect(&rt, "one item", lens, (1, 0));
    let again = Turn {
        level: Level::Soft,
        left_out: 0,
        refused: None,
    };
    expect(&rt, "soft again", soft.turn(&rt, alloc), again);
    expect(&rt, "the same target", soft.targets(&rt), (3, 0));
    expect(&rt, "no other item", soft.log_len(&rt, 0), 1);
    let mut low = check(&rt, alloc, &TURNS[5]);
    let high = Turn {
        level: Level::High,
        left_out: 0,
        refused: None,
    };
    expect(&rt, "high again", low.turn(&rt, alloc), high);
    expect(&rt, "they go on", low.blocked(&rt), NOBODY);
}

#[test]
fn a_guest_whose_log_is_full_is_left_out(rt: HostRuntime) {
    let alloc = rt.alloc();
    let wanted = Wanted {
        resident: [50, 47],
        ..PLAIN
    };
    let mut bench = booted(&rt, alloc, wanted);
    bench.fill_log(&rt);
    let made = Turn {
        level: Level::Soft,
        left_out: 1,
        refused: None,
    };
    expect(&rt, "left out", bench.turn(&rt, alloc), made);
    expect(&rt, "its target", bench.targets(&rt), (1, 0));
    expect(&rt, "its log", bench.log_len(&rt, 0), 16);
}

// A page that is drawn by a word leaves its frame: the first one in a frame at or after the word modulo the pages, going round.
fn leaves(resident: &mut [bool; 60], word: u32) {
    let start = (word % 60) as usize;
    for k in 0..60 {
        let p = (start + k) % 60;
        if resident[p] {
            resident[p] = false;
            return;
        }
    }
}

#[test]
fn pages_leave_by_the_words_after_those_of_the_samples(rt: HostRuntime) {
    let alloc = rt.alloc();
    for seed in 0..8 {
        let wanted = Wanted {
            resident: [52, 48],
            seed,
            ..PLAIN
        };
        let mut bench = booted(&rt, alloc, wanted);
        let mut words = Pcg32::seed_from_u64(seed);
        for _ in 0..2 * SAMPLE_WORDS {
            words.next_u32();
        }
        let mut one = bench.in_frames(&rt, 0);
        for _ in 0..5 {
            leaves(&mut one, words.next_u32());
        }
        let mut two = bench.in_frames(&rt, 1);
        leaves(&mut two, words.next_u32());
        bench.turn(&rt, alloc);
        expect(&rt, "guest 0", bench.in_frames(&rt, 0), one);
        expect(&rt, "guest 1", bench.in_frames(&rt, 1), two);
    }
}
