//! The parts of the policy that need no guest: victims and words, samples, and what turns ask of guests with given numbers.
ghost use Rattle.std.specs.Prelude.{◌<◌, ◌≤◌, length};

use crate::aiming::{Aim, left_out};
use crate::state::{MOST_GUESTS, State};
use guest::Stop;
use rand_core::{Rng, SeedableRng};
use rand_pcg::Pcg32;
use reclaim::{Action, Level};
use sampling::Sample;
use std::fmt::Debug;
use std::process::Abort;
use taxpolicy::{SAMPLE_SIZE, Stat, Tax};

pub(crate) const TAX: Tax = Tax { percent: 75 };

// Asserts one case. The tests share it, since each assertion in a function's own body makes its proof much longer.
pub(crate) fn expect<T: PartialEq + Debug + Drop>(
    rt: &impl Abort,
    case: &'static str,
    got: T,
    wanted: T,
) {
    assert!(rt; got == wanted, "{case}: {got:?}, not {wanted:?}");
}

// A guest of 1,000 pages and 1,000 shares.
fn guest(resident: u32) -> Stat {
    Stat {
        shares: 1000,
        pages: 1000,
        resident,
        given: 0,
        active: 100,
        sample: 100,
        minimum: 2,
    }
}

fn started(seed: u64) -> State<Pcg32> {
    State::new(TAX, Pcg32::seed_from_u64(seed))
}

#[test]
fn victims_and_words(rt: HostRuntime) {
    let mut state = started(7);
    let mut words = Pcg32::seed_from_u64(7);
    let mut stats = [guest(300), guest(301), guest(299)];
    expect(
        &rt,
        "the most pages",
        state.choose(&mut stats),
        Some((1, words.next_u32())),
    );
    // an idle page costs four times what an active one does
    state.samples[2] = Sample {
        draws: None,
        active: 80,
    };
    expect(
        &rt,
        "idle pages",
        state.choose(&mut stats),
        Some((2, words.next_u32())),
    );
    let mut none = [guest(2), guest(1)];
    expect(&rt, "nobody", state.choose(&mut none), None);
    expect(
        &rt,
        "no word for nobody",
        state.next_word(),
        words.next_u32(),
    );
    state.tax = Tax { percent: 0 };
    expect(
        &rt,
        "no tax",
        state.choose(&mut stats),
        Some((1, words.next_u32())),
    );
}

// The words of a generator, each modulo the pages.
fn drawn(words: &mut Pcg32) -> [u32; SAMPLE_SIZE] {
    let mut draws = [0; SAMPLE_SIZE];
    for draw in draws.iter_mut() {
        *draw = words.next_u32() % 1000;
    }
    draws
}

// The sample of a guest's pages.
fn sample_of(state: &State<Pcg32>, g: usize) -> Sample
    requires { g < 16 }
{
    state.samples[g]
}

#[test]
fn samples(rt: HostRuntime) {
    let mut state = started(3);
    let mut words = Pcg32::seed_from_u64(3);
    let first = state.next_sample(1, None, 1000);
    expect(&rt, "first draws", first, drawn(&mut words));
    expect(&rt, "no whole period", sample_of(&state, 1).active, 100);
    let second = state.next_sample(1, Some(37), 1000);
    expect(&rt, "second draws", second, drawn(&mut words));
    let its = Sample {
        draws: Some(second),
        active: 37,
    };
    expect(&rt, "its sample", sample_of(&state, 1), its);
    expect(&rt, "another's", sample_of(&state, 0), Sample::new());
    expect(&rt, "the next word", state.next_word(), words.next_u32());
}

fn action(balloon: Option<u32>, swap_out: u32) -> Action {
    Action {
        balloon,
        swap_out,
        blocked: false,
    }
}

// Checks what a turn asks of two guests of 1,000 frames.
fn check<R: AllocGlobal + Abort>(
    rt: &R,
    state: &mut State<Pcg32>,
    resident: [u32; 2],
    free: u32,
    level: Level,
    actions: [Action; 2],
) {
    let mut stats = [guest(resident[0]), guest(resident[1])];
    match state.plan(rt.alloc(), &mut stats, free, 1000) {
        Ok(plan) => {
            expect(rt, "the level", plan.level, level);
            expect(rt, "the state's level", state.level, level);
            assert!(rt;
                plan.actions.as_slice() == actions.as_slice(),
                "actions: {:?}",
                plan.actions
            );
        }
        Err(_) => panic!(rt; "no memory"),
    }
}

#[test]
fn turns(rt: HostRuntime) {
    let mut state = started(1);
    expect(&rt, "at boot", state.level, Level::High);
    let inflates = [action(Some(30), 0), action(None, 0)];
    check(&rt, &mut state, [500, 470], 30, Level::Soft, inflates);
    let swaps = [action(None, 50), action(None, 0)];
    check(&rt, &mut state, [520, 470], 10, Level::Hard, swaps);
    let deflates = [action(Some(0), 0), action(Some(0), 0)];
    check(&rt, &mut state, [470, 470], 60, Level::High, deflates);
}

#[test]
fn guests_that_are_left_out(rt: HostRuntime) {
    let aims = [
        Aim::LeftOut(Stop::LogFull),
        Aim::Kept,
        Aim::Set(30),
        Aim::LeftOut(Stop::Memory),
    ];
    expect(&rt, "two", left_out(&aims), 2);
    expect(&rt, "none", left_out(&aims[1..3]), 0);
}
