use crate::{Action, Level, next_level, plan};
use std::alloc::AllocError;
use std::process::Abort;
use std::test::Fail;
use taxpolicy::{Stat, Tax};

const TAX: Tax = Tax { percent: 75 };

/// Of so many frames, from a level: the least free frames at a bound, the level with one less, and the level with as many.
static BOUNDS: [(u32, Level, u32, Level, Level); 27] = [
    (4, Level::High, 1, Level::Low, Level::High),
    (4, Level::Hard, 1, Level::Low, Level::High),
    (4, Level::Low, 1, Level::Low, Level::High),
    (100, Level::High, 4, Level::Soft, Level::High),
    (100, Level::Soft, 2, Level::Hard, Level::Soft),
    (100, Level::Hard, 1, Level::Low, Level::Hard),
    (100, Level::Low, 2, Level::Low, Level::Hard),
    (100, Level::Hard, 4, Level::Hard, Level::Soft),
    (100, Level::Soft, 6, Level::Soft, Level::High),
    (999, Level::High, 40, Level::Soft, Level::High),
    (999, Level::Soft, 20, Level::Hard, Level::Soft),
    (999, Level::Hard, 10, Level::Low, Level::Hard),
    (999, Level::Low, 20, Level::Low, Level::Hard),
    (999, Level::Hard, 40, Level::Hard, Level::Soft),
    (999, Level::Soft, 60, Level::Soft, Level::High),
    (1000, Level::High, 40, Level::Soft, Level::High),
    (1000, Level::Soft, 20, Level::Hard, Level::Soft),
    (1000, Level::Hard, 10, Level::Low, Level::Hard),
    (1000, Level::Low, 20, Level::Low, Level::Hard),
    (1000, Level::Hard, 40, Level::Hard, Level::Soft),
    (1000, Level::Soft, 60, Level::Soft, Level::High),
    (65536, Level::High, 2622, Level::Soft, Level::High),
    (65536, Level::Soft, 1311, Level::Hard, Level::Soft),
    (65536, Level::Hard, 656, Level::Low, Level::Hard),
    (65536, Level::Low, 1311, Level::Low, Level::Hard),
    (65536, Level::Hard, 2622, Level::Hard, Level::Soft),
    (65536, Level::Soft, 3933, Level::Soft, Level::High),
];

#[test]
fn levels_at_their_bounds(rt: HostRuntime) {
    for (total, from, bound, below, at) in BOUNDS {
        let less = bound.saturating_sub(1);
        assert_eq!(rt;
            next_level(from, less, total),
            below,
            "from {from} with {less} of {total}"
        );
        assert_eq!(rt;
            next_level(from, bound, total),
            at,
            "from {from} with {bound} of {total}"
        );
    }
}

#[test]
fn levels_after_several_moves(rt: HostRuntime) {
    assert_eq!(rt; next_level(Level::High, 9, 1000), Level::Low);
    assert_eq!(rt; next_level(Level::Low, 60, 1000), Level::High);
    assert_eq!(rt; next_level(Level::Low, 25, 1000), Level::Hard);
    assert_eq!(rt; next_level(Level::Low, 40, 1000), Level::Soft);
}

#[test]
fn names(rt: HostRuntime) -> Result<(), Fail> {
    for (level, name) in [
        (Level::High, "high"),
        (Level::Soft, "soft"),
        (Level::Hard, "hard"),
        (Level::Low, "low"),
    ] {
        assert_eq!(rt; level.name(), name);
        assert_eq!(rt; format!(in rt.alloc(); "{level}")?.as_str(), name);
    }
    Ok(())
}

/// An active guest of 1,000 pages.
fn guest(resident: u32, given: u32) -> Stat {
    Stat {
        shares: 1000,
        pages: 1000,
        resident,
        given,
        active: 100,
        sample: 100,
        minimum: 2,
    }
}

static KEEPS: Action = Action {
    balloon: None,
    swap_out: 0,
    blocked: false,
};

fn inflates(pages: u32) -> Action {
    Action {
        balloon: Some(pages),
        ..KEEPS
    }
}

fn swaps(pages: u32, blocked: bool) -> Action {
    Action {
        swap_out: pages,
        blocked,
        ..KEEPS
    }
}

/// Checks a plan for two guests, of 1,000 frames.
fn check<R: AllocGlobal + Abort>(
    rt: &R,
    turn: (Level, u32),
    stats: [Stat; 2],
    level: Level,
    actions: [Action; 2],
) -> Result<(), AllocError> {
    let (before, free) = turn;
    let found = plan(rt.alloc(), before, &stats, free, 1000, TAX)?;
    assert_eq!(rt; found.level, level, "from {before} with {free} free");
    assert_eq!(rt;
        found.actions.as_slice(),
        actions.as_slice(),
        "from {before} with {free} free"
    );
    Ok(())
}

#[test]
fn plans(rt: HostRuntime) -> Result<(), Fail> {
    // the targets are 470 pages each
    let few = [guest(500, 0), guest(470, 0)];
    let more = [guest(520, 0), guest(470, 0)];
    let given = [guest(500, 715), guest(500, 730)];
    check(
        &rt,
        (Level::High, 30),
        few,
        Level::Soft,
        [inflates(30), KEEPS],
    )?;
    check(
        &rt,
        (Level::High, 10),
        more,
        Level::Hard,
        [swaps(50, false), KEEPS],
    )?;
    check(
        &rt,
        (Level::Low, 25),
        more,
        Level::Hard,
        [swaps(50, false), KEEPS],
    )?;
    check(
        &rt,
        (Level::High, 9),
        more,
        Level::Low,
        [swaps(50, true), KEEPS],
    )?;
    check(
        &rt,
        (Level::Soft, 60),
        few,
        Level::High,
        [inflates(0), inflates(0)],
    )?;
    check(
        &rt,
        (Level::Soft, 59),
        given,
        Level::Soft,
        [inflates(745), inflates(750)],
    )?;
    Ok(())
}
