//! Worlds that are booted, and those that are refused.
use crate::event_tests::expect;
use elf32::Image;
use mips_cp0::Profile;
use std::alloc::Global;
use std::process::Abort;
use std::sync::Arc;
use swapstore::{FaultStore, MemStore, Op, SwapStore};
use tenant::BootError;
use world::{BookCounts, Config, NewGuest, World};

/// The numbers of a world, and of its guests, which are all alike.
#[derive(Clone, Copy)]
struct Numbers {
    frames: u32,
    slots: u32,
    log_runs: u32,
    guests: u32,
    pages: u32,
    shares: u32,
    minimum: u32,
    /// How many bytes the image has, all zeros.
    size: usize,
    /// Whether guests are admitted by their minimums.
    admit: bool,
}

/// The least numbers that a world has: two pages are an image's.
const LEAST: Numbers = Numbers {
    frames: 4,
    slots: 0,
    log_runs: 16,
    guests: 1,
    pages: 2,
    shares: 1,
    minimum: 2,
    size: 8192,
    admit: false,
};

/// An image of zeros.
fn image_of(rt: &impl Abort, alloc: Global, size: usize) -> Arc<Image, Global> {
    let mut bytes = Vec::new(alloc);
    if bytes.resize(size, 0).is_err() {
        panic!(rt; "no memory for the bytes");
    }
    if bytes.len() > 65_536 {
        panic!(rt; "too many bytes");
    }
    let Ok(image) = Image::raw(alloc, bytes) else {
        panic!(rt; "no memory for the image");
    };
    match Arc::new(alloc, image) {
        Ok(image) => image,
        Err(_) => panic!(rt; "no memory for the image"),
    }
}

/// The guests of a world.
fn guests_of(rt: &impl Abort, alloc: Global, numbers: &Numbers) -> Vec<NewGuest> {
    let mut guests = Vec::new(alloc);
    for _ in 0..numbers.guests {
        let guest = NewGuest {
            profile: Profile::One,
            image: image_of(rt, alloc, numbers.size),
            pages: numbers.pages,
            shares: numbers.shares,
            minimum: numbers.minimum,
        };
        if guests.push(guest).is_err() {
            panic!(rt; "no memory for the guests");
        }
    }
    guests
}

/// A store with the slots of a world, of which the k-th write fails.
fn store_of(rt: &impl Abort, alloc: Global, numbers: &Numbers, k: u64) -> FaultStore<MemStore> {
    let Ok(store) = MemStore::new(alloc, numbers.slots) else {
        panic!(rt; "no memory for the store");
    };
    FaultStore::new(store, Op::Write, k.max(1))
}

/// What the books of a world count at its boot, or why it is refused. The k-th write of its store fails.
fn booted(
    rt: &impl Abort,
    alloc: Global,
    numbers: &Numbers,
    k: u64,
) -> Result<BookCounts, BootError> {
    let config = Config {
        frames: numbers.frames,
        log_runs: numbers.log_runs,
        admit: numbers.admit,
    };
    let guests = guests_of(rt, alloc, numbers);
    match World::boot(alloc, config, guests, store_of(rt, alloc, numbers, k)) {
        Ok(world) => {
            let books = world.books();
            let _store = world.close();
            Ok(books)
        }
        Err((error, _store)) => Err(error),
    }
}

/// What the books count where no page is shared.
fn counted(frames: u64, private: u64, swapped: u64, slots: u64) -> BookCounts {
    BookCounts {
        frames,
        free: frames.saturating_sub(private),
        private,
        shared: 0,
        references: 0,
        swapped,
        slots,
    }
}

#[test]
fn image_pages_take_frames_and_then_slots(rt: HostRuntime) {
    let alloc = rt.alloc();
    let of = |numbers: &Numbers| booted(&rt, alloc, numbers, 100);
    expect(&rt, "two frames free", of(&LEAST), Ok(counted(4, 2, 0, 0)));
    let two = Numbers { guests: 2, ..LEAST };
    expect(&rt, "no frame free", of(&two), Ok(counted(4, 4, 0, 0)));
    let three = Numbers {
        guests: 3,
        slots: 3,
        ..LEAST
    };
    expect(&rt, "one slot free", of(&three), Ok(counted(4, 4, 2, 3)));
}

#[test]
fn a_world_is_refused_where_it_has_no_room_or_its_store_fails(rt: HostRuntime) {
    let three = Numbers {
        guests: 3,
        slots: 1,
        ..LEAST
    };
    let answer = booted(&rt, rt.alloc(), &three, 100);
    expect(&rt, "one slot too few", answer, Err(BootError::Room));
    let enough = Numbers { slots: 2, ..three };
    let answer = booted(&rt, rt.alloc(), &enough, 2);
    expect(&rt, "the second write", answer, Err(BootError::Store));
    let answer = booted(&rt, rt.alloc(), &enough, 3);
    expect(&rt, "no third write", answer, Ok(counted(4, 4, 2, 2)));
}

// Each of these is refused, as its numbers are outside their limits.
fn expect_limits(rt: &impl Abort, alloc: Global, wrong: &[(&'static str, Numbers)]) {
    for (case, numbers) in wrong {
        let answer = booted(rt, alloc, numbers, 100);
        expect(rt, case, answer, Err(BootError::Limits));
    }
}

#[test]
fn numbers_of_a_world_have_limits(rt: HostRuntime) {
    let wrong = [
        ("no guest", Numbers { guests: 0, ..LEAST }),
        (
            "17 guests",
            Numbers {
                guests: 17,
                ..LEAST
            },
        ),
        ("3 frames", Numbers { frames: 3, ..LEAST }),
        (
            "65,537 frames",
            Numbers {
                frames: 65_537,
                ..LEAST
            },
        ),
        (
            "131,073 slots",
            Numbers {
                slots: 131_073,
                ..LEAST
            },
        ),
        (
            "15 runs",
            Numbers {
                log_runs: 15,
                ..LEAST
            },
        ),
        (
            "1,048,577 runs",
            Numbers {
                log_runs: 1_048_577,
                ..LEAST
            },
        ),
    ];
    expect_limits(&rt, rt.alloc(), &wrong);
}

#[test]
fn numbers_of_a_guest_have_limits(rt: HostRuntime) {
    let wrong = [
        ("1 page", Numbers { pages: 1, ..LEAST }),
        (
            "16,385 pages",
            Numbers {
                pages: 16_385,
                ..LEAST
            },
        ),
        ("no share", Numbers { shares: 0, ..LEAST }),
        (
            "1,000,001 shares",
            Numbers {
                shares: 1_000_001,
                ..LEAST
            },
        ),
        (
            "a minimum of 1",
            Numbers {
                minimum: 1,
                ..LEAST
            },
        ),
        (
            "a minimum above the pages",
            Numbers {
                minimum: 3,
                ..LEAST
            },
        ),
    ];
    expect_limits(&rt, rt.alloc(), &wrong);
}

#[test]
fn pages_hold_the_image(rt: HostRuntime) {
    let large = Numbers {
        size: 8193,
        ..LEAST
    };
    let answer = booted(&rt, rt.alloc(), &large, 100);
    expect(&rt, "a byte too many", answer, Err(BootError::Segment));
    let both = Numbers { frames: 3, ..large };
    let answer = booted(&rt, rt.alloc(), &both, 100);
    expect(&rt, "limits first", answer, Err(BootError::Limits));
}

/// Two guests of 16 pages that always keep six of them, with a frame for each of those and for each guest, and a slot for each of the
/// other pages.
const ADMITTED: Numbers = Numbers {
    frames: 14,
    slots: 20,
    guests: 2,
    pages: 16,
    minimum: 6,
    admit: true,
    ..LEAST
};

#[test]
fn guests_are_admitted_by_their_minimums(rt: HostRuntime) {
    let of = |numbers: &Numbers| booted(&rt, rt.alloc(), numbers, 100);
    expect(&rt, "enough", of(&ADMITTED), Ok(counted(14, 4, 0, 20)));
    let frames = Numbers {
        frames: 13,
        ..ADMITTED
    };
    expect(&rt, "13 frames", of(&frames), Err(BootError::AdmitFrames));
    let slots = Numbers {
        slots: 19,
        ..ADMITTED
    };
    expect(&rt, "19 slots", of(&slots), Err(BootError::AdmitSlots));
    let both = Numbers {
        frames: 13,
        ..slots
    };
    expect(&rt, "frames first", of(&both), Err(BootError::AdmitFrames));
    let minimum = Numbers {
        minimum: 17,
        ..both
    };
    expect(&rt, "limits first", of(&minimum), Err(BootError::Limits));
    let size = Numbers {
        pages: 15,
        size: 65_536,
        ..both
    };
    expect(&rt, "then the images", of(&size), Err(BootError::Segment));
    let unasked = Numbers {
        admit: false,
        ..both
    };
    expect(
        &rt,
        "not asked for",
        of(&unasked),
        Ok(counted(13, 4, 0, 19)),
    );
}

/// What the minimums of the guests of a world leave over.
fn room_of(rt: &impl Abort, alloc: Global, numbers: &Numbers) -> Option<(u32, u32)> {
    let config = Config {
        frames: numbers.frames,
        log_runs: numbers.log_runs,
        admit: numbers.admit,
    };
    let guests = guests_of(rt, alloc, numbers);
    match World::boot(alloc, config, guests, store_of(rt, alloc, numbers, 100)) {
        Ok(world) => {
            let room = world.room();
            let _store = world.close();
            room
        }
        Err((error, _store)) => panic!(rt; "no world: {error:?}"),
    }
}

#[test]
fn minimums_leave_frames_and_slots_over(rt: HostRuntime) {
    let of = |numbers: &Numbers| room_of(&rt, rt.alloc(), numbers);
    let two_more = Numbers {
        frames: 16,
        ..ADMITTED
    };
    expect(&rt, "two frames", of(&two_more), Some((2, 0)));
    expect(&rt, "just enough", of(&ADMITTED), Some((0, 0)));
    let slots = Numbers {
        slots: 23,
        ..ADMITTED
    };
    expect(&rt, "three slots", of(&slots), Some((0, 3)));
    let few_frames = Numbers {
        frames: 13,
        admit: false,
        ..ADMITTED
    };
    expect(&rt, "13 frames", of(&few_frames), None);
    let few_slots = Numbers {
        slots: 19,
        admit: false,
        ..ADMITTED
    };
    expect(&rt, "19 slots", of(&few_slots), None);
}
