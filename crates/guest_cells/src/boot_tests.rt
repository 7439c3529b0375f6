//! Boots, most of which are refused: the store comes back.
use crate::ending::EndedRoom;
use crate::tests::{MARK, Numbers, PLAIN, booted, expect, last_slot, so_many};
use crate::{Booted, Finished};
use std::alloc::Global;
use std::process::Abort;
use std::sync::Wait;
use tenant::BootError;

// Three guests of two pages over 4 frames: two of the pages need slots.
const THREE: Numbers = Numbers {
    frames: 4,
    slots: 2,
    guests: 3,
    pages: 2,
    size: 8192,
    ..PLAIN
};

/// What is asked for, why it is refused, and the first byte of the store's last slot then.
type Row = (&'static str, Numbers, BootError, Option<u8>);

static REFUSED: [Row; 11] = [
    (
        "no guest",
        Numbers { guests: 0, ..THREE },
        BootError::Limits,
        Some(MARK),
    ),
    (
        "17 guests",
        Numbers {
            guests: 17,
            ..THREE
        },
        BootError::Limits,
        Some(MARK),
    ),
    (
        "3 frames",
        Numbers { frames: 3, ..THREE },
        BootError::Limits,
        Some(MARK),
    ),
    (
        "15 runs",
        Numbers {
            log_runs: 15,
            ..THREE
        },
        BootError::Limits,
        Some(MARK),
    ),
    (
        "a byte too many",
        Numbers {
            size: 8193,
            ..THREE
        },
        BootError::Segment,
        Some(MARK),
    ),
    (
        "8 frames to admit",
        Numbers {
            frames: 8,
            admit: true,
            ..THREE
        },
        BootError::AdmitFrames,
        Some(MARK),
    ),
    (
        "no slot to admit",
        Numbers {
            frames: 9,
            pages: 3,
            admit: true,
            ..THREE
        },
        BootError::AdmitSlots,
        Some(MARK),
    ),
    // both pages of the third guest would be in slots
    (
        "one slot",
        Numbers { slots: 1, ..THREE },
        BootError::Room,
        Some(0x00),
    ),
    (
        "no slot at all",
        Numbers { slots: 0, ..THREE },
        BootError::Room,
        None,
    ),
    (
        "the first write",
        Numbers {
            failing: 1,
            ..THREE
        },
        BootError::Store,
        Some(MARK),
    ),
    (
        "the second write",
        Numbers {
            failing: 2,
            ..THREE
        },
        BootError::Store,
        Some(MARK),
    ),
];

// Checks that a boot is refused, and gives the store back.
fn check<R: Abort + Wait>(rt: &R, alloc: Global, row: &Row) {
    let (case, numbers, error, last) = row;
    match booted(rt, alloc, numbers) {
        Ok(Err((why, store))) => {
            expect(rt, case, why, *error);
            expect(rt, case, last_slot(store), (numbers.slots, *last));
        }
        _ => panic!(rt; "{case}: not refused"),
    }
}

#[test]
fn a_boot_that_is_refused_gives_the_store_back(rt: HostRuntime) {
    for row in &REFUSED {
        check(&rt, rt.alloc(), row);
    }
}

// By the run's own option an allocation of this test may fail: it asserts nothing of what is there before the boot.
#[test]
fn a_boot_without_memory_gives_the_store_back(rt: HostRuntime) {
    match booted(&rt, rt.alloc(), &THREE) {
        Ok(Ok(booted)) => {
            let Booted {
                cells,
                handles,
                pass: _,
            } = booted;
            let Finished {
                books,
                guests,
                store,
            } = cells.finish(&rt, handles);
            drop(EndedRoom { list: guests });
            expect(&rt, "two in slots", books, so_many(&THREE, 4, 2));
            expect(&rt, "booted", last_slot(store), (2, Some(3)));
        }
        Ok(Err((why, store))) => {
            expect(&rt, "why", why, BootError::Memory);
            expect(&rt, "its slots", last_slot(store).0, 2);
        }
        Err(_) => {}
    }
}
