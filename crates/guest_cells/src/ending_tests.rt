//! Guests whose pages move, audits between, and what they leave at their end.
ghost use Rattle.std.specs.Prelude.{◌≡◌, vec_capacity};
ghost use Rattle.cell.specs.Level.{IsMemoryOf};
ghost use Rattle.guest_cells.specs.Handles.{AreOfMemory, AreHandlesOf, AreHandlesOfAll};

use crate::ending::close;
use crate::tests::{Numbers, PLAIN, Store, expect, ready, so_many};
use crate::{Booted, Finished, GuestCells, Handles};
use cell::{Cell, Ended, Kept, Open, Place};
use guest::{Guest, Refused};
use guest_number::GuestNo;
use machine_memory::{BookCounts, MachineMemory};
use std::alloc::Global;
use std::process::Abort;
use std::sync::Wait;
use swapstore::{MemStore, SwapStore};
use word32::Ppn;

// A frame and a slot for each page.
const FOUR: Numbers = Numbers {
    frames: 16,
    slots: 16,
    guests: 4,
    ..PLAIN
};

// A page of a guest leaves its frame, and comes back by 100 steps. Whether it was so.
fn moved<R: Wait>(
    rt: &R,
    alloc: Global,
    memory: &MachineMemory<Store>,
    cell: &Cell<Store>,
    handles: &mut Handles,
    page: u32,
) -> bool
    requires handles { AreHandlesOf cell.now.front handles.old }
    requires memory { IsMemoryOf cell.now.front.first.value memory.now }
    ensures handles { AreHandlesOf cell.now.front handles.new }
{
    let evicted = cell.evict(rt, memory, page);
    let place = Place {
        guest: GuestNo::new(0),
        done: 0,
    };
    let piece = cell.piece(
        rt,
        alloc,
        memory,
        &mut handles.seats.runner,
        100,
        place,
        &Open,
    );
    evicted == Ok(Ppn::new(page % 4)) && piece.steps == 100
}

// The same of all guests, that of the highest number first.
#[tactic(auto, using(crate::proofs::Leaving::last_of_memory, crate::proofs::Leaving::last_handles, crate::proofs::Leaving::handles_count, crate::proofs::Leaving::handles_again))]
fn move_all<R: Wait>(
    rt: &R,
    alloc: Global,
    memory: &MachineMemory<Store>,
    cells: &[Cell<Store>],
    handles: &mut Vec<Handles>,
    page: u32,
) -> bool
    requires memory { AreOfMemory memory.now cells.now }
    requires handles { AreHandlesOfAll cells.now handles.old.items }
    ensures handles { AreHandlesOfAll cells.now handles.new.items }
    ensures room { vec_capacity handles.new ≡ vec_capacity handles.old }
{
    let Some((cell, others)) = cells.split_last() else {
        return true;
    };
    let Some(mut last) = handles.pop() else {
        unreachable!()
    };
    let whole = moved(rt, alloc, memory, cell, &mut last, page);
    let all = move_all(rt, alloc, memory, others, handles, page);
    handles.push_reserved(last);
    whole && all
}

// Whether each frame is free or a page's, and each page in a frame or a slot.
fn adds_up(counts: BookCounts) -> bool {
    counts.frames == 16
        && counts.free.saturating_add(counts.private) == 16
        && counts.private.saturating_add(counts.swapped) == 16
        && counts.shared == 0
        && counts.references == 0
        && counts.slots == 16
}

// So often the pages of all guests move, and the books are audited. The handles come back; and whether all was so.
fn move_often<R: Wait>(
    rt: &R,
    alloc: Global,
    guests: &GuestCells<Store>,
    mut handles: Vec<Handles>,
) -> (Vec<Handles>, bool)
    requires { AreHandlesOfAll guests.now.cells.items handles.items }
    ensures { AreHandlesOfAll guests.now.cells.items result.0.items }
{
    let mut right = true;
    for k in 0..40 {
        let done = move_all(rt, alloc, &guests.memory, &guests.cells, &mut handles, k);
        right = right && done && adds_up(guests.audit(rt));
    }
    (handles, right)
}

/// The first word of a page, and the byte after it, which is of the image.
type Beginning = (u32, u8);

fn beginning_of(bytes: &[u8; 5]) -> Beginning {
    let word = u32::from_le_bytes([bytes[0], bytes[1], bytes[2], bytes[3]]);
    (word, bytes[4])
}

fn page_of(guest: &Guest, page: u32) -> Result<Beginning, Refused> {
    let mut bytes = [0; 5];
    guest.debug_read(0x8000_0000 + page.min(15) * 4096, &mut bytes)?;
    Ok(beginning_of(&bytes))
}

// How the page in a slot begins.
fn in_slot(store: &mut MemStore, slot: u32) -> Option<Beginning> {
    if slot >= store.slot_count() {
        return None;
    }
    let mut bytes = [0; 4096];
    if store.read(slot, &mut bytes).is_err() {
        return None;
    }
    Some(beginning_of(&[bytes[0], bytes[1], bytes[2], bytes[3], bytes[4]]))
}

// In how many of 16 slots a page begins so.
fn slots_with(store: Store, wanted: Beginning) -> u32 {
    let mut store = store.into_store();
    let mut found = 0u32;
    for slot in 0..16 {
        if in_slot(&mut store, slot) == Some(wanted) {
            found = found.saturating_add(1);
        }
    }
    found
}

/// What a guest leaves: the beginnings of pages 1 and 3, the steps that its first and its last seat have seen, and how many bytes for its
/// console.
type Left = (
    Result<Beginning, Refused>,
    Result<Beginning, Refused>,
    u64,
    u64,
    usize,
);

fn left_of(ended: Ended) -> Left {
    let left = (
        page_of(&ended.guest, 1),
        page_of(&ended.guest, 3),
        ended.seats.runner.seen_len(),
        ended.seats.debugger.seen_len(),
        ended.rest.len(),
    );
    close(ended);
    left
}

// Checks what guests leave, and gives them up.
fn expect_left(rt: &impl Abort, mut guests: Vec<Ended>, wanted: &[Left]) {
    expect(rt, "how many guests", guests.len(), wanted.len());
    while let Some(ended) = guests.pop() {
        let left = Some(left_of(ended));
        expect(rt, "what is left", left, wanted.get(guests.len()).copied());
    }
    guests.destroy_empty();
}

// Page 1 of the first guest leaves its frame.
fn evicted<R: Wait>(rt: &R, cells: &GuestCells<Store>) -> Option<Result<Ppn, Kept>> {
    let Some(cell) = cells.cells.first() else {
        return None;
    };
    Some(cell.evict(rt, &cells.memory, 1))
}

#[test]
fn audits_while_pages_move(rt: HostRuntime) {
    let alloc = rt.alloc();
    let Booted {
        cells,
        handles,
        pass: _,
    } = ready(&rt, alloc, &FOUR);
    expect(&rt, "at first", cells.audit(&rt), so_many(&FOUR, 16, 0));
    let (handles, right) = move_often(&rt, alloc, &cells, handles);
    expect(&rt, "while pages move", right, true);
    expect(
        &rt,
        "one leaves",
        evicted(&rt, &cells),
        Some(Ok(Ppn::new(1))),
    );
    expect(&rt, "then", cells.audit(&rt), so_many(&FOUR, 15, 1));
    let Finished {
        books,
        guests,
        store,
    } = cells.finish(&rt, handles);
    expect(&rt, "at last", books, so_many(&FOUR, 15, 1));
    // page 1 is stored to first in each round, page 3 last
    let left = [
        (Err(Refused::Away(Ppn::new(1))), Ok((666, 1)), 4000, 4000, 0),
        (Ok((667, 2)), Ok((666, 2)), 4000, 4000, 0),
        (Ok((667, 3)), Ok((666, 3)), 4000, 4000, 0),
        (Ok((667, 4)), Ok((666, 4)), 4000, 4000, 0),
    ];
    expect_left(&rt, guests, &left);
    expect(&rt, "its page", slots_with(store, (667, 1)), 1);
}
