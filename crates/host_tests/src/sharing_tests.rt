//! A page that comes to be shared while threads run both guests that have it.
ghost use Rattle.std.specs.Prelude.{◌≡◌, ◌<◌, length};
ghost use Rattle.cell.specs.Sitting.{IsOf};
ghost use Rattle.host.specs.Places.{AtGuest};

use crate::bench::expect;
use crate::pairs::{Asked, Pair, books, booted_pair, memory_store, poke, refusal, word_at};
use cell::{Gate, Seat};
use guest_number::GuestNo;
use host::{Host, Ran, Request};
use page_moves::Scan;
use sharetab::GuestPage;
use std::alloc::Global;
use std::process::Abort;
use std::sync::Wait;
use std::sync::atomic::{AtomicU32, Ordering};
use std::thread::{Threads, join};
use swapstore::MemStore;
use word32::Ppn;

/// How often a thread looks at most for what others do.
const LOOKS: u32 = 2_000_000_000;

/// A guest that steps in one place while its register 2 is 0. Then it stores the byte 22 to its page 5, unless register 2 is negative, and loads the
/// word of that byte into register 5.
static LEAVING: [u32; 10] = [
    0x3c01_8000, // lui $1,0x8000
    0x3421_5000, // ori $1,$1,0x5000
    0x1040_ffff, // beq $2,$0,-1
    0x2403_0022, // addiu $3,$0,0x22
    0x0440_0002, // bltz $2,2
    0x0000_0000, // sll $0,$0,0
    0xa023_0000, // sb $3,0($1)
    0x8c25_0000, // lw $5,0($1)
    0x1000_ffff, // beq $0,$0,-1
    0x0000_0000, // sll $0,$0,0
];

/// Counts the steps of both guests.
#[derive(Drop)]
struct Counting {
    first: AtomicU32,
    second: AtomicU32,
    /// Whether all scans are made.
    scanned: AtomicU32,
}

impl Gate for Counting {
    fn before_step(&self, guest: GuestNo, _done: u32) {
        if guest.number() == 0 {
            self.first.fetch_add(1, Ordering::SeqCst);
        } else {
            self.second.fetch_add(1, Ordering::SeqCst);
        }
    }

    fn quiet(&self, _guest: GuestNo, _done: u32) -> u32 {
        1
    }
}

/// A host with that gate.
type Counted = Host<MemStore, Counting>;

/// How many steps a slice has.
const SLICE: u32 = 100;

/// How many slices a runner makes at most.
const SLICES: u32 = 100_000_000;

// Slices of a guest until all scans are made. The answer is how many ended too early.
fn runs<R: Wait>(
    rt: &R,
    alloc: Global,
    host: &Counted,
    guest: GuestNo,
    mut seat: Seat,
) -> (Seat, u32)
    requires guest { guest < length host.now.guests.cells.items }
    requires seat { AtGuest host.now.guests.cells.items guest (λ front. IsOf front seat) }
    ensures { AtGuest host.now.guests.cells.items guest (λ front. IsOf front result.0) }
{
    let mut strays = 0u32;
    for _ in 0..SLICES {
        if host.gate.scanned.load(Ordering::SeqCst) != 0 {
            return (seat, strays);
        }
        let ran = host.run_slice(rt, alloc, guest, &mut seat, SLICE);
        if ran != Ran::Ran(SLICE) {
            strays = strays.saturating_add(1);
        }
    }
    (seat, strays)
}

// Waits until both guests have made a step more, at most for so many looks. The answer is 1 where they haven't.
fn await_steps(gate: &Counting) -> u32 {
    let first = gate.first.load(Ordering::SeqCst);
    let second = gate.second.load(Ordering::SeqCst);
    for _ in 0..LOOKS {
        let one = gate.first.load(Ordering::SeqCst);
        let other = gate.second.load(Ordering::SeqCst);
        if one != first && other != second {
            return 0;
        }
    }
    1
}

// Three scans of page 5 of the guests, before and after each of which both guests make steps. The answers are theirs, and how often the guests
// made none.
fn scans<R: Wait>(rt: &R, host: &Counted) -> ([Scan; 3], u32) {
    let mut in_vain = await_steps(&host.gate);
    let mut found = [Scan::Skipped; 3];
    for k in 0..3usize {
        let guest = if k == 1 { 1 } else { 0 };
        found[k] = host.scan_page(rt, GuestNo::new(guest), 5);
        in_vain = in_vain.saturating_add(await_steps(&host.gate));
    }
    host.gate.scanned.store(1, Ordering::SeqCst);
    (found, in_vain)
}

// Guest 1 and the scans at once.
fn run_and_scan<R: Threads + Wait + Sync>(
    rt: &R,
    alloc: Global,
    host: &Counted,
    second: Seat,
) -> ((Seat, u32), ([Scan; 3], u32))
    requires guests { length host.now.guests.cells.items ≡ 2 }
    requires seat { AtGuest host.now.guests.cells.items 1 (λ front. IsOf front second) }
    ensures { AtGuest host.now.guests.cells.items 1 (λ front. IsOf front result.0.0) }
{
    join(
        rt,
        || -> (Seat, u32)
            requires guests { length host.now.guests.cells.items ≡ 2 }
            requires seat { AtGuest host.now.guests.cells.items 1 (λ front. IsOf front second) }
            ensures { AtGuest host.entry.now.guests.cells.items 1 (λ front. IsOf front result.0) }
        { runs(rt, alloc, host, GuestNo::new(1), second) },
        || scans(rt, host),
    )
}

// Both guests and the scans at once. The answer is what the scans found.
fn scan_while_they_run<R: Abort + Threads + Wait + Sync>(
    rt: &R,
    alloc: Global,
    pair: Pair<MemStore, Counting>,
) -> (Pair<MemStore, Counting>, [Scan; 3]) {
    let Pair {
        host,
        first,
        second,
        first_debugger,
        second_debugger,
        policies,
    } = pair;
    let ((first, one), ((second, other), (found, in_vain))) = join(
        rt,
        || -> (Seat, u32)
            requires guests { length host.guests.cells.items ≡ 2 }
            requires seat { AtGuest host.guests.cells.items 0 (λ front. IsOf front first) }
            ensures { AtGuest host.guests.cells.items 0 (λ front. IsOf front result.0) }
        { runs(rt, alloc, &host, GuestNo::new(0), first) },
        || -> ((Seat, u32), ([Scan; 3], u32))
            requires guests { length host.guests.cells.items ≡ 2 }
            requires seat { AtGuest host.guests.cells.items 1 (λ front. IsOf front second) }
            ensures { AtGuest host.guests.cells.items 1 (λ front. IsOf front result.0.0) }
        { run_and_scan(rt, alloc, &host, second) },
    );
    expect(rt, "slices and looks", [one, other, in_vain], [0; 3]);
    let pair = Pair {
        host,
        first,
        second,
        first_debugger,
        second_debugger,
        policies,
    };
    (pair, found)
}

// Of 8 frames each guest has two, for its pages 0 and 5. Page 5 is all 11 in both.
fn two_alike<R: Abort + Wait>(rt: &R, alloc: Global) -> Pair<MemStore, Counting> {
    let asked = Asked {
        words: &LEAVING,
        first: 1,
        others: &[(5, 0x11)],
        pages: 16,
    };
    let gate = Counting {
        first: AtomicU32::new(0),
        second: AtomicU32::new(0),
        scanned: AtomicU32::new(0),
    };
    let store = memory_store(rt, alloc, 16);
    booted_pair(rt, alloc, 8, &[asked, asked], store, gate)
}

// The three answers by which page 5 comes to be shared.
fn shared() -> [Scan; 3] {
    let first = GuestPage {
        guest: GuestNo::new(0),
        page: Ppn::new(5),
    };
    [Scan::Noted, Scan::Admitted(first), Scan::Joined]
}

#[test]
fn a_page_comes_to_be_shared_while_both_guests_run_and_is_copied_for_a_store(rt: HostRuntime) {
    let alloc = rt.alloc();
    let pair = two_alike(&rt, alloc);
    let before = books(8, 4, 4, 0, 0, 0, 16);
    pair.expect_books(&rt, "before", before);
    let (mut pair, found) = scan_while_they_run(&rt, alloc, pair);
    expect(&rt, "scans", found, shared());
    let after = books(8, 5, 2, 1, 2, 0, 16);
    pair.expect_books(&rt, "shared", after);
    // guest 1 stores
    let poked = refusal(pair.ask_second(&rt, alloc, poke(2, 1)));
    expect(&rt, "goes on", poked, None);
    expect(
        &rt,
        "20 steps",
        pair.run_second(&rt, alloc, 20),
        Ran::Ran(20),
    );
    let registers = pair.registers_of_second(&rt, alloc);
    expect(&rt, "guest 1 reads", registers[5], 0x1111_1122);
    // guest 0 doesn't
    let poked = refusal(pair.ask_first(&rt, alloc, poke(2, u32::MAX)));
    expect(&rt, "goes on too", poked, None);
    expect(&rt, "20 more", pair.run_first(&rt, alloc, 20), Ran::Ran(20));
    let registers = pair.registers_of_first(&rt, alloc);
    expect(&rt, "guest 0 reads", registers[5], 0x1111_1111);
    let copied = books(8, 4, 3, 1, 1, 0, 16);
    pair.expect_books(&rt, "copied", copied);
    let read = pair.ask_second(&rt, alloc, Request::Read(0x8000_5000, 4));
    expect(&rt, "a debugger", word_at(read), Some(0x1111_1122));
}
