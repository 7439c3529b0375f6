//! A policy over two guests of 60 pages and equal shares, each behind its lock, over 100 frames.
ghost use Rattle.std.specs.Prelude.{◌≡◌, ◌∷◌, [], Some, length};
ghost use Rattle.std.specs.List.{slice_get};
ghost use Rattle.cell.specs.Level.{IsMemoryOf};
ghost use Rattle.cell.specs.Sitting.{IsOf};
ghost use Rattle.guest_cells.specs.Handles.{AreHandlesOf, AreHandlesOfAll};
ghost use Rattle.host_policy.specs.Policies.{IsPolicyOf};
ghost use Rattle.host_policy.specs.Turns.{ArePolicySeats};
ghost use Rattle.host_policy_tests.specs.Places.{AtGuest};
ghost use Rattle.machine_memory.specs.Memories.{IsPassOf};

use booting::{Config, NewGuest};
use cell::{Cell, Open, Piece, Place, Seat};
use elf32::Image;
use guest::Stop;
use guest_cells::{Booted, GuestCells, Handles};
use guest_number::GuestNo;
use host_policy::{Evicted, Policy, Turn, evict_one, turn};
use items::SeatNo;
use mips_cp0::Profile;
use shared_pool::PoolPass;
use std::alloc::Global;
use std::fmt::Debug;
use std::process::Abort;
use std::sync::{Arc, Wait};
use swapstore::{FaultStore, MemStore, Op};
use taxpolicy::Tax;
use word32::Ppn;

/// A store of which a write fails.
pub(crate) type Store = FaultStore<MemStore>;

/// The tax on idle pages: one costs four times what an active one does.
pub(crate) const TAX: Tax = Tax { percent: 75 };

/// How many frames there are.
pub(crate) const FRAMES: u32 = 100;

/// How many pages each guest has.
pub(crate) const PAGES: u32 = 60;

/// What is wanted.
#[derive(Clone, Copy)]
pub(crate) struct Wanted {
    /// How many pages each guest has in frames at the boot: the first ones, which its image has.
    pub(crate) resident: [usize; 2],
    /// How many slots there are.
    pub(crate) slots: u32,
    /// Which write of the store fails.
    pub(crate) failing: u64,
    /// The seed of the policy's words.
    pub(crate) seed: u64,
}

/// The sample of 100 of a guest's pages takes as many words.
pub(crate) const SAMPLE_WORDS: u32 = 100;

/// Reads a word of each page, one after another: four steps a page, and one before the first.
static READING: [u32; 5] = [
    0x3c01_8000, // lui $1,0x8000
    0x8c22_0000, // lw $2,0($1)
    0x2421_1000, // addiu $1,$1,0x1000
    0x0800_0001, // j 0x80000004
    0x0000_0000, // sll $0,$0,0
];

/// Asserts one case. The tests share it, since each assertion in a function's own body makes its proof much longer.
pub(crate) fn expect<T: PartialEq + Debug + Drop>(
    rt: &impl Abort,
    case: &'static str,
    got: T,
    wanted: T,
) {
    assert!(rt; got == wanted, "{case}: {got:?}, not {wanted:?}");
}

// An image of so many pages: the program, and zeros.
fn new_image(rt: &impl Abort, alloc: Global, pages: usize) -> Arc<Image, Global> {
    let mut bytes = Vec::new(alloc);
    for word in &READING {
        if bytes.extend_from_slice(&word.to_le_bytes()).is_err() {
            panic!(rt; "no memory for the words");
        }
    }
    if bytes.resize(pages.min(60) * 4096, 0).is_err() {
        panic!(rt; "no memory for the pages");
    }
    if bytes.len() > 245_760 {
        panic!(rt; "too many pages");
    }
    let Ok(image) = Image::raw(alloc, bytes) else {
        panic!(rt; "no memory for the image");
    };
    match Arc::new(alloc, image) {
        Ok(image) => image,
        Err(_) => panic!(rt; "no memory for the image"),
    }
}

fn two_guests(rt: &impl Abort, alloc: Global, wanted: &Wanted) -> Vec<NewGuest> {
    let mut guests = Vec::new(alloc);
    for pages in &wanted.resident {
        let guest = NewGuest {
            profile: Profile::One,
            image: new_image(rt, alloc, *pages),
            pages: PAGES,
            shares: 100,
            minimum: 2,
        };
        if guests.push(guest).is_err() {
            panic!(rt; "no memory for the guests");
        }
    }
    guests
}

// Two guests behind their locks.
#[tactic(auto, using(guest_cells::proofs::Housing::asked_handles))]
fn guests_of<R: Abort + Wait>(rt: &R, alloc: Global, wanted: &Wanted) -> Booted<Store>
    ensures handles { AreHandlesOfAll result.cells.cells.items result.handles.items }
    ensures frames { result.cells.memory.books.key.frames ≡ 100 }
    ensures pass { IsPassOf result.cells.memory result.pass }
{
    let config = Config {
        frames: FRAMES,
        log_runs: 16,
        admit: false,
    };
    let guests = two_guests(rt, alloc, wanted);
    let Ok(store) = MemStore::new(alloc, wanted.slots) else {
        panic!(rt; "no memory for the store");
    };
    let store = FaultStore::new(store, Op::Write, wanted.failing.max(1));
    match GuestCells::boot(rt, alloc, config, guests, store) {
        Ok(booted) => booted,
        Err((error, _store)) => panic!(rt; "no guests: {error:?}"),
    }
}

/// The guests, their policy, and the seats that the tests use.
#[derive(Drop)]
pub(crate) struct Bench {
    /// The guests.
    pub(crate) guests: GuestCells<Store>,
    /// Their policy.
    pub(crate) policy: Policy,
    /// The seats of number 2.
    pub(crate) seats: Vec<Seat>,
    /// The seat of number 1 of guest 0.
    pub(crate) console: Seat,
    /// The seat of number 0 of guest 1.
    pub(crate) runner: Seat,
    /// The policy is for these guests.
    pub(crate) ghost its_policy: { IsPolicyOf guests.memory policy },
    /// The seats are the policy's.
    pub(crate) ghost its_seats: { ArePolicySeats guests.cells.items seats.items },
    /// The seat is of guest 0.
    pub(crate) ghost of_first: { AtGuest guests.cells.items 0 (λ front. IsOf front console) },
    /// The seat is of guest 1.
    pub(crate) ghost of_second: { AtGuest guests.cells.items 1 (λ front. IsOf front runner) },
}

// What is handed out of two guests.
#[tactic(auto, using(crate::proofs::Seats::first_of_two, crate::proofs::Seats::second_of_two))]
fn two_handles(
    rt: &impl Abort,
    guests: &GuestCells<Store>,
    mut handles: Vec<Handles>,
) -> (Handles, Handles)
    requires { AreHandlesOfAll guests.now.cells.items handles.items }
    ensures count { length guests.now.cells.items ≡ 2 }
    ensures first { AtGuest guests.now.cells.items 0 (λ front. AreHandlesOf front result.0) }
    ensures second { AtGuest guests.now.cells.items 1 (λ front. AreHandlesOf front result.1) }
{
    if guests.cells.len() != 2 {
        panic!(rt; "not two guests");
    }
    let Some(two) = handles.pop() else {
        panic!(rt; "no handles");
    };
    let Some(one) = handles.pop() else {
        panic!(rt; "handles of one guest");
    };
    (one, two)
}

// The policy's seats of two guests.
#[tactic(auto, using(crate::proofs::Seats::policy_seats))]
fn policy_seats(
    rt: &impl Abort,
    alloc: Global,
    _guests: &GuestCells<Store>,
    one: Seat,
    two: Seat,
) -> Vec<Seat>
    requires count { length _guests.now.cells.items ≡ 2 }
    requires first { AtGuest _guests.now.cells.items 0 (λ front. IsOf front one) }
    requires second { AtGuest _guests.now.cells.items 1 (λ front. IsOf front two) }
    ensures { ArePolicySeats _guests.now.cells.items result.items }
{
    if one.number() != SeatNo::new(2) {
        panic!(rt; "another seat of guest 0");
    }
    if two.number() != SeatNo::new(2) {
        panic!(rt; "another seat of guest 1");
    }
    let Ok(mut seats) = Vec::with_capacity(alloc, 2) else {
        panic!(rt; "no memory for the seats");
    };
    seats.push_reserved(one);
    seats.push_reserved(two);
    seats
}

// A policy for these guests.
fn policy_of<R: Abort>(
    rt: &R,
    alloc: Global,
    guests: &GuestCells<Store>,
    pass: PoolPass,
    seed: u64,
) -> Policy
    requires frames { guests.now.memory.books.key.frames ≡ 100 }
    requires pass { IsPassOf guests.now.memory pass }
    ensures { IsPolicyOf guests.now.memory result }
{
    match Policy::new(alloc, pass, FRAMES, TAX, seed) {
        Ok(policy) => policy,
        Err(_) => panic!(rt; "no memory for the policy"),
    }
}

/// A policy at boot over two guests at boot.
#[tactic(auto, using(crate::proofs::Seats::console_at, crate::proofs::Seats::runner_at, crate::proofs::Seats::policy_at))]
pub(crate) fn booted<R: Abort + Wait>(rt: &R, alloc: Global, wanted: Wanted) -> Bench {
    let Booted {
        cells: guests,
        handles,
        pass,
    } = guests_of(rt, alloc, &wanted);
    let policy = policy_of(rt, alloc, &guests, pass, wanted.seed);
    let (one, two) = two_handles(rt, &guests, handles);
    let Handles {
        seats: one,
        feed: _,
    } = one;
    let Handles {
        seats: two,
        feed: _,
    } = two;
    let seats = policy_seats(rt, alloc, &guests, one.policy, two.policy);
    Bench {
        guests,
        policy,
        seats,
        console: one.console,
        runner: two.runner,
    }
}

// A guest that there is.
fn cell_of<'a>(rt: &impl Abort, guests: &'a GuestCells<Store>, guest: usize) -> &'a Cell<Store>
    ensures place { slice_get guests.now.cells.items guest ≡ Some result.now }
    ensures memory { IsMemoryOf result.now.front.first.value guests.now.memory }
{
    if guest >= guests.cells.len() {
        panic!(rt; "no guest {guest}");
    }
    &guests.cells[guest]
}

impl Bench {
    /// A turn of the policy.
    pub(crate) fn turn<R: Abort + Wait>(&mut self, rt: &R, alloc: Global) -> Turn {
        match turn(
            rt,
            alloc,
            &self.policy,
            &self.guests.cells,
            &self.guests.memory,
            &mut self.seats,
        ) {
            Ok(turn) => turn,
            Err(_) => panic!(rt; "no memory for the turn"),
        }
    }

    /// A page of the policy's victim leaves its frame.
    pub(crate) fn evict_one<R: Wait>(&self, rt: &R) -> Evicted {
        evict_one(rt, &self.policy, &self.guests.cells, &self.guests.memory)
    }

    /// How many pages of both guests are in frames.
    pub(crate) fn resident<R: Abort + Wait>(&self, rt: &R) -> (u32, u32) {
        let one = cell_of(rt, &self.guests, 0).stat(rt);
        let two = cell_of(rt, &self.guests, 1).stat(rt);
        (one.resident, two.resident)
    }

    /// How many pages both guests are asked to give to their balloons.
    pub(crate) fn targets<R: Abort + Wait>(&self, rt: &R) -> (u32, u32) {
        let one = cell_of(rt, &self.guests, 0).stat(rt);
        let two = cell_of(rt, &self.guests, 1).stat(rt);
        (one.target, two.target)
    }

    /// Whether both guests are blocked.
    pub(crate) fn blocked<R: Abort + Wait>(&self, rt: &R) -> (bool, bool) {
        let one = is_blocked(rt, cell_of(rt, &self.guests, 0));
        let two = is_blocked(rt, cell_of(rt, &self.guests, 1));
        (one, two)
    }

    /// Which pages of a guest are in frames.
    pub(crate) fn in_frames<R: Abort + Wait>(&self, rt: &R, guest: usize) -> [bool; 60] {
        let mut resident = [false; 60];
        let cell = cell_of(rt, &self.guests, guest);
        let (locked, loan) = cell.lock.take(rt);
        for p in 0..60 {
            resident[p] = locked.guest.next_resident(p as u32) == Some(Ppn::new(p as u32));
        }
        cell.lock.put_back(locked, loan);
        resident
    }

    /// How many items the log of a guest has.
    pub(crate) fn log_len<R: Abort + Wait>(&self, rt: &R, guest: usize) -> u64 {
        log_len_of(rt, cell_of(rt, &self.guests, guest))
    }

    // Guest 0 is asked to give so many pages to its balloon.
    #[tactic(auto, using(crate::proofs::Seats::at_still))]
    fn set_target<R: Abort + Wait>(&mut self, rt: &R, pages: u32) -> Result<(), Stop> {
        let cell = cell_of(rt, &self.guests, 0);
        cell.set_target(rt, &mut self.console, pages)
    }

    /// The log of guest 0 has its 16 runs: an item differs from the one before it each time.
    pub(crate) fn fill_log<R: Abort + Wait>(&mut self, rt: &R) {
        for k in 0..16 {
            let done = self.set_target(rt, k % 2);
            expect(rt, "a run", done, Ok(()));
        }
    }

    /// Guest 1 reads its first pages.
    #[tactic(auto, using(crate::proofs::Seats::at_still))]
    pub(crate) fn read_pages<R: Abort + Wait>(
        &mut self,
        rt: &R,
        alloc: Global,
        pages: u32,
    ) -> Piece {
        let guests = &self.guests;
        let seat = &mut self.runner;
        let cell = cell_of(rt, guests, 1);
        let place = Place {
            guest: GuestNo::new(1),
            done: 0,
        };
        cell.piece(
            rt,
            alloc,
            &guests.memory,
            seat,
            1 + 4 * pages.min(60),
            place,
            &Open,
        )
    }
}

fn is_blocked<R: Wait>(rt: &R, cell: &Cell<Store>) -> bool {
    let (locked, loan) = cell.lock.take(rt);
    let blocked = locked.blocked;
    cell.lock.put_back(locked, loan);
    blocked
}

fn log_len_of<R: Wait>(rt: &R, cell: &Cell<Store>) -> u64 {
    let (locked, loan) = cell.lock.take(rt);
    let len = locked.guest.log().len();
    cell.lock.put_back(locked, loan);
    len
}
