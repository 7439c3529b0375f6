//! A host of two guests, each of its own image, and the seats that tests use of them.
ghost use Rattle.std.specs.Prelude.{◌≡◌, ◌<◌, length};
ghost use Rattle.cell.specs.Sitting.{IsOf};
ghost use Rattle.host.specs.Debugging.{IsSmall};
ghost use Rattle.host.specs.Places.{AtGuest};
ghost use Rattle.host_policy.specs.Turns.{IsPolicySeat, ArePolicySeats};
ghost use Rattle.host_tests.specs.Each.{IsHandedOut, AreHandedOut};

use crate::bench::expect;
use crate::images::bytes_of;
use booting::{Config, NewGuest};
use cell::{Gate, Registers, Seat, Seats};
use elf32::{Image, Segment};
use guest_cells::Handles;
use guest_number::GuestNo;
use host::{Booted, DebugError, Host, PolicyConfig, Ran, Reply, Request};
use host_policy::Turn;
use items::{DebugRegister, WriteBytes};
use machine_memory::BookCounts;
use mips_cp0::Profile;
use reclaim::Level;
use std::alloc::Global;
use std::process::Abort;
use std::sync::{Arc, Wait};
use swapstore::{MemStore, SwapStore};
use taxpolicy::Tax;

/// The seed of the policy's words. The first three words that `Pcg32` makes of it are 5, 1 and 2 modulo 16.
pub(crate) const SEED: u64 = 15;

/// A guest that is asked for. It has 100 shares, and always keeps two pages in frames.
#[derive(Clone, Copy)]
pub(crate) struct Asked {
    /// What it runs, from the start of its memory on.
    pub(crate) words: &'static [u32],
    /// How many pages from the start of its memory on its image has.
    pub(crate) first: u32,
    /// What other pages the image has, and the byte that each is full of.
    pub(crate) others: &'static [(u32, u8)],
    /// How many pages it has.
    pub(crate) pages: u32,
}

// A page that is full of a byte.
fn full_page(rt: &impl Abort, alloc: Global, page: u32, byte: u8) -> Segment {
    let Ok(bytes) = vec![in alloc; byte; 4096] else {
        panic!(rt; "no memory for a page");
    };
    Segment {
        address: 0x8000_0000u32.wrapping_add(page.wrapping_mul(4096)),
        bytes,
        size: 4096,
    }
}

// The image that is asked for.
fn image_asked(rt: &impl Abort, alloc: Global, asked: &Asked) -> Image {
    let mut segments = Vec::new(alloc);
    let code = Segment {
        address: 0x8000_0000,
        bytes: bytes_of(rt, alloc, asked.words),
        size: asked.first.wrapping_mul(4096),
    };
    if segments.push(code).is_err() {
        panic!(rt; "no memory for the segments");
    }
    for (page, byte) in asked.others {
        let other = full_page(rt, alloc, *page, *byte);
        if segments.push(other).is_err() {
            panic!(rt; "no memory for the segments");
        }
    }
    Image {
        entry: 0x8000_0000,
        segments,
    }
}

fn new_guest(rt: &impl Abort, alloc: Global, asked: &Asked) -> NewGuest {
    let Ok(image) = Arc::new(alloc, image_asked(rt, alloc, asked)) else {
        panic!(rt; "no memory for the image");
    };
    NewGuest {
        profile: Profile::One,
        image,
        pages: asked.pages,
        shares: 100,
        minimum: 2,
    }
}

fn new_guests(rt: &impl Abort, alloc: Global, asked: &[Asked; 2]) -> Vec<NewGuest> {
    let mut guests = Vec::new(alloc);
    for one in asked {
        if guests.push(new_guest(rt, alloc, one)).is_err() {
            panic!(rt; "no memory for the guests");
        }
    }
    guests
}

/// A host of two guests, and their seats of a runner, the policy and a debugger.
#[derive(Drop)]
pub(crate) struct Pair<S: SwapStore + Drop, G: Gate + Drop> {
    /// The host.
    pub(crate) host: Host<S, G>,
    /// Seat 0 of guest 0.
    pub(crate) first: Seat,
    /// Seat 0 of guest 1.
    pub(crate) second: Seat,
    /// Seat 3 of guest 0.
    pub(crate) first_debugger: Seat,
    /// Seat 3 of guest 1.
    pub(crate) second_debugger: Seat,
    /// Seat 2 of both.
    pub(crate) policies: Vec<Seat>,
    /// There are two guests.
    pub(crate) ghost two_guests: { length host.guests.cells.items ≡ 2 },
    /// The seat is guest 0's.
    pub(crate) ghost of_first: { AtGuest host.guests.cells.items 0 (λ front. IsOf front first) },
    /// The seat is guest 1's.
    pub(crate) ghost of_second: { AtGuest host.guests.cells.items 1 (λ front. IsOf front second) },
    /// The seat is guest 0's.
    pub(crate) ghost of_first_debugger: { AtGuest host.guests.cells.items 0 (λ front. IsOf front first_debugger) },
    /// The seat is guest 1's.
    pub(crate) ghost of_second_debugger: { AtGuest host.guests.cells.items 1 (λ front. IsOf front second_debugger) },
    /// The seats are the policy's.
    pub(crate) ghost of_policy: { ArePolicySeats host.guests.cells.items policies.items },
}

// What was handed out of two guests.
fn two_of<S: SwapStore + Drop, G: Gate + Drop>(
    rt: &impl Abort,
    host: &Host<S, G>,
    mut handles: Vec<Handles>,
) -> (Handles, Handles)
    requires { AreHandedOut host.now.guests.cells.items handles.items }
    ensures guests { length host.now.guests.cells.items ≡ 2 }
    ensures first { AtGuest host.now.guests.cells.items 0 (λ front. IsHandedOut front result.0) }
    ensures second { AtGuest host.now.guests.cells.items 1 (λ front. IsHandedOut front result.1) }
{
    if host.count() != 2 {
        panic!(rt; "not two guests");
    }
    if handles.len() != 2 {
        panic!(rt; "not two handles");
    }
    let Some(two) = handles.pop() else {
        panic!(rt; "no handles");
    };
    let Some(one) = handles.pop() else {
        panic!(rt; "no handles");
    };
    (one, two)
}

// The seats of a guest's runner, its debugger and the policy.
#[tactic(auto, using(crate::proofs::Seats::its_handles, crate::proofs::Seats::runner_of, crate::proofs::Seats::debugger_of, crate::proofs::Crewing::policy_of))]
fn seats_of<S: SwapStore + Drop, G: Gate + Drop>(
    _host: &Host<S, G>,
    _guest: usize,
    handles: Handles,
) -> (Seat, Seat, Seat)
    requires { AtGuest _host.now.guests.cells.items _guest (λ front. IsHandedOut front handles) }
    ensures runner { AtGuest _host.now.guests.cells.items _guest (λ front. IsOf front result.0) }
    ensures debugger { AtGuest _host.now.guests.cells.items _guest (λ front. IsOf front result.1) }
    ensures policy { AtGuest _host.now.guests.cells.items _guest (λ front. IsPolicySeat front result.2) }
{
    let Handles { seats, feed } = handles;
    drop(feed);
    let Seats {
        runner,
        console: _,
        policy,
        debugger,
    } = seats;
    (runner, debugger, policy)
}

// The host of two guests, and their seats.
#[tactic(auto, using(crate::proofs::TwoGuests::policies_of_two))]
fn pair_of<S: SwapStore + Drop, G: Gate + Drop>(
    rt: &impl Abort,
    alloc: Global,
    booted: Booted<S, G>,
) -> Pair<S, G>
    requires { AreHandedOut booted.host.guests.cells.items booted.handles.items }
{
    let Booted { host, handles } = booted;
    let (one, two) = two_of(rt, &host, handles);
    let (first, first_debugger, one) = seats_of(&host, 0, one);
    let (second, second_debugger, two) = seats_of(&host, 1, two);
    let Ok(policies) = Vec::from_array(alloc, [one, two]) else {
        panic!(rt; "no memory for the seats");
    };
    Pair {
        host,
        first,
        second,
        first_debugger,
        second_debugger,
        policies,
    }
}

/// A host of the two guests that are asked for, with so many frames, over a store.
#[tactic(auto, using(crate::proofs::Places::handed_out))]
pub(crate) fn booted_pair<R: Abort + Wait, S: SwapStore + Drop, G: Gate + Drop>(
    rt: &R,
    alloc: Global,
    frames: u32,
    asked: &[Asked; 2],
    store: S,
    gate: G,
) -> Pair<S, G> {
    let guests = new_guests(rt, alloc, asked);
    let config = Config {
        frames,
        log_runs: 65_536,
        admit: false,
    };
    let policy = PolicyConfig {
        tax: Tax { percent: 75 },
        seed: SEED,
    };
    match Host::boot(rt, alloc, config, policy, guests, store, gate) {
        Ok(booted) => pair_of(rt, alloc, booted),
        Err((error, _store)) => panic!(rt; "no host: {error:?}"),
    }
}

impl<S: SwapStore + Drop, G: Gate + Drop> Pair<S, G> {
    /// A slice of guest 0's runner.
    pub(crate) fn run_first<R: Wait>(&mut self, rt: &R, alloc: Global, count: u32) -> Ran {
        self.host
            .run_slice(rt, alloc, GuestNo::new(0), &mut self.first, count)
    }

    /// A slice of guest 1's runner.
    pub(crate) fn run_second<R: Wait>(&mut self, rt: &R, alloc: Global, count: u32) -> Ran {
        self.host
            .run_slice(rt, alloc, GuestNo::new(1), &mut self.second, count)
    }

    /// What a debugger asks of guest 0.
    pub(crate) fn ask_first<R: Wait>(
        &mut self,
        rt: &R,
        alloc: Global,
        request: Request,
    ) -> Result<Reply, DebugError>
        requires { IsSmall request }
    {
        self.host.debug(
            rt,
            alloc,
            GuestNo::new(0),
            &mut self.first_debugger,
            request,
        )
    }

    /// What a debugger asks of guest 1.
    pub(crate) fn ask_second<R: Wait>(
        &mut self,
        rt: &R,
        alloc: Global,
        request: Request,
    ) -> Result<Reply, DebugError>
        requires { IsSmall request }
    {
        self.host.debug(
            rt,
            alloc,
            GuestNo::new(1),
            &mut self.second_debugger,
            request,
        )
    }

    /// A turn of the policy.
    pub(crate) fn turn<R: Abort + Wait>(&mut self, rt: &R, alloc: Global) -> Turn {
        match self.host.policy_turn(rt, alloc, &mut self.policies) {
            Ok(turn) => turn,
            Err(_) => panic!(rt; "no memory for the turn"),
        }
    }

    /// The registers of guest 0.
    pub(crate) fn registers_of_first<R: Abort + Wait>(
        &mut self,
        rt: &R,
        alloc: Global,
    ) -> Registers {
        match self.ask_first(rt, alloc, Request::Regs) {
            Ok(Reply::Registers(words)) => words,
            _ => panic!(rt; "no registers"),
        }
    }

    /// The registers of guest 1.
    pub(crate) fn registers_of_second<R: Abort + Wait>(
        &mut self,
        rt: &R,
        alloc: Global,
    ) -> Registers {
        match self.ask_second(rt, alloc, Request::Regs) {
            Ok(Reply::Registers(words)) => words,
            _ => panic!(rt; "no registers"),
        }
    }

    /// The books count this.
    pub(crate) fn expect_books<R: Abort + Wait>(
        &self,
        rt: &R,
        case: &'static str,
        wanted: BookCounts,
    ) {
        expect(rt, case, self.host.audit(rt), wanted);
    }

    /// How many pages of both guests are in frames.
    pub(crate) fn resident<R: Wait>(&self, rt: &R) -> (u32, u32) {
        let one = self.host.status(rt, GuestNo::new(0));
        let two = self.host.status(rt, GuestNo::new(1));
        (one.resident, two.resident)
    }

    /// How many pages of both guests are in slots.
    pub(crate) fn swapped<R: Wait>(&self, rt: &R) -> (u32, u32) {
        let one = self.host.status(rt, GuestNo::new(0));
        let two = self.host.status(rt, GuestNo::new(1));
        (one.swapped, two.swapped)
    }

    /// How many pages both guests are asked to give to their balloons.
    pub(crate) fn targets<R: Wait>(&self, rt: &R) -> (u32, u32) {
        let one = self.host.status(rt, GuestNo::new(0));
        let two = self.host.status(rt, GuestNo::new(1));
        (one.target, two.target)
    }
}

/// The request that a general register is to have this value.
pub(crate) fn poke(number: u8, value: u32) -> Request
    requires { number < 32 }
    ensures { IsSmall result }
{
    Request::Poke(DebugRegister::new(number), value)
}

/// The request that a byte is to stand at an address.
pub(crate) fn write(rt: &impl Abort, alloc: Global, address: u32, byte: u8) -> Request
    ensures { IsSmall result }
{
    match Vec::from_array(alloc, [byte]) {
        Ok(bytes) => Request::Write(address, WriteBytes::from_vec(bytes)),
        Err(_) => panic!(rt; "no memory for a byte"),
    }
}

/// Why a request was refused, if it was.
pub(crate) fn refusal(answer: Result<Reply, DebugError>) -> Option<DebugError> {
    match answer {
        Ok(reply) => {
            drop(reply);
            None
        }
        Err(error) => Some(error),
    }
}

/// Books, in the order of a report: how many frames there are; how many are free, of one page each, and shared; how many pages read the shared
/// ones; how many are in slots, and how many slots there are.
pub(crate) fn books(
    frames: u64,
    free: u64,
    private: u64,
    shared: u64,
    references: u64,
    swapped: u64,
    slots: u64,
) -> BookCounts {
    BookCounts {
        frames,
        free,
        private,
        shared,
        references,
        swapped,
        slots,
    }
}

/// The word that was read, where four bytes were.
pub(crate) fn word_at(answer: Result<Reply, DebugError>) -> Option<u32> {
    match answer {
        Ok(Reply::Bytes(bytes)) => if bytes.len() == 4 {
            Some(u32::from_le_bytes([bytes[0], bytes[1], bytes[2], bytes[3]]))
        } else {
            None
        },
        _ => None,
    }
}

/// A store of so many slots, in memory.
pub(crate) fn memory_store(rt: &impl Abort, alloc: Global, slots: u32) -> MemStore {
    match MemStore::new(alloc, slots) {
        Ok(store) => store,
        Err(_) => panic!(rt; "no memory for the store"),
    }
}

/// A turn at this level, in which nothing was left out or refused.
pub(crate) fn at_level(level: Level) -> Turn {
    Turn {
        level,
        left_out: 0,
        refused: None,
    }
}
