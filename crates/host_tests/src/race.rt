//! Four guests that threads run and debug at once, while others look after the memory; and the end of it.
ghost use Rattle.std.specs.Prelude.{◌≡◌, ◌+◌, ◌<◌, ◌∷◌, [], length};
ghost use Rattle.cell.specs.Sitting.{IsOf};
ghost use Rattle.host.specs.Places.{AtGuest};
ghost use Rattle.host_policy.specs.Turns.{IsPolicySeat, ArePolicySeats};
ghost use Rattle.guest_cells.specs.Handles.{AreHandlesOf};
ghost use Rattle.host_tests.specs.Crews.{IsCrewOf};
ghost use Rattle.host_tests.specs.Each.{IsHandedOut, AreHandedOut};

use crate::bench::expect;
use crate::crews::{Crew, run_guest};
use crate::images::{BUSY, SHORT_WALKING, shared_image};
use crate::replaying::{PAGES, compare};
use booting::{Config, NewGuest};
use cell::{Ended, Open, Seat, Seats};
use guest_cells::{Finished, Handles};
use guest_number::GuestNo;
use host::{Booted, Host, PolicyConfig, Reply, Request};
use machine_memory::BookCounts;
use mips_cp0::Profile;
use std::alloc::Global;
use std::process::Abort;
use std::sync::Wait;
use std::thread::{Threads, join};
use swapstore::{FaultStore, MemStore, Op, SwapStore};
use taxpolicy::Tax;

/// A store that fails once, if at all.
pub(crate) type Store = FaultStore<MemStore>;

/// A host over it.
pub(crate) type Hosts = Host<Store, Open>;

/// How many guests there are.
const GUESTS: u32 = 4;

/// How many frames there are, for 32 pages.
const FRAMES: u32 = 12;

/// How many slots there are.
const SLOTS: u32 = 32;

/// Four guests of a host, and what was handed out of them.
#[derive(Drop)]
struct Team {
    host: Hosts,
    first: Crew,
    second: Crew,
    third: Crew,
    fourth: Crew,
    policies: Vec<Seat>,
    ghost four: { length host.guests.cells.items ≡ 4 },
    ghost of_first: { IsCrewOf host.guests.cells.items 0 first.runner first.console first.debugger first.feed },
    ghost of_second: { IsCrewOf host.guests.cells.items 1 second.runner second.console second.debugger second.feed },
    ghost of_third: { IsCrewOf host.guests.cells.items 2 third.runner third.console third.debugger third.feed },
    ghost of_fourth: { IsCrewOf host.guests.cells.items 3 fourth.runner fourth.console fourth.debugger fourth.feed },
    ghost of_policy: { ArePolicySeats host.guests.cells.items policies.items },
}

// The words of the guest of a number.
fn words_of(guest: u32) -> &'static [u32] {
    if guest % 2 == 0 {
        &BUSY
    } else {
        &SHORT_WALKING
    }
}

fn new_guests(rt: &impl Abort, alloc: Global) -> Vec<NewGuest> {
    let mut guests = Vec::new(alloc);
    for g in 0..GUESTS {
        let guest = NewGuest {
            profile: Profile::One,
            image: shared_image(rt, alloc, words_of(g)),
            pages: PAGES,
            shares: 100 + g,
            minimum: 2,
        };
        if guests.push(guest).is_err() {
            panic!(rt; "no memory for the guests");
        }
    }
    guests
}

// The host of four guests, of whose store the k-th read or write fails.
#[tactic(auto, using(crate::proofs::Places::handed_out))]
fn booted<R: Abort + Wait>(rt: &R, alloc: Global, op: Op, k: u64) -> Booted<Store, Open>
    ensures { AreHandedOut result.host.guests.cells.items result.handles.items }
{
    let Ok(store) = MemStore::new(alloc, SLOTS) else {
        panic!(rt; "no memory for the store");
    };
    let config = Config {
        frames: FRAMES,
        log_runs: 1 << 20,
        admit: false,
    };
    let policy = PolicyConfig {
        tax: Tax { percent: 75 },
        seed: 1,
    };
    let guests = new_guests(rt, alloc);
    let store = FaultStore::new(store, op, k.max(1));
    match Host::boot(rt, alloc, config, policy, guests, store, Open) {
        Ok(booted) => booted,
        Err((error, _store)) => panic!(rt; "no host: {error:?}"),
    }
}

// What was handed out of four guests, or the policy's seats of them, one by one.
#[tactic(auto, using(crate::proofs::Places::four_parted))]
fn four_of<T: Drop>(rt: &impl Abort, mut all: Vec<T>) -> (T, T, T, T)
    ensures { all.items ≡ result.0 ∷ result.1 ∷ result.2 ∷ result.3 ∷ [] }
{
    let (Some(fourth), Some(third), Some(second), Some(first)) = (
        all.pop(),
        all.pop(),
        all.pop(),
        all.pop(),
    ) else {
        panic!(rt; "fewer than four");
    };
    if !all.is_empty() {
        panic!(rt; "more than four");
    }
    (first, second, third, fourth)
}

// What was handed out of a guest, without the policy's seat, and this.
#[tactic(auto, using(crate::proofs::Crewing::crew_of, crate::proofs::Crewing::policy_of))]
fn parted(host: &Hosts, guest: usize, handles: Handles) -> (Crew, Seat)
    requires { AtGuest host.now.guests.cells.items guest (λ front. IsHandedOut front handles) }
    ensures crew { IsCrewOf host.now.guests.cells.items guest result.0.runner result.0.console result.0.debugger result.0.feed }
    ensures policy { AtGuest host.now.guests.cells.items guest (λ front. IsPolicySeat front result.1) }
{
    let Handles { seats, feed } = handles;
    let Seats {
        runner,
        console,
        policy,
        debugger,
    } = seats;
    let crew = Crew {
        runner,
        console,
        debugger,
        feed,
        strays: 0,
    };
    (crew, policy)
}

// The same put together again.
fn together(crew: Crew, policy: Seat) -> Handles
    ensures { result ≡ record {
      seats = record { runner = crew.runner; console = crew.console; policy = policy; debugger = crew.debugger };
      feed = crew.feed;
    } }
{
    let Crew {
        runner,
        console,
        debugger,
        feed,
        strays: _,
    } = crew;
    let seats = Seats {
        runner,
        console,
        policy,
        debugger,
    };
    Handles { seats, feed }
}

// The team of a host of four guests.
fn team_of(rt: &impl Abort, alloc: Global, booted: Booted<Store, Open>) -> Team
    requires { AreHandedOut booted.host.guests.cells.items booted.handles.items }
{
    let Booted { host, handles } = booted;
    if host.count() != 4 {
        panic!(rt; "not four guests");
    }
    let (first, second, third, fourth) = four_of(rt, handles);
    let (first, one) = parted(&host, 0, first);
    let (second, other) = parted(&host, 1, second);
    let (third, next) = parted(&host, 2, third);
    let (fourth, last) = parted(&host, 3, fourth);
    let Ok(policies) = Vec::from_array(alloc, [one, other, next, last]) else {
        panic!(rt; "no memory for the seats");
    };
    Team {
        host,
        first,
        second,
        third,
        fourth,
        policies,
    }
}

// Whether the books add up.
fn adds_up(books: &BookCounts) -> bool {
    let frames = books
        .free
        .saturating_add(books.private)
        .saturating_add(books.shared);
    frames == u64::from(FRAMES)
        && books.frames == u64::from(FRAMES)
        && books.slots == u64::from(SLOTS)
        && books.swapped <= books.slots
}

// So often a hundred scans of the pages of all guests in turn, with an audit after each hundred. The answer is how many audits don't add up.
fn shares<R: Wait>(rt: &R, host: &Hosts, rounds: u32) -> u32 {
    let mut strays = 0u32;
    for _ in 0..rounds {
        for scan in 0..100u32 {
            let _ = host.scan_page(rt, GuestNo::new(scan % GUESTS), scan / GUESTS % PAGES);
        }
        if !adds_up(&host.audit(rt)) {
            strays = strays.saturating_add(1);
        }
    }
    strays
}

// Turns of the policy. The answer is how often more frames were free than there are.
fn turns<R: Wait>(
    rt: &R,
    alloc: Global,
    host: &Hosts,
    mut seats: Vec<Seat>,
    rounds: u32,
) -> (Vec<Seat>, u32)
    requires { ArePolicySeats host.now.guests.cells.items seats.items }
    ensures { ArePolicySeats host.now.guests.cells.items result.0.items }
{
    let mut strays = 0u32;
    for turn in 0..rounds {
        let percent = if turn % 2 == 0 { 0 } else { 50 };
        host.set_tax(rt, Tax { percent });
        let _ = host.policy_turn(rt, alloc, &mut seats);
        let _ = host.evict_one(rt);
        if host.free_frames(rt) > FRAMES {
            strays = strays.saturating_add(1);
        }
    }
    (seats, strays)
}

// Two guests at once.
fn run_two<R: Threads + Wait + Sync>(
    rt: &R,
    alloc: Global,
    host: &Hosts,
    first: u32,
    one: Crew,
    second: u32,
    other: Crew,
    rounds: u32,
) -> (Crew, Crew)
    requires first { first < length host.now.guests.cells.items }
    requires second { second < length host.now.guests.cells.items }
    requires one { IsCrewOf host.now.guests.cells.items first one.runner one.console one.debugger one.feed }
    requires other { IsCrewOf host.now.guests.cells.items second other.runner other.console other.debugger other.feed }
    ensures one { IsCrewOf host.now.guests.cells.items first result.0.runner result.0.console result.0.debugger result.0.feed }
    ensures other { IsCrewOf host.now.guests.cells.items second result.1.runner result.1.console result.1.debugger result.1.feed }
{
    join(
        rt,
        || -> Crew
            requires guest { first < length host.now.guests.cells.items }
            requires crew { IsCrewOf host.now.guests.cells.items first one.runner one.console one.debugger one.feed }
            ensures { IsCrewOf host.entry.now.guests.cells.items first result.runner result.console result.debugger result.feed }
        { run_guest(rt, alloc, host, GuestNo::new(first), one, rounds) },
        || -> Crew
            requires guest { second < length host.now.guests.cells.items }
            requires crew { IsCrewOf host.now.guests.cells.items second other.runner other.console other.debugger other.feed }
            ensures { IsCrewOf host.entry.now.guests.cells.items second result.runner result.console result.debugger result.feed }
        { run_guest(rt, alloc, host, GuestNo::new(second), other, rounds) },
    )
}

// The sharer and the policy at once.
fn look_after<R: Threads + Wait + Sync>(
    rt: &R,
    alloc: Global,
    host: &Hosts,
    policies: Vec<Seat>,
    rounds: u32,
) -> (u32, (Vec<Seat>, u32))
    requires { ArePolicySeats host.now.guests.cells.items policies.items }
    ensures { ArePolicySeats host.now.guests.cells.items result.1.0.items }
{
    join(
        rt,
        || shares(rt, host, rounds),
        || -> (Vec<Seat>, u32)
            requires { ArePolicySeats host.now.guests.cells.items policies.items }
            ensures { ArePolicySeats host.entry.now.guests.cells.items result.0.items }
        { turns(rt, alloc, host, policies, rounds) },
    )
}

// Guests 2 and 3, and those who look after the memory, at once.
fn run_rest<R: Threads + Wait + Sync>(
    rt: &R,
    alloc: Global,
    host: &Hosts,
    third: Crew,
    fourth: Crew,
    policies: Vec<Seat>,
    rounds: u32,
) -> ((Crew, Crew), (u32, (Vec<Seat>, u32)))
    requires four { length host.now.guests.cells.items ≡ 4 }
    requires one { IsCrewOf host.now.guests.cells.items 2 third.runner third.console third.debugger third.feed }
    requires other { IsCrewOf host.now.guests.cells.items 3 fourth.runner fourth.console fourth.debugger fourth.feed }
    requires policies { ArePolicySeats host.now.guests.cells.items policies.items }
    ensures one { IsCrewOf host.now.guests.cells.items 2 result.0.0.runner result.0.0.console result.0.0.debugger result.0.0.feed }
    ensures other { IsCrewOf host.now.guests.cells.items 3 result.0.1.runner result.0.1.console result.0.1.debugger result.0.1.feed }
    ensures policies { ArePolicySeats host.now.guests.cells.items result.1.1.0.items }
{
    join(
        rt,
        || -> (Crew, Crew)
            requires four { length host.now.guests.cells.items ≡ 4 }
            requires one { IsCrewOf host.now.guests.cells.items 2 third.runner third.console third.debugger third.feed }
            requires other { IsCrewOf host.now.guests.cells.items 3 fourth.runner fourth.console fourth.debugger fourth.feed }
            ensures one { IsCrewOf host.entry.now.guests.cells.items 2 result.0.runner result.0.console result.0.debugger result.0.feed }
            ensures other { IsCrewOf host.entry.now.guests.cells.items 3 result.1.runner result.1.console result.1.debugger result.1.feed }
        { run_two(rt, alloc, host, 2, third, 3, fourth, rounds) },
        || -> (u32, (Vec<Seat>, u32))
            requires { ArePolicySeats host.now.guests.cells.items policies.items }
            ensures { ArePolicySeats host.entry.now.guests.cells.items result.1.0.items }
        { look_after(rt, alloc, host, policies, rounds) },
    )
}

// All of them at once.
fn at_once<R: Abort + Threads + Wait + Sync>(
    rt: &R,
    alloc: Global,
    team: Team,
    rounds: u32,
) -> Team {
    let Team {
        host,
        first,
        second,
        third,
        fourth,
        policies,
    } = team;
    let ((first, second), ((third, fourth), (audits, (policies, counts)))) = join(
        rt,
        || -> (Crew, Crew)
            requires four { length host.guests.cells.items ≡ 4 }
            requires one { IsCrewOf host.guests.cells.items 0 first.runner first.console first.debugger first.feed }
            requires other { IsCrewOf host.guests.cells.items 1 second.runner second.console second.debugger second.feed }
            ensures one { IsCrewOf host.guests.cells.items 0 result.0.runner result.0.console result.0.debugger result.0.feed }
            ensures other { IsCrewOf host.guests.cells.items 1 result.1.runner result.1.console result.1.debugger result.1.feed }
        { run_two(rt, alloc, &host, 0, first, 1, second, rounds) },
        || -> ((Crew, Crew), (u32, (Vec<Seat>, u32)))
            requires four { length host.guests.cells.items ≡ 4 }
            requires one { IsCrewOf host.guests.cells.items 2 third.runner third.console third.debugger third.feed }
            requires other { IsCrewOf host.guests.cells.items 3 fourth.runner fourth.console fourth.debugger fourth.feed }
            requires policies { ArePolicySeats host.guests.cells.items policies.items }
            ensures one { IsCrewOf host.guests.cells.items 2 result.0.0.runner result.0.0.console result.0.0.debugger result.0.0.feed }
            ensures other { IsCrewOf host.guests.cells.items 3 result.0.1.runner result.0.1.console result.0.1.debugger result.0.1.feed }
            ensures policies { ArePolicySeats host.guests.cells.items result.1.1.0.items }
        { run_rest(rt, alloc, &host, third, fourth, policies, rounds) },
    );
    expect(rt, "audits", audits, 0);
    expect(rt, "counts", counts, 0);
    let strays = [first.strays, second.strays, third.strays, fourth.strays];
    expect(rt, "answers", strays, [0; 4]);
    Team {
        host,
        first,
        second,
        third,
        fourth,
        policies,
    }
}

// 1,024 bytes of a guest's memory. One read of the store may fail.
fn piece_of<R: Abort + Wait>(
    rt: &R,
    alloc: Global,
    host: &Hosts,
    guest: GuestNo,
    seat: &mut Seat,
    address: u32,
) -> Vec<u8>
    requires guest { guest < length host.now.guests.cells.items }
    requires seat { AtGuest host.now.guests.cells.items guest (λ front. IsOf front seat.old) }
    ensures { AtGuest host.now.guests.cells.items guest (λ front. IsOf front seat.new) }
{
    let first = host.debug(rt, alloc, guest, seat, Request::Read(address, 1024));
    if let Ok(Reply::Bytes(bytes)) = first {
        return bytes;
    }
    match host.debug(rt, alloc, guest, seat, Request::Read(address, 1024)) {
        Ok(Reply::Bytes(bytes)) => bytes,
        _ => panic!(rt; "no bytes at {address:x}"),
    }
}

// The bytes of a guest's memory.
fn memory_of<R: Abort + Wait>(
    rt: &R,
    alloc: Global,
    host: &Hosts,
    guest: GuestNo,
    seat: &mut Seat,
) -> Vec<u8>
    requires guest { guest < length host.now.guests.cells.items }
    requires seat { AtGuest host.now.guests.cells.items guest (λ front. IsOf front seat.old) }
    ensures { AtGuest host.now.guests.cells.items guest (λ front. IsOf front seat.new) }
{
    let mut memory = Vec::new(alloc);
    for piece in 0..PAGES * 4 {
        let bytes = piece_of(rt, alloc, host, guest, seat, 0x8000_0000 + piece * 1024);
        if memory.extend_from_slice(&bytes).is_err() {
            panic!(rt; "no memory for the bytes");
        }
    }
    memory
}

// What the guests have left is what their logs say.
fn compare_all(rt: &impl Abort, alloc: Global, mut ended: Vec<Ended>, memories: [Vec<u8>; 4]) {
    let mut number = GUESTS;
    let [first, second, third, fourth] = memories;
    while let Some(one) = ended.pop() {
        let Ended {
            guest,
            stake,
            seats,
            rest,
            keeper,
        } = one;
        drop(stake);
        drop(seats);
        drop(rest);
        drop(keeper);
        number = number.saturating_sub(1);
        let memory = match number {
            0 => &first,
            1 => &second,
            2 => &third,
            _ => &fourth,
        };
        compare(rt, alloc, words_of(number), &guest, memory);
        guest.close();
    }
    ended.destroy_empty();
}

// A guest's memory is read before the end, and what was handed out of the guest is put together.
#[tactic(auto, using(crate::proofs::Crewing::debugger_of_crew, crate::proofs::Crewing::put_together))]
fn left_of<R: Abort + Wait>(
    rt: &R,
    alloc: Global,
    host: &Hosts,
    number: u32,
    mut crew: Crew,
    policy: Seat,
) -> (Handles, Vec<u8>)
    requires guest { number < length host.now.guests.cells.items }
    requires crew { IsCrewOf host.now.guests.cells.items number crew.runner crew.console crew.debugger crew.feed }
    requires policy { AtGuest host.now.guests.cells.items number (λ front. IsPolicySeat front policy) }
    ensures { AtGuest host.now.guests.cells.items number (λ front. AreHandlesOf front result.0) }
{
    let guest = GuestNo::new(number);
    let memory = memory_of(rt, alloc, host, guest, &mut crew.debugger);
    (together(crew, policy), memory)
}

// The host ends. The memories of the guests come with what it leaves.
fn end<R: Abort + Wait>(rt: &R, alloc: Global, team: Team) -> (Finished<Store>, [Vec<u8>; 4]) {
    let Team {
        host,
        first,
        second,
        third,
        fourth,
        policies,
    } = team;
    let (one, other, next, last) = four_of(rt, policies);
    let (first, one) = left_of(rt, alloc, &host, 0, first, one);
    let (second, other) = left_of(rt, alloc, &host, 1, second, other);
    let (third, next) = left_of(rt, alloc, &host, 2, third, next);
    let (fourth, last) = left_of(rt, alloc, &host, 3, fourth, last);
    match Vec::from_array(alloc, [first, second, third, fourth]) {
        Ok(handles) => (host.finish(rt, handles), [one, other, next, last]),
        Err(_) => panic!(rt; "no memory for the handles"),
    }
}

// All threads at once over four guests, for so many rounds, while the store's k-th read or write fails. No answer goes astray, the books add up at each
// moment that they are looked at, and in the end each guest is in the state that its log makes of the reference machine, to the last byte. The answer is
// how often the store has failed.
fn race_once<R: Abort + Threads + Wait + Sync>(
    rt: &R,
    alloc: Global,
    rounds: u32,
    op: Op,
    k: u64,
) -> u64 {
    let team = team_of(rt, alloc, booted(rt, alloc, op, k));
    let team = at_once(rt, alloc, team, rounds);
    let (finished, memories) = end(rt, alloc, team);
    let Finished {
        books,
        guests,
        store,
    } = finished;
    assert!(rt; adds_up(&books), "{books:?}");
    let failures = store.failures();
    compare_all(rt, alloc, guests, memories);
    failures
}

/// How many races there are at most until one in which the store is asked often enough to fail.
const TRIES: u32 = 20;

/// A race of all threads in which the store's k-th read or write fails; none does for the greatest k. How often a race asks the store is up to the
/// schedule, so another one is made where it was too seldom.
pub(crate) fn race<R: Abort + Threads + Wait + Sync>(
    rt: &R,
    alloc: Global,
    rounds: u32,
    op: Op,
    k: u64,
) {
    let wanted = if k == u64::MAX { 0 } else { 1 };
    for _ in 0..TRIES {
        let failures = race_once(rt, alloc, rounds, op, k);
        if failures == wanted {
            return;
        }
        expect(rt, "failures", failures, 0);
    }
    panic!(rt; "the store was never asked often enough");
}
