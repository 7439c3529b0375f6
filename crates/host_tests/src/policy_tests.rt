//! Pages that the policy chooses leave their frames, and its turns, with books that are counted by hand.
use crate::bench::expect;
use crate::images::STANDING;
use crate::pairs::{Asked, Pair, SEED, at_level, books, booted_pair, memory_store, word_at};
use cell::Open;
use guest_number::GuestNo;
use host::Request;
use host_policy::Evicted;
use page_moves::Scan;
use rand_core::{Rng, SeedableRng};
use rand_pcg::Pcg32;
use reclaim::Level;
use sharetab::GuestPage;
use std::alloc::Global;
use std::process::Abort;
use std::sync::Wait;
use swapstore::MemStore;
use word32::Ppn;

#[test]
fn the_first_words_of_the_seed(rt: HostRuntime) {
    let mut words = Pcg32::seed_from_u64(SEED);
    let first = [
        words.next_u32() % 16,
        words.next_u32() % 16,
        words.next_u32() % 16,
    ];
    expect(&rt, "of 16 pages", first, [5, 1, 2]);
}

// Of 10 frames each guest has three, for its pages 0, 5 and 6. Page 5 is the same in both.
fn two_alike<R: Abort + Wait>(rt: &R, alloc: Global) -> Pair<MemStore, Open> {
    let one = Asked {
        words: &STANDING,
        first: 1,
        others: &[(5, 0x11), (6, 0x60)],
        pages: 16,
    };
    let other = Asked {
        others: &[(5, 0x11), (6, 0x61)],
        ..one
    };
    let store = memory_store(rt, alloc, 16);
    booted_pair(rt, alloc, 10, &[one, other], store, Open)
}

// They come to share page 5.
fn share<R: Abort + Wait>(rt: &R, pair: &Pair<MemStore, Open>) {
    let before = books(10, 4, 6, 0, 0, 0, 16);
    pair.expect_books(rt, "six pages", before);
    let first = GuestPage {
        guest: GuestNo::new(0),
        page: Ppn::new(5),
    };
    expect(
        rt,
        "one",
        pair.host.scan_page(rt, GuestNo::new(0), 5),
        Scan::Noted,
    );
    let admitted = Scan::Admitted(first);
    expect(
        rt,
        "two",
        pair.host.scan_page(rt, GuestNo::new(1), 5),
        admitted,
    );
    expect(
        rt,
        "three",
        pair.host.scan_page(rt, GuestNo::new(0), 5),
        Scan::Joined,
    );
    let shared = books(10, 5, 4, 1, 2, 0, 16);
    pair.expect_books(rt, "shared", shared);
}

#[test]
fn the_frame_of_a_shared_page_comes_free_once_it_has_left_for_both_guests(rt: HostRuntime) {
    let alloc = rt.alloc();
    let mut pair = two_alike(&rt, alloc);
    share(&rt, &pair);
    // Both have as many shares and pages, so the lower number is the victim's; the word is 5.
    let first = Evicted::Page(0, Ppn::new(5));
    expect(&rt, "guest 0's", pair.host.evict_one(&rt), first);
    let one_left = books(10, 5, 4, 1, 1, 1, 16);
    pair.expect_books(&rt, "for one", one_left);
    // Guest 0 has no more than two pages left. The word is 1, and the first page in a frame from there on is 5.
    let second = Evicted::Page(1, Ppn::new(5));
    expect(&rt, "guest 1's", pair.host.evict_one(&rt), second);
    let both_left = books(10, 6, 4, 0, 0, 2, 16);
    pair.expect_books(&rt, "for both", both_left);
    expect(&rt, "no more", pair.host.evict_one(&rt), Evicted::Nobody);
    let read = pair.ask_first(&rt, alloc, Request::Read(0x8000_5000, 4));
    expect(&rt, "guest 0 reads", word_at(read), Some(0x1111_1111));
    let read = pair.ask_second(&rt, alloc, Request::Read(0x8000_5000, 4));
    expect(&rt, "guest 1 reads", word_at(read), Some(0x1111_1111));
    let back = books(10, 4, 6, 0, 0, 0, 16);
    pair.expect_books(&rt, "back", back);
}

// Two guests of 1,000 pages, with so many in frames, of 1,000.
fn large_pair<R: Abort + Wait>(
    rt: &R,
    alloc: Global,
    first: u32,
    second: u32,
) -> Pair<MemStore, Open> {
    let one = Asked {
        words: &STANDING,
        first,
        others: &[],
        pages: 1000,
    };
    let other = Asked {
        first: second,
        ..one
    };
    let store = memory_store(rt, alloc, 100);
    booted_pair(rt, alloc, 1000, &[one, other], store, Open)
}

// Six in a hundred frames are to stay free, which leaves 940: the guest with more pages is to lose pages until both together have no more.
#[test]
fn a_soft_turn_asks_the_larger_guest_for_what_it_has_too_much(rt: HostRuntime) {
    let alloc = rt.alloc();
    let mut pair = large_pair(&rt, alloc, 500, 470);
    // 30 frames are free: less than four in a hundred, but not less than two.
    let before = books(1000, 30, 970, 0, 0, 0, 100);
    pair.expect_books(&rt, "at boot", before);
    expect(&rt, "high", pair.host.level(&rt), Level::High);
    let soft = at_level(Level::Soft);
    expect(&rt, "soft", pair.turn(&rt, alloc), soft);
    // 500 and 470 are 30 more than 940, and guest 0 has as many as guest 1 without them.
    expect(&rt, "targets", pair.targets(&rt), (30, 0));
    expect(&rt, "in frames", pair.resident(&rt), (500, 470));
    pair.expect_books(&rt, "books", before);
    let items = (
        pair.host.status(&rt, GuestNo::new(0)).items,
        pair.host.status(&rt, GuestNo::new(1)).items,
    );
    expect(&rt, "an item", items, (1, 0));
}

#[test]
fn a_hard_turn_takes_from_the_larger_guest_what_it_has_too_much(rt: HostRuntime) {
    let alloc = rt.alloc();
    let mut pair = large_pair(&rt, alloc, 520, 470);
    // 10 frames are free: less than two in a hundred, but not less than one.
    let before = books(1000, 10, 990, 0, 0, 0, 100);
    pair.expect_books(&rt, "at boot", before);
    let hard = at_level(Level::Hard);
    expect(&rt, "hard", pair.turn(&rt, alloc), hard);
    // 520 and 470 are 50 more than 940, and guest 0 has as many as guest 1 without them.
    expect(&rt, "in frames", pair.resident(&rt), (470, 470));
    expect(&rt, "in slots", pair.swapped(&rt), (50, 0));
    expect(&rt, "targets", pair.targets(&rt), (0, 0));
    let after = books(1000, 60, 940, 0, 0, 50, 100);
    pair.expect_books(&rt, "books", after);
    // 60 frames are six in a hundred.
    let high = at_level(Level::High);
    expect(&rt, "high", pair.turn(&rt, alloc), high);
    pair.expect_books(&rt, "no more", after);
}
