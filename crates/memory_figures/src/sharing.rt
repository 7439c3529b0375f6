//! Guests of one image on a third of the memory that they were promised, whose pages are scanned for equal ones.
use crate::guests::{PAGES, guest_of, image_of, world_of};
use items::{DebugRegister, Item, SeatNo, What};
use page_moves::Scan;
use rand_core::SeedableRng;
use rand_pcg::Pcg32;
use std::alloc::{AllocError, Global};
use std::fmt;
use std::sync::Arc;
use swapstore::MemStore;
use taxpolicy::Tax;
use word32::Ppn;
use world::{BookCounts, World};

/// Up to how many guests there are.
pub const MOST_GUESTS: u32 = 10;

/// How many pages all guests have alike: code and tables, which are read alone. Each guest writes its own number into the other pages.
const COMMON: u32 = 208;

/// Reads a word of each common page but the first, writes the guest's number ($16) and the page's address to each other page, and again.
static CODE: [u32; 16] = [
    0x3c01_8000, // start:  lui $1,0x8000
    0x3402_00cf, //         ori $2,$0,207
    0x2421_1000, // read:   addiu $1,$1,4096
    0x8c23_0000, //         lw $3,0($1)
    0x2442_ffff, //         addiu $2,$2,-1
    0x1440_fffc, //         bne $2,$0,read
    0x0000_0000, //         sll $0,$0,0
    0x3402_0030, //         ori $2,$0,48
    0x2421_1000, // write:  addiu $1,$1,4096
    0xac30_0000, //         sw $16,0($1)
    0xac21_0004, //         sw $1,4($1)
    0x2442_ffff, //         addiu $2,$2,-1
    0x1440_fffb, //         bne $2,$0,write
    0x0000_0000, //         sll $0,$0,0
    0x1000_fff1, //         beq $0,$0,start
    0x0000_0000, //         sll $0,$0,0
];

/// How often each guest has a turn, how many steps it makes in one, and how many pages are scanned after it.
const ROUNDS: u32 = 200;

const STEPS: u32 = 60;

const SCANS: u32 = 64;

const TAX: Tax = Tax { percent: 75 };

/// What the books of the guests of an image count, whose pages were scanned for a while.
#[derive(Clone, Copy)]
pub struct Shared {
    books: BookCounts,
}

impl Shared {
    /// How many pages share a frame.
    pub fn references(&self) -> u64 {
        self.books.references
    }

    /// How many frames they share.
    pub fn shared(&self) -> u64 {
        self.books.shared
    }

    /// How many pages are in slots.
    pub fn swapped(&self) -> u64 {
        self.books.swapped
    }
}

impl fmt::Display for Shared {
    fn fmt<W: fmt::Write>(&self, f: &mut fmt::Formatter<W>) -> fmt::Result {
        let BookCounts {
            frames,
            free,
            private,
            shared,
            references,
            swapped,
            slots: _,
        } = self.books;
        write!(
            f,
            "{frames} {free} {private} {shared} {references} {swapped}"
        )
    }
}

/// The number of a guest is in its register 16.
fn tell_number(world: &mut World<MemStore>, guest: u32) {
    let g = guest as usize;
    if g >= world.count() {
        return;
    }
    let item = Item {
        seat: SeatNo::new(3),
        what: What::Poke {
            register: DebugRegister::new(16),
            value: guest,
        },
    };
    let _reply = world.input(g, item);
}

/// A turn of a guest.
fn take_turn(alloc: Global, world: &mut World<MemStore>, g: usize, rng: &mut Pcg32) {
    if g < world.count() {
        let _ran = world.run_steps(alloc, g, STEPS, TAX, rng);
    }
}

/// Scans a page, and then the one that was noted with the same digest, where there is one, so that both share a frame.
fn scan_page(world: &mut World<MemStore>, guest: u32, p: Ppn) {
    if guest as usize >= world.count() {
        return;
    }
    if let Scan::Admitted(other) = world.scan(guest as usize, p) {
        let g = other.guest.number() as usize;
        if g < world.count() {
            let _scan = world.scan(g, other.page);
        }
    }
}

/// Scans pages in rising order, guest after guest, going round. `next` counts the pages of all guests.
fn scan_pages(world: &mut World<MemStore>, next: u32) {
    for at in next..next.saturating_add(SCANS) {
        scan_page(world, at / PAGES, Ppn::new(at % PAGES));
    }
}

/// The guests of one image, of which each knows its number.
fn booted(alloc: Global, guests: u32) -> Result<World<MemStore>, AllocError> {
    let image = Arc::new(alloc, image_of(alloc, &CODE, COMMON)?)?;
    let mut all = Vec::new(alloc);
    for _ in 0..guests {
        all.push(guest_of(&image)?)?;
    }
    let frames = guests.min(MOST_GUESTS) * PAGES / 3;
    let mut world = world_of(alloc, frames, all)?;
    for g in 0..guests {
        tell_number(&mut world, g);
    }
    Ok(world)
}

/// So many guests of one image on a third of the memory that they were promised take turns, while their pages are scanned: what the books
/// count in the end.
pub fn books_of(alloc: Global, guests: u32) -> Result<Shared, AllocError> {
    let mut world = booted(alloc, guests)?;
    let mut rng = Pcg32::seed_from_u64(0);
    let mut next = 0;
    for _ in 0..ROUNDS {
        for g in 0..guests {
            take_turn(alloc, &mut world, g as usize, &mut rng);
            scan_pages(&mut world, next);
            next = next.saturating_add(SCANS) % (guests.min(MOST_GUESTS).max(1) * PAGES);
        }
    }
    let books = world.books();
    drop(world.close());
    Ok(Shared { books })
}
