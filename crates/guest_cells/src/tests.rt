//! The guests of the tests, which are booted over a store of which a write fails.
ghost use Rattle.std.specs.Prelude.{◌≡◌, ◌≤◌, ◌<◌, IfOk};
ghost use Rattle.guest_cells.specs.Handles.{AreHandlesOfAll};

use crate::{Booted, GuestCells};
use booting::{Config, NewGuest};
use elf32::Image;
use machine_memory::BookCounts;
use mips_cp0::Profile;
use std::alloc::{AllocError, Global};
use std::fmt::Debug;
use std::process::Abort;
use std::sync::{Arc, Wait};
use swapstore::{FaultStore, MemStore, Op, SwapStore};
use tenant::BootError;

/// A store of which a write fails.
pub(crate) type Store = FaultStore<MemStore>;

/// What is asked for. All guests are alike but for the bytes of their images.
#[derive(Clone, Copy)]
pub(crate) struct Numbers {
    pub(crate) frames: u32,
    pub(crate) slots: u32,
    pub(crate) log_runs: u32,
    pub(crate) guests: u32,
    pub(crate) pages: u32,
    pub(crate) minimum: u32,
    /// How many bytes each image has: the program, and then the guest's number and 1 again and again.
    pub(crate) size: usize,
    /// Whether guests are admitted by their minimums alone.
    pub(crate) admit: bool,
    /// Which write of the store fails.
    pub(crate) failing: u64,
}

/// Two guests of four pages, all of them of their images, which have a frame each.
pub(crate) const PLAIN: Numbers = Numbers {
    frames: 8,
    slots: 8,
    log_runs: 64,
    guests: 2,
    pages: 4,
    minimum: 2,
    size: 16_384,
    admit: false,
    failing: 1_000_000,
};

/// Adds 1 to a register and stores it at the beginnings of pages 1, 2 and 3, again and again: a round is 6 steps, and one step comes before
/// the first.
static STORING: [u32; 7] = [
    0x3c01_8000, // lui $1,0x8000
    0x2442_0001, // addiu $2,$2,1
    0xac22_1000, // sw $2,0x1000($1)
    0xac22_2000, // sw $2,0x2000($1)
    0xac22_3000, // sw $2,0x3000($1)
    0x0800_0001, // j 0x80000004
    0x0000_0000, // sll $0,$0,0
];

// Asserts one case. The tests share it, since each assertion in a function's own body makes its proof much longer.
pub(crate) fn expect<T: PartialEq + Debug + Drop>(
    rt: &impl Abort,
    case: &'static str,
    got: T,
    wanted: T,
) {
    assert!(rt; got == wanted, "{case}: {got:?}, not {wanted:?}");
}

// The image of the guest of a number.
fn image_of(alloc: Global, size: usize, guest: u32) -> Result<Arc<Image, Global>, AllocError> {
    let mut bytes = Vec::new(alloc);
    for word in &STORING {
        bytes.extend_from_slice(&word.to_le_bytes())?;
    }
    bytes.resize(size, (guest % 16) as u8 + 1)?;
    if bytes.len() > 65_536 {
        return Err(AllocError);
    }
    match Arc::new(alloc, Image::raw(alloc, bytes)?) {
        Ok(image) => Ok(image),
        Err(_) => Err(AllocError),
    }
}

fn guests_of(alloc: Global, numbers: &Numbers) -> Result<Vec<NewGuest>, AllocError> {
    let mut guests = Vec::new(alloc);
    for g in 0..numbers.guests {
        let guest = NewGuest {
            profile: Profile::One,
            image: image_of(alloc, numbers.size, g)?,
            pages: numbers.pages,
            shares: 1,
            minimum: numbers.minimum,
        };
        guests.push(guest)?;
    }
    Ok(guests)
}

/// Each byte of a store's last slot before a boot.
pub(crate) const MARK: u8 = 0x77;

fn store_of(alloc: Global, numbers: &Numbers) -> Result<Store, AllocError> {
    let mut store = MemStore::new(alloc, numbers.slots)?;
    if numbers.slots > 0 {
        let _written = store.write(numbers.slots - 1, &[MARK; 4096]);
    }
    Ok(FaultStore::new(store, Op::Write, numbers.failing.max(1)))
}

/// Guests that are booted, or why they are refused with the store that comes back. `AllocError` where there is no memory for what is asked
/// for.
#[tactic(auto, using(crate::proofs::Housing::asked_handles))]
pub(crate) fn booted<R: Wait>(
    rt: &R,
    alloc: Global,
    numbers: &Numbers,
) -> Result<Result<Booted<Store>, (BootError, Store)>, AllocError>
    ensures { IfOk result (λ r. IfOk r (λ b. AreHandlesOfAll b.cells.cells.items b.handles.items)) }
{
    let config = Config {
        frames: numbers.frames,
        log_runs: numbers.log_runs,
        admit: numbers.admit,
    };
    let guests = guests_of(alloc, numbers)?;
    let store = store_of(alloc, numbers)?;
    match GuestCells::boot(rt, alloc, config, guests, store) {
        Ok(booted) => Ok(Ok(booted)),
        Err(refused) => Ok(Err(refused)),
    }
}

/// Guests that are not refused.
pub(crate) fn ready<R: Abort + Wait>(rt: &R, alloc: Global, numbers: &Numbers) -> Booted<Store>
    ensures { AreHandlesOfAll result.cells.cells.items result.handles.items }
{
    match booted(rt, alloc, numbers) {
        Ok(Ok(booted)) => booted,
        Ok(Err((error, _store))) => panic!(rt; "not booted: {error:?}"),
        Err(_) => panic!(rt; "no memory for the guests"),
    }
}

/// How many slots a store has, and the first byte of the last of them.
pub(crate) fn last_slot(store: Store) -> (u32, Option<u8>) {
    let mut store = store.into_store();
    let slots = store.slot_count();
    let mut bytes = [0; 4096];
    if slots == 0 || store.read(slots - 1, &mut bytes).is_err() {
        return (slots, None);
    }
    (slots, Some(bytes[0]))
}

/// Of the frames and slots that are asked for, where none is shared.
pub(crate) fn so_many(numbers: &Numbers, private: u64, swapped: u64) -> BookCounts {
    let frames = u64::from(numbers.frames);
    BookCounts {
        frames,
        free: frames.saturating_sub(private),
        private,
        shared: 0,
        references: 0,
        swapped,
        slots: u64::from(numbers.slots),
    }
}
