//! A guest's image comes into its pages.
ghost use Rattle.std.specs.Prelude.{◌≡◌, ℕ, ◌+◌, ◌<◌, ◌≤◌, ◌^◌, ◌↔◌, IfOk, IfErr, OnOk, IsErrOf, Option, List, [], length, replicate};
ghost use Rattle.frames.specs.Counts.{count_of, below};
ghost use Rattle.frames.specs.FreeList.{FreeList};
ghost use Rattle.sharetab.specs.Entries.{EntriesAre};
ghost use Rattle.swapstore.specs.Failures.{one_more};
ghost use Rattle.elf32.specs.Images.{FitsPages};
ghost use Rattle.guest_pages.specs.declared.page.Page.{Page};
ghost use Rattle.guest_pages.specs.declared.page.PageKind.{PageKind};
ghost use Rattle.guest_pages.specs.Pages.{page_at, kind_at};
ghost use Rattle.guest_pages.specs.Holdings.{slots_held};
ghost use Rattle.guest.specs.Guests.{Intact, view_of, without_pages};
ghost use Rattle.guest.specs.Loading.{Reaches};
ghost use Rattle.guest.specs.Views.{pages_seen};
ghost use Rattle.page_moves.specs.Faith.{Kept};
ghost use Rattle.page_moves.specs.Moves.{Conserves, Reads};
ghost use Rattle.page_moves.specs.Supplies.{Supplies, WantsFrame};
ghost use Rattle.tenant.specs.Loading.{boot_number};
ghost use Rattle.tenant.specs.Lent.{UsedStay, WhyStays};
ghost use Rattle.tenant.specs.Loading.{IsAtBoot, boot_page, AreUntouched, AreLoaded, IsLoaded, IsFrameFirst, FramesFirst, NonePrivate, TakesLowest, SlotsRise, WhyNotLoaded};

use crate::moves::{EvictError, store_page};
use crate::supplying::supply_first_from;
use elf32::Image;
use framepool::Pool;
use guest::{Guest, load_image_page, reaches};
use mips_cp0::Profile;
use page_moves::{Pages, SupplyError};
use std::alloc::{AllocError, Global};
use std::sync::Arc;
use swapstore::{SlotBook, SwapStore};
use word32::Ppn;

/// Why a guest, or a world with guests, can't be booted.
#[derive(Clone, Copy, Debug, PartialEq, Eq)]
pub enum BootError {
    /// A number is outside its limits, or there are no or too many guests.
    Limits,
    /// A guest's pages don't hold its image.
    Segment,
    /// There are fewer frames than guests that are admitted by their minimums always keep, and one more for each.
    AdmitFrames,
    /// There are fewer slots than such guests have pages beside those.
    AdmitSlots,
    /// A page of its image found neither a free frame nor a free slot.
    Room,
    /// A page of its image found no free frame, and the store failed to write it.
    Store,
    /// A request for memory was refused.
    Memory,
}

impl BootError {
    /// Its number: 1 `Limits`, 2 `Segment`, 3 `Room`, 4 `Store`, 5 `Memory`, 6 `AdmitFrames`, 7 `AdmitSlots`.
    pub fn number(self) -> u32
        ensures { result ≡ boot_number self }
    {
        match self {
            BootError::Limits => 1,
            BootError::Segment => 2,
            BootError::Room => 3,
            BootError::Store => 4,
            BootError::Memory => 5,
            BootError::AdmitFrames => 6,
            BootError::AdmitSlots => 7,
        }
    }
}

// A page that was never touched gets a frame with the bytes that the image has for it.
fn load_in_frame(
    alloc: Global,
    guest: &mut Guest,
    image: &Image,
    p: Ppn,
    pool: &mut Pool,
) -> Result<(), SupplyError>
    requires fits { FitsPages image.now (length guest.old.bus.pages) }
    requires there { p < length guest.old.bus.pages }
    requires untouched { kind_at guest.old.bus.pages p ≡ PageKind.Zero }
    ensures conserves { (book : FreeList) (entries : EntriesAre) →
        Conserves guest.old.bus.pages pool.old book entries guest.new.bus.pages pool.new book entries }
    ensures reads { (entries : EntriesAre) → Reads entries guest.old.bus.pages → Reads entries guest.new.bus.pages }
    ensures rest { without_pages guest.new ≡ without_pages guest.old }
    ensures count { length guest.new.bus.pages ≡ length guest.old.bus.pages }
    ensures loaded { OnOk result (Supplies guest.old.bus.pages p (boot_page image.now (length guest.old.bus.pages) p) guest.new.bus.pages) }
    ensures some { OnOk result (0 < length pool.old.free) }
    ensures taken { OnOk result (length pool.old.free ≡ length pool.new.free + 1) }
    ensures err { IfErr result (WantsFrame pool.old) }
{
    supply_first_from(alloc, guest, p, pool)?;
    guest.load_page(image, p);
    Ok(())
}

// A page that was never touched gets the free slot of the lowest number, to which the bytes that the image has for it are written.
fn load_in_slot<S: SwapStore>(
    guest: &mut Guest,
    image: &Image,
    p: Ppn,
    slots: &mut SlotBook,
    store: &mut S,
) -> Result<(), EvictError>
    requires fits { FitsPages image.now (length guest.old.bus.pages) }
    requires there { p < length guest.old.bus.pages }
    requires untouched { kind_at guest.old.bus.pages p ≡ PageKind.Zero }
    requires once { (k : ℕ) → count_of k slots.old.free + slots_held k guest.old.bus.pages ≤ below k (S.slots store.old) }
    ensures conserves { (pool : FreeList) (entries : EntriesAre) →
        Conserves guest.old.bus.pages pool slots.old entries guest.new.bus.pages pool slots.new entries }
    ensures reads { (entries : EntriesAre) → Reads entries guest.old.bus.pages → Reads entries guest.new.bus.pages }
    ensures used { UsedStay slots.old (S.held store.old) (S.held store.new) }
    ensures rest { without_pages guest.new ≡ without_pages guest.old }
    ensures count { length guest.new.bus.pages ≡ length guest.old.bus.pages }
    ensures loaded { OnOk result (IsLoaded (S.held store.new) p (boot_page image.now (length guest.old.bus.pages) p)
        guest.old.bus.pages guest.new.bus.pages) }
    ensures away { OnOk result (kind_at guest.new.bus.pages p ≡ PageKind.Swapped) }
    ensures lowest { OnOk result (TakesLowest slots.old slots.new (page_at guest.new.bus.pages p)) }
    ensures taken { OnOk result (length slots.old.free ≡ length slots.new.free + 1) }
    ensures none { IsErrOf result EvictError.NoSwap → slots.old.free ≡ [] }
    ensures err { IfErr result (WhyStays slots.new (S.failed store.new ≡ one_more (S.failed store.old))) }
    ensures no_failure { OnOk result (S.failed store.new ≡ S.failed store.old) }
    ensures slots { S.slots store.new ≡ S.slots store.old }
    ensures honest { S.honest store.new ↔ S.honest store.old }
    ensures true_to_digests { S.true_to_digests store.new ↔ S.true_to_digests store.old }
{
    let mut bytes = [0; 4096];
    load_image_page(image, p, &mut bytes);
    store_page(guest, p, &bytes, slots, store)
}

// A page that was never touched gets a frame where one is free, else a slot, with the bytes that the image has for it.
fn load_one<S: SwapStore>(
    alloc: Global,
    guest: &mut Guest,
    image: &Image,
    p: Ppn,
    pool: &mut Pool,
    slots: &mut SlotBook,
    store: &mut S,
) -> Result<(), BootError>
    requires fits { FitsPages image.now (length guest.old.bus.pages) }
    requires there { p < length guest.old.bus.pages }
    requires untouched { kind_at guest.old.bus.pages p ≡ PageKind.Zero }
    requires once { (k : ℕ) → count_of k slots.old.free + slots_held k guest.old.bus.pages ≤ below k (S.slots store.old) }
    ensures conserves { (entries : EntriesAre) →
        Conserves guest.old.bus.pages pool.old slots.old entries guest.new.bus.pages pool.new slots.new entries }
    ensures reads { (entries : EntriesAre) → Reads entries guest.old.bus.pages → Reads entries guest.new.bus.pages }
    ensures used { UsedStay slots.old (S.held store.old) (S.held store.new) }
    ensures rest { without_pages guest.new ≡ without_pages guest.old }
    ensures count { length guest.new.bus.pages ≡ length guest.old.bus.pages }
    ensures loaded { OnOk result (IsLoaded (S.held store.new) p (boot_page image.now (length guest.old.bus.pages) p)
        guest.old.bus.pages guest.new.bus.pages) }
    ensures frame_first { OnOk result (IsFrameFirst pool.old pool.new (page_at guest.new.bus.pages p)) }
    ensures lowest { OnOk result (TakesLowest slots.old slots.new (page_at guest.new.bus.pages p)) }
    ensures taken { OnOk result (length pool.old.free + length slots.old.free ≡ length pool.new.free + length slots.new.free + 1) }
    ensures room { IsErrOf result BootError.Room → length pool.old.free + length slots.old.free ≡ 0 }
    ensures err { IfErr result (WhyNotLoaded (S.failed store.new ≡ one_more (S.failed store.old))) }
    ensures no_failure { OnOk result (S.failed store.new ≡ S.failed store.old) }
    ensures slots { S.slots store.new ≡ S.slots store.old }
    ensures honest { S.honest store.new ↔ S.honest store.old }
    ensures true_to_digests { S.true_to_digests store.new ↔ S.true_to_digests store.old }
{
    if pool.free() > 0 {
        return match load_in_frame(alloc, guest, image, p, pool) {
            Ok(()) => Ok(()),
            Err(_) => Err(BootError::Memory),
        };
    }
    match load_in_slot(guest, image, p, slots, store) {
        Ok(()) => Ok(()),
        Err(EvictError::NoSwap) => Err(BootError::Room),
        Err(EvictError::SwapWrite) => Err(BootError::Store),
    }
}

// The next page is loaded, where the image reaches it; else it stays as it is, zeros.
fn load_next<S: SwapStore>(
    alloc: Global,
    guest: &mut Guest,
    image: &Image,
    p: Ppn,
    pool: &mut Pool,
    slots: &mut SlotBook,
    store: &mut S,
) -> Result<(), BootError>
    requires fits { FitsPages image.now (length guest.old.bus.pages) }
    requires there { p < length guest.old.bus.pages }
    requires untouched { AreUntouched image.now p guest.old.bus.pages }
    requires frames_first { FramesFirst pool.old guest.old.bus.pages }
    requires slots_rise { SlotsRise slots.old guest.old.bus.pages }
    requires once { (k : ℕ) → count_of k slots.old.free + slots_held k guest.old.bus.pages ≤ below k (S.slots store.old) }
    ensures conserves { (entries : EntriesAre) →
        Conserves guest.old.bus.pages pool.old slots.old entries guest.new.bus.pages pool.new slots.new entries }
    ensures reads { (entries : EntriesAre) → Reads entries guest.old.bus.pages → Reads entries guest.new.bus.pages }
    ensures used { UsedStay slots.old (S.held store.old) (S.held store.new) }
    ensures rest { without_pages guest.new ≡ without_pages guest.old }
    ensures count { length guest.new.bus.pages ≡ length guest.old.bus.pages }
    ensures untouched { OnOk result (AreUntouched image.now (p + 1) guest.new.bus.pages) }
    ensures loaded { OnOk result (AreLoaded (S.held store.old) image.now (length guest.old.bus.pages) p guest.old.bus.pages →
        AreLoaded (S.held store.new) image.now (length guest.old.bus.pages) (p + 1) guest.new.bus.pages) }
    ensures frames_first { OnOk result (FramesFirst pool.new guest.new.bus.pages) }
    ensures slots_rise { OnOk result (SlotsRise slots.new guest.new.bus.pages) }
    ensures no_frames { pool.old.free ≡ [] → OnOk result (pool.new.free ≡ []) }
    ensures none_private { pool.old.free ≡ [] → NonePrivate guest.old.bus.pages → OnOk result (NonePrivate guest.new.bus.pages) }
    ensures taken { OnOk result (length pool.old.free + length slots.old.free ≤ length pool.new.free + length slots.new.free + 1) }
    ensures room { IsErrOf result BootError.Room → length pool.old.free + length slots.old.free ≡ 0 }
    ensures err { IfErr result (WhyNotLoaded (S.failed store.new ≡ one_more (S.failed store.old))) }
    ensures no_failure { OnOk result (S.failed store.new ≡ S.failed store.old) }
    ensures slots { S.slots store.new ≡ S.slots store.old }
    ensures honest { S.honest store.new ↔ S.honest store.old }
    ensures true_to_digests { S.true_to_digests store.new ↔ S.true_to_digests store.old }
{
    if reaches(image, p) {
        load_one(alloc, guest, image, p, pool, slots, store)
    } else {
        Ok(())
    }
}

// Each page that the image reaches is loaded, in rising order.
fn load<S: SwapStore>(
    alloc: Global,
    guest: &mut Guest,
    image: &Image,
    pool: &mut Pool,
    slots: &mut SlotBook,
    store: &mut S,
) -> Result<(), BootError>
    requires fits { FitsPages image.now (length guest.old.bus.pages) }
    requires few { length guest.old.bus.pages ≤ 2 ^ 20 }
    requires untouched { guest.old.bus.pages ≡ replicate (length guest.old.bus.pages) Page.Zero }
    requires once { (k : ℕ) → count_of k slots.old.free ≤ below k (S.slots store.old) }
    ensures conserves { (entries : EntriesAre) →
        Conserves guest.old.bus.pages pool.old slots.old entries guest.new.bus.pages pool.new slots.new entries }
    ensures reads { (entries : EntriesAre) → Reads entries guest.old.bus.pages → Reads entries guest.new.bus.pages }
    ensures used { UsedStay slots.old (S.held store.old) (S.held store.new) }
    ensures rest { without_pages guest.new ≡ without_pages guest.old }
    ensures count { length guest.new.bus.pages ≡ length guest.old.bus.pages }
    ensures untouched { OnOk result (AreUntouched image.now (length guest.old.bus.pages) guest.new.bus.pages) }
    ensures loaded { OnOk result (AreLoaded (S.held store.new) image.now (length guest.old.bus.pages) (length guest.old.bus.pages) guest.new.bus.pages) }
    ensures frames_first { OnOk result (FramesFirst pool.new guest.new.bus.pages) }
    ensures slots_rise { OnOk result (SlotsRise slots.new guest.new.bus.pages) }
    ensures no_frames { pool.old.free ≡ [] → OnOk result (pool.new.free ≡ []) }
    ensures none_private { pool.old.free ≡ [] → OnOk result (NonePrivate guest.new.bus.pages) }
    ensures taken { OnOk result (length pool.old.free + length slots.old.free ≤ length pool.new.free + length slots.new.free + length guest.old.bus.pages) }
    ensures room { IsErrOf result BootError.Room → length pool.old.free + length slots.old.free < length guest.old.bus.pages }
    ensures err { IfErr result (WhyNotLoaded (S.failed store.new ≡ one_more (S.failed store.old))) }
    ensures no_failure { OnOk result (S.failed store.new ≡ S.failed store.old) }
    ensures slots { S.slots store.new ≡ S.slots store.old }
    ensures honest { S.honest store.new ↔ S.honest store.old }
    ensures true_to_digests { S.true_to_digests store.new ↔ S.true_to_digests store.old }
{
    let count = guest.count();
    for p in 0..count {
        load_next(alloc, guest, image, Ppn::new(p), pool, slots, store)?;
    }
    Ok(())
}

// One more owner of an image.
fn owner(image: &Arc<Image, Global>) -> Result<Arc<Image, Global>, AllocError>
    ensures { IfOk result (λ owner. owner.value ≡ image.now.value) }
{
    image.clone()
}

/// A guest of a profile at the boot of an image, in a memory of `pages` pages that holds it, with no seat yet. Each page that the image reaches has its
/// bytes, in rising order in a frame of the pool while one is free, then in the free slot of the lowest number; no other page was touched.
///
/// `Room` where neither frame nor slot is free for one, so only where both together are fewer than the pages; `Store` where the store
/// failed to write one, `Memory` where a request for memory was refused. Frames and slots that were taken are gone then.
pub fn loaded<S: SwapStore>(
    alloc: Global,
    profile: Profile,
    image: Arc<Image, Global>,
    pages: u32,
    log_runs: u32,
    pool: &mut Pool,
    slots: &mut SlotBook,
    store: &mut S,
) -> Result<Guest, BootError>
    requires fits { FitsPages image.value pages }
    requires few { pages ≤ 2 ^ 20 }
    requires once { (k : ℕ) → count_of k slots.old.free ≤ below k (S.slots store.old) }
    ensures conserves { IfOk result (λ g. (entries : EntriesAre) →
        Conserves (replicate pages Page.Zero) pool.old slots.old entries g.bus.pages pool.new slots.new entries) }
    ensures reads { IfOk result (λ g. (entries : EntriesAre) → Reads entries g.bus.pages) }
    ensures used { UsedStay slots.old (S.held store.old) (S.held store.new) }
    ensures booted { IfOk result (IsAtBoot profile image.value pages log_runs) }
    ensures intact { IfOk result Intact }
    ensures kept { IfOk result (λ g. Kept (S.held store.new) (pages_seen (view_of g)) g.bus.pages) }
    ensures frames_first { IfOk result (λ g. FramesFirst pool.new g.bus.pages) }
    ensures slots_rise { IfOk result (λ g. SlotsRise slots.new g.bus.pages) }
    ensures slots_taken { IfOk result (λ g. (k : ℕ) → count_of k slots.new.free + slots_held k g.bus.pages ≡ count_of k slots.old.free) }
    ensures no_frames { pool.old.free ≡ [] → OnOk result (pool.new.free ≡ []) }
    ensures none_private { IfOk result (λ g. pool.old.free ≡ [] → NonePrivate g.bus.pages) }
    ensures taken { OnOk result (length pool.old.free + length slots.old.free ≤ length pool.new.free + length slots.new.free + pages) }
    ensures room { IsErrOf result BootError.Room → length pool.old.free + length slots.old.free < pages }
    ensures err { IfErr result (WhyNotLoaded (S.failed store.new ≡ one_more (S.failed store.old))) }
    ensures no_failure { OnOk result (S.failed store.new ≡ S.failed store.old) }
    ensures slots { S.slots store.new ≡ S.slots store.old }
    ensures honest { S.honest store.new ↔ S.honest store.old }
    ensures true_to_digests { S.true_to_digests store.new ↔ S.true_to_digests store.old }
{
    let Ok(its_image) = owner(&image) else {
        return Err(BootError::Memory);
    };
    let Ok(mut guest) = Guest::boot(alloc, profile, its_image, pages, log_runs) else {
        return Err(BootError::Memory);
    };
    match load(alloc, &mut guest, &image, pool, slots, store) {
        Ok(()) => Ok(guest),
        Err(error) => {
            guest.close();
            Err(error)
        }
    }
}
