//! Guests that are booted, all of them or none.
ghost use Rattle.std.specs.Prelude.{◌≡◌, ◌+◌, ◌<◌, ◌≤◌, ℕ, true, All, Option, None, List, [], IfOk, IfErr, OnOk, IsErrOf, length, map, replicate, sum_by, vec_capacity};
ghost use Rattle.frames.specs.Counts.{count_of, below};
ghost use Rattle.sharetab.specs.Entries.{EntriesAre};
ghost use Rattle.sharetab.specs.Maps.{at_page};
ghost use Rattle.sharetab.specs.declared.guest_page.GuestPage.{GuestPage};
ghost use Rattle.swapstore.specs.Failures.{one_more};
ghost use Rattle.page_moves.specs.Books.{Books as AreExact};
ghost use Rattle.guest.specs.Guests.{Intact};
ghost use Rattle.tenant.specs.Loading.{WhyNotLoaded};
ghost use Rattle.booting.specs.Boots.{AreAdmitted, AreAtBoot, AreWithinLimits, HoldsImage, IsWithinLimits, KeepsPages, WhyNotBooted, pages_in};
ghost use Rattle.booting.specs.Places.{FramesComeFirst, SlotsComeInOrder};
ghost use Rattle.booting.specs.Stores.{StoreStays};

use crate::limits::refusal;
use crate::{Config, NewGuest};
use elf32::Image;
use framepool::Pool;
use guest::Guest;
use sharetab::Shares;
use std::alloc::{AllocError, Global};
use std::sync::Arc;
use swapstore::{SlotBook, SwapStore};
use tenant::{BootError, loaded};

/// Guests at the boot of their images, and what lies around them.
pub struct Booted<S> {
    /// The guests, that of number g at place g. None has a seat yet.
    pub guests: Vec<Guest>,
    /// What was asked for, a guest each, in the same order.
    pub asked: Vec<NewGuest>,
    /// The free frames.
    pub pool: Pool,
    /// The free slots.
    pub slots: SlotBook,
    /// The shared frames, of which there is none yet.
    pub shares: Shares,
    /// The store of the pages that are in slots.
    pub store: S,
}

impl<S: SwapStore> Booted<S> {
    ghost use Rattle.std.specs.Prelude.{◌≡◌, ◌≤◌, ℕ, None, [], IfOk, IfErr, length, replicate, vec_capacity};
    ghost use Rattle.frames.specs.Counts.{count_of, below};
    ghost use Rattle.page_moves.specs.Books.{Books as AreExact};
    ghost use Rattle.sharetab.specs.Maps.{at_page};
    ghost use Rattle.sharetab.specs.declared.guest_page.GuestPage.{GuestPage};

    // No guest, with room for those that are asked for; all frames and slots are free.
    fn of_none(alloc: Global, frames: u32, asked: Vec<NewGuest>, store: S) -> Result<Booted<S>, S>
        ensures none { IfOk result (λ b. b.guests.items ≡ []) }
        ensures room { IfOk result (λ b. length asked.items ≤ vec_capacity b.guests) }
        ensures asked { IfOk result (λ b. b.asked ≡ asked) }
        ensures store { IfOk result (λ b. b.store ≡ store) }
        ensures exact { IfOk result (λ b. AreExact frames (S.slots store) [] b.shares.entries b.pool b.slots) }
        ensures frames { IfOk result (λ b. length b.pool.free ≡ frames) }
        ensures slots { IfOk result (λ b. length b.slots.free ≡ S.slots store) }
        ensures each_slot { IfOk result (λ b. (k : ℕ) → count_of k b.slots.free ≡ below k (S.slots store)) }
        ensures unshared { IfOk result (λ b. b.shares.entries ≡ replicate frames None) }
        ensures hints { IfOk result (λ b. (page : GuestPage) → at_page b.shares.hints page ≡ None) }
        ensures back { IfErr result (λ s. s ≡ store) }
    {
        let Ok(guests) = Vec::with_capacity(alloc, asked.len()) else {
            return Err(store);
        };
        let Ok(pool) = Pool::new(alloc, frames) else {
            guests.destroy_empty();
            return Err(store);
        };
        let Ok(slots) = SlotBook::new(alloc, store.slot_count()) else {
            guests.destroy_empty();
            pool.close();
            return Err(store);
        };
        let Ok(shares) = Shares::new(alloc, frames) else {
            guests.destroy_empty();
            pool.close();
            slots.close();
            return Err(store);
        };
        Ok(Booted {
            guests,
            asked,
            pool,
            slots,
            shares,
            store,
        })
    }

    /// Gives the guests up, and what lies around them. The store comes back.
    pub fn close(self) -> S
        ensures { result ≡ self.store }
    {
        let Booted {
            mut guests,
            asked: _,
            pool,
            slots,
            shares,
            store,
        } = self;
        while let Some(guest) = guests.pop() {
            guest.close();
        }
        guests.destroy_empty();
        pool.close();
        slots.close();
        shares.close();
        store
    }
}

// One more owner of an image.
fn owner(image: &Arc<Image, Global>) -> Result<Arc<Image, Global>, AllocError>
    ensures { IfOk result (λ owner. owner.value ≡ image.now.value) }
{
    image.clone()
}

// The guests that are asked for are booted, one after another.
#[tactic(auto, using(crate::proofs::PageCounts::few_pages))]
fn boot_each<S: SwapStore>(
    alloc: Global,
    asked: &[NewGuest],
    log_runs: u32,
    guests: &mut Vec<Guest>,
    pool: &mut Pool,
    slots: &mut SlotBook,
    store: &mut S,
) -> Result<(), BootError>
    requires none { guests.old.items ≡ [] }
    requires room { length asked.now ≤ vec_capacity guests.old }
    requires within { All IsWithinLimits asked.now }
    requires hold { All HoldsImage asked.now }
    requires each_slot { (k : ℕ) → count_of k slots.old.free ≡ below k (S.slots store.old) }
    ensures at_boot { OnOk result (AreAtBoot log_runs asked.now guests.new.items) }
    ensures intact { OnOk result (All Intact guests.new.items) }
    ensures kept { OnOk result (All (KeepsPages (S.held store.new)) guests.new.items) }
    ensures exact { OnOk result ((frames : ℕ) (entries : EntriesAre) → AreExact frames (S.slots store.old) [] entries pool.old slots.old →
        AreExact frames (S.slots store.old) (map pages_in guests.new.items) entries pool.new slots.new) }
    ensures frames_first { OnOk result (FramesComeFirst pool.new (map pages_in guests.new.items)) }
    ensures slots_in_order { OnOk result (SlotsComeInOrder slots.new (map pages_in guests.new.items)) }
    ensures no_failure { OnOk result (S.failed store.new ≡ S.failed store.old) }
    ensures room { IsErrOf result BootError.Room → length pool.old.free + length slots.old.free < sum_by (λ g. g.pages) asked.now }
    ensures err { IfErr result (WhyNotLoaded (S.failed store.new ≡ one_more (S.failed store.old))) }
    ensures stays { StoreStays S.SwapStore store.old store.new }
{
    for guest in asked {
        let Ok(image) = owner(&guest.image) else {
            return Err(BootError::Memory);
        };
        match loaded(
            alloc,
            guest.profile,
            image,
            guest.pages,
            log_runs,
            pool,
            slots,
            store,
        ) {
            Ok(guest) => guests.push_reserved(guest),
            Err(error) => return Err(error),
        }
    }
    Ok(())
}

/// Guests with so many frames and the slots of a store, which has at most 131,072, each guest at the boot of its image, in the order in
/// which they are asked for. The images' pages are in frames while one is free, guests and pages rising, and then in slots, whose numbers
/// rise from 0.
///
/// They are refused, and the store comes back, where a number is outside its limits or there are no or more than 16 guests
/// (`Limits`); else where a guest's pages don't hold its image (`Segment`); else, where guests are to be admitted by their minimums,
/// where there are too few frames for these (`AdmitFrames`), or too few slots for their other pages (`AdmitSlots`); else where a page
/// of an image found neither frame nor slot (`Room`), so only where frames and slots together are fewer than the guests' pages, and
/// never where they are admitted by their minimums; the store failed to write one (`Store`), or a request for memory was refused
/// (`Memory`).
pub fn boot<S: SwapStore>(
    alloc: Global,
    config: Config,
    guests: Vec<NewGuest>,
    store: S,
) -> Result<Booted<S>, (BootError, S)>
    ensures asked { IfOk result (λ b. b.asked.items ≡ guests.items) }
    ensures at_boot { IfOk result (λ b. AreAtBoot config.log_runs guests.items b.guests.items) }
    ensures intact { IfOk result (λ b. All Intact b.guests.items) }
    ensures kept { IfOk result (λ b. All (KeepsPages (S.held b.store)) b.guests.items) }
    ensures exact { IfOk result (λ b. AreExact config.frames (S.slots b.store) (map pages_in b.guests.items) b.shares.entries b.pool b.slots) }
    ensures unshared { IfOk result (λ b. b.shares.entries ≡ replicate config.frames None) }
    ensures hints { IfOk result (λ b. (page : GuestPage) → at_page b.shares.hints page ≡ None) }
    ensures store { IfOk result (λ b. StoreStays S.SwapStore store b.store) }
    ensures no_failure { IfOk result (λ b. S.failed b.store ≡ S.failed store) }
    ensures within { IfOk result (λ b. AreWithinLimits config (S.slots store) guests.items × All HoldsImage guests.items × AreAdmitted config (S.slots store) guests.items) }
    ensures frames_first { IfOk result (λ b. FramesComeFirst b.pool (map pages_in b.guests.items)) }
    ensures slots_in_order { IfOk result (λ b. SlotsComeInOrder b.slots (map pages_in b.guests.items)) }
    ensures err { IfErr result (λ refused. WhyNotBooted config (S.slots store) guests.items refused.0) }
    ensures failed { IfErr result (λ refused. refused.0 ≡ BootError.Store → S.failed refused.1 ≡ one_more (S.failed store)) }
    ensures admitted_find_room { IfErr result (λ refused. refused.0 ≡ BootError.Room → config.admit ≡ true → ⊥) }
    ensures back { IfErr result (λ refused. StoreStays S.SwapStore store refused.1) }
{
    if let Some(error) = refusal(config, store.slot_count(), &guests) {
        return Err((error, store));
    }
    let mut booted = match Booted::of_none(alloc, config.frames, guests, store) {
        Ok(booted) => booted,
        Err(store) => return Err((BootError::Memory, store)),
    };
    let parts = &mut booted;
    match boot_each(
        alloc,
        &parts.asked,
        config.log_runs,
        &mut parts.guests,
        &mut parts.pool,
        &mut parts.slots,
        &mut parts.store,
    ) {
        Ok(()) => Ok(booted),
        Err(error) => Err((error, booted.close())),
    }
}
