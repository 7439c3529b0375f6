//! Worlds that are booted with all of their guests.
ghost use Rattle.std.specs.Prelude.{◌≡◌, ◌≤◌, ℕ, All, [], length, map, vec_capacity};
ghost use Rattle.booting.specs.Boots.{AreAtBoot, IsWithinLimits};
ghost use Rattle.world.specs.Boots.{AreBooted, guest_in, with_seats};

use crate::{Config, NewGuest, Parts, World};
use booting::Booted;
use guest::Guest;
use reclaim::Level;
use std::alloc::Global;
use swapstore::SwapStore;
use tenant::{BootError, Tenant};

// Guests that are booted get their seats, and what the policy goes by.
fn seat_each(guests: Vec<Guest>, asked: &[NewGuest], tenants: &mut Vec<Tenant>)
    requires none { tenants.old.items ≡ [] }
    requires room { length guests.items ≤ vec_capacity tenants.old }
    requires within { All IsWithinLimits asked.now }
    requires at_boot { (runs : ℕ) × AreAtBoot runs asked.now guests.items }
    ensures guests { map guest_in tenants.new.items ≡ map with_seats guests.items }
    ensures booted { (runs : ℕ) → AreAtBoot runs asked.now guests.items → AreBooted runs asked.now tenants.new.items }
{
    let mut rest = guests.into_iter();
    for new in asked {
        let Some(guest) = rest.next() else {
            unreachable!()
        };
        tenants.push_reserved(Tenant::new(guest, new.shares, new.minimum));
    }
    rest.destroy_empty();
}

impl<S: SwapStore> World<S> {
    ghost use Rattle.std.specs.Prelude.{◌≡◌, ◌≤◌, ℕ, true, All, IfOk, IfErr, None, [], length, map, vec_capacity};
    ghost use Rattle.world.specs.All.{AreAdmitted, AreBooted, AreWithinLimits, BootError, FramesComeFirst, GuestPage, HoldsImage, IsAdmitted, Level, SlotsComeInOrder, StoreStays, WhyNotBooted, at_page, one_more, pages_in};

    /// A world with these guests, each at the boot of its image, in their order. The image's pages are in frames while one is free,
    /// guests and pages rising, and then in slots of the store, which has at most 131,072, the slots' numbers rising from 0.
    ///
    /// It is refused, and the store comes back, where a number is outside its limits or there are no or more than 16 guests
    /// (`Limits`); else where a guest's pages don't hold its image (`Segment`); else, where guests are to be admitted by their minimums,
    /// where there are too few frames for these (`AdmitFrames`), or too few slots for their other pages (`AdmitSlots`); else where a page
    /// of an image found neither frame nor slot (`Room`), so only where frames and slots together are fewer than the guests' pages, and
    /// never where they are admitted by their minimums; the store failed to write one (`Store`), or a request for memory was refused
    /// (`Memory`).
    pub fn boot(
        alloc: Global,
        config: Config,
        guests: Vec<NewGuest>,
        store: S,
    ) -> Result<World<S>, (BootError, S)>
        ensures booted { IfOk result (λ w. AreBooted config.log_runs guests.items w.tenants) }
        ensures hints { IfOk result (λ w. (page : GuestPage) → at_page w.shares.hints page ≡ None) }
        ensures frames { IfOk result (λ w. w.frames ≡ config.frames) }
        ensures level { IfOk result (λ w. w.level ≡ Level.High) }
        ensures store { IfOk result (λ w. StoreStays S.SwapStore store w.store) }
        ensures within { IfOk result (λ w. AreWithinLimits config (S.slots store) guests.items × All HoldsImage guests.items × AreAdmitted config (S.slots store) guests.items) }
        ensures admitted { IfOk result (λ w. config.admit ≡ true → IsAdmitted config.frames (S.slots store) w.tenants) }
        ensures frames_first { IfOk result (λ w. FramesComeFirst w.pool (map pages_in w.tenants)) }
        ensures slots_in_order { IfOk result (λ w. SlotsComeInOrder w.slots (map pages_in w.tenants)) }
        ensures err { IfErr result (λ refused. WhyNotBooted config (S.slots store) guests.items refused.0) }
        ensures failed { IfErr result (λ refused. refused.0 ≡ BootError.Store → S.failed refused.1 ≡ one_more (S.failed store)) }
        ensures admitted_find_room { IfErr result (λ refused. refused.0 ≡ BootError.Room → config.admit ≡ true → ⊥) }
        ensures back { IfErr result (λ refused. StoreStays S.SwapStore store refused.1) }
    {
        let booted = match booting::boot(alloc, config, guests, store) {
            Ok(booted) => booted,
            Err(refused) => return Err(refused),
        };
        let Ok(mut tenants) = Vec::with_capacity(alloc, booted.guests.len()) else {
            return Err((BootError::Memory, booted.close()));
        };
        let Booted {
            guests,
            asked,
            pool,
            slots,
            shares,
            store,
        } = booted;
        seat_each(guests, &asked, &mut tenants);
        Ok(World::from_parts(Parts {
            tenants,
            pool,
            slots,
            shares,
            store,
            frames: config.frames,
            level: Level::High,
        }))
    }
}
