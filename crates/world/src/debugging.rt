//! What a debugger reads and writes of guests by virtual addresses, with the pages that it needs supplied.

use crate::running::stop_of;
use crate::{FaultError, RunStop, World};
use guest::{Refused, Stop};
use items::{Item, SeatNo, What, WriteBytes};
use page_moves::Pages;
use rand_core::Rng;
use std::alloc::Global;
use swapstore::SwapStore;
use taxpolicy::Tax;
use tenant::Cause;
use victims::{Access, Spared, is_wanted};
use word32::Ppn;

/// Why a debugger's bytes are not read or written.
#[derive(Clone, Copy, Debug, PartialEq, Eq)]
pub enum DebugError {
    /// One of the bytes has no place in memory.
    NoPlace,
    /// A page that one of the bytes lies in is not there, or the log has no room for the write.
    Stop(RunStop),
}

impl<S: SwapStore> World<S> {
    ghost use Rattle.std.specs.Prelude.{◌≡◌, ◌≢◌, ◌<◌, ◌≤◌, ◌⊎◌, ◌↔◌, ◌++◌, ℕ, true, false, Some, None, OnOk, OnErr, IfErr, IsErrOf, length};
    ghost use Rattle.world.specs.All.{AreReached, AroundStays, Changes, GuestsStay, IfStopped, IsForRoom, IsFull, IsReached, IsReady, LieIn, NothingHappens, OnlyPagesAndRoom, OnlyPagesMove, PageKind, ReachesBytes, SameAround, SomePlaceIn, Stays, TenantIs, What, WhyHalted, WhyUnsupplied, WritesBytes, accepts, bytes_at, guest_at, is_wanted, kind_at, log_at, moment_of, page_at, pages_at, standing, view_at, written_items};
    ghost use Rattle.victims.specs.declared.wanted.Access.{Access};

    // One of two pages that a debugger reaches gets a frame of its own, where it is wanted, and no eviction takes either of them.
    fn supply_one<R: Rng>(
        &mut self,
        alloc: Global,
        g: usize,
        p: Ppn,
        reached: &(Ppn, Ppn),
        access: Access,
        tax: Tax,
        rng: &mut R,
    ) -> Result<(), FaultError>
        requires guest { g < length self.old.tenants }
        requires page { (t : TenantIs) → p < length (pages_at self.old g t) }
        ensures moves { OnlyPagesMove self.old.tenants self.new.tenants }
        ensures ready { OnOk result ((t : TenantIs) →
            IsReady access (page_at (pages_at self.old g t) p) (page_at (pages_at self.new g t) p)) }
        ensures stays { (t : TenantIs) → is_wanted access (kind_at (pages_at self.old g t) p) ≡ false →
            page_at (pages_at self.new g t) p ≡ page_at (pages_at self.old g t) p }
        ensures others { (t : TenantIs) (q : ℕ) → q ≢ p → ((q ≡ reached.now.0) ⊎ (q ≡ reached.now.1)) →
            page_at (pages_at self.new g t) q ≡ page_at (pages_at self.old g t) q }
        ensures chosen { IsReached self.old.frames (S.slots self.old.store) tax.percent access g reached.now p
            (moment_of (R.stream rng.old) self.old) (moment_of (R.stream rng.new) self.new) }
        ensures err { IfErr result (WhyUnsupplied S.SwapStore g (λ q. q ≡ p) self.old self.new) }
        ensures no_failure { OnOk result (S.failed self.new.store ≡ S.failed self.old.store) }
        ensures around { AroundStays S.SwapStore self.old self.new }
    {
        if !is_wanted(access, self.guest(g).kind(p)) {
            return Ok(());
        }
        let spared = Some(Spared {
            guest: g,
            pages: *reached,
        });
        self.supply_sparing(alloc, g, p, &spared, Cause::Debugger, tax, rng)
    }

    // Each of two pages that a debugger reaches gets a frame of its own, where it is wanted, the one of the lower number first.
    fn supply_reached<R: Rng>(
        &mut self,
        alloc: Global,
        g: usize,
        reached: &(Ppn, Ppn),
        access: Access,
        tax: Tax,
        rng: &mut R,
    ) -> Result<(), FaultError>
        requires guest { g < length self.old.tenants }
        requires order { reached.now.0 ≤ reached.now.1 }
        requires pages { (t : TenantIs) → reached.now.1 < length (pages_at self.old g t) }
        ensures moves { OnlyPagesMove self.old.tenants self.new.tenants }
        ensures ready { OnOk result ((t : TenantIs) (q : ℕ) → ((q ≡ reached.now.0) ⊎ (q ≡ reached.now.1)) →
            IsReady access (page_at (pages_at self.old g t) q) (page_at (pages_at self.new g t) q)) }
        ensures stays { (t : TenantIs) (q : ℕ) → ((q ≡ reached.now.0) ⊎ (q ≡ reached.now.1)) →
            is_wanted access (kind_at (pages_at self.old g t) q) ≡ false →
            page_at (pages_at self.new g t) q ≡ page_at (pages_at self.old g t) q }
        ensures chosen { AreReached self.old.frames (S.slots self.old.store) tax.percent access g reached.now
            (moment_of (R.stream rng.old) self.old) (moment_of (R.stream rng.new) self.new) }
        ensures err { IfErr result (WhyUnsupplied S.SwapStore g (λ q. (q ≡ reached.now.0) ⊎ (q ≡ reached.now.1)) self.old self.new) }
        ensures no_failure { OnOk result (S.failed self.new.store ≡ S.failed self.old.store) }
        ensures around { AroundStays S.SwapStore self.old self.new }
    {
        self.supply_one(alloc, g, reached.0, reached, access, tax, rng)?;
        self.supply_one(alloc, g, reached.1, reached, access, tax, rng)
    }

    // Decides whether each of some bytes has a place in memory, and supplies the pages that they lie in where they are wanted.
    fn reach<R: Rng>(
        &mut self,
        alloc: Global,
        g: usize,
        address: u32,
        count: u32,
        access: Access,
        tax: Tax,
        rng: &mut R,
    ) -> Result<(), DebugError>
        requires guest { g < length self.old.tenants }
        requires some { 0 < count }
        requires few { count ≤ 1024 }
        ensures moves { OnlyPagesMove self.old.tenants self.new.tenants }
        ensures no_place { S.true_to_digests self.old.store → (t : TenantIs) → (IsErrOf result DebugError.NoPlace
            ↔ (bytes_at (view_at self.old g t) address count ≡ None)) }
        ensures nothing { IsErrOf result DebugError.NoPlace → self.new ≡ self.old }
        ensures placed { OnOk result ((t : TenantIs) → bytes_at (standing (guest_at self.new g t).guest) address count ≡ None → ⊥) }
        ensures there { OnOk result ((t : TenantIs) (q : ℕ) → SomePlaceIn (standing (guest_at self.new g t).guest) address count q →
            is_wanted access (kind_at (pages_at self.new g t) q) ≡ false) }
        ensures ready { OnOk result ((t : TenantIs) (q : ℕ) → SomePlaceIn (standing (guest_at self.old g t).guest) address count q →
            IsReady access (page_at (pages_at self.old g t) q) (page_at (pages_at self.new g t) q)) }
        ensures stays { (t : TenantIs) (q : ℕ) → SomePlaceIn (standing (guest_at self.old g t).guest) address count q →
            is_wanted access (kind_at (pages_at self.old g t) q) ≡ false →
            page_at (pages_at self.new g t) q ≡ page_at (pages_at self.old g t) q }
        ensures chosen { IsErrOf result DebugError.NoPlace ⊎ ReachesBytes self.old.frames (S.slots self.old.store) tax.percent access g address count
            (moment_of (R.stream rng.old) self.old) (moment_of (R.stream rng.new) self.new) }
        ensures undrawn { IsErrOf result DebugError.NoPlace → R.stream rng.new ≡ R.stream rng.old }
        ensures stop { IfErr result (λ error. IfStopped error (WhyHalted S.SwapStore g (LieIn self.old g address count) self.old self.new)) }
        ensures never_full { IsErrOf result (DebugError.Stop RunStop.LogFull) → ⊥ }
        ensures around { AroundStays S.SwapStore self.old self.new }
    {
        self.is_sound();
        self.guest(g).guest().is_sized();
        let Some(pages) = self.guest(g).guest().debug_pages(address, count) else {
            return Err(DebugError::NoPlace);
        };
        match self.supply_reached(alloc, g, &pages, access, tax, rng) {
            Ok(()) => {
                self.guest(g).guest().is_sized();
                Ok(())
            }
            Err(error) => Err(DebugError::Stop(stop_of(error))),
        }
    }

    /// Reads as many bytes of a guest's memory as there is room for, at least 1 and at most 1,024, as `Guest::debug_read` has it. A page
    /// that one of them lies in and that is in a slot gets a frame of its own first, the one of the lower number before the other. Where
    /// no frame is free, pages of victims leave theirs one after another (`evict_one`), but no page that the bytes lie in. All other
    /// pages that they lie in stay as they are, and no log changes.
    ///
    /// `NoPlace` exactly where one of the bytes has no place in memory, and then nothing has changed; else `Stop` as `fault` has it.
    /// Then `bytes` is as before, and pages that have moved before that stay where they are.
    pub fn debug_read<R: Rng>(
        &mut self,
        alloc: Global,
        g: usize,
        address: u32,
        bytes: &mut [u8],
        tax: Tax,
        rng: &mut R,
    ) -> Result<(), DebugError>
        requires guest { g < length self.old.tenants }
        requires some { 0 < length bytes.old }
        requires few { length bytes.old ≤ 1024 }
        ensures read { OnOk result (S.true_to_digests self.old.store → (t : TenantIs) →
            bytes_at (view_at self.old g t) address (length bytes.old) ≡ Some bytes.new) }
        ensures no_place { S.true_to_digests self.old.store → (t : TenantIs) → (IsErrOf result DebugError.NoPlace
            ↔ (bytes_at (view_at self.old g t) address (length bytes.old) ≡ None)) }
        ensures nothing { IsErrOf result DebugError.NoPlace → self.new ≡ self.old }
        ensures unchanged { OnErr result (bytes.new ≡ bytes.old) }
        ensures moves { OnlyPagesMove self.old.tenants self.new.tenants }
        ensures ready { OnOk result ((t : TenantIs) (q : ℕ) → SomePlaceIn (standing (guest_at self.old g t).guest) address (length bytes.old) q →
            IsReady Access.Read (page_at (pages_at self.old g t) q) (page_at (pages_at self.new g t) q)) }
        ensures stays { (t : TenantIs) (q : ℕ) → SomePlaceIn (standing (guest_at self.old g t).guest) address (length bytes.old) q →
            kind_at (pages_at self.old g t) q ≢ PageKind.Swapped →
            page_at (pages_at self.new g t) q ≡ page_at (pages_at self.old g t) q }
        ensures chosen { IsErrOf result DebugError.NoPlace ⊎ ReachesBytes self.old.frames (S.slots self.old.store) tax.percent Access.Read g address (length bytes.old)
            (moment_of (R.stream rng.old) self.old) (moment_of (R.stream rng.new) self.new) }
        ensures undrawn { IsErrOf result DebugError.NoPlace → R.stream rng.new ≡ R.stream rng.old }
        ensures stop { IfErr result (λ error. IfStopped error (WhyHalted S.SwapStore g (LieIn self.old g address (length bytes.old)) self.old self.new)) }
        ensures never_full { IsErrOf result (DebugError.Stop RunStop.LogFull) → ⊥ }
        ensures around { AroundStays S.SwapStore self.old self.new }
    {
        let count = bytes.len() as u32;
        self.reach(alloc, g, address, count, Access::Read, tax, rng)?;
        self.is_sound();
        match self.guest(g).guest().debug_read(address, bytes) {
            Ok(()) => Ok(()),
            Err(Refused::Machine) => unreachable!(),
            Err(Refused::Away(_)) => unreachable!(),
            Err(Refused::Stop(_)) => unreachable!(),
        }
    }

    /// Writes at least 1 and at most 1,024 bytes of a guest's memory, as an item of seat 3. Each page that one of them lies in gets a frame
    /// of its own first, where it has none, the one of the lower number before the other. Where no frame is free, pages of victims leave
    /// theirs one after another (`evict_one`), but no page that the bytes lie in.
    ///
    /// `NoPlace` exactly where one of the bytes has no place in memory, and then nothing has changed; `Stop(LogFull)` where the log has
    /// its greatest number of runs or 2^62 items; else `Stop` as `fault` has it. Then nothing is written, and pages that have moved before
    /// that stay where they are.
    pub fn debug_write<R: Rng>(
        &mut self,
        alloc: Global,
        g: usize,
        address: u32,
        bytes: Vec<u8>,
        tax: Tax,
        rng: &mut R,
    ) -> Result<(), DebugError>
        requires guest { g < length self.old.tenants }
        requires some { 0 < length bytes.items }
        requires few { length bytes.items ≤ 1024 }
        ensures logs { (h : ℕ) → log_at self.new.tenants h ≡ log_at self.old.tenants h ++ written_items h g address bytes.items result }
        ensures guests { GuestsStay self.old.tenants self.new.tenants }
        ensures accepted { OnOk result (S.true_to_digests self.old.store → (t : TenantIs) →
            accepts (What.Write address bytes.items) (view_at self.old g t) ≡ true) }
        ensures no_place { S.true_to_digests self.old.store → (t : TenantIs) → (IsErrOf result DebugError.NoPlace
            ↔ (accepts (What.Write address bytes.items) (view_at self.old g t) ≡ false)) }
        ensures nothing { IsErrOf result DebugError.NoPlace → self.new ≡ self.old }
        ensures unchanged { OnErr result (OnlyPagesAndRoom g self.old.tenants self.new.tenants) }
        ensures chosen { IsErrOf result DebugError.NoPlace ⊎ WritesBytes self.old.frames (S.slots self.old.store) tax.percent g address (length bytes.items)
            (moment_of (R.stream rng.old) self.old) (moment_of (R.stream rng.new) self.new) }
        ensures undrawn { IsErrOf result DebugError.NoPlace → R.stream rng.new ≡ R.stream rng.old }
        ensures stop { IfErr result (λ error. IfStopped error (WhyHalted S.SwapStore g (LieIn self.old g address (length bytes.items)) self.old self.new)) }
        ensures full { IsErrOf result (DebugError.Stop RunStop.LogFull) → (t : TenantIs) → IsFull (guest_at self.old g t).guest.log }
        ensures room { OnOk result ((t : TenantIs) → IsFull (guest_at self.old g t).guest.log → ⊥) }
        ensures around { AroundStays S.SwapStore self.old self.new }
    {
        let count = bytes.len() as u32;
        match self.reach(alloc, g, address, count, Access::Write, tax, rng) {
            Ok(()) => self.write(g, address, bytes),
            Err(error) => Err(error),
        }
    }

    // Writes bytes, each of which lies in a page that has a frame of its own, as an item of seat 3.
    fn write(&mut self, g: usize, address: u32, bytes: Vec<u8>) -> Result<(), DebugError>
        requires guest { g < length self.old.tenants }
        requires few { length bytes.items ≤ 1024 }
        requires placed { (t : TenantIs) → bytes_at (standing (guest_at self.old g t).guest) address (length bytes.items) ≡ None → ⊥ }
        requires there { (t : TenantIs) (q : ℕ) → SomePlaceIn (standing (guest_at self.old g t).guest) address (length bytes.items) q →
            is_wanted Access.Write (kind_at (pages_at self.old g t) q) ≡ false }
        ensures logs { (h : ℕ) → log_at self.new.tenants h ≡ log_at self.old.tenants h ++ written_items h g address bytes.items result }
        ensures guests { GuestsStay self.old.tenants self.new.tenants }
        ensures accepted { OnOk result (S.true_to_digests self.old.store → (t : TenantIs) →
            accepts (What.Write address bytes.items) (view_at self.old g t) ≡ true) }
        ensures placed { IsErrOf result DebugError.NoPlace → ⊥ }
        ensures unchanged { OnErr result (Changes NothingHappens g self.old.tenants self.new.tenants) }
        ensures stays { Changes Stays g self.old.tenants self.new.tenants }
        ensures stop { IfErr result (λ error. IfStopped error IsForRoom) }
        ensures full { (t : TenantIs) → (IsErrOf result (DebugError.Stop RunStop.LogFull) ↔ IsFull (guest_at self.old g t).guest.log) }
        ensures around { SameAround self.old self.new }
    {
        let item = Item {
            seat: SeatNo::new(3),
            what: What::Write {
                address,
                bytes: WriteBytes::from_vec(bytes),
            },
        };
        match self.input(g, item) {
            Ok(_) => Ok(()),
            Err(Refused::Machine) => unreachable!(),
            Err(Refused::Away(_)) => unreachable!(),
            Err(Refused::Stop(Stop::Memory)) => Err(DebugError::Stop(RunStop::Memory)),
            Err(Refused::Stop(Stop::LogFull)) => Err(DebugError::Stop(RunStop::LogFull)),
        }
    }
}
