//! A world of guests.
ghost use Rattle.std.specs.Prelude.{◌≡◌, ◌≢◌, ◌<◌};

use framepool::Pool;
use guest::{Refused, Stop};
use guest_number::GuestNo;
use guest_pages::PageKind;
use items::Item;
use machine::{Reply, StepOut};
use page_moves::{Pages, Scan, SupplyError};
use reclaim::Level;
use sharetab::Shares;
use std::alloc::Global;
use std::marker::Model;
use swapstore::{SlotBook, SwapStore};
use tenant::{Cause, EvictError, MoveCounts, Tenant, evict_page, scan_page, step_in, supply_page};
use word32::Ppn;

/// What became of a page that was to leave its frame.
#[derive(Clone, Copy, Debug, PartialEq, Eq)]
pub enum Evicted {
    /// It is in a slot.
    Done,
    /// It was in no frame, and nothing has changed.
    Skipped,
}

/// Guests over one pool of frames, one swap store and one table of shared frames. In clauses it is a record, `WorldIs`.
///
/// Whatever is called, the books are exact, and while the store is true to digests each guest is its run (`is_sound`).
pub struct World<S: SwapStore> {
    pub(crate) tenants: Vec<Tenant>,
    pub(crate) pool: Pool,
    pub(crate) slots: SlotBook,
    pub(crate) shares: Shares,
    pub(crate) store: S,
    pub(crate) frames: u32,
    pub(crate) level: Level,
}

impl<S: SwapStore> Model for World<S> {
    ghost use Rattle.world.specs.Worlds.{WorldIs, Sound};

    ghost Value = { WorldIs S };

    ghost view = { λ w. record { tenants = w.tenants.items; pool = w.pool; slots = w.slots; shares = w.shares; store = w.store; frames = w.frames; level = w.level } };

    ghost invariant = { λ w. Sound w.frames (S.slots w.store) (S.true_to_digests w.store) (S.held w.store) w.tenants.items w.pool w.slots w.shares.entries };
}

// Gives up what a world is made of, but for its store.
fn close_parts(mut tenants: Vec<Tenant>, pool: Pool, slots: SlotBook, shares: Shares) {
    while let Some(tenant) = tenants.pop() {
        tenant.close();
    }
    tenants.destroy_empty();
    pool.close();
    slots.close();
    shares.close();
}

impl<S: SwapStore> World<S> {
    ghost use Rattle.std.specs.Prelude.{◌≡◌, ◌≢◌, ◌<◌, ◌≤◌, ◌^◌, ◌↔◌, ℕ, true, false, IsTrue, List, Option, None, IfOk, IfErr, OnOk, OnErr, IfSome, IfNone, IsErrOf, length, slice_index_or};
    ghost use Rattle.world.specs.All.{Adds, AllFit, Answered, AroundStays, Became, Changes, Comes, FailsOnce, HasDamage, HintsAfter, IsFull, IsSoundWorld, Level, NothingHappens, OnlyBooksChange, PageKind, PagesMove, SameAround, SameNumbers, Stays, TenantIs, WhyAway, WhyStays, WorldIs, WritesTo, accepts, guest_at, is_resident, is_step, kind_at, lacks_in, need_of, needed_by, page_at, pages_at, replied, reply, sha256, shown, standing, step_by, view_at};
    ghost use Rattle.mips_tlb.specs.declared.kind.Kind.TheVariants.{Store};

    /// Gives the world up, and with it its guests. Its store comes back.
    pub fn close(self) -> S
        ensures { result ≡ self.store }
    {
        let World {
            tenants,
            pool,
            slots,
            shares,
            store,
            frames: _,
            level: _,
        } = self;
        close_parts(tenants, pool, slots, shares);
        store
    }

    /// The books are exact: of the frames each is free, one page's, or an entry's whose count is how many pages name it, and of
    /// the store's slots each is free or one page's. And while the store is true to digests, each guest is its run. It does
    /// nothing: its clause says what every world keeps.
    pub fn is_sound(&self)
        ensures { IsSoundWorld S.SwapStore self.now }
    {
        // A function knows what its type keeps once it uses a field.
        let _tenants = &self.tenants;
    }

    /// The entry of each shared frame is at the place of its number, and a page names it. It does nothing: its clause says what every
    /// world keeps.
    pub fn shared_frames_are_named(&self)
        ensures { AllFit self.now.shares.entries }
    {
        self.shares.each_has_its_place();
    }

    /// How many guests there are. Their numbers are below it.
    pub fn count(&self) -> usize
        ensures { result ≡ length self.now.tenants }
    {
        self.tenants.len()
    }

    /// How many frames are free.
    pub fn free(&self) -> u32
        ensures { result ≡ length self.now.pool.free }
    {
        self.pool.free()
    }

    /// How scarce free frames were at the last turn of the policy; high where there was none.
    pub fn level(&self) -> Level
        ensures { result ≡ self.now.level }
    {
        self.level
    }

    /// How many slots are used.
    pub fn slots_used(&self) -> u32
        ensures { result ≡ self.now.slots.out }
    {
        self.slots.used()
    }

    /// The guests, in the order of their numbers.
    pub fn tenants(&self) -> &[Tenant]
        ensures { result.now ≡ self.now.tenants }
    {
        self.tenants.as_slice()
    }

    /// A guest.
    pub fn guest(&self, g: usize) -> &Tenant
        requires { g < length self.now.tenants }
        ensures { (t : TenantIs) → result.now ≡ slice_index_or self.now.tenants g t }
    {
        &self.tenants[g]
    }

    /// How often the pages of a guest have moved since its boot, and why. No clause speaks of it, and nothing goes by it.
    pub fn counts(&self, g: usize) -> MoveCounts
        requires { g < length self.now.tenants }
    {
        self.tenants[g].counts()
    }

    /// Where a page of a guest is; None exactly where it has no such page.
    pub fn kind(&self, g: usize, p: Ppn) -> Option<PageKind>
        requires { g < length self.now.tenants }
        ensures kind { IfSome result (λ kind. (t : TenantIs) → kind ≡ kind_at (pages_at self.now g t) p) }
        ensures there { IfSome result (λ kind. (t : TenantIs) → p < length (pages_at self.now g t)) }
        ensures none { IfNone result ((t : TenantIs) → length (pages_at self.now g t) ≤ p) }
    {
        let tenant = self.guest(g);
        if p.number() < tenant.count() {
            Some(tenant.kind(p))
        } else {
            None
        }
    }

    /// One step of a guest, with room made for it in its log.
    ///
    /// It answers `Need` exactly where the guest's step would access a page that is lacking, and `Stop(LogFull)` exactly where the
    /// log has its greatest number of runs or 2^62 items, `Stop(Memory)` only where a request for memory was refused: nothing has
    /// happened then. Else its log has that step more, and so its view has moved by one step.
    pub fn step(&mut self, g: usize) -> Result<StepOut, Stop>
        requires { g < length self.old.tenants }
        ensures need { S.true_to_digests self.old.store → (t : TenantIs) → IfOk result (λ s. need_of s ≡
            needed_by (guest_at self.old g t)) }
        ensures adds { IfOk result (λ s. need_of s ≡ None → Changes (λ t t'. Adds t (step_by 0) t') g self.old.tenants self.new.tenants) }
        ensures needs { IfOk result (λ s. need_of s ≢ None → Changes NothingHappens g self.old.tenants self.new.tenants × SameAround self.old self.new) }
        ensures full { (t : TenantIs) → (IsErrOf result Stop.LogFull ↔ IsFull (guest_at self.old g t).guest.log) }
        ensures unchanged { OnErr result (Changes NothingHappens g self.old.tenants self.new.tenants × SameAround self.old self.new) }
        ensures stays { Changes Stays g self.old.tenants self.new.tenants }
        ensures around { OnlyBooksChange self.old self.new }
    {
        step_in(
            &mut self.tenants[g],
            &mut self.pool,
            &mut self.slots,
            &mut self.shares,
        )
    }

    /// What happens to a guest by an item of one of its seats that is no step, as `Guest::input` has it.
    pub fn input(&mut self, g: usize, item: Item) -> Result<Reply, Refused>
        requires guest { g < length self.old.tenants }
        requires input { is_step item.what ≡ false }
        ensures adds { OnOk result (Changes (λ t t'. Adds t item t') g self.old.tenants self.new.tenants) }
        ensures accepted { OnOk result
            (S.true_to_digests self.old.store → (t : TenantIs) → accepts item.what (view_at self.old g t) ≡ true) }
        ensures reply { IfOk result
            (λ r. S.true_to_digests self.old.store → (t : TenantIs) → replied r ≡ reply item.what (view_at self.old g t)) }
        ensures refused { IsErrOf result Refused.Machine → S.true_to_digests self.old.store → (t : TenantIs) →
            accepts item.what (view_at self.old g t) ≡ false }
        ensures refused_as_it_stands { IsErrOf result Refused.Machine → (t : TenantIs) →
            accepts item.what (standing (guest_at self.old g t).guest) ≡ false }
        ensures reply_as_it_stands { IfOk result (λ r. (t : TenantIs) → replied r ≡ reply item.what (standing (guest_at self.old g t).guest)) }
        ensures away { (page : ℕ) → IsErrOf result (Refused.Away page) → (t : TenantIs) →
            lacks_in (pages_at self.old g t) page Store ≢ None }
        ensures its_page { (page : ℕ) → IsErrOf result (Refused.Away page) → (t : TenantIs) →
            WritesTo item.what (standing (guest_at self.old g t).guest) page }
        ensures full { (t : TenantIs) → (IsErrOf result (Refused.Stop Stop.LogFull) ↔ IsFull (guest_at self.old g t).guest.log) }
        ensures unchanged { OnErr result (Changes NothingHappens g self.old.tenants self.new.tenants) }
        ensures stays { Changes Stays g self.old.tenants self.new.tenants }
        ensures around { SameAround self.old self.new }
    {
        self.tenants[g].input(item)
    }

    /// A page of a guest gets a frame of its own, with its bytes: zeros where it was never touched or was given to the balloon,
    /// those of the frame that it shares, or those of its slot. A page that has one keeps it.
    ///
    /// `NoFrame` exactly where it wants one and none is free, `Memory` where a request for memory was refused, `SwapRead` where
    /// the store failed to read the slot, `SwapDamaged` where what was read has another SHA-256 than the page, which an honest
    /// store never does. Then nothing has moved.
    pub fn supply(&mut self, alloc: Global, g: usize, p: Ppn) -> Result<(), SupplyError>
        requires guest { g < length self.old.tenants }
        requires page { (t : TenantIs) → p < length (pages_at self.old g t) }
        ensures moves { Changes PagesMove g self.old.tenants self.new.tenants }
        ensures private { OnOk result ((t : TenantIs) → kind_at (pages_at self.new g t) p ≡ PageKind.Private) }
        ensures others { (t : TenantIs) (other : ℕ) → (other ≡ p → ⊥) →
            page_at (pages_at self.new g t) other ≡ page_at (pages_at self.old g t) other }
        ensures err { IfErr result (WhyAway self.old.pool (FailsOnce S.SwapStore self.old self.new)
            (HasDamage S.SwapStore self.old.store self.old.tenants g p)) }
        ensures no_failure { OnOk result (S.failed self.new.store ≡ S.failed self.old.store) }
        ensures unchanged { OnErr result (self.new.tenants ≡ self.old.tenants) }
        ensures pool_unchanged { OnErr result (SameNumbers self.old.pool self.new.pool) }
        ensures slots_unchanged { OnErr result (self.new.slots ≡ self.old.slots) }
        ensures shares_unchanged { OnErr result (self.new.shares ≡ self.old.shares) }
        ensures around { AroundStays S.SwapStore self.old self.new }
    {
        supply_page(
            alloc,
            &mut self.tenants[g],
            p,
            &mut self.pool,
            &mut self.slots,
            &mut self.store,
            &mut self.shares,
        )
    }

    // A resident page leaves its frame, and is counted with the cause.
    pub(crate) fn evict_of(&mut self, g: usize, p: Ppn, cause: Cause) -> Result<(), EvictError>
        requires guest { g < length self.old.tenants }
        requires page { (t : TenantIs) → p < length (pages_at self.old g t) }
        requires resident { (t : TenantIs) → IsTrue (is_resident (kind_at (pages_at self.old g t) p)) }
        ensures moves { Changes PagesMove g self.old.tenants self.new.tenants }
        ensures page { OnOk result ((t : TenantIs) →
            Became p Evicted.Done (pages_at self.old g t) (pages_at self.new g t) self.old.slots) }
        ensures err { IfErr result (WhyStays self.old.slots (FailsOnce S.SwapStore self.old self.new)) }
        ensures no_failure { OnOk result (S.failed self.new.store ≡ S.failed self.old.store) }
        ensures unchanged { OnErr result (self.new.tenants ≡ self.old.tenants) }
        ensures pool_unchanged { OnErr result (self.new.pool ≡ self.old.pool) }
        ensures slots_unchanged { OnErr result (SameNumbers self.old.slots self.new.slots) }
        ensures shares_unchanged { OnErr result (self.new.shares ≡ self.old.shares) }
        ensures around { AroundStays S.SwapStore self.old self.new }
    {
        let tenant = &mut self.tenants[g];
        evict_page(
            tenant,
            p,
            &mut self.pool,
            &mut self.slots,
            &mut self.store,
            &mut self.shares,
        )?;
        tenant.count_eviction(cause);
        Ok(())
    }

    /// A page of a guest is written to the free slot of the lowest number, and leaves its frame, which is free then but where other
    /// pages read it too. `Skipped` exactly where the guest has no such page or it is in no frame, whether a slot is free or not.
    ///
    /// `NoSwap` exactly where no slot is free, `SwapWrite` where the store failed to write it. Then nothing has moved.
    pub fn evict(&mut self, g: usize, p: Ppn) -> Result<Evicted, EvictError>
        requires { g < length self.old.tenants }
        ensures moves { Changes PagesMove g self.old.tenants self.new.tenants }
        ensures page { IfOk result (λ evicted. (t : TenantIs) →
            Became p evicted (pages_at self.old g t) (pages_at self.new g t) self.old.slots) }
        ensures err { IfErr result (WhyStays self.old.slots (FailsOnce S.SwapStore self.old self.new)) }
        ensures no_failure { OnOk result (S.failed self.new.store ≡ S.failed self.old.store) }
        ensures unchanged { OnErr result (self.new.tenants ≡ self.old.tenants) }
        ensures pool_unchanged { OnErr result (self.new.pool ≡ self.old.pool) }
        ensures slots_unchanged { OnErr result (SameNumbers self.old.slots self.new.slots) }
        ensures shares_unchanged { OnErr result (self.new.shares ≡ self.old.shares) }
        ensures around { AroundStays S.SwapStore self.old self.new }
    {
        let Some(kind) = self.kind(g, p) else {
            return Ok(Evicted::Skipped);
        };
        if !kind.is_resident() {
            return Ok(Evicted::Skipped);
        }
        match self.evict_of(g, p, Cause::Order) {
            Ok(()) => Ok(Evicted::Done),
            Err(error) => Err(error),
        }
    }

    /// Scans a page of a guest: it joins the entry that has its bytes; else, where another page was last noted with its digest, its
    /// own frame becomes an entry; else its digest is noted (`page_moves::scan_in`). A frame that came free is free again.
    pub fn scan(&mut self, g: usize, p: Ppn) -> Scan
        requires guest { g < length self.old.tenants }
        requires small { g < 2 ^ 32 }
        ensures moves { Changes PagesMove g self.old.tenants self.new.tenants }
        ensures answer { (t : TenantIs) → Answered self.old.shares (pages_at self.old g t) (record { guest = g; page = p }) result }
        ensures hints { (t : TenantIs) →
            HintsAfter self.old.shares.hints (sha256 (shown (page_at (pages_at self.old g t) p)))
            (record { guest = g; page = p }) result self.new.shares.hints }
        ensures comes { (t : TenantIs) → (came_free : List ℕ) × Comes self.old.shares.entries (pages_at self.old g t) p result
            self.new.shares.entries (pages_at self.new g t) came_free }
        ensures slots { self.new.slots ≡ self.old.slots }
        ensures store { self.new.store ≡ self.old.store }
        ensures frames { self.new.frames ≡ self.old.frames }
        ensures level { self.new.level ≡ self.old.level }
    {
        scan_page(
            &mut self.tenants[g],
            GuestNo::new(g as u32),
            p,
            &mut self.pool,
            &mut self.shares,
        )
    }
}
