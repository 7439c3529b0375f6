//! A guest of a world.
ghost use Rattle.std.specs.Prelude.{◌≡◌};

use crate::{Cause, MoveCounts, PolicyState, Seats};
use frames::{Frame, SharePage, ShareTicket, SlotTicket};
use guest::{Guest, Progress, Refused, Stepped, Stop};
use guest_pages::{PageKind, Returned};
use items::Item;
use machine::{Reply, Why};
use page_moves::Pages;
use rand_core::Rng;
use sampling::Sample;
use sharetab::Shares;
use std::alloc::AllocError;
use std::marker::Model;
use taxpolicy::{SAMPLE_SIZE, Stat, pick_sample};
use word32::Ppn;

/// A guest with its four seats, and with what the policy goes by: its shares of the memory, the least number of pages that are left to
/// it, what a sample of its pages says, and whether it is blocked for want of memory. In clauses it is a record, `TenantIs`. `open`
/// hands out what it is made of.
///
/// It counts why its pages have moved (`MoveCounts`), of which no clause speaks.
pub struct Tenant {
    pub(crate) guest: Guest,
    pub(crate) seats: Seats,
    pub(crate) state: PolicyState,
    pub(crate) counts: MoveCounts,
}

impl Model for Tenant {
    ghost use Rattle.std.specs.Prelude.{◌≤◌, length};
    ghost use Rattle.tenant.specs.Tenants.{TenantIs, tenant_of};
    ghost use Rattle.tenant.specs.Seats.{AreSeats};

    ghost Value = { TenantIs };

    ghost view = { λ t. tenant_of t.guest t.state };

    ghost invariant = { λ t. AreSeats t.guest t.seats × (2 ≤ t.state.minimum) × (t.state.minimum ≤ length t.guest.bus.pages) };
}

impl Tenant {
    ghost use Rattle.std.specs.Prelude.{◌≡◌, ◌≢◌, ◌+◌, ◌<◌, ◌≤◌, ◌^◌, ℕ, true, false, List, Option, None, Some, OnOk, OnErr, IfOk, IfSome, IfNone, IsErrOf, ◌↔◌};
    ghost use Rattle.std.specs.Prelude.{length};
    ghost use Rattle.items.specs.Items.{is_step};
    ghost use Rattle.items.specs.Entries.{step_by, steps_of};
    ghost use Rattle.guest_log.specs.Logs.{IsFull};
    ghost use Rattle.machine.specs.Given.{step_given};
    ghost use Rattle.machine.specs.Accesses.{accesses, first_lack};
    ghost use Rattle.machine.specs.Answers.{replied};
    ghost use Rattle.machine.specs.Items.{accepts, reply, run};
    ghost use Rattle.mips_tlb.specs.declared.kind.Kind.TheVariants.{Store};
    ghost use Rattle.guest_pages.specs.Pages.{kind_at, is_resident, NoneInFrame};
    ghost use Rattle.guest_pages.specs.Holdings.{private_pages, shared_pages, swapped_pages, resident_pages};
    ghost use Rattle.guest_pages.specs.Outline.{outline};
    ghost use Rattle.guest_bus.specs.Lacking.{lacks_in};
    ghost use Rattle.guest_bus.specs.Writes.{WritesTo};
    ghost use Rattle.machine.specs.declared.access.Why.{Why};
    ghost use Rattle.guest_pages.specs.declared.page.Returned.{Returned};
    ghost use Rattle.guest.specs.Guests.{view_of, standing, need_of, Intact, HandsBack, last_given, HasPaused};
    ghost use Rattle.guest.specs.declared.progress.Pause.{Pause};
    ghost use Rattle.tenant.specs.Tenants.{TenantIs, pages_in, IsKept, Stays, Adds, AddsSteps, NothingHappens};
    ghost use Rattle.tenant.specs.Tenants.{stat_of, IsUnsampled, IsSampled};
    ghost use Rattle.taxpolicy.specs.Sample.{after_words};

    /// A guest that has no seat yet, with this many shares and this minimum, 2 to its pages. No page of it was drawn for a sample yet, so it counts as
    /// active, and it is not blocked.
    pub fn new(mut guest: Guest, shares: u32, minimum: u32) -> Tenant
        requires seats { guest.seats ≡ 0 }
        requires least { 2 ≤ minimum }
        requires most { minimum ≤ length guest.bus.pages }
        ensures guest { result.guest ≡ record guest { seats = 4 } }
        ensures shares { result.shares ≡ shares }
        ensures minimum { result.minimum ≡ minimum }
        ensures unsampled { IsUnsampled result }
        ensures unblocked { result.blocked ≡ false }
    {
        let seats = Seats::of(&mut guest);
        Tenant {
            guest,
            seats,
            state: PolicyState {
                shares,
                minimum,
                sample: Sample::new(),
                blocked: false,
            },
            counts: MoveCounts::new(),
        }
    }

    /// The guest: its view, its log, and what a debugger reads of it.
    pub fn guest(&self) -> &Guest
        ensures { result.now ≡ self.now.guest }
    {
        &self.guest
    }

    /// How many shares of the memory it has.
    pub fn shares(&self) -> u32
        ensures { result ≡ self.now.shares }
    {
        self.state.shares
    }

    /// How many of its resident pages it always keeps, 2 to its pages: those who look for a page that is to leave its frame take none of them.
    pub fn minimum(&self) -> u32
        ensures value { result ≡ self.now.minimum }
        ensures least { 2 ≤ result }
        ensures most { result ≤ length (pages_in self.now) }
    {
        self.state.minimum
    }

    /// What the sample of its pages says.
    pub fn sampled(&self) -> &Sample
        ensures { result.now ≡ self.now.sample }
    {
        &self.state.sample
    }

    /// Whether it is blocked: it is to make no step while memory is low.
    pub fn is_blocked(&self) -> bool
        ensures { result ≡ self.now.blocked }
    {
        self.state.blocked
    }

    /// Blocks it, or lets it go on. All else stays.
    pub fn set_blocked(&mut self, blocked: bool)
        ensures { self.new ≡ record self.old { blocked = blocked } }
    {
        self.state.blocked = blocked;
    }

    /// Ends a period of the sample of its pages and begins the next: of the pages that were drawn for the period that ends, a draw counts
    /// as active where the page was accessed in it; then the pages of the next period are drawn, each by the generator's next word. The
    /// guest doesn't notice.
    pub fn sample<R: Rng>(&mut self, rng: &mut R)
        ensures sampled { IsSampled (R.stream rng.old) self.old self.new }
        ensures rest { R.stream rng.new ≡ after_words 100 (R.stream rng.old) }
    {
        let touched = match self.state.sample.draws {
            None => None,
            Some(draws) => Some(self.guest.touched(&draws)),
        };
        let draws = pick_sample(rng, self.page_count());
        self.guest.clear_touched(&draws);
        self.state.sample.next(touched, draws);
    }

    /// How many pages it has, at most 2^20.
    pub fn page_count(&self) -> u32
        ensures value { result ≡ length (pages_in self.now) }
        ensures small { result ≤ 2 ^ 20 }
    {
        self.guest.page_count()
    }

    /// How many of its pages are in a frame, their own or a shared one.
    pub fn resident(&self) -> u32
        ensures value { result ≡ resident_pages (pages_in self.now) }
        ensures within { result ≤ length (pages_in self.now) }
    {
        self.guest.resident()
    }

    /// The first of its pages from a number on that is in a frame, its own or a shared one; None where there is none. It costs what
    /// `GuestPages::next_resident` does.
    pub fn next_resident(&self, from: u32) -> Option<Ppn>
        ensures within { IfSome result (λ p. (from ≤ p) × (p < length (pages_in self.now))) }
        ensures resident { IfSome result (λ p. is_resident (kind_at (pages_in self.now) p) ≡ true) }
        ensures first { IfSome result (λ p. NoneInFrame (pages_in self.now) from p) }
        ensures none { IfNone result (NoneInFrame (pages_in self.now) from (length (pages_in self.now))) }
    {
        self.guest.next_resident(from)
    }

    /// How many of its pages are in frames of their own.
    pub fn private(&self) -> u32
        ensures { result ≡ private_pages (pages_in self.now) }
    {
        self.guest.private()
    }

    /// How many of its pages are in shared frames.
    pub fn shared(&self) -> u32
        ensures { result ≡ shared_pages (pages_in self.now) }
    {
        self.guest.shared()
    }

    /// How many of its pages are in slots.
    pub fn swapped(&self) -> u32
        ensures { result ≡ swapped_pages (pages_in self.now) }
    {
        self.guest.swapped()
    }

    /// What the policy knows of it: while no period of a sample is whole, all of its pages count as active.
    pub fn stat(&self) -> Stat
        ensures { result ≡ stat_of self.now }
    {
        Stat {
            shares: Tenant::shares(self),
            pages: self.page_count(),
            resident: self.resident(),
            given: self.guest.view().devices.given(),
            active: self.state.sample.active,
            sample: SAMPLE_SIZE as u16,
            minimum: self.state.minimum,
        }
    }

    /// The `Need` that a step of it would answer. The page is one of the guest's.
    pub fn need(&self) -> Option<(Ppn, Why)>
        ensures need { (held : ℕ → Option (List ℕ)) → IsKept held self.now →
            result ≡ first_lack (lacks_in (pages_in self.now)) (accesses (view_of self.now.guest)) }
        ensures there { IfSome result (λ needed. needed.0 < length (pages_in self.now)) }
    {
        self.guest.need()
    }

    /// One step, with room made for it in the log, by `Guest::log_room` and `Guest::step`.
    pub fn step(&mut self) -> Result<Stepped, Stop>
        ensures need { (held : ℕ → Option (List ℕ)) → IsKept held self.old →
            IfOk result (λ s. need_of s ≡ first_lack (lacks_in (pages_in self.old)) (accesses (view_of self.old.guest))) }
        ensures adds { IfOk result (λ s. need_of s ≡ None → Adds self.old (step_by 0) self.new) }
        ensures needs { IfOk result (λ s. need_of s ≢ None → NothingHappens self.old self.new) }
        ensures hands_back { IfOk result (λ s. HandsBack (step_given (standing self.old.guest)) (pages_in self.old) s (pages_in self.new)) }
        ensures full { IsErrOf result Stop.LogFull ↔ IsFull self.old.guest.log }
        ensures unchanged { OnErr result (NothingHappens self.old self.new) }
        ensures intact { Intact self.old.guest → Intact self.new.guest }
        ensures kept { (held : ℕ → Option (List ℕ)) → IsKept held self.old → IsKept held self.new }
        ensures stays { Stays self.old self.new }
    {
        self.guest.log_room()?;
        Ok(self.guest.step(&mut self.seats.runner))
    }

    /// At most `count` steps of it, with room made for them in the log, by `Guest::log_room` and `Guest::run`: none of them accesses a page
    /// that is lacking, and only the last may give one.
    #[inline]
    pub fn run(&mut self, count: u32) -> Result<Progress, Stop>
        ensures few { IfOk result (λ p. p.steps ≤ count) }
        ensures some { IfOk result (λ p. p.pause ≡ None → 0 < count → 0 < p.steps) }
        ensures gave { IfOk result (λ p. (returned : Returned) → p.pause ≡ Some (Pause.Gave returned) → 0 < p.steps) }
        ensures short { IfOk result (λ p. (page : ℕ) (why : Why) → p.pause ≡ Some (Pause.Need page why) → p.steps < count) }
        ensures need { (held : ℕ → Option (List ℕ)) → IsKept held self.old → IfOk result (λ p. (page : ℕ) (why : Why) →
            p.pause ≡ Some (Pause.Need page why) → first_lack (lacks_in (pages_in self.new)) (accesses (view_of self.new.guest)) ≡ Some (page, why)) }
        ensures there { IfOk result (λ p. (page : ℕ) (why : Why) → p.pause ≡ Some (Pause.Need page why) → page < length (pages_in self.old)) }
        ensures room { IfOk result (λ p. (page : ℕ) (why : Why) → p.pause ≡ Some (Pause.Need page why) → IsFull self.new.guest.log → ⊥) }
        ensures adds { IfOk result (λ p. AddsSteps self.old p.steps self.new) }
        ensures quiet { (held : ℕ → Option (List ℕ)) → IsKept held self.old → IfOk result (λ p. (k : ℕ) → k < p.steps →
            first_lack (lacks_in (pages_in self.old)) (accesses (run (steps_of 0 k) (view_of self.old.guest))) ≡ None) }
        ensures gives_last { (held : ℕ → Option (List ℕ)) → IsKept held self.old → IfOk result (λ p. (k : ℕ) → k + 1 < p.steps →
            step_given (run (steps_of 0 k) (view_of self.old.guest)) ≡ None) }
        ensures paused { IfOk result (λ p. HasPaused (last_given 0 p.steps (standing self.old.guest)) (pages_in self.old) p.pause (pages_in self.new)) }
        ensures given { (held : ℕ → Option (List ℕ)) → IsKept held self.old → IfOk result (λ p.
            last_given 0 p.steps (standing self.old.guest) ≡ last_given 0 p.steps (view_of self.old.guest)) }
        ensures nothing { IfOk result (λ p. p.steps ≡ 0 → NothingHappens self.old self.new) }
        ensures full { IsErrOf result Stop.LogFull ↔ IsFull self.old.guest.log }
        ensures unchanged { OnErr result (NothingHappens self.old self.new) }
        ensures intact { Intact self.old.guest → Intact self.new.guest }
        ensures kept { (held : ℕ → Option (List ℕ)) → IsKept held self.old → IsKept held self.new }
        ensures stays { Stays self.old self.new }
    {
        self.guest.log_room()?;
        Ok(self.guest.run(count, &mut self.seats.runner))
    }

    /// What happens to the guest by an item of one of its seats that is no step, as `Guest::input` has it.
    pub fn input(&mut self, item: Item) -> Result<Reply, Refused>
        requires { is_step item.what ≡ false }
        ensures adds { OnOk result (Adds self.old item self.new) }
        ensures accepted { OnOk result ((held : ℕ → Option (List ℕ)) → IsKept held self.old → accepts item.what (view_of self.old.guest) ≡ true) }
        ensures reply { IfOk result (λ r. (held : ℕ → Option (List ℕ)) → IsKept held self.old → replied r ≡ reply item.what (view_of self.old.guest)) }
        ensures refused { IsErrOf result Refused.Machine → (held : ℕ → Option (List ℕ)) → IsKept held self.old →
            accepts item.what (view_of self.old.guest) ≡ false }
        ensures refused_as_it_stands { IsErrOf result Refused.Machine → accepts item.what (standing self.old.guest) ≡ false }
        ensures reply_as_it_stands { IfOk result (λ r. replied r ≡ reply item.what (standing self.old.guest)) }
        ensures away { (page : ℕ) → IsErrOf result (Refused.Away page) → lacks_in (pages_in self.old) page Store ≢ None }
        ensures its_page { (page : ℕ) → IsErrOf result (Refused.Away page) → WritesTo item.what (standing self.old.guest) page }
        ensures full { IsErrOf result (Refused.Stop Stop.LogFull) ↔ IsFull self.old.guest.log }
        ensures unchanged { OnErr result (NothingHappens self.old self.new) }
        ensures outline { outline (pages_in self.new) ≡ outline (pages_in self.old) }
        ensures intact { Intact self.old.guest → Intact self.new.guest }
        ensures kept { (held : ℕ → Option (List ℕ)) → IsKept held self.old → IsKept held self.new }
        ensures stays { Stays self.old self.new }
    {
        match item.seat.number() {
            0 => self.guest.input(item, &mut self.seats.runner),
            1 => self.guest.input(item, &mut self.seats.console),
            2 => self.guest.input(item, &mut self.seats.policy),
            _ => self.guest.input(item, &mut self.seats.debugger),
        }
    }

    /// Counts a page that left its frame for a slot, by why.
    pub fn count_eviction(&mut self, cause: Cause)
        ensures { self.new ≡ self.old }
    {
        self.counts.count_eviction(cause);
    }

    /// How often its pages have moved, and why.
    pub fn counts(&self) -> MoveCounts {
        self.counts
    }

    /// Gives the guest up, and with it what its pages hold.
    pub fn close(self) {
        let Tenant {
            guest,
            seats,
            state: _,
            counts: _,
        } = self;
        seats.close();
        guest.close();
    }
}

impl Pages for Tenant {
    ghost use Rattle.tenant.specs.Tenants.{pages_in, beside_pages};

    type Rest = Tenant;

    ghost pages = { pages_in };

    ghost rest = { beside_pages };

    fn count(&self) -> u32 {
        self.guest.count()
    }

    fn kind(&self, p: Ppn) -> PageKind {
        self.guest.kind(p)
    }

    fn peek(&self, p: Ppn) -> Option<&[u8]> {
        self.guest.peek(p)
    }

    fn away(&self, p: Ppn) -> (u32, [u8; 32]) {
        self.guest.away(p)
    }

    fn own_frame(&self, p: Ppn) -> u32 {
        self.guest.own_frame(p)
    }

    fn supply_zero(&mut self, p: Ppn, frame: Frame) {
        self.counts.count_first();
        self.guest.supply_zero(p, frame);
    }

    fn supply_copy(&mut self, p: Ppn, frame: Frame) -> ShareTicket {
        self.counts.count_copy();
        self.guest.supply_copy(p, frame)
    }

    fn supply_swapped(&mut self, p: Ppn, frame: Frame) -> SlotTicket {
        self.counts.count_read();
        self.guest.supply_swapped(p, frame)
    }

    fn swap_out(&mut self, p: Ppn, slot: SlotTicket, digest: [u8; 32]) -> Returned {
        self.guest.swap_out(p, slot, digest)
    }

    fn put_away(&mut self, p: Ppn, slot: SlotTicket, digest: [u8; 32]) {
        self.guest.put_away(p, slot, digest);
    }

    fn share(&mut self, p: Ppn, share: SharePage, ticket: ShareTicket) -> Frame {
        self.counts.count_join();
        self.guest.share(p, share, ticket)
    }

    fn admit(&mut self, p: Ppn, shares: &mut Shares) -> Result<(), AllocError> {
        self.guest.admit(p, shares)
    }
}
