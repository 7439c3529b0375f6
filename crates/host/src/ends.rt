//! How a host begins and ends.
ghost use Rattle.std.specs.Prelude.{◌≡◌, IfErr, IfOk, length};
ghost use Rattle.booting.specs.Stores.{StoreStays};
ghost use Rattle.host_policy.specs.Policies.{IsPolicyOf};
ghost use Rattle.machine_memory.specs.Memories.{IsPassOf};
ghost use Rattle.guest_cells.specs.Handles.{AreHandlesOfAll};

use crate::Host;
use crate::leftover::room_of;
use booting::{Config, NewGuest};
use cell::{Ended, Gate};
use guest_cells::{Finished, GuestCells, Handles};
use host_policy::Policy;
use machine_memory::BookCounts;
use shared_pool::PoolPass;
use std::alloc::Global;
use std::sync::Wait;
use swapstore::SwapStore;
use taxpolicy::Tax;
use tenant::BootError;

/// A host at its boot, and what is handed out of its guests.
#[derive(Drop)]
pub struct Booted<S: SwapStore + Drop, G: Gate + Drop> {
    /// The host.
    pub host: Host<S, G>,
    /// What is handed out of each guest, in the order of the guests.
    pub handles: Vec<Handles>,
}

/// What the policy goes by at first.
#[derive(Clone, Copy, Debug, PartialEq, Eq)]
pub struct PolicyConfig {
    /// The tax on idle memory.
    pub tax: Tax,
    /// The seed of the generator of its words.
    pub seed: u64,
}

// Gives up what guests have left.
fn close_all(mut ended: Vec<Ended>) {
    while let Some(one) = ended.pop() {
        let Ended {
            guest,
            stake,
            seats,
            rest,
            keeper,
        } = one;
        drop(stake);
        drop(seats);
        drop(rest);
        drop(keeper);
        guest.close();
    }
    ended.destroy_empty();
}

// The guests end. The store comes back.
#[tactic(auto, using(crate::proofs::Ending::store_back))]
fn give_up<S: SwapStore + Drop, R: Wait>(rt: &R, guests: GuestCells<S>, handles: Vec<Handles>) -> S
    requires handles { AreHandlesOfAll guests.cells.items handles.items }
    requires slots { guests.memory.books.key.slots ≡ S.slots guests.memory.first }
    ensures { StoreStays S.SwapStore guests.memory.first result }
{
    let Finished {
        books: _,
        guests,
        store,
    } = guests.finish(rt, handles);
    close_all(guests);
    store
}

// Guests that are booted get a policy. Where there is no memory for it, all is given up but the store.
fn with_policy<S: SwapStore + Drop, R: Wait, G: Gate + Drop>(
    rt: &R,
    alloc: Global,
    frames: u32,
    policy: PolicyConfig,
    booted: guest_cells::Booted<S>,
    gate: G,
    left_over: Option<(u32, u32)>,
) -> Result<Booted<S, G>, S>
    requires handles { AreHandlesOfAll booted.cells.cells.items booted.handles.items }
    requires pass { IsPassOf booted.cells.memory booted.pass }
    requires frames { booted.cells.memory.books.key.frames ≡ frames }
    requires slots { booted.cells.memory.books.key.slots ≡ S.slots booted.cells.memory.first }
    ensures cells { IfOk result (λ b. b.host.guests ≡ booted.cells) }
    ensures handles { IfOk result (λ b. b.handles ≡ booted.handles) }
    ensures room { IfOk result (λ b. b.host.left_over ≡ left_over) }
    ensures back { IfErr result (StoreStays S.SwapStore booted.cells.memory.first) }
{
    let guest_cells::Booted {
        cells: guests,
        handles,
        pass,
    } = booted;
    match Policy::new(alloc, pass, frames, policy.tax, policy.seed) {
        Ok(policy) => Ok(Booted {
            host: Host {
                guests,
                policy,
                gate,
                left_over,
            },
            handles,
        }),
        Err(pass) => {
            drop(pass);
            drop(gate);
            Err(give_up(rt, guests, handles))
        }
    }
}

impl<S: SwapStore + Drop, G: Gate + Drop> Host<S, G> {
    ghost use Rattle.std.specs.Prelude.{◌≡◌, true, false, None, All, IfOk, IfErr, List, length};
    ghost use Rattle.guest.specs.Guests.{Intact};
    ghost use Rattle.guest_pages.specs.declared.page.Page.{Page};
    ghost use Rattle.swapstore.specs.Failures.{one_more};
    ghost use Rattle.lent_pages.specs.Stores.{IsStill};
    ghost use Rattle.booting.specs.Boots.{AreWithinLimits, AreAdmitted, HoldsImage, WhyNotBooted};
    ghost use Rattle.booting.specs.Stores.{StoreStays};
    ghost use Rattle.machine_memory.specs.Audits.{IsCountOf};
    ghost use Rattle.guest_cells.specs.Asked.{AreAsAsked};
    ghost use Rattle.guest_cells.specs.Handles.{AreHandlesOfAll};
    ghost use Rattle.guest_cells.specs.Ends.{HaveEnded, pages_left};
    ghost use Rattle.host.specs.Leftover.{IsRoom};

    /// A host of the guests that are asked for, each at the boot of its image, in their order, with what is handed out of each. The memory
    /// has the frames that are asked for and the slots of the store; which pages of the images are in frames and which in slots is as
    /// `booting::boot` has it. The level is high, and no page was sampled yet.
    ///
    /// They are refused, and the store comes back, where `booting::boot` refuses them, and for the same reason; `Memory` also where a request
    /// for memory was refused for the locks.
    #[tactic(auto, using(guest_cells::proofs::Housing::asked_handles, guest_cells::proofs::Stores::stays_on))]
    pub fn boot<R: Wait>(
        rt: &R,
        alloc: Global,
        config: Config,
        policy: PolicyConfig,
        guests: Vec<NewGuest>,
        store: S,
        gate: G,
    ) -> Result<Booted<S, G>, (BootError, S)>
        ensures guests { IfOk result (λ b. AreAsAsked config.log_runs guests.items b.host.guests.cells.items b.handles.items) }
        ensures books { IfOk result (λ b. b.host.guests.memory.books.key ≡ record { guests = length guests.items; frames = config.frames; slots = S.slots store }) }
        ensures store { IfOk result (λ b. StoreStays S.SwapStore store b.host.guests.memory.first) }
        ensures within { IfOk result (λ b. AreWithinLimits config (S.slots store) guests.items × All HoldsImage guests.items × AreAdmitted config (S.slots store) guests.items) }
        ensures room { IfOk result (λ b. IsRoom config (S.slots store) guests.items b.host.left_over) }
        ensures err { IfErr result (λ refused. WhyNotBooted config (S.slots store) guests.items refused.0) }
        ensures failed { IfErr result (λ refused. refused.0 ≡ BootError.Store → S.failed refused.1 ≡ one_more (S.failed store)) }
        ensures admitted_find_room { IfErr result (λ refused. refused.0 ≡ BootError.Room → config.admit ≡ true → ⊥) }
        ensures back { IfErr result (λ refused. StoreStays S.SwapStore store refused.1) }
    {
        let left_over = room_of(&config, &guests, store.slot_count());
        match GuestCells::boot(rt, alloc, config, guests, store) {
            Ok(booted) => {
                match with_policy(rt, alloc, config.frames, policy, booted, gate, left_over) {
                    Ok(booted) => Ok(booted),
                    Err(store) => Err((BootError::Memory, store)),
                }
            }
            Err(refused) => Err(refused),
        }
    }

    /// How many frames and how many slots are left over where the guests were admitted by their minimums: of the frames those beside the
    /// pages that they always keep and one more for each guest, of the slots those beside one for each of their other pages. None where
    /// they were not.
    pub fn room(&self) -> Option<(u32, u32)>
        ensures { result ≡ self.now.left_over }
    {
        self.left_over
    }

    /// How many frames, pages and slots there are, each kind counted for itself at one moment, with all locks held: the counts are those of
    /// exact books of pages of as many guests as there are, so they add up.
    pub fn audit<R: Wait>(&self, rt: &R) -> BookCounts
        ensures { (all : List (List Page)) × (length all ≡ self.now.guests.memory.books.key.guests) × IsCountOf self.now.guests.memory.books.key all result }
    {
        self.guests.audit(rt)
    }

    /// Ends the host, once no thread uses it: what each guest leaves, what the books of their pages count at last, and the swap store. The
    /// handles are those of all guests, in rising number.
    ///
    /// Where the swap store was true to digests at the boot, each guest is its run.
    pub fn finish<R: Wait>(self, rt: &R, handles: Vec<Handles>) -> Finished<S>
        requires handles { AreHandlesOfAll self.guests.cells.items handles.items }
        ensures guests { HaveEnded S.true_to_digests self.guests.cells.items handles.items result.guests.items }
        ensures runs { S.true_to_digests self.guests.memory.first → All (λ e. Intact e.guest) result.guests.items }
        ensures books { IsCountOf self.guests.memory.books.key (pages_left result.guests.items) result.books }
        ensures store { IsStill S.honest S.true_to_digests self.guests.memory.first result.store }
        ensures slots { S.slots result.store ≡ self.guests.memory.books.key.slots }
    {
        let Host {
            guests,
            policy,
            gate,
            left_over: _,
        } = self;
        drop(policy);
        drop(gate);
        guests.finish(rt, handles)
    }
}
