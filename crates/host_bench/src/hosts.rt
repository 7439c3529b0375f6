//! A host of one guest.
ghost use Rattle.std.specs.Prelude.{◌≡◌, length};
ghost use Rattle.guest_cells.specs.Handles.{AreHandlesOf, AreHandlesOfAll};
ghost use Rattle.host.specs.Places.{AtGuest};

use crate::guests::{CONFIG, SLOTS, one_guest};
use cell::Open;
use guest_cells::Handles;
use host::{Booted, Host, PolicyConfig};
use std::alloc::{AllocError, Global};
use std::sync::Wait;
use swapstore::MemStore;
use taxpolicy::Tax;

/// A host over a store in memory, whose guests nobody is asked of.
pub type OneHost = Host<MemStore, Open>;

/// A host of one guest, and what was handed out of that.
#[derive(Drop)]
pub struct Hosted {
    /// The host.
    pub host: OneHost,
    /// What was handed out of its guest.
    pub handles: Handles,
    /// There is one guest.
    pub ghost one: { length host.guests.cells.items ≡ 1 },
    /// The handles are its own.
    pub ghost its: { AtGuest host.guests.cells.items 0 (λ front. AreHandlesOf front handles) },
}

// The same, of what the boot has left.
fn hosted_of(booted: Booted<MemStore, Open>) -> Hosted
    requires one { length booted.host.guests.cells.items ≡ 1 }
    requires handles { AreHandlesOfAll booted.host.guests.cells.items booted.handles.items }
{
    let Booted { host, mut handles } = booted;
    let Some(handles) = handles.pop() else {
        unreachable!()
    };
    Hosted { host, handles }
}

/// Boots the one guest. `AllocError` where memory is refused, or the guest.
#[tactic(auto, using(guest_cells::proofs::Housing::asked_handles, guest_cells::proofs::Housing::housed_count))]
pub fn boot_host<R: Wait>(rt: &R, alloc: Global) -> Result<Hosted, AllocError> {
    let guests = one_guest(alloc)?;
    let store = MemStore::new(alloc, SLOTS)?;
    let policy = PolicyConfig {
        tax: Tax { percent: 75 },
        seed: 1,
    };
    match Host::boot(rt, alloc, CONFIG, policy, guests, store, Open) {
        Ok(booted) => Ok(hosted_of(booted)),
        Err((_error, store)) => {
            drop(store);
            Err(AllocError)
        }
    }
}
