//! What a world is made of.
ghost use Rattle.std.specs.Prelude.{◌≡◌};

use crate::World;
use framepool::Pool;
use reclaim::Level;
use sharetab::Shares;
use swapstore::{SlotBook, SwapStore};
use tenant::Tenant;

/// What a world is made of, for an owner who puts its guests elsewhere, each behind a lock of its own for example.
pub struct Parts<S> {
    /// The guests, in the order of their numbers.
    pub tenants: Vec<Tenant>,
    /// The free frames.
    pub pool: Pool,
    /// The free slots.
    pub slots: SlotBook,
    /// The shared frames.
    pub shares: Shares,
    /// The store of the pages that are in slots.
    pub store: S,
    /// How many frames there are.
    pub frames: u32,
    /// How scarce free frames were at the last turn of the policy.
    pub level: Level,
}

impl<S: SwapStore> World<S> {
    ghost use Rattle.std.specs.Prelude.{◌≡◌};
    ghost use Rattle.world.specs.All.{Sound};
    ghost use Rattle.world.specs.Parts.{of_parts};

    /// Takes the world apart. Of the parts is so what is of each world: the books are exact, and while the store is true to digests each
    /// guest is its run (`is_sound`).
    pub fn into_parts(self) -> Parts<S>
        ensures parts { of_parts result ≡ self }
        ensures sound { Sound result.frames (S.slots result.store) (S.true_to_digests result.store) (S.held result.store)
            result.tenants.items result.pool result.slots result.shares.entries }
    {
        let World {
            tenants,
            pool,
            slots,
            shares,
            store,
            frames,
            level,
        } = self;
        Parts {
            tenants,
            pool,
            slots,
            shares,
            store,
            frames,
            level,
        }
    }

    /// The world of these parts.
    pub fn from_parts(parts: Parts<S>) -> World<S>
        requires { Sound parts.frames (S.slots parts.store) (S.true_to_digests parts.store) (S.held parts.store)
            parts.tenants.items parts.pool parts.slots parts.shares.entries }
        ensures { result ≡ of_parts parts }
    {
        let Parts {
            tenants,
            pool,
            slots,
            shares,
            store,
            frames,
            level,
        } = parts;
        World {
            tenants,
            pool,
            slots,
            shares,
            store,
            frames,
            level,
        }
    }
}
