//! What is done by an event of a script, done in a world.
ghost use Rattle.std.specs.Prelude.{◌≡◌, ◌<◌, ◌↔◌, ◌++◌, ℕ, IfOk, length, map, string_bytes, None};
ghost use Rattle.world.specs.All.{IsSoundWorld, TenantIs, boot_of, guest_at, items_of, log_at, run, view_at};
ghost use Rattle.dump.specs.Dumps.{dump_text};
ghost use Rattle.dump.specs.Steps.{step_count};
ghost use Rattle.simulation.specs.Acts.{IsDoable, IsHarmless};
ghost use Rattle.simulation.specs.Transcripts.{IsTold, added};

use crate::pages::page_counts;
use crate::{Act, Said};
use dump::{dump, steps_in};
use rand_core::Rng;
use std::alloc::{AllocError, Global};
use swapstore::{Damage, SwapStore};
use taxpolicy::Tax;
use world::World;

/// The tax on idle pages.
const TAX: Tax = Tax { percent: 75 };

// The dump of a guest, with all steps since its boot.
fn dump_of<S: SwapStore>(alloc: Global, world: &World<S>, g: usize) -> Result<String, AllocError>
    requires { g < length world.now.tenants }
    ensures { S.true_to_digests world.now.store → (t : TenantIs) → IfOk result (λ text. string_bytes text ≡
        dump_text (view_at world.now g t) (step_count (items_of (guest_at world.now g t))) None) }
{
    world.is_sound();
    let guest = world.guest(g).guest();
    dump(alloc, guest.view(), steps_in(guest.log()), None)
}

/// Does an act, and says what is answered. The log of each guest is the one before with the items that the act adds by what is answered,
/// the machines that the guests booted stay, and the world is sound. Where the store is true to digests then, it was before; unless a slot
/// is damaged, it stays as true to digests as it is.
pub(crate) fn perform<S: Damage, R: Rng>(
    alloc: Global,
    world: &mut World<S>,
    rng: &mut R,
    act: Act,
) -> Said
    requires { IsDoable (length world.old.tenants) (S.slots world.old.store) act }
    ensures told { IsTold S.SwapStore (R.stream rng.old) world.old act result
        (R.stream rng.new) world.new }
    ensures logs { (h : ℕ) → log_at world.new.tenants h ≡ log_at world.old.tenants h ++ added h act result }
    ensures boots { map boot_of world.new.tenants ≡ map boot_of world.old.tenants }
    ensures slots { S.slots world.new.store ≡ S.slots world.old.store }
    ensures trusted_before { S.true_to_digests world.new.store → S.true_to_digests world.old.store }
    ensures trust { IsHarmless act → (S.true_to_digests world.new.store ↔ S.true_to_digests world.old.store) }
    ensures sound { IsSoundWorld S.SwapStore world.new }
{
    match act {
        Act::World(event) => Said::Answered(world.apply(alloc, event, TAX, rng)),
        Act::Skip => {
            world.is_sound();
            Said::Skipped
        }
        Act::Audit => {
            world.is_sound();
            Said::Counted(world.books())
        }
        Act::Pages(guest) => {
            world.is_sound();
            Said::Placed(page_counts(world, guest.index()))
        }
        Act::Dump(guest) => {
            world.is_sound();
            Said::Dumped(dump_of(alloc, world, guest.index()))
        }
        Act::Stats(guest) => {
            world.is_sound();
            Said::Moved(world.counts(guest.index()))
        }
        Act::Damage(slot, byte) => {
            let done = world.damage(slot, byte);
            world.is_sound();
            Said::Damaged(done)
        }
    }
}
