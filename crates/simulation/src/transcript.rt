//! What a script says is done, in a world that is booted for it.
ghost use Rattle.std.specs.Prelude.{◌≡◌, All, IfErr, IsErrOf, OnOk, length, map};
ghost use Rattle.script.specs.Courses.{course_of};
ghost use Rattle.script.specs.Views.{block_view};
ghost use Rattle.tenant.specs.declared.loading.BootError.{BootError};
ghost use Rattle.world.specs.All.{AreAdmitted, AreWithinLimits, HoldsImage};
ghost use Rattle.simulation.specs.Acts.{IsBlockFor};
ghost use Rattle.simulation.specs.Transcripts.{BreaksOff, WhyNotDone, WritesTranscript};
ghost use Rattle.simulation.specs.declared.transcript.SimError.TheVariants.{Boot, Memory, Output};

use crate::LogKeeper;
use crate::blocks::{Interruption, play};
use crate::keeping::keep_logs;
use rand_core::SeedableRng;
use rand_pcg::Pcg32;
use script::Block;
use std::alloc::Global;
use std::io::Write;
use swapstore::Damage;
use tenant::BootError;
use world::{Config, NewGuest, World};

/// Why a transcript is not whole.
#[derive(Clone, Copy, Debug, PartialEq, Eq)]
pub enum SimError {
    /// The world is not booted, and nothing was written.
    Boot(BootError),
    /// A request for memory was refused: the replies to the first events are written.
    Memory,
    /// A reply could not be written.
    Output,
}

impl From<Interruption> for SimError {
    fn from(interruption: Interruption) -> Self
        ensures memory { result ≡ Memory → interruption ≡ Interruption.Memory }
        ensures not_boot { (error : BootError) → result ≡ Boot error → ⊥ }
    {
        match interruption {
            Interruption::Memory => SimError::Memory,
            Interruption::Output => SimError::Output,
        }
    }
}

/// Boots a world with these guests over a store, does what blocks say, and writes the reply to each event as soon as it is done, behind
/// the number of its line where `numbered` says so. Random numbers are those of a generator of this seed. At the end, also where it comes
/// early, `keeper` gets the log of each guest.
///
/// `Boot` where the world is refused (`World::boot`): then nothing is written. `Memory` where a request for memory was refused later: then
/// the replies to the first events are written. `Output` where a reply could not be written.
pub fn simulate<S: Damage + Drop, K: LogKeeper, W: Write>(
    alloc: Global,
    config: Config,
    seed: u32,
    guests: Vec<NewGuest>,
    store: S,
    blocks: &[Block],
    numbered: bool,
    keeper: &mut K,
    out: &mut W,
) -> Result<(), SimError>
    requires { All (IsBlockFor (length guests.items) (S.slots store)) (map block_view blocks.now) }
    ensures transcript { OnOk result (WritesTranscript S.SwapStore numbered config seed guests.items store
        (course_of (length guests.items) (map block_view blocks.now)) (W.contents out.old) (W.contents out.new)) }
    ensures within { OnOk result (AreWithinLimits config (S.slots store) guests.items × All HoldsImage guests.items × AreAdmitted config (S.slots store) guests.items) }
    ensures refused { IfErr result (WhyNotDone config (S.slots store) guests.items) }
    ensures unwritten { (error : BootError) → IsErrOf result (Boot error) → out.new ≡ out.old }
    ensures begun_within { IsErrOf result Memory → AreWithinLimits config (S.slots store) guests.items × All HoldsImage guests.items × AreAdmitted config (S.slots store) guests.items }
    ensures broken_off { IsErrOf result Memory → BreaksOff S.SwapStore numbered config seed guests.items store
        (course_of (length guests.items) (map block_view blocks.now)) (W.contents out.old) (W.contents out.new) }
{
    let mut world = match World::boot(alloc, config, guests, store) {
        Ok(world) => world,
        Err((error, store)) => {
            drop(store);
            return Err(SimError::Boot(error));
        }
    };
    world.is_sound();
    let count = world.count() as u32;
    let mut rng = Pcg32::seed_from_u64(u64::from(seed));
    let played = play(
        alloc,
        &mut world,
        &mut rng,
        count,
        config.frames,
        blocks,
        numbered,
        out,
    );
    keep_logs(&world, keeper);
    drop(world.close());
    match played {
        Ok(()) => Ok(()),
        Err(interruption) => Err(SimError::from(interruption)),
    }
}
