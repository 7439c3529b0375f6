//! Samples of the guests' pages.
ghost use Rattle.std.specs.Prelude.{◌≡◌, ◌*◌, length};
ghost use Rattle.world.specs.Below.{after_words};
ghost use Rattle.world.specs.Samples.{AreSampled};

use crate::World;
use rand_core::Rng;
use swapstore::SwapStore;
use tenant::Tenant;

// A period of each guest's sample ends, and the next one begins.
fn sample_each<R: Rng>(tenants: &mut [Tenant], rng: &mut R)
    ensures sampled { AreSampled (R.stream rng.old) tenants.old tenants.new }
    ensures rest { R.stream rng.new ≡ after_words (100 * length tenants.old) (R.stream rng.old) }
{
    for g in 0..tenants.len() {
        tenants[g].sample(rng);
    }
}

impl<S: SwapStore> World<S> {
    ghost use Rattle.std.specs.Prelude.{◌≡◌, ◌*◌, length};
    ghost use Rattle.world.specs.All.{AreSampled, OnlySamplesChange, SameAround, after_words};

    /// Ends a period of the sample of each guest's pages and begins the next, guest after guest in the order of their numbers
    /// (`Tenant::sample`): the draws are counted whose page was accessed since it was drawn, and a hundred pages are drawn anew. No guest
    /// notices, and all else stays. The policy goes by what the last whole period has counted.
    pub fn sample<R: Rng>(&mut self, rng: &mut R)
        ensures sampled { AreSampled (R.stream rng.old) self.old.tenants self.new.tenants }
        ensures beside { OnlySamplesChange self.old.tenants self.new.tenants }
        ensures around { SameAround self.old self.new }
        ensures rest { R.stream rng.new ≡ after_words (100 * length self.old.tenants) (R.stream rng.old) }
    {
        sample_each(&mut self.tenants, rng);
    }
}
