//! Which pages are sampled.
ghost use Rattle.std.specs.Prelude.{◌≡◌, ◌<◌};
ghost use Rattle.taxpolicy.specs.Sample.{drawn, after_words};

use rand_core::Rng;

/// The draws of a sample.
pub const SAMPLE_SIZE: usize = 100;

/// Draws the page numbers of a sample, each the generator's next word modulo `pages`, in the order of the draws. A page may
/// be drawn more than once, and counts so often.
#[tactic(auto, unfolding(crate::specs::Sample::drawn, crate::specs::Sample::after_words))]
pub fn pick_sample<R: Rng>(rng: &mut R, pages: u32) -> [u32; SAMPLE_SIZE]
    requires { 0 < pages }
    ensures draws { result ≡ drawn pages 100 (R.stream rng.old) }
    ensures rest { R.stream rng.new ≡ after_words 100 (R.stream rng.old) }
{
    let mut draws = [0; SAMPLE_SIZE];
    for draw in draws.iter_mut() {
        *draw = rng.next_u32() % pages;
    }
    draws
}
