//! The sample of a guest's pages.
ghost use Rattle.std.specs.Prelude.{◌≡◌, ◌≤◌, IfSome, None, Some, unwrap_or};

use taxpolicy::SAMPLE_SIZE;

/// What is known of the pages that a guest touches: the pages that were drawn for the period that runs, and how many draws of the last
/// whole period were touched.
#[derive(Clone, Copy, Debug, PartialEq, Eq)]
pub struct Sample {
    /// The pages drawn for the period that runs, in the order of the draws; none before the first period.
    pub draws: Option<[u32; SAMPLE_SIZE]>,
    /// How many draws of the last whole period were of a page that was touched in it. While no period is whole it is all of them.
    pub active: u16,
    pub ghost few: { active ≤ 100 },
}

impl Sample {
    /// The sample of a guest of which no page was drawn yet: it counts as active.
    pub fn new() -> Sample
        ensures draws { result.draws ≡ None }
        ensures active { result.active ≡ 100 }
    {
        Sample {
            draws: None,
            active: SAMPLE_SIZE as u16,
        }
    }

    /// Ends the period that runs, if one does, and begins the next: `touched` is how many draws of the period that ends were of a page
    /// that was touched in it, or none where none runs yet; `draws` are the pages drawn for the next one.
    pub fn next(&mut self, touched: Option<u16>, draws: [u32; SAMPLE_SIZE])
        requires { IfSome touched (λ count. count ≤ 100) }
        ensures draws { self.new.draws ≡ Some draws }
        ensures active { self.new.active ≡ unwrap_or touched self.old.active }
    {
        *self = Sample {
            draws: Some(draws),
            active: touched.unwrap_or(self.active),
        };
    }
}
