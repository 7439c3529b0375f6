//! A header while its lines are read.
ghost use Rattle.std.specs.Prelude.{◌≡◌, IfSome, option_map};
ghost use Rattle.script.specs.Answers.{Answers};
ghost use Rattle.script.specs.Headers as spec;
ghost use Rattle.script.specs.Views.{draft_view, header_view, part_view};

use crate::error::LineError;
use crate::header::{Fail, GuestLine, Header};
use crate::part::Part;
use std::alloc::Global;

/// What the lines of the header have said so far.
#[derive(Drop)]
pub struct Draft<'a> {
    pub frames: Option<u32>,
    pub slots: Option<u32>,
    pub seed: Option<u32>,
    pub guests: Vec<GuestLine<'a>>,
    pub failure: Option<Fail>,
    pub admit: bool,
    pub profile: Option<u32>,
}

impl<'a> Draft<'a> {
    /// Nothing so far.
    pub fn new(alloc: Global) -> Draft<'a>
        ensures { draft_view result ≡ spec.first_draft }
    {
        Draft {
            frames: None,
            slots: None,
            seed: None,
            guests: Vec::new(alloc),
            failure: None,
            admit: false,
            profile: None,
        }
    }

    /// Takes a line, which is refused where it stands for the second time.
    #[tactic(auto, unfolding(crate::specs::Headers::with_part))]
    pub fn add(&mut self, part: &Part<'a>) -> Result<(), LineError>
        ensures { Answers (λ done. draft_view self.new) result (spec.with_part (draft_view self.old) (part_view part.now)) }
    {
        match *part {
            Part::Guest(guest) => {
                self.guests.push(guest)?;
                Ok(())
            }
            Part::Frames(count) if self.frames.is_none() => {
                self.frames = Some(count);
                Ok(())
            }
            Part::Slots(count) if self.slots.is_none() => {
                self.slots = Some(count);
                Ok(())
            }
            Part::Seed(seed) if self.seed.is_none() => {
                self.seed = Some(seed);
                Ok(())
            }
            Part::Failure(failure) if self.failure.is_none() => {
                self.failure = Some(failure);
                Ok(())
            }
            Part::Admit if !self.admit => {
                self.admit = true;
                Ok(())
            }
            Part::Profile(profile) if self.profile.is_none() => {
                self.profile = Some(profile);
                Ok(())
            }
            _ => Err(LineError::Refused),
        }
    }

    /// The number of slots, once frames, slots and a seed are there.
    #[tactic(auto, unfolding(crate::specs::Headers::header_of))]
    pub fn slots_of_whole(&self) -> Option<u32>
        ensures { result ≡ option_map (λ header. header.slots) (spec.header_of (draft_view self.now)) }
    {
        match (self.frames, self.slots, self.seed) {
            (Some(_), Some(slots), Some(_)) => Some(slots),
            _ => None,
        }
    }

    /// The header, if frames, slots and a seed are there.
    #[tactic(auto, unfolding(crate::specs::Headers::header_of))]
    pub fn finish(self) -> Option<Header<'a>>
        ensures { option_map header_view result ≡ spec.header_of (draft_view self.entry) }
    {
        let (Some(frames), Some(slots), Some(seed)) = (self.frames, self.slots, self.seed) else {
            return None;
        };
        Some(Header {
            frames,
            slots,
            seed,
            guests: self.guests,
            failure: self.failure,
            admit: self.admit,
            profile: self.profile,
        })
    }
}
