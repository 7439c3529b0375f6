//! How much memory is left over by the minimums of guests that are admitted by these.
ghost use Rattle.std.specs.Prelude.{◌≡◌, ◌+◌, ◌-◌, ◌<◌, ◌⊎◌, IfSome, IfNone, sum_by};
ghost use Rattle.booting.specs.declared.asked.NewGuest.{NewGuest};
ghost use Rattle.booting.specs.Boots.{AreAdmitted};
ghost use Rattle.host.specs.Leftover.{IsRoom};

use booting::{Config, NewGuest};

// What is left over of so many frames and slots: of the frames beside the pages that the guests always keep and one more for each, of the
// slots beside one for each of their other pages. None where there are too few.
fn left_over(guests: &[NewGuest], frames: u32, slots: u32) -> Option<(u32, u32)>
    ensures frames { IfSome result (λ left. left.0 + sum_by (λ (g : NewGuest). g.minimum + 1) guests.now ≡ frames) }
    ensures slots { IfSome result (λ left. left.1 + sum_by (λ (g : NewGuest). g.pages - g.minimum) guests.now ≡ slots) }
    ensures none { IfNone result ((frames < sum_by (λ (g : NewGuest). g.minimum + 1) guests.now)
        ⊎ (slots < sum_by (λ (g : NewGuest). g.pages - g.minimum) guests.now)) }
{
    let mut frames = frames;
    let mut slots = slots;
    for guest in guests {
        let others = guest.pages.saturating_sub(guest.minimum);
        if frames <= guest.minimum {
            return None;
        }
        if slots < others {
            return None;
        }
        frames -= guest.minimum + 1;
        slots -= others;
    }
    Some((frames, slots))
}

// What is left over where guests are to be admitted by their minimums.
#[tactic(auto, using(crate::proofs::Admitted::room_is))]
pub(crate) fn room_of(config: &Config, guests: &[NewGuest], slots: u32) -> Option<(u32, u32)>
    ensures { AreAdmitted config.now slots guests.now → IsRoom config.now slots guests.now result }
{
    if config.admit {
        left_over(guests, config.frames, slots)
    } else {
        None
    }
}
