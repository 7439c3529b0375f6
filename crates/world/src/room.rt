//! How much memory is left over by the minimums of guests that are admitted by these.
ghost use Rattle.std.specs.Prelude.{◌≡◌, ◌+◌, ◌-◌, ◌<◌, ◌⊎◌, IfSome, IfNone, length, sum_by};
ghost use Rattle.world.specs.Below.{TenantIs, pages_in};

use crate::World;
use swapstore::SwapStore;
use tenant::Tenant;

// What is left over of so many frames and slots: of the frames beside the pages that the guests always keep and one more for each, of the
// slots beside one for each of their other pages.
fn left_over(tenants: &[Tenant], frames: u32, slots: u32) -> Option<(u32, u32)>
    ensures frames { IfSome result (λ left. left.0 + sum_by (λ (t : TenantIs). t.minimum + 1) tenants.now ≡ frames) }
    ensures slots { IfSome result (λ left. left.1 + sum_by (λ t. length (pages_in t) - t.minimum) tenants.now ≡ slots) }
    ensures none { IfNone result ((frames < sum_by (λ (t : TenantIs). t.minimum + 1) tenants.now)
        ⊎ (slots < sum_by (λ t. length (pages_in t) - t.minimum) tenants.now)) }
{
    let mut frames = frames;
    let mut slots = slots;
    for tenant in tenants {
        let minimum = tenant.minimum();
        let others = tenant.page_count().saturating_sub(minimum);
        if frames <= minimum {
            return None;
        }
        if slots < others {
            return None;
        }
        frames -= minimum + 1;
        slots -= others;
    }
    Some((frames, slots))
}

impl<S: SwapStore> World<S> {
    ghost use Rattle.std.specs.Prelude.{◌≡◌, ◌+◌, ◌-◌, IfSome, IfNone, length, sum_by};
    ghost use Rattle.world.specs.All.{IsAdmitted, TenantIs, pages_in};

    /// How many frames and how many slots are left over where the guests are admitted by their minimums: of the frames those beside the
    /// pages that they always keep and one more for each guest, of the slots those beside one for each of their other pages. None exactly
    /// where they are not admitted: there is no guest, or there are too few frames or slots.
    pub fn room(&self) -> Option<(u32, u32)>
        ensures admitted { IfSome result (λ left. IsAdmitted self.now.frames (S.slots self.now.store) self.now.tenants) }
        ensures none { IfNone result (IsAdmitted self.now.frames (S.slots self.now.store) self.now.tenants → ⊥) }
        ensures frames { IfSome result (λ left. left.0 + sum_by (λ t. t.minimum + 1) self.now.tenants ≡ self.now.frames) }
        ensures slots { IfSome result (λ left. left.1 + sum_by (λ t. length (pages_in t) - t.minimum) self.now.tenants ≡ S.slots self.now.store) }
    {
        if self.count() == 0 {
            return None;
        }
        left_over(self.tenants(), self.frames, self.store.slot_count())
    }
}
