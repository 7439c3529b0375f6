//! Runs of steps.
ghost use Rattle.std.specs.Prelude.{◌≡◌, ◌+◌, ◌<◌, ◌≤◌, ◌++◌, vec_capacity, vec_len, option_to_list};
ghost use Rattle.guest_log.specs.Stored.{run_entry, entries_of};

use items::{Entry, SeatNo};

/// Steps of one seat, one after another.
#[derive(Clone, Copy)]
pub(crate) struct Run {
    pub(crate) seat: SeatNo,
    pub(crate) steps: u64,
}

impl Run {
    /// The run as an entry; none where it has no steps.
    pub(crate) fn entry(self) -> Option<Entry>
        ensures { result ≡ run_entry self }
    {
        if self.steps == 0 {
            None
        } else {
            Some(Entry::Steps {
                seat: self.seat,
                count: self.steps,
            })
        }
    }

    /// Stores the run after the entries, which have room for one more. A run of no steps takes no room.
    pub(crate) fn store(self, earlier: &mut Vec<Entry>)
        requires { vec_len earlier.old < vec_capacity earlier.old }
        ensures items { earlier.new.items ≡ entries_of earlier.old.items self }
        ensures len { vec_len earlier.new ≤ vec_len earlier.old + 1 }
        ensures capacity { vec_capacity earlier.new ≡ vec_capacity earlier.old }
    {
        if let Some(entry) = self.entry() {
            earlier.push_reserved(entry);
        }
    }
}
