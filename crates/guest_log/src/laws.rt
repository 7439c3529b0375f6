//! Laws of runs.
ghost use Rattle.std.specs.Prelude.{◌≡◌, ℕ, ◌+◌, ◌≤◌, false, None, Some, List, [], ◌∷◌, ◌++◌, length};
ghost use Rattle.std.specs.List.{last_or};
ghost use Rattle.items.specs.declared.item.Item.{Item};
ghost use Rattle.items.specs.declared.entry.Entry.{Entry};
ghost use Rattle.items.specs.declared.entry.Entry.TheVariants.{Steps};
ghost use Rattle.items.specs.Items.{is_step};
ghost use Rattle.items.specs.Entries.{steps_of, items_of};
ghost use Rattle.guest_log.specs.Runs.{BeginsRun, runs_after, run_count, last_run};

/// A law: items need as many runs as their first part and then the others after its last item, a run of steps needs
/// one, and no items need more runs than they are.
pub fn runs_add_up()
    ensures join { (xs ys : List Item) → run_count (xs ++ ys) ≡ run_count xs + runs_after (last_or None xs) ys }
    ensures steps { (seat n : ℕ) → 1 ≤ n → run_count (steps_of seat n) ≡ 1 }
    ensures few { (items : List Item) → run_count items ≤ length items }
{}

/// A law: whatever entries items are stored in, they are at least as many as the fewest.
pub fn no_fewer_entries_are_enough()
    ensures { (entries : List Entry) → run_count (items_of entries) ≤ length entries }
{}

/// A law: some steps of a seat that begin a run are the run that items end in with them, and items end in no run where
/// there is none or the last one is no step.
pub fn items_end_in_their_last_steps()
    ensures steps { (front : List Item) (seat n : ℕ) → 1 ≤ n → BeginsRun front seat → last_run (front ++ steps_of seat n) ≡ Some (Steps seat n) }
    ensures other { (front : List Item) (i : Item) → is_step i.what ≡ false → last_run (front ++ i ∷ []) ≡ None }
    ensures none { last_run [] ≡ None }
{}
