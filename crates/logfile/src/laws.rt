//! Laws of log files.
ghost use Rattle.std.specs.Prelude.{◌≡◌, ℕ, ◌<◌, List, [], ◌∷◌, ◌++◌, length, take, All};
ghost use Rattle.items.specs.declared.item.What.TheVariants.{In};
ghost use Rattle.items.specs.declared.entry.Entry.{Entry};
ghost use Rattle.items.specs.declared.entry.Entry.TheVariants.{Steps, One};
ghost use Rattle.items.specs.Entries.{items_in, items_of};
ghost use Rattle.logfile.specs.declared.fault.LogFault.{LogFault};
ghost use Rattle.logfile.specs.declared.fault.LogFault.TheVariants.{Body};
ghost use Rattle.logfile.specs.FileItems.{body_bytes, IsFileEntry};
ghost use Rattle.logfile.specs.Files.{IsPages, HasHeader, HasEntries, StandsFor};
ghost use Rattle.logfile.specs.Faults.{number_of, Fails, IsFault};
ghost use Rattle.logfile.specs.Runs.{written_entries, file_entries};

/// A law: bytes are the items of one list of entries at most, and a beginning of them that is made of whole items is made
/// of the first of them.
pub fn items_are_read_in_one_way()
    ensures one { (xs ys : List Entry) → All IsFileEntry xs → All IsFileEntry ys → body_bytes xs ≡ body_bytes ys → xs ≡ ys }
    ensures first { (xs ys : List Entry) (rest : List ℕ) → All IsFileEntry xs → All IsFileEntry ys → body_bytes xs ≡ body_bytes ys ++ rest
        → ys ≡ take (length ys) xs }
{}

/// A law: the entries of the file of a log have the items of its entries, in order.
pub fn written_entries_have_the_same_items()
    ensures each { (e : Entry) → items_of (written_entries e) ≡ items_in e }
    ensures all { (entries : List Entry) → items_of (file_entries entries) ≡ items_of entries }
{}

/// A law: a file stands for a log where it has its header and its entries.
pub fn header_and_entries_make_the_file()
    ensures stands { (file digest : List ℕ) (pages : ℕ) (es : List Entry) → HasHeader file digest pages → HasEntries file es → StandsFor file pages digest es }
    ensures header { (file digest : List ℕ) (pages : ℕ) (es : List Entry) → IsPages pages → StandsFor file pages digest es → HasHeader file digest pages }
    ensures entries { (file digest : List ℕ) (pages : ℕ) (es : List Entry) → StandsFor file pages digest es → HasEntries file es }
{}

/// A law: a file with its header has no fault before that of its body, and one with its entries has not that one.
pub fn log_file_has_no_fault()
    ensures header { (file digest : List ℕ) (pages : ℕ) (f : LogFault) → HasHeader file digest pages → number_of f < 4 → ¬ Fails f file digest }
    ensures body { (file digest : List ℕ) (pages : ℕ) → HasHeader file digest pages → Fails Body file digest → IsFault file digest Body }
    ensures none { (file digest : List ℕ) (es : List Entry) → HasEntries file es → ¬ Fails Body file digest }
{}

/// A law: the entries that are read from the file that was written for a log have its items, in order.
pub fn written_log_reads_back()
    ensures entries { (file digest : List ℕ) (pages : ℕ) (es back : List Entry) → StandsFor file pages digest es → HasEntries file back → back ≡ es }
    ensures items { (file d : List ℕ) (n : ℕ) (es back : List Entry) → StandsFor file n d (file_entries es) → HasEntries file back
        → items_of back ≡ items_of es }
{}

/// Worked items of seat 0: three steps, `A` on the console, and two steps.
#[tactic(auto, unfolding(crate::specs::FileItems::entry_bytes))]
pub fn items_worked_out()
    ensures steps { body_bytes (Steps 0 3 ∷ []) ≡ 0x01 ∷ 0x00 ∷ 0x03 ∷ 0x00 ∷ 0x00 ∷ 0x00 ∷ [] }
    ensures input { body_bytes (One (record { seat = 0; what = In 0x41 }) ∷ Steps 0 2 ∷ []) ≡ 0x02 ∷ 0x00 ∷ 0x41 ∷ 0x01 ∷ 0x00 ∷ 0x02 ∷ 0x00 ∷ 0x00
        ∷ 0x00 ∷ [] }
{}
