//! Laws of log files of both versions.
ghost use Rattle.std.specs.Prelude.{◌≡◌, ℕ, ◌<◌, List};
ghost use Rattle.mips_cp0.specs.declared.profile.Profile.{Profile};
ghost use Rattle.items.specs.declared.entry.Entry.{Entry};
ghost use Rattle.logfile.specs.declared.fault.LogFault.{LogFault};
ghost use Rattle.logfile.specs.Versions.{IsPagesOf, HasHeaderAs, HasEntriesAs, StandsForAs, FailsAs, rank_of};

/// A law: the file that is written for a log, of version 2, has the log's header and its entries, and no others.
pub fn written_file_reads_back()
    ensures header { (file digest : List ℕ) (profile : Profile) (pages : ℕ) (es : List Entry) → IsPagesOf profile pages
        → StandsForAs file profile pages digest es → HasHeaderAs file digest profile pages }
    ensures entries { (file digest : List ℕ) (profile : Profile) (pages : ℕ) (es : List Entry)
        → StandsForAs file profile pages digest es → HasEntriesAs file es }
    ensures one { (file : List ℕ) (es back : List Entry) → HasEntriesAs file es → HasEntriesAs file back → es ≡ back }
{}

/// A law: a file with its header, of either version, fails no check before that of its body.
pub fn right_header_has_no_fault()
    ensures { (file digest : List ℕ) (profile : Profile) (pages : ℕ) (f : LogFault) → HasHeaderAs file digest profile pages
        → rank_of f < 5 → ¬ FailsAs f file digest }
{}
