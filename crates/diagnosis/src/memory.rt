//! Which memory an image was read for.
ghost use Rattle.std.specs.Prelude.{◌≡◌, ◌≤◌, ◌*◌};
ghost use Rattle.diagnosis.specs.Memories.{most_pages_of, pages_of};

use mips_cp0::Profile;
use std::fmt;
use word32::PAGE_SIZE;

/// How many bytes a page has.
pub(crate) const PAGE_BYTES: u64 = PAGE_SIZE as u64;

/// How many pages `dis` reads an executable for: all of kseg0.
pub const KSEG0_PAGES: u32 = 131_072;

/// The memory that an image was read for, and so what gives it more pages.
#[derive(Clone, Copy, Debug, PartialEq, Eq)]
pub enum Memory {
    /// That of `exec`, of a machine of this profile, whose option `--pages` gives it so many pages.
    Exec { profile: Profile, pages: u32 },
    /// That of `replay`, whose log is of a machine of this profile and of so many pages.
    Replay { profile: Profile, pages: u32 },
    /// All that `dis` reads an executable for.
    Kseg0,
    /// That of a guest of this profile, whose line in a script gives it so many pages.
    Guest { profile: Profile, pages: u32 },
}

impl Memory {
    /// How many pages it has.
    pub fn pages(self) -> u32
        ensures { result ≡ pages_of self }
    {
        match self {
            Memory::Exec { pages, .. }
            | Memory::Replay { pages, .. }
            | Memory::Guest { pages, .. } => pages,
            Memory::Kseg0 => KSEG0_PAGES,
        }
    }

    /// The profile of the machine that has it; none where no machine has it.
    pub fn profile(self) -> Option<Profile> {
        match self {
            Memory::Exec { profile, .. }
            | Memory::Replay { profile, .. }
            | Memory::Guest { profile, .. } => Some(profile),
            Memory::Kseg0 => None,
        }
    }

    /// How many pages such a memory has at most, by the profile: 16,384 or 32,768, or all of kseg0.
    pub fn most_pages(self) -> u32
        ensures value { result ≡ most_pages_of self }
        ensures least { 2 ≤ result }
    {
        match self {
            Memory::Exec { profile, .. }
            | Memory::Replay { profile, .. }
            | Memory::Guest { profile, .. } => profile.numbers().most_pages,
            Memory::Kseg0 => KSEG0_PAGES,
        }
    }

    /// How many bytes such a memory has at most.
    pub fn most_bytes(self) -> u64
        ensures { result ≡ 4096 * most_pages_of self }
    {
        PAGE_BYTES * u64::from(self.most_pages())
    }

    /// Of which profile the machine is that has it, as it stands behind a noun; nothing where no machine has it.
    pub fn of_profile(self) -> &'static str {
        match self.profile() {
            Some(profile) => of_profile(profile),
            None => "",
        }
    }

    /// What to try with a file that is no executable.
    pub fn other_files(self) -> &'static str {
        match self {
            Memory::Exec { .. } | Memory::Replay { .. } => {
                "; a raw image? try --raw; a source? assemble it first (vmhost asm)"
            }
            Memory::Kseg0 | Memory::Guest { .. } => "; a source? assemble it first (vmhost asm)",
        }
    }

    /// What to try where so many pages hold an image.
    pub fn with_pages(self, wanted: u32) -> Advice {
        Advice {
            memory: self,
            wanted,
        }
    }
}

/// A profile as it stands behind a noun.
pub fn of_profile(profile: Profile) -> &'static str {
    match profile {
        Profile::One => " of profile 1",
        Profile::Two => " of profile 2",
    }
}

/// What to try where so many pages hold an image.
#[derive(Clone, Copy, Debug)]
pub struct Advice {
    memory: Memory,
    wanted: u32,
}

impl fmt::Display for Advice {
    fn fmt<W: fmt::Write>(&self, f: &mut fmt::Formatter<W>) -> fmt::Result {
        let wanted = self.wanted;
        match self.memory {
            Memory::Exec { .. } => write!(f, "try --pages {wanted}"),
            Memory::Replay { .. } => write!(f, "{wanted} pages hold it, and the log is of fewer"),
            Memory::Kseg0 => write!(f, "{wanted} pages hold it"),
            Memory::Guest { .. } => write!(f, "give the guest {wanted} pages"),
        }
    }
}
