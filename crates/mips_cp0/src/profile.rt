//! The profiles of the processor.
ghost use Rattle.std.specs.Prelude.{◌≡◌, ◌<◌, ◌≤◌, ℕ, IfSome, IfNone, ◌≢◌};
ghost use Rattle.mips_cp0.specs.Profiles.{profile_numbers, last_entry_of};
ghost use Rattle.mips_cp0.specs.declared.profile.Profile.{Profile};

/// Which of the two processors a machine has: they differ in `ProfileNumbers` alone.
#[derive(Clone, Copy, Debug, PartialEq, Eq)]
pub enum Profile {
    /// 16 TLB entries, and at most 16,384 pages of memory.
    One,
    /// 32 TLB entries, and at most 32,768 pages of memory.
    Two,
}

/// What the profiles differ in. The TLB's last entry is where Random begins, the mask of Index and of Wired, and what Config1
/// shows.
#[derive(Clone, Copy, Debug, PartialEq, Eq)]
pub struct ProfileNumbers {
    /// The number by which a command, a script or a log names the profile.
    pub number: u32,
    /// How many entries the TLB has, a power of two.
    pub entries: u32,
    /// The greatest number of pages of a memory.
    pub most_pages: u32,
}

/// How many entries the TLB of any profile has at most.
pub const MOST_ENTRIES: usize = 32;

impl Profile {
    /// What the profiles differ in: the table.
    pub fn numbers(self) -> ProfileNumbers
        ensures value { result ≡ profile_numbers self }
    {
        match self {
            Profile::One => ProfileNumbers {
                number: 1,
                entries: 16,
                most_pages: 16384,
            },
            Profile::Two => ProfileNumbers {
                number: 2,
                entries: 32,
                most_pages: 32768,
            },
        }
    }

    /// The number of the last TLB entry, 15 or 31.
    pub fn last_entry(self) -> u32
        ensures value { result ≡ last_entry_of self }
        ensures small { result < MOST_ENTRIES }
    {
        self.numbers().entries - 1
    }

    /// The profile of a number; None where there is none.
    pub fn of_number(number: u32) -> Option<Profile>
        ensures found { IfSome result (λ profile. (profile_numbers profile).number ≡ number) }
        ensures none { IfNone result ((profile : Profile) → (profile_numbers profile).number ≢ number) }
    {
        match number {
            1 => Some(Profile::One),
            2 => Some(Profile::Two),
            _ => None,
        }
    }
}
