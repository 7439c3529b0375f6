//! What `run` is to do.
use mips_cp0::Profile;

/// What `run` runs.
#[derive(Drop)]
pub struct RunOrder<'a> {
    /// The profile of each guest's processor.
    pub profile: Profile,
    /// How many frames of machine memory there are.
    pub frames: u32,
    /// How many slots the swap file has, of 4,096 bytes each.
    pub slots: u32,
    /// The name of the swap file, which is made where it is not there.
    pub swap: &'a str,
    /// The first guest's debugger port, on 127.0.0.1; the others follow. 0: there are no ports.
    pub port: u16,
    /// The seed of the words by which the policy draws pages.
    pub seed: u32,
    /// The name of the directory that the logs are written to, guest g's as `g.log`.
    pub logs: &'a str,
    /// Whether guests are admitted by their minimums alone.
    pub admit: bool,
    /// The guests, in the order of their numbers, which count from 0.
    pub guests: Vec<GuestOrder<'a>>,
}

/// A guest that is to run.
#[derive(Clone, Copy, Debug, PartialEq, Eq)]
pub struct GuestOrder<'a> {
    /// The name of its image's file, an ELF executable.
    pub image: &'a str,
    /// How many pages its memory has; any number is taken here, and more than the profile allows are refused at the boot.
    pub pages: u32,
    /// How many shares of the machine's memory it has; any number is taken here.
    pub shares: u32,
    /// How many resident pages it always keeps, where that is given.
    pub minimum: Option<u32>,
}
