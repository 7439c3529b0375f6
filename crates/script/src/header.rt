//! What a script says.
use crate::action::Block;

/// The calls of a store of swapped pages.
#[derive(Clone, Copy, Debug, PartialEq, Eq)]
pub enum StoreCall {
    Read,
    Write,
}

/// The call of the store that fails: the one of its kind with this number, which counts from 1.
#[derive(Clone, Copy, Debug, PartialEq, Eq)]
pub struct Fail {
    pub call: StoreCall,
    pub count: u32,
}

/// A guest: the file of its image, its pages, its shares, and the least number of pages that it keeps, where it is given.
#[derive(Clone, Copy, Debug, PartialEq, Eq)]
pub struct GuestLine<'a> {
    pub file: &'a str,
    pub pages: u32,
    pub shares: u32,
    pub minimum: Option<u32>,
}

/// The header of a script.
#[derive(Debug, Drop, PartialEq, Eq)]
pub struct Header<'a> {
    /// How many page frames the host has.
    pub frames: u32,
    /// How many slots for swapped pages.
    pub slots: u32,
    /// The seed of its random numbers.
    pub seed: u32,
    /// The guests, in the order of their numbers, which count from 0.
    pub guests: Vec<GuestLine<'a>>,
    /// The call of the store that fails, if one does.
    pub failure: Option<Fail>,
    /// Whether guests are admitted by their minimums.
    pub admit: bool,
    /// The profile of the machines, where it is given.
    pub profile: Option<u32>,
}

/// A script.
#[derive(Debug, Drop, PartialEq, Eq)]
pub struct Script<'a> {
    pub header: Header<'a>,
    /// What is done, in its order. The lines that no `repeat` repeats are in blocks that are done once; these may be empty.
    pub blocks: Vec<Block>,
}
