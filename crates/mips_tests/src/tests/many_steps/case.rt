//! A case of many steps.

/// A program, and how many steps of it are made at once.
pub struct Case {
    pub name: &'static str,
    /// Words of memory, at physical addresses. The program is entered at 80000000; the other words are zeros, which are
    /// `sll $0,$0,0`.
    pub words: &'static [(u32, u32)],
    /// How many steps are made one by one before.
    pub before: u32,
    /// The page that is absent then.
    pub absent: Option<u32>,
    /// How many steps are asked for.
    pub count: u32,
    /// How many are made at once.
    pub made: u32,
}
