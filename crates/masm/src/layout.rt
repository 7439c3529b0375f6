//! Where lines stand.
ghost use Rattle.std.specs.Prelude.{◌≡◌, ◌+◌, ◌<◌, ◌^◌, false, OnOk, Some};
ghost use Rattle.std.specs.List.{list_any};
ghost use Rattle.masm.specs.Places as place;
ghost use Rattle.masm.specs.Views.{layout_view};
ghost use Rattle.masm_lines.specs.Views.{line_view, statement_view};

use masm_lines::{Line, Statement};
use std::alloc::{AllocError, Global};

/// The first address of memory that is mapped to no other place, and where the first segment starts.
pub const FIRST_ADDRESS: u32 = 0x8000_0000;
/// The address behind the last one.
const END_ADDRESS: u64 = 0xa000_0000;
/// A file has at most this many segments.
const MAX_SEGMENTS: usize = 64;

/// A segment's first address, and how many bytes it has so far.
#[derive(Clone, Copy)]
pub struct Span {
    pub start: u32,
    pub size: u32,
}

impl Span {
    /// The address behind its last byte.
    pub fn end(&self) -> u64
        ensures value { result ≡ self.now.start + self.now.size }
        ensures small { result < 2 ^ 33 }
    {
        u64::from(self.start) + u64::from(self.size)
    }

    /// Whether it has a byte among those at an address.
    fn overlaps(&self, address: u64, size: u32) -> bool
        requires { address < 2 ^ 33 }
        ensures { result ≡ place.overlaps address size self.now }
    {
        u64::from(self.start) < address + u64::from(size) && address < self.end()
    }
}

/// Whether bytes at an address would stand outside of 80000000 to 9FFFFFFF.
fn is_outside(address: u64, size: u32) -> bool
    requires { address < 2 ^ 33 }
    ensures { result ≡ place.is_outside address size }
{
    address < u64::from(FIRST_ADDRESS) || address + u64::from(size) > END_ADDRESS
}

/// The segments so far.
#[derive(Drop)]
pub struct Layout {
    /// The non-empty ones before the present one, in the source's order.
    pub earlier: Vec<Span>,
    pub current: Span,
}

impl Layout {
    /// Before the first line.
    pub fn new(alloc: Global) -> Layout
        ensures { layout_view result ≡ place.first_layout }
    {
        Layout {
            earlier: Vec::new(alloc),
            current: Span {
                start: FIRST_ADDRESS,
                size: 0,
            },
        }
    }

    /// Where what follows stands.
    pub fn next_address(&self) -> u64
        ensures value { result ≡ place.next_address (layout_view self.now) }
        ensures small { result < 2 ^ 33 }
    {
        self.current.end()
    }

    /// Whether a statement may not stand here.
    #[tactic(auto, unfolding(crate::specs::Places::is_misplaced))]
    pub fn is_misplaced(&self, statement: &Statement) -> bool
        ensures { result ≡ place.is_misplaced (layout_view self.now) (statement_view statement.now) }
    {
        let (address, size) = (self.next_address(), statement.size());
        size > 0
            && (address % u64::from(statement.alignment()) != 0
                || is_outside(address, size)
                || self.overlaps(address, size)
                || self.is_one_too_many())
    }

    /// Whether an earlier segment has a byte among those at an address.
    fn overlaps(&self, address: u64, size: u32) -> bool
        requires { address < 2 ^ 33 }
        ensures { result ≡ list_any (place.overlaps address size) self.now.earlier.items }
    {
        self.earlier.iter().any(|span| span.overlaps(address, size))
    }

    /// Whether content here would be the first of one segment more than a file may have.
    fn is_one_too_many(&self) -> bool
        ensures { result ≡ place.is_one_too_many (layout_view self.now) }
    {
        self.current.size == 0 && self.earlier.len() >= MAX_SEGMENTS
    }

    /// Goes behind a statement that isn't misplaced.
    #[tactic(auto, unfolding(crate::specs::Places::is_misplaced))]
    pub fn advance(&mut self, statement: &Statement) -> Result<(), AllocError>
        requires placed { place.is_misplaced (layout_view self.old) (statement_view statement.now) ≡ false }
        requires in_range { place.next_address (layout_view self.old) < 2 ^ 32 }
        ensures ok { OnOk result (layout_view self.new ≡ place.after_statement (layout_view self.old) (Some (statement_view statement.now))) }
        ensures in_range { OnOk result (place.next_address (layout_view self.new) < 2 ^ 32) }
    {
        if let Statement::Org(start) = *statement {
            return self.begin(start);
        }
        self.current.size += statement.size();
        Ok(())
    }

    /// Begins a segment.
    fn begin(&mut self, start: u32) -> Result<(), AllocError>
        ensures ok { OnOk result (layout_view self.new ≡ record { earlier = place.spans (layout_view self.old); current = place.segment_at start }) }
        ensures in_range { OnOk result (place.next_address (layout_view self.new) < 2 ^ 32) }
    {
        if self.current.size != 0 {
            self.earlier.push(self.current)?;
        }
        self.current = Span { start, size: 0 };
        Ok(())
    }

    /// Whether a line's statement may not stand at its place.
    pub fn has_misplaced(&self, line: &Line) -> bool
        ensures { result ≡ place.has_misplaced (layout_view self.now) (line_view line.now).statement }
    {
        match &line.statement {
            Some(statement) => self.is_misplaced(statement),
            None => false,
        }
    }

    /// Goes behind a line whose statement isn't misplaced.
    pub fn advance_line(&mut self, line: &Line) -> Result<(), AllocError>
        requires placed { place.has_misplaced (layout_view self.old) (line_view line.now).statement ≡ false }
        requires in_range { place.next_address (layout_view self.old) < 2 ^ 32 }
        ensures ok { OnOk result (layout_view self.new ≡ place.after_statement (layout_view self.old) (line_view line.now).statement) }
        ensures in_range { OnOk result (place.next_address (layout_view self.new) < 2 ^ 32) }
    {
        match &line.statement {
            Some(statement) => self.advance(statement),
            None => Ok(()),
        }
    }
}
