//! Images.
ghost use Rattle.std.specs.Prelude.{◌≡◌, ℕ, ◌<◌, ◌≤◌, ◌+◌, ◌*◌, ◌^◌, [], ◌∷◌, length, IfOk, All, IsTrue, ◌↔◌};
ghost use Rattle.elf32.specs.Images.{IsWithin, FitsPages};

use std::alloc::{AllocError, Global};
use word32::PAGE_SIZE;

/// The virtual address of physical address 0 in the unmapped cached segment, kseg0.
pub const SEGMENT_BASE: u32 = 0x8000_0000;

/// How many bytes a page has.
pub(crate) const PAGE_BYTES: u64 = PAGE_SIZE as u64;

/// Bytes that are placed in memory, with zeros after them.
#[derive(Drop)]
pub struct Segment {
    /// The virtual address of the first byte, in kseg0.
    pub address: u32,
    /// The bytes that the file has.
    pub bytes: Vec<u8>,
    /// How many bytes of memory the segment takes: the file's, and zeros after them.
    pub size: u32,
}

/// What a guest boots from.
#[derive(Drop)]
pub struct Image {
    /// The virtual address of the first instruction.
    pub entry: u32,
    /// The segments, none of which overlap.
    pub segments: Vec<Segment>,
}

impl Segment {
    /// Whether a memory of this many bytes, below 2^63, holds the segment.
    pub fn is_within(&self, memory: u64) -> bool
        requires { memory < 2 ^ 63 }
        ensures { IsTrue result ↔ IsWithin memory self.now }
    {
        let start = u64::from(self.address);
        let base = u64::from(SEGMENT_BASE);
        self.bytes.len() as u64 <= u64::from(self.size)
            && base <= start
            && start + u64::from(self.size) <= base + memory
    }
}

impl Image {
    /// The image of bytes without a header: one segment at the start of kseg0, where it is also entered.
    pub fn raw(alloc: Global, bytes: Vec<u8>) -> Result<Image, AllocError>
        requires { length bytes.items < 2 ^ 32 }
        ensures entry { IfOk result (λ i. i.entry ≡ SEGMENT_BASE) }
        ensures segments { IfOk result (λ i. i.segments.items ≡ record { address = SEGMENT_BASE; bytes = bytes; size = length bytes.items } ∷ []) }
    {
        let size = bytes.len() as u32;
        let mut segments = Vec::new(alloc);
        segments.push(Segment {
            address: SEGMENT_BASE,
            bytes,
            size,
        })?;
        Ok(Image {
            entry: SEGMENT_BASE,
            segments,
        })
    }

    /// Whether a memory of this many pages holds each segment.
    pub fn fits(&self, pages: u32) -> bool
        ensures { IsTrue result ↔ FitsPages self.now pages }
    {
        let memory = u64::from(pages) * PAGE_BYTES;
        self.segments.iter().all(|s| s.is_within(memory))
    }
}
