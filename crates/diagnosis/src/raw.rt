//! Raw images.
use crate::memory::Memory;
use crate::pages::least_pages;
use crate::words::{Words, plural};
use elf32::SEGMENT_BASE;
use elf32::range::AddressRange;
use std::alloc::{AllocError, Global};

/// Words for a raw image of so many bytes that a memory refuses: it is empty, or longer than the memory. Above the bytes that such a
/// memory has at most (`Memory::most_bytes`) the number only says that it is above.
pub fn explain(alloc: Global, length: u64, memory: Memory) -> Result<Words, AllocError> {
    if length == 0 {
        return Words::of(alloc, "the file is empty");
    }
    let text = match pages_for(length, memory) {
        Some(wanted) => {
            let s = plural(length);
            let pages = memory.pages();
            let advice = memory.with_pages(wanted);
            format!(in alloc;
                "the image has {length} byte{s}, which {wanted} pages hold, and the memory has {pages}; {advice}"
            )?
        }
        None => {
            let bytes = memory.most_bytes();
            let pages = memory.most_pages();
            let of = memory.of_profile();
            format!(in alloc;
                "the image has more than {bytes} bytes, and no memory{of} does: the most are {pages} pages"
            )?
        }
    };
    Words::of(alloc, &text)
}

/// The least number of pages of such a memory that holds an image of so many bytes.
fn pages_for(length: u64, memory: Memory) -> Option<u32> {
    if length > memory.most_bytes() {
        return None;
    }
    let range = AddressRange {
        address: SEGMENT_BASE,
        size: length as u32,
    };
    least_pages(&range, memory)
}
