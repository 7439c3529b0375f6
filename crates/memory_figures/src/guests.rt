//! Guests of small images, and the world that they run in.
ghost use Rattle.std.specs.Prelude.{◌≤◌, length, IfOk};

use elf32::Image;
use mips_cp0::Profile;
use std::alloc::{AllocError, Global};
use std::sync::Arc;
use swapstore::MemStore;
use world::{Config, NewGuest, World};

/// How many pages each guest has.
pub const PAGES: u32 = 256;

/// How many words a page has.
const WORDS: u32 = 1024;

/// The bytes of an image: these words of code, and then in each page up to a number bytes that no other page has.
fn bytes_of(alloc: Global, code: &[u32], pages: u32) -> Result<Vec<u8>, AllocError> {
    let mut bytes = Vec::new(alloc);
    for word in code {
        bytes.extend_from_slice(&word.to_le_bytes())?;
    }
    let first = code.len().min(WORDS as usize) as u32;
    for place in first..pages.min(PAGES) * WORDS {
        bytes.extend_from_slice(&place.wrapping_mul(2_654_435_761).to_le_bytes())?;
    }
    Ok(bytes)
}

/// An image of these words of code from 80000000 on, which has so many pages. `AllocError` also where it has more bytes than a memory.
pub fn image_of(alloc: Global, code: &[u32], pages: u32) -> Result<Image, AllocError> {
    let bytes = bytes_of(alloc, code, pages)?;
    if bytes.len() > 1 << 29 {
        return Err(AllocError);
    }
    Ok(Image::raw(alloc, bytes)?)
}

/// A guest of equal shares with the others.
pub fn guest_of(image: &Arc<Image, Global>) -> Result<NewGuest, AllocError> {
    Ok(NewGuest {
        profile: Profile::One,
        image: image.clone()?,
        pages: PAGES,
        shares: 1000,
        minimum: 2,
    })
}

/// A world of these guests on so many frames, with a slot for each page of theirs. `AllocError` also where the world is refused.
pub fn world_of(
    alloc: Global,
    frames: u32,
    guests: Vec<NewGuest>,
) -> Result<World<MemStore>, AllocError> {
    let slots = guests.len().min(16) as u32 * PAGES;
    let store = MemStore::new(alloc, slots)?;
    let config = Config {
        frames,
        log_runs: 1 << 20,
        admit: false,
    };
    match World::boot(alloc, config, guests, store) {
        Ok(world) => Ok(world),
        Err((_, store)) => {
            drop(store);
            Err(AllocError)
        }
    }
}
