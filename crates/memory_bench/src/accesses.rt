//! Rounds of stores and loads, in the pages of a guest and in plain memory of the same size.
ghost use Rattle.std.specs.Prelude.{◌≡◌, ◌%◌, ◌<◌, length};

use crate::frame::zero_frame;
use framepool::Pool;
use guest_pages::{GuestPages, PageKind};
use std::alloc::{AllocError, Global};
use word32::{Ppn, page_of, put_word, word_at};

/// How many pages each memory has.
const PAGES: u32 = 4;

/// How many words.
pub const WORDS: u32 = PAGES * 1024;

// The address of a round. Rounds one after another reach each word once in 4,096, and mostly another page.
#[inline(always)]
fn address(round: u32) -> u32
    ensures within { result < 16384 }
    ensures aligned { result % 4 ≡ 0 }
{
    round.wrapping_mul(1021) % WORDS * 4
}

// Writes the number of each round: a memory of zeros has other words from then on.
fn store_plain(memory: &mut [u8], count: u32)
    requires { length memory.old ≡ 16384 }
    ensures { length memory.new ≡ 16384 }
{
    for round in 0..count {
        put_word(memory, address(round) as usize, round);
    }
}

fn sum_plain(memory: &[u8], count: u32) -> u64
    requires { length memory.now ≡ 16384 }
{
    let mut sum: u64 = 0;
    for round in 0..count {
        sum = sum.wrapping_add(u64::from(word_at(memory, address(round) as usize)));
    }
    sum
}

/// Makes so many stores and then so many loads in plain memory; the sum of what was loaded.
pub fn plain(alloc: Global, stores: u32, loads: u32) -> Result<u64, AllocError> {
    let mut memory = vec![in alloc; 0; 16384]?;
    store_plain(&mut memory, stores);
    Ok(sum_plain(&memory, loads))
}

// A store asks first whether its page has a frame of its own, as a guest's does.
#[tactic(auto, using(guest_pages::proofs::Outlines::outline_length))]
fn store_mapped(map: &mut GuestPages, count: u32)
    requires { length map.old ≡ 4 }
    ensures { length map.new ≡ 4 }
{
    for round in 0..count {
        let at = address(round);
        match map.kind(page_of(at)) {
            PageKind::Private => map.write_word(at, round),
            _ => {}
        }
    }
}

fn sum_mapped(map: &GuestPages, count: u32) -> u64
    requires { length map.now ≡ 4 }
{
    let mut sum: u64 = 0;
    for round in 0..count {
        sum = sum.wrapping_add(u64::from(map.read_word(address(round))));
    }
    sum
}

// Each page gets a frame of zeros.
fn supply_all(alloc: Global, map: &mut GuestPages, pool: &mut Pool) -> Result<(), AllocError>
    requires { length map.old ≡ 4 }
    ensures { length map.new ≡ 4 }
{
    for number in 0..PAGES {
        let p = Ppn::new(number);
        match map.kind(p) {
            PageKind::Zero => map.supply_zero(p, zero_frame(alloc, pool)?),
            _ => {}
        }
    }
    Ok(())
}

/// Makes so many stores and then so many loads in the pages of a guest, each in a frame of its own; the sum of what was
/// loaded.
pub fn mapped(alloc: Global, stores: u32, loads: u32) -> Result<u64, AllocError> {
    let mut map = GuestPages::new(alloc, PAGES)?;
    let answer = match Pool::new(alloc, PAGES) {
        Ok(mut pool) => {
            let supplied = supply_all(alloc, &mut map, &mut pool);
            pool.close();
            store_mapped(&mut map, stores);
            supplied.map(|()| sum_mapped(&map, loads))
        }
        Err(error) => Err(error),
    };
    map.close();
    answer
}
