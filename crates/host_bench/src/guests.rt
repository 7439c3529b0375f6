//! The guest of all works, and what it is booted on.
ghost use Rattle.std.specs.Prelude.{◌≡◌, ◌*◌, length, IfOk};

use booting::{Config, NewGuest};
use elf32::Image;
use mips_cp0::Profile;
use std::alloc::{AllocError, Global};
use std::sync::Arc;

/// How many pages it has, each of other bytes.
pub const PAGES: u32 = 64;

/// How many words a page has.
pub const PAGE_WORDS: u32 = 1024;

/// How many words it has.
pub const WORDS: u32 = PAGES * PAGE_WORDS;

/// The virtual address of its first word.
pub const START: u32 = 0x8000_0000;

/// How many steps are made at once.
pub const STEPS: u32 = 1024;

/// How many slots the swap store has.
pub const SLOTS: u32 = 16;

/// There are frames for all pages.
pub const CONFIG: Config = Config {
    frames: PAGES + 8,
    log_runs: 65_536,
    admit: false,
};

/// A checksum of page 4, stored behind it, again and again.
static CODE: [u32; 12] = [
    0x3c01_8000, // start:  lui   $1,0x8000
    0x3421_4000, //         ori   $1,$1,0x4000
    0x2402_0400, //         addiu $2,$0,1024
    0x0000_1821, //         addu  $3,$0,$0
    0x8c24_0000, // loop:   lw    $4,0($1)
    0x0064_1821, //         addu  $3,$3,$4
    0x2442_ffff, //         addiu $2,$2,-1
    0x1440_fffc, //         bne   $2,$0,loop
    0x2421_0004, //         addiu $1,$1,4
    0xac23_0000, //         sw    $3,0($1)
    0x1000_fff5, //         beq   $0,$0,start
    0x0000_0000, //         sll   $0,$0,0
];

/// The word that stands at a place at first, counted in words: the code, and then words that no other place has.
pub fn first_word(place: u32) -> u32 {
    match CODE.get(place as usize) {
        Some(word) => *word,
        None => place.wrapping_mul(2_654_435_761),
    }
}

// The bytes of its image.
fn image_bytes(alloc: Global) -> Result<Vec<u8>, AllocError>
    ensures { IfOk result (λ bytes. length bytes.items ≡ 262144) }
{
    let mut bytes = Vec::new(alloc);
    for place in 0..WORDS {
        bytes.extend_from_slice(&first_word(place).to_le_bytes())?;
    }
    Ok(bytes)
}

/// The one guest that is to be booted. `AllocError` where memory is refused.
pub fn one_guest(alloc: Global) -> Result<Vec<NewGuest>, AllocError>
    ensures { IfOk result (λ guests. length guests.items ≡ 1) }
{
    let bytes = image_bytes(alloc)?;
    let guest = NewGuest {
        profile: Profile::One,
        image: Arc::new(alloc, Image::raw(alloc, bytes)?)?,
        pages: PAGES,
        shares: 100,
        minimum: 2,
    };
    Ok(Vec::from_array(alloc, [guest])?)
}
