//! The pages that an image has bytes for, and those bytes.
ghost use Rattle.std.specs.Prelude.{◌≡◌, ◌+◌, ◌-◌, ◌*◌, ◌^◌, ◌<◌, ◌≤◌, ℕ, IsTrue, false, All, List, length, take, drop, fold};
ghost use Rattle.word32.specs.Words.{patched};
ghost use Rattle.word32.specs.Zeros.{zeros};
ghost use Rattle.machine.specs.Board.{page_bytes};
ghost use Rattle.elf32.specs.Images.{IsWithin, FitsPages};
ghost use Rattle.machine.specs.Boot.{placed, boot_memory};
ghost use Rattle.guest_pages.specs.declared.page.Page.{Page};
ghost use Rattle.guest_pages.specs.declared.page.PageKind.{PageKind};
ghost use Rattle.guest_pages.specs.Pages.{page_at, kind_at, own_frame};
ghost use Rattle.guest_bus.specs.Buses.{IsSettled, with_page};
ghost use Rattle.guest.specs.Loading.{segment_reaches, Reaches, IsBeside, IsBootPage};

use crate::step::whole;
use elf32::{Image, SEGMENT_BASE, Segment};
use guest_bus::GuestBus;
use machine::{PhysAddr, Ppn};
use word32::PAGE_SIZE;

// How many bytes a page has, as a number of places are: a segment may pass the end of 32 bits.
const PAGE: u64 = PAGE_SIZE as u64;
// How many bytes a page has, as a list of them is long.
pub(crate) const PAGE_BYTES: usize = PAGE_SIZE as usize;

// Where a segment and a page begin, in bytes from physical address 0 on.
fn starts(segment: &Segment, p: Ppn) -> (u64, u64)
    requires { 0x80000000 ≤ segment.now.address }
    ensures segment { result.0 + 0x80000000 ≡ segment.now.address }
    ensures page { result.1 ≡ p * 4096 }
    ensures small { p * 4096 + 4096 < 2 ^ 64 }
    ensures low { result.0 < 2 ^ 32 }
{
    (
        u64::from(segment.address - SEGMENT_BASE),
        u64::from(p.number()) * PAGE,
    )
}

// Whether a segment reaches a page.
fn segment_reaches(segment: &Segment, p: Ppn) -> bool
    requires { 0x80000000 ≤ segment.now.address }
    ensures { result ≡ segment_reaches p segment.now }
{
    let (at, start) = starts(segment, p);
    at.max(start) < (at + u64::from(segment.size)).min(start + PAGE)
}

/// Whether a segment of an image reaches a page, by its bytes or by the zeros after them. A page that none reaches is zeros as
/// the image boots.
#[tactic(auto, using(crate::proofs::BootPages::segments_above))]
pub fn reaches(image: &Image, p: Ppn) -> bool
    requires { (pages : ℕ) × FitsPages image.now pages }
    ensures reached { IsTrue result → Reaches image.now p }
    ensures beside { result ≡ false → IsBeside image.now p }
{
    let segments = image.segments.as_slice();
    for k in 0..segments.len() {
        if segment_reaches(&segments[k], p) {
            return true;
        }
    }
    false
}

// Bytes among others.
fn part_of(bytes: &[u8], from: u64, to: u64) -> &[u8]
    requires { (from ≤ to) × (to ≤ length bytes.now) }
    ensures part { result.now ≡ take (to - from) (drop from bytes.now) }
    ensures length { length result.now ≡ to - from }
{
    &bytes[from as usize..to as usize]
}

// Puts bytes in the place of others, from one on.
fn put(bytes: &mut [u8], from: u64, part: &[u8])
    requires { from + length part.now ≤ length bytes.old }
    ensures bytes { bytes.new ≡ patched bytes.old from part.now (length part.now) }
    ensures length { length bytes.new ≡ length bytes.old }
{
    let from = from as usize;
    bytes[from..from + part.len()].copy_from_slice(part);
}

// Puts the bytes that a segment has in a page among the page's bytes.
fn load_segment(bytes: &mut [u8], segment: &Segment, p: Ppn)
    requires page { length bytes.old ≡ 4096 }
    requires above { 0x80000000 ≤ segment.now.address }
    ensures length { length bytes.new ≡ 4096 }
    ensures part { (memory : List ℕ) → p * 4096 + 4096 ≤ length memory → IsWithin (length memory) segment.now →
        bytes.old ≡ page_bytes p memory → bytes.new ≡ page_bytes p (placed memory segment.now) }
{
    let file = segment.bytes.as_slice();
    let (at, start) = starts(segment, p);
    let first = at.max(start);
    let end = at.saturating_add(file.len() as u64).min(start + PAGE);
    if first < end {
        put(bytes, first - start, part_of(file, first - at, end - at));
    }
}

// Puts the bytes that segments have in a page among the page's bytes, one after another.
fn load_segments(bytes: &mut [u8], segments: &[Segment], p: Ppn)
    requires page { length bytes.old ≡ 4096 }
    requires above { All (λ s. 0x80000000 ≤ s.address) segments.now }
    ensures length { length bytes.new ≡ 4096 }
    ensures parts { (memory : List ℕ) → p * 4096 + 4096 ≤ length memory → All (IsWithin (length memory)) segments.now →
        bytes.old ≡ page_bytes p memory → bytes.new ≡ page_bytes p (fold placed memory segments.now) }
{
    for segment in segments {
        load_segment(bytes, segment, p);
    }
}

// Zeros in the place of all bytes.
#[tactic(auto, unfolding(word32::specs::Zeros::zeros))]
fn clear(bytes: &mut [u8])
    ensures bytes { bytes.new ≡ zeros (length bytes.old) }
    ensures length { length bytes.new ≡ length bytes.old }
{
    bytes.fill(0);
}

/// The bytes of a page as the image boots: those that its segments have in the page, each in its place, and zeros. `bytes` has
/// 4,096.
#[tactic(auto, using(crate::proofs::BootPages::segments_above))]
pub fn load_image_page(image: &Image, p: Ppn, bytes: &mut [u8])
    requires page { length bytes.old ≡ 4096 }
    requires fits { (pages : ℕ) × FitsPages image.now pages }
    ensures length { length bytes.new ≡ 4096 }
    ensures bytes { IsBootPage image.now p bytes.new }
{
    clear(bytes);
    load_segments(bytes, &image.segments, p);
}

/// Puts the bytes that a page has as the image boots into the frame that the page has for its own. All else stays.
pub(crate) fn load_page(bus: &mut GuestBus, image: &Image, p: Ppn)
    requires settled { IsSettled bus.old }
    requires fits { FitsPages image.now (length bus.old.pages) }
    requires there { p < length bus.old.pages }
    requires private { kind_at bus.old.pages p ≡ PageKind.Private }
    ensures { bus.new ≡ with_page p (Page.Private (record {
      number = (own_frame (page_at bus.old.pages p)).number;
      bytes = page_bytes p (boot_memory image.now (length bus.old.pages));
    })) bus.old }
{
    // Who asks how many pages there are knows that they are at most 2^20.
    let _pages = bus.pages();
    bus.sound();
    let mut bytes = [0; PAGE_BYTES];
    load_image_page(image, p, &mut bytes);
    bus.fill(PhysAddr::in_page(p, 0), &bytes);
    whole(bus);
}
