//! Accesses of pages by their size, and why one is refused.
ghost use Rattle.std.specs.Prelude.{◌≡◌, ℕ, ◌+◌, ◌*◌, ◌%◌, ◌^◌, ◌<◌, ◌≤◌, length, Ok, Err, None, if◌then◌else◌};
ghost use Rattle.word32.specs.Pages.{page_number};
ghost use Rattle.word32.specs.Words.{patched};
ghost use Rattle.machine.specs.Board.{value_in, limit_of, bytes_after, device_reach};
ghost use Rattle.machine.specs.Places.{alignment};
ghost use Rattle.machine.specs.Bus.{ready_answer};
ghost use Rattle.guest_pages.specs.declared.page.PageKind.{PageKind};
ghost use Rattle.guest_pages.specs.Pages.{kind_at, memory_of};
ghost use Rattle.guest_pages.specs.Outline.{outline};
ghost use Rattle.guest_bus.specs.Lacking.{lack_of};

use devices::DeviceRegister;
use guest_pages::{GuestPages, PageKind};
use machine::{Kind, PhysAddr, Refusal, Size, Why};
use mips_alu::{store_left, store_right};

/// Why a page of a kind is lacking for an access, or None where it is there.
#[inline(always)]
pub(crate) fn lack(page: PageKind, kind: Kind) -> Option<Why>
    ensures { result ≡ lack_of page kind }
{
    match page {
        PageKind::Private => None,
        PageKind::Shared => match kind {
            Kind::Fetch => None,
            Kind::Load => None,
            Kind::Store => Some(Why::Copy),
        },
        PageKind::Swapped => Some(Why::Swapped),
        PageKind::Zero => Some(Why::First),
        PageKind::Given => Some(Why::First),
    }
}

/// Whether an access beside memory reaches a device's register: one of a word, but no fetch.
#[cold]
#[inline(never)]
pub(crate) fn reaches_register(at: PhysAddr, size: Size, kind: Kind) -> bool
    ensures { ready_answer (device_reach kind size at) None (page_number at) ≡ (if result then Ok tt else Err Refusal.Bus) }
{
    match (kind, size) {
        (Kind::Load | Kind::Store, Size::Word) => match DeviceRegister::at(at.number()) {
            Some(_) => true,
            None => false,
        },
        _ => false,
    }
}

/// The value of an access. It is answered of each page, as zeros where the page is in no frame, so a read has no path that
/// could fail.
#[inline(always)]
pub(crate) fn value(map: &GuestPages, size: Size, at: PhysAddr) -> u32
    requires there { page_number at < length map.now }
    requires aligned { at % alignment size ≡ 0 }
    ensures value { result ≡ value_in (memory_of map.now) size at }
    ensures small { result < limit_of size }
{
    match size {
        Size::Byte => u32::from(map.read_byte(at.number())),
        Size::Half => u32::from(map.read_half(at.number())),
        Size::Word => map.read_word(at.number()),
        Size::Left | Size::Right => map.read_word(at.word().number()),
    }
}

/// Stores the value of an access, of which a byte or a half-word takes the lowest bits, in a page that has a frame of its own.
#[inline(always)]
pub(crate) fn put_value(map: &mut GuestPages, size: Size, at: PhysAddr, value: u32)
    requires there { page_number at < length map.old }
    requires aligned { at % alignment size ≡ 0 }
    requires private { kind_at map.old (page_number at) ≡ PageKind.Private }
    ensures memory { memory_of map.new ≡ bytes_after size value at (memory_of map.old) }
    ensures outline { outline map.new ≡ outline map.old }
{
    match size {
        Size::Byte => map.write_byte(at.number(), (value % 0x100) as u8),
        Size::Half => map.write_half(at.number(), (value % 0x1_0000) as u16),
        Size::Word => map.write_word(at.number(), value),
        Size::Left => {
            let first = at.word().number();
            let word = store_left(map.read_word(first), value, at.byte_of_word());
            map.write_word(first, word);
        }
        Size::Right => {
            let first = at.word().number();
            let word = store_right(map.read_word(first), value, at.byte_of_word());
            map.write_word(first, word);
        }
    }
}

/// Writes bytes from an address on, each into a page that has a frame of its own.
#[tactic(auto, using(guest_pages::proofs::Outlines::outline_length, guest_pages::proofs::Outlines::outline_kind))]
pub(crate) fn fill(map: &mut GuestPages, at: PhysAddr, bytes: &[u8])
    requires few { length map.old ≤ 2 ^ 20 }
    requires inside { at + length bytes.now ≤ length map.old * 4096 }
    requires private { (k : ℕ) → k < length bytes.now → kind_at map.old (page_number (at + k)) ≡ PageKind.Private }
    ensures memory { memory_of map.new ≡ patched (memory_of map.old) at bytes.now (length bytes.now) }
    ensures outline { outline map.new ≡ outline map.old }
{
    // Who asks how many pages there are knows how many bytes they have.
    let _pages = map.len();
    let first = at.number();
    for k in 0..bytes.len() {
        map.write_byte(first + k as u32, bytes[k]);
    }
}
