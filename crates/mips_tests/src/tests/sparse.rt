//! A bus that may lack a page.
ghost use Rattle.std.specs.Prelude.{◌≡◌, ◌+◌, ◌*◌, ◌≤◌, ◌<◌, ◌==◌, if◌then◌else◌, length, Some, None};
ghost use Rattle.word32.specs.Pages.{page_number};
ghost use Rattle.word32.specs.Zeros.{zeros};
ghost use Rattle.machine.specs.Board.{first_byte, bytes_of, value_in, limit_of, bytes_after, page_cleared, device_reach};
ghost use Rattle.machine.specs.Bus.{ready_answer};
ghost use Rattle.machine.specs.declared.access.Why.TheVariants.{First};

use devices::{DeviceRegister, Devices};
use machine::{Kind, PhysAddr, PhysBus, Ppn, Refusal, Size, Why};
use mips_alu::{store_left, store_right};
use std::marker::Model;
use std::test::Fail;
use word32::{PAGE_SIZE, half_at, put_half, put_word, word_at};

/// How many bytes the memory has: two pages.
const SIZE: usize = 2 * PAGE_BYTES;
/// How many bytes of the memory a page has.
const PAGE_BYTES: usize = PAGE_SIZE as usize;

/// Two pages of memory with their devices. One page may be absent.
#[derive(Drop)]
pub struct Sparse {
    bytes: Vec<u8>,
    devices: Devices,
    absent: u32,
}

impl Model for Sparse {
    ghost use Rattle.std.specs.Prelude.{◌≡◌, ◌*◌, ℕ, length};
    ghost use Rattle.machine.specs.Board.{Board};

    ghost Value = { Board × ℕ };

    ghost view = { λ s. (record { memory = s.bytes.items; devices = s.devices }, s.absent) };

    ghost invariant = { λ s. length s.bytes.items ≡ length s.devices.balloon.given * 4096 };
}

impl Sparse {
    /// A bus with words at physical addresses, which lacks no page.
    pub fn new(rt: &impl AllocGlobal, words: &[(u32, u32)]) -> Result<Sparse, Fail> {
        let mut bytes = vec![in rt.alloc(); 0; SIZE]?;
        put_words(&mut bytes, words);
        let devices = Devices::new(rt.alloc(), 2)?;
        Ok(Sparse {
            bytes,
            devices,
            absent: 2,
        })
    }

    /// Takes a page away, and brings back the one that was absent. Page 2 is no page of the memory.
    pub fn leave_out(&mut self, page: u32) {
        self.absent = page;
    }

    /// Gives the console a byte of input, if it has room.
    pub fn feed(&mut self, byte: u8) {
        if self.devices.has_input_room() {
            let _ = self.devices.feed(byte);
        }
    }

    /// The console's output.
    pub fn output(&self) -> Result<Vec<u8>, Fail> {
        Ok(self.devices.copy_output()?)
    }

    /// The interrupt lines, how many pages are given, and whether each of the two is.
    pub fn devices_show(&self) -> (u8, u32, [bool; 2]) {
        let pages = [
            self.devices.is_given(Ppn::new(0)),
            self.devices.is_given(Ppn::new(1)),
        ];
        (self.devices.lines(), self.devices.given(), pages)
    }

    /// The word at a physical address, where memory has one.
    pub fn word(&self, at: u32) -> Option<u32> {
        if at as usize + 4 <= self.bytes.len() {
            Some(word_at(&self.bytes, at as usize))
        } else {
            None
        }
    }
}

/// Puts words at addresses.
fn put_words(bytes: &mut [u8], words: &[(u32, u32)])
    ensures { length bytes.new ≡ length bytes.old }
{
    for row in words {
        let (at, word) = *row;
        if at as usize + 4 <= bytes.len() {
            put_word(bytes, at as usize, word);
        }
    }
}

/// The first byte that an access reaches, and how many bytes there are.
fn reached(size: Size, at: PhysAddr) -> (PhysAddr, usize)
    ensures first { result.0 ≡ first_byte size at }
    ensures count { result.1 ≡ bytes_of size }
{
    match size {
        Size::Byte => (at, 1),
        Size::Half => (at, 2),
        Size::Word => (at, 4),
        Size::Left | Size::Right => (at.word(), 4),
    }
}

/// Whether an access outside memory is answered.
fn ready_outside(at: PhysAddr, size: Size, kind: Kind) -> Result<(), Refusal>
    ensures { result ≡ ready_answer (device_reach kind size at) None (page_number at) }
{
    match (kind, size) {
        (Kind::Load | Kind::Store, Size::Word) => match DeviceRegister::at(at.number()) {
            Some(_) => Ok(()),
            None => Err(Refusal::Bus),
        },
        _ => Err(Refusal::Bus),
    }
}

fn value_at(bytes: &[u8], size: Size, at: PhysAddr) -> u32
    requires { first_byte size at + bytes_of size ≤ length bytes.now }
    ensures value { result ≡ value_in bytes.now size at }
    ensures small { result < limit_of size }
{
    match size {
        Size::Byte => u32::from(bytes[at.index()]),
        Size::Half => u32::from(half_at(bytes, at.index())),
        Size::Word => word_at(bytes, at.index()),
        Size::Left | Size::Right => word_at(bytes, at.word().index()),
    }
}

fn put_value(bytes: &mut [u8], size: Size, at: PhysAddr, value: u32)
    requires { first_byte size at + bytes_of size ≤ length bytes.old }
    ensures value { bytes.new ≡ bytes_after size value at bytes.old }
    ensures length { length bytes.new ≡ length bytes.old }
{
    match size {
        Size::Byte => bytes[at.index()] = (value % 0x100) as u8,
        Size::Half => put_half(bytes, at.index(), (value % 0x1_0000) as u16),
        Size::Word => put_word(bytes, at.index(), value),
        Size::Left => {
            let first = at.word().index();
            let word = store_left(word_at(bytes, first), value, at.byte_of_word());
            put_word(bytes, first, word);
        }
        Size::Right => {
            let first = at.word().index();
            let word = store_right(word_at(bytes, first), value, at.byte_of_word());
            put_word(bytes, first, word);
        }
    }
}

#[tactic(auto, unfolding(word32::specs::Zeros::zeros))]
fn clear(bytes: &mut [u8])
    ensures { bytes.new ≡ zeros (length bytes.old) }
{
    bytes.fill(0);
}

fn clear_page(bytes: &mut [u8], page: Ppn)
    requires { page * 4096 + 4096 ≤ length bytes.old }
    ensures cleared { bytes.new ≡ page_cleared page bytes.old }
    ensures length { length bytes.new ≡ length bytes.old }
{
    let start = page.number() as usize * PAGE_BYTES;
    clear(&mut bytes[start..start + PAGE_BYTES]);
}

impl PhysBus for Sparse {
    type Kept = u32;

    ghost board = { λ s. s.0 };

    ghost kept = { λ s. s.1 };

    ghost lacks = { λ absent page kind. if page == absent then Some First else None };

    ghost waiting = { λ s page. Unit {0} };

    fn ready(&self, at: PhysAddr, size: Size, kind: Kind) -> Result<(), Refusal> {
        let (first, count) = reached(size, at);
        let page = at.page();
        if first.index() + count > self.bytes.len() {
            ready_outside(at, size, kind)
        } else if page.number() == self.absent {
            Err(Refusal::Need(page, Why::First))
        } else {
            Ok(())
        }
    }

    fn is_plain(&self, at: PhysAddr, size: Size, _kind: Kind) -> bool {
        let (first, count) = reached(size, at);
        let page = at.page();
        first.index() + count <= self.bytes.len()
            && page.number() != self.absent
            && !self.devices.is_given(page)
    }

    fn peek(&self, at: PhysAddr) -> u32 {
        word_at(&self.bytes, at.index())
    }

    fn fetch(&mut self, at: PhysAddr) -> u32 {
        self.devices.touch(at.page());
        word_at(&self.bytes, at.index())
    }

    fn load(&mut self, at: PhysAddr, size: Size) -> u32 {
        let (first, count) = reached(size, at);
        if first.index() + count <= self.bytes.len() {
            self.devices.touch(at.page());
            value_at(&self.bytes, size, at)
        } else {
            match DeviceRegister::at(at.number()) {
                Some(register) => self.devices.load(register),
                None => unreachable!(),
            }
        }
    }

    fn load_plain(&self, at: PhysAddr, size: Size) -> u32 {
        value_at(&self.bytes, size, at)
    }

    #[tactic(auto, using(machine::proofs::Plain::plain_memory_stored))]
    fn store_plain(&mut self, at: PhysAddr, size: Size, value: u32) {
        put_value(&mut self.bytes, size, at, value);
    }

    fn lines(&self) -> u8 {
        self.devices.lines()
    }

    fn look(&self, at: PhysAddr) -> u8 {
        self.bytes[at.index()]
    }

    fn store(&mut self, at: PhysAddr, size: Size, value: u32) {
        let (first, count) = reached(size, at);
        if first.index() + count <= self.bytes.len() {
            self.devices.touch(at.page());
            put_value(&mut self.bytes, size, at, value);
        } else if let Some(register) = DeviceRegister::at(at.number()) {
            if let Some(page) = self.devices.store(register, value) {
                clear_page(&mut self.bytes, page);
            }
        }
    }
}
