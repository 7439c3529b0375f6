//! A plain memory with its devices, as a bus.
ghost use Rattle.std.specs.Prelude.{◌≡◌, ℕ, ◌+◌, ◌*◌, ◌<◌, ◌≤◌, ◌^◌, ◌↔◌, IfOk, OnOk, OnErr, IsOk, length, None, Some, Ok, Err, if◌then◌else◌, All, fold, drop};
ghost use Rattle.word32.specs.Pages.{page_number};
ghost use Rattle.word32.specs.Words.{patched};
ghost use Rattle.word32.specs.Zeros.{zeros};
ghost use Rattle.dev_console.specs.Console.{input_room};
ghost use Rattle.devices.specs.Registers.{device_register_at};
ghost use Rattle.devices.specs.Devices.{device_input_fed, device_output_drained, device_target_set};
ghost use Rattle.elf32.specs.Images.{IsWithin, FitsPages};
ghost use Rattle.machine.specs.Board.{Board, first_byte, bytes_of, value_in, limit_of, bytes_after, page_bytes, page_cleared};
ghost use Rattle.machine.specs.Board.{register_reach, device_reach, reached_value, board_loaded, board_stored};
ghost use Rattle.machine.specs.Bus.{ready_answer};
ghost use Rattle.machine.specs.Answers.{replied};
ghost use Rattle.machine.specs.Boot.{placed, boot_memory, boot_board};

use devices::{DeviceRegister, Devices};
use elf32::{Image, SEGMENT_BASE, Segment};
use machine::{Kind, PhysAddr, PhysBus, Refusal, Rejection, Reply, Size};
use mips_alu::{store_left, store_right};
use std::alloc::{AllocError, Global};
use std::marker::Model;
use word32::{PAGE_SIZE, Ppn, half_at, put_half, put_word, word_at};

/// How many bytes of the memory a page has.
const PAGE_BYTES: usize = PAGE_SIZE as usize;

/// A memory of some pages from physical address 0 on, all of which are there, with the devices. In clauses it is a
/// `Board`.
#[derive(Drop)]
pub struct FlatBus {
    bytes: Vec<u8>,
    devices: Devices,
}

impl Model for FlatBus {
    ghost use Rattle.std.specs.Prelude.{◌≡◌, ◌*◌, length};
    ghost use Rattle.machine.specs.Board.{Board};

    ghost Value = { Board };

    ghost view = { λ b. record { memory = b.bytes.items; devices = b.devices } };

    ghost invariant = { λ b. length b.bytes.items ≡ length b.devices.balloon.given * 4096 };
}

impl FlatBus {
    /// A memory of `pages` pages, at most 2^20, that holds an image: the bytes of each segment at their place, zeros
    /// elsewhere. Nothing waits in the console, and no page is given.
    pub fn boot(alloc: Global, image: &Image, pages: u32) -> Result<FlatBus, AllocError>
        requires fits { FitsPages image.now pages }
        requires few { pages ≤ 2 ^ 20 }
        ensures { IfOk result (λ bus. bus ≡ boot_board image.now pages) }
    {
        let mut bytes = zeroed(alloc, pages as usize * PAGE_BYTES)?;
        place_all(&mut bytes, &image.segments);
        let devices = Devices::new(alloc, pages)?;
        Ok(FlatBus { bytes, devices })
    }

    /// The devices.
    pub fn devices(&self) -> &Devices
        ensures { result.now ≡ self.now.devices }
    {
        &self.devices
    }

    /// Adds a byte of the console's input. It answers `Machine` exactly where the console has no room for it, and nothing has changed then.
    pub fn feed(&mut self, byte: u8) -> Result<Reply, Rejection>
        ensures fed { OnOk result (self.new ≡ record self.old { devices = device_input_fed byte self.old.devices }) }
        ensures reply { IfOk result (λ r. replied r ≡ None) }
        ensures room { IsOk result ↔ (length self.old.devices.console.input < input_room) }
        ensures refused { OnErr result (self.new ≡ self.old) }
        ensures error { OnErr result (result ≡ Err Rejection.Machine) }
    {
        match self.devices.feed(byte) {
            Ok(()) => Ok(Reply::Done),
            Err(_) => Err(Rejection::Machine),
        }
    }

    /// Takes the console's output. It answers `Memory` where a request for memory was refused.
    pub(crate) fn drain(&mut self) -> Result<Reply, Rejection>
        ensures drained { OnOk result (self.new ≡ record self.old { devices = device_output_drained self.old.devices }) }
        ensures reply { IfOk result (λ r. replied r ≡ Some self.old.devices.console.output) }
        ensures refused { OnErr result (self.new ≡ self.old) }
        ensures error { OnErr result (result ≡ Err Rejection.Memory) }
    {
        match self.devices.drain() {
            Ok(bytes) => Ok(Reply::Output(bytes)),
            Err(_) => Err(Rejection::Memory),
        }
    }

    // Puts bytes in the place of those of a page that memory has. There are 4,096 of them.
    fn put_page(&mut self, page: Ppn, bytes: &[u8])
        requires there { page * 4096 + 4096 ≤ length self.old.memory }
        requires whole { length bytes.now ≡ 4096 }
        ensures { self.new ≡ record self.old { memory = patched self.old.memory (page * 4096) bytes.now 4096 } }
    {
        let start = page.number() as usize * PAGE_BYTES;
        self.bytes[start..start + PAGE_BYTES].copy_from_slice(bytes);
    }

    /// The same memory with its devices once more, for a snapshot. `AllocError` where a request for memory was refused.
    pub fn try_clone(&self) -> Result<FlatBus, AllocError>
        ensures { IfOk result (λ bus. bus ≡ self.now) }
    {
        let bytes = self.bytes.to_vec(*self.bytes.allocator())?;
        Ok(FlatBus {
            bytes,
            devices: self.devices.try_clone()?,
        })
    }

    /// Puts the bytes that a page has in another memory in the place of its own. Both have the page.
    pub fn copy_page(&mut self, page: Ppn, from: &FlatBus)
        requires here { page * 4096 + 4096 ≤ length self.old.memory }
        requires there { page * 4096 + 4096 ≤ length from.now.memory }
        ensures { self.new ≡ record self.old { memory = patched self.old.memory (page * 4096) (page_bytes page from.now.memory) 4096 } }
    {
        self.put_page(page, from.page(page));
    }

    // The bytes of a page that memory has.
    fn page(&self, page: Ppn) -> &[u8]
        requires { page * 4096 + 4096 ≤ length self.now.memory }
        ensures bytes { result.now ≡ page_bytes page self.now.memory }
        ensures whole { length result.now ≡ 4096 }
    {
        let start = page.number() as usize * PAGE_BYTES;
        &self.bytes[start..start + PAGE_BYTES]
    }

    /// Puts the devices of another bus, once more, in the place of its own. Both memories have as many pages. `AllocError` where a request for
    /// memory was refused, and nothing has changed then.
    pub fn copy_devices(&mut self, from: &FlatBus) -> Result<(), AllocError>
        requires { length self.old.memory ≡ length from.now.memory }
        ensures copied { OnOk result (self.new ≡ record self.old { devices = from.now.devices }) }
        ensures unchanged { OnErr result (self.new ≡ self.old) }
    {
        self.devices = from.devices.try_clone()?;
        Ok(())
    }

    /// Asks the balloon to hold so many pages.
    pub(crate) fn set_target(&mut self, pages: u32)
        ensures { self.new ≡ record self.old { devices = device_target_set pages self.old.devices } }
    {
        self.devices.set_target(pages);
    }
}

// Accesses of registers are rare: they stand apart, so that those of memory are short.
impl FlatBus {
    /// A load of a word from the device's register at an address; 0 where there is none.
    #[cold]
    #[inline(never)]
    fn load_register(&mut self, at: PhysAddr) -> u32
        ensures value { result ≡ reached_value (register_reach (device_register_at at)) Size.Word at self.old }
        ensures small { result < 2 ^ 32 }
        ensures after { self.new ≡ board_loaded (register_reach (device_register_at at)) at self.old }
    {
        match DeviceRegister::at(at.number()) {
            Some(register) => self.devices.load(register),
            None => 0,
        }
    }

    /// A store of a word to the device's register at an address; nothing where there is none.
    #[cold]
    #[inline(never)]
    fn store_register(&mut self, at: PhysAddr, value: u32)
        ensures { self.new ≡ board_stored (register_reach (device_register_at at)) Size.Word value at self.old }
    {
        if let Some(register) = DeviceRegister::at(at.number()) {
            if let Some(page) = self.devices.store(register, value) {
                clear_page(&mut self.bytes, page);
            }
        }
    }
}

#[tactic(auto, unfolding(word32::specs::Zeros::zeros))]
fn zeroed(alloc: Global, count: usize) -> Result<Vec<u8>, AllocError>
    ensures items { IfOk result (λ v. v.items ≡ zeros count) }
    ensures length { IfOk result (λ v. length v.items ≡ count) }
{
    vec![in alloc; 0; count]
}

fn place_all(memory: &mut [u8], segments: &[Segment])
    requires { All (IsWithin (length memory.old)) segments.now }
    ensures placed { memory.new ≡ fold placed memory.old segments.now }
    ensures length { length memory.new ≡ length memory.old }
{
    for segment in segments {
        place(memory, segment);
    }
}

fn place(memory: &mut [u8], segment: &Segment)
    requires { IsWithin (length memory.old) segment.now }
    ensures { memory.new ≡ placed memory.old segment.now }
{
    let start = (segment.address - SEGMENT_BASE) as usize;
    memory[start..start + segment.bytes.len()].copy_from_slice(&segment.bytes);
}

/// The first byte that an access reaches, and how many bytes there are.
fn reached(size: Size, at: PhysAddr) -> (PhysAddr, usize)
    ensures first { result.0 ≡ first_byte size at }
    ensures count { result.1 ≡ bytes_of size }
{
    match size {
        Size::Byte => (at, 1),
        Size::Half => (at, 2),
        Size::Word => (at, 4),
        Size::Left | Size::Right => (at.word(), 4),
    }
}

/// Whether an access beside memory reaches a device's register: one of a word, but no fetch. It answers in one bit, so that an
/// access of memory needs no room for an answer.
#[cold]
#[inline(never)]
fn reaches_register(at: PhysAddr, size: Size, kind: Kind) -> bool
    ensures { ready_answer (device_reach kind size at) None (page_number at) ≡ (if result then Ok tt else Err Refusal.Bus) }
{
    match (kind, size) {
        (Kind::Load | Kind::Store, Size::Word) => match DeviceRegister::at(at.number()) {
            Some(_) => true,
            None => false,
        },
        _ => false,
    }
}

fn value(memory: &[u8], size: Size, at: PhysAddr) -> u32
    requires { first_byte size at + bytes_of size ≤ length memory.now }
    ensures value { result ≡ value_in memory.now size at }
    ensures small { result < limit_of size }
{
    match size {
        Size::Byte => u32::from(memory[at.index()]),
        Size::Half => u32::from(half_at(memory, at.index())),
        Size::Word => word_at(memory, at.index()),
        Size::Left | Size::Right => word_at(memory, at.word().index()),
    }
}

fn put_value(memory: &mut [u8], size: Size, at: PhysAddr, value: u32)
    requires { first_byte size at + bytes_of size ≤ length memory.old }
    ensures value { memory.new ≡ bytes_after size value at memory.old }
    ensures length { length memory.new ≡ length memory.old }
{
    match size {
        Size::Byte => memory[at.index()] = (value % 0x100) as u8,
        Size::Half => put_half(memory, at.index(), (value % 0x1_0000) as u16),
        Size::Word => put_word(memory, at.index(), value),
        Size::Left => {
            let first = at.word().index();
            let word = store_left(word_at(memory, first), value, at.byte_of_word());
            put_word(memory, first, word);
        }
        Size::Right => {
            let first = at.word().index();
            let word = store_right(word_at(memory, first), value, at.byte_of_word());
            put_word(memory, first, word);
        }
    }
}

#[tactic(auto, unfolding(word32::specs::Zeros::zeros))]
fn clear(bytes: &mut [u8])
    ensures { bytes.new ≡ zeros (length bytes.old) }
{
    bytes.fill(0);
}

fn clear_page(memory: &mut [u8], page: Ppn)
    requires { page * 4096 + 4096 ≤ length memory.old }
    ensures cleared { memory.new ≡ page_cleared page memory.old }
    ensures length { length memory.new ≡ length memory.old }
{
    let start = page.number() as usize * PAGE_BYTES;
    clear(&mut memory[start..start + PAGE_BYTES]);
}

impl PhysBus for FlatBus {
    type Kept = ();

    ghost board = { λ b. b };

    ghost kept = { λ b. tt };

    ghost lacks = { λ kept page kind. None };

    ghost waiting = { λ b page. Unit {0} };

    #[inline(always)]
    fn ready(&self, at: PhysAddr, size: Size, kind: Kind) -> Result<(), Refusal> {
        let (first, count) = reached(size, at);
        if first.index() + count <= self.bytes.len() {
            Ok(())
        } else if reaches_register(at, size, kind) {
            Ok(())
        } else {
            Err(Refusal::Bus)
        }
    }

    #[inline(always)]
    fn is_plain(&self, at: PhysAddr, size: Size, _kind: Kind) -> bool {
        let (first, count) = reached(size, at);
        first.index() + count <= self.bytes.len() && !self.devices.is_given(at.page())
    }

    #[inline(always)]
    fn peek(&self, at: PhysAddr) -> u32 {
        word_at(&self.bytes, at.index())
    }

    #[inline(always)]
    fn fetch(&mut self, at: PhysAddr) -> u32 {
        self.devices.touch(at.page());
        word_at(&self.bytes, at.index())
    }

    #[inline(always)]
    fn load(&mut self, at: PhysAddr, size: Size) -> u32 {
        let (first, count) = reached(size, at);
        if first.index() + count <= self.bytes.len() {
            self.devices.touch(at.page());
            value(&self.bytes, size, at)
        } else {
            self.load_register(at)
        }
    }

    #[inline(always)]
    fn load_plain(&self, at: PhysAddr, size: Size) -> u32 {
        value(&self.bytes, size, at)
    }

    #[inline(always)]
    #[tactic(auto, using(machine::proofs::Plain::plain_memory_stored))]
    fn store_plain(&mut self, at: PhysAddr, size: Size, value: u32) {
        put_value(&mut self.bytes, size, at, value);
    }

    #[inline(always)]
    fn lines(&self) -> u8 {
        self.devices.lines()
    }

    fn look(&self, at: PhysAddr) -> u8 {
        self.bytes[at.index()]
    }

    #[inline(always)]
    fn store(&mut self, at: PhysAddr, size: Size, value: u32) {
        let (first, count) = reached(size, at);
        if first.index() + count <= self.bytes.len() {
            self.devices.touch(at.page());
            put_value(&mut self.bytes, size, at, value);
        } else {
            self.store_register(at, value);
        }
    }
}
