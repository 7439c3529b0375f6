//! The pages of a guest with its devices, as a bus.
ghost use Rattle.std.specs.Prelude.{◌≡◌, ◌*◌, ◌%◌, ◌<◌, ◌≤◌, ◌^◌, ◌↔◌, IsTrue, IsSome, IfOk, IfSome, IfNone, length, replicate, None, Some, true};
ghost use Rattle.word32.specs.Pages.{page_number};
ghost use Rattle.word32.specs.Zeros.{zeros};
ghost use Rattle.devices.specs.Devices.{fresh_devices, page_accessed};
ghost use Rattle.devices.specs.Registers.{device_register_at};
ghost use Rattle.machine.specs.Board.{with_memory, is_in_memory, register_reach, reached_value, board_loaded, board_stored};
ghost use Rattle.machine.specs.Given.{reached_given};
ghost use Rattle.machine.specs.Places.{alignment};
ghost use Rattle.guest_pages.specs.declared.page.Page.{Page};
ghost use Rattle.guest_pages.specs.declared.page.PageKind.{PageKind};
ghost use Rattle.guest_pages.specs.Pages.{page_at, kind_at, is_resident, NoneInFrame, shown, memory_of, own_frame, slot_of, digest_of, ticket_of};
ghost use Rattle.guest_pages.specs.Holdings.{private_pages, shared_pages, swapped_pages, resident_pages};
ghost use Rattle.guest_pages.specs.Outline.{outline};
ghost use Rattle.guest_bus.specs.Buses.{board_of, IsSettled};
ghost use Rattle.guest_bus.specs.Lacking.{lacks_in};

use crate::accesses::{lack, put_value, reaches_register, value};
use devices::{DeviceRegister, Devices};
use guest_pages::{GuestPages, PageKind};
use machine::{Kind, PhysAddr, PhysBus, Refusal, Size};
use sampling::Marks;
use std::alloc::{AllocError, Global};
use std::marker::Model;
use taxpolicy::SAMPLE_SIZE;
use word32::Ppn;

/// A memory of pages from physical address 0 on, each of which is nowhere yet, in a frame of its own, in a shared frame or in
/// a slot of the swap store, with the devices. In clauses it is a record, `GuestBusIs`.
pub struct GuestBus {
    pub(crate) map: GuestPages,
    pub(crate) devices: Devices,
    /// The page that was given to the balloon and has not left its place yet.
    pub(crate) waiting: Option<Ppn>,
    /// The pages that were accessed since they were last drawn for a sample, which nothing else here asks for.
    pub(crate) marks: Marks,
}

impl Model for GuestBus {
    ghost use Rattle.std.specs.Prelude.{◌≡◌, ◌<◌, length, IfSome};
    ghost use Rattle.guest_bus.specs.Buses.{GuestBusIs};

    ghost Value = { GuestBusIs };

    ghost view = { λ b. record { pages = b.map; devices = b.devices; waiting = b.waiting } };

    ghost invariant = { λ b. (length b.map ≡ length b.devices.balloon.given) × IfSome b.waiting (λ p. p < length b.map) × (length b.marks ≡ length b.map) };
}

impl GuestBus {
    /// A memory of so many pages, at most 2^20, none of which was ever touched. Nothing waits in the console, and no page is
    /// given. `AllocError` where a request for memory was refused.
    #[tactic(auto, using(crate::proofs::Fresh::fresh_board))]
    pub fn new(alloc: Global, pages: u32) -> Result<GuestBus, AllocError>
        requires { pages ≤ 2 ^ 20 }
        ensures bus { IfOk result (λ bus. bus ≡ record { pages = replicate pages Page.Zero; devices = fresh_devices pages; waiting = None }) }
        ensures board { IfOk result (λ bus. board_of bus ≡ with_memory (zeros (pages * 4096))) }
    {
        let devices = Devices::new(alloc, pages)?;
        let marks = Marks::new(alloc, pages)?;
        Ok(GuestBus {
            map: GuestPages::new(alloc, pages)?,
            devices,
            waiting: None,
            marks,
        })
    }

    /// The devices.
    pub fn devices(&self) -> &Devices
        ensures { result.now ≡ self.now.devices }
    {
        &self.devices
    }

    /// The page that was given to the balloon and has not left its place yet; None where the bus is settled.
    #[inline(always)]
    pub fn waiting(&self) -> Option<Ppn>
        ensures { result ≡ self.now.waiting }
    {
        self.waiting
    }

    /// How many pages there are, at most 2^20; each has 4,096 bytes of the memory.
    #[tactic(auto, using(crate::proofs::Boards::length_of_board))]
    pub fn pages(&self) -> u32
        ensures pages { result ≡ length self.now.pages }
        ensures memory { length (board_of self.now).memory ≡ length self.now.pages * 4096 }
        ensures few { result ≤ 2 ^ 20 }
    {
        // Who asks a map how many pages there are knows how many bytes they have.
        let _pages = self.map.len();
        self.devices.pages()
    }

    /// Where a page is.
    pub fn kind(&self, p: Ppn) -> PageKind
        requires { p < length self.now.pages }
        ensures { result ≡ kind_at self.now.pages p }
    {
        self.map.kind(p)
    }

    /// The bytes of a page, which has 4,096; None exactly where it is in no frame.
    pub fn peek_page(&self, p: Ppn) -> Option<&[u8]>
        requires { p < length self.now.pages }
        ensures bytes { IfSome result (λ bytes. bytes.now ≡ shown (page_at self.now.pages p)) }
        ensures length { length (shown (page_at self.now.pages p)) ≡ 4096 }
        ensures resident { IsSome result ↔ IsTrue (is_resident (kind_at self.now.pages p)) }
    {
        self.map.peek(p)
    }

    /// The number of the slot that a swapped page is in, and the SHA-256 of its bytes.
    pub fn away(&self, p: Ppn) -> (u32, [u8; 32])
        requires there { p < length self.now.pages }
        requires swapped { kind_at self.now.pages p ≡ PageKind.Swapped }
        ensures slot { result.0 ≡ slot_of (page_at self.now.pages p) }
        ensures digest { result.1 ≡ digest_of (page_at self.now.pages p) }
    {
        self.map.away(p)
    }

    /// The number of the frame that a page has for its own.
    pub fn own_frame(&self, p: Ppn) -> u32
        requires there { p < length self.now.pages }
        requires private { kind_at self.now.pages p ≡ PageKind.Private }
        ensures { result ≡ (own_frame (page_at self.now.pages p)).number }
    {
        self.map.own_frame(p)
    }

    /// The number of the shared frame that a page reads, which is also its ticket's.
    pub fn shared_frame(&self, p: Ppn) -> u32
        requires there { p < length self.now.pages }
        requires shared { kind_at self.now.pages p ≡ PageKind.Shared }
        ensures { result ≡ ticket_of (page_at self.now.pages p) }
    {
        self.map.shared_frame(p)
    }

    /// How many pages are in a frame of their own.
    pub fn private(&self) -> u32
        ensures { result ≡ private_pages self.now.pages }
    {
        self.map.private()
    }

    /// How many pages are in a shared frame.
    pub fn shared(&self) -> u32
        ensures { result ≡ shared_pages self.now.pages }
    {
        self.map.shared()
    }

    /// How many pages are in a slot of the swap store.
    pub fn swapped(&self) -> u32
        ensures { result ≡ swapped_pages self.now.pages }
    {
        self.map.swapped()
    }

    /// How many pages are in a frame, their own or a shared one.
    pub fn resident(&self) -> u32
        ensures value { result ≡ resident_pages self.now.pages }
        ensures within { result ≤ length self.now.pages }
    {
        self.map.resident()
    }

    /// The first page from a number on that is in a frame, its own or a shared one; None where there is none. It costs what
    /// `GuestPages::next_resident` does.
    pub fn next_resident(&self, from: u32) -> Option<Ppn>
        ensures within { IfSome result (λ p. (from ≤ p) × (p < length self.now.pages)) }
        ensures resident { IfSome result (λ p. is_resident (kind_at self.now.pages p) ≡ true) }
        ensures first { IfSome result (λ p. NoneInFrame self.now.pages from p) }
        ensures none { IfNone result (NoneInFrame self.now.pages from (length self.now.pages)) }
    {
        // Who asks how many pages there are knows that they are at most 2^20.
        let _pages = self.pages();
        self.map.next_resident(from)
    }

    /// Whether the page of this number was accessed since it was last drawn for a sample, if it ever was: by a fetch, a load or a store
    /// of a step, or by a write of a debugger. It is about the page of this number, whatever becomes of it.
    pub fn is_touched(&self, page: u32) -> bool {
        self.marks.is_marked(page)
    }

    /// How many of these draws are of a page that was accessed since it was last drawn, as `is_touched` has it; a page that was drawn
    /// twice counts twice.
    pub fn touched(&self, draws: &[u32; SAMPLE_SIZE]) -> u16
        ensures { result ≤ 100 }
    {
        self.marks.count(draws)
    }

    /// From now on none of the pages that were drawn counts as accessed, until it is again. The bus is as before.
    pub fn clear_touched(&mut self, draws: &[u32; SAMPLE_SIZE])
        ensures { self.new ≡ self.old }
    {
        self.marks.clear(draws);
    }

    /// Gives the bus up, and with it what its pages hold.
    pub fn close(self) {
        let GuestBus {
            map,
            devices,
            waiting: _,
            marks,
        } = self;
        drop(devices);
        drop(marks);
        map.close();
    }
}

// Accesses of registers are rare: they stand apart, so that those of memory are short.
impl GuestBus {
    /// A load of a word from the device's register at an address; 0 where there is none.
    #[cold]
    #[inline(never)]
    fn load_register(&mut self, at: PhysAddr) -> u32
        ensures value { result ≡ reached_value (register_reach (device_register_at at)) Size.Word at (board_of self.old) }
        ensures small { result < 2 ^ 32 }
        ensures board { board_of self.new ≡ board_loaded (register_reach (device_register_at at)) at (board_of self.old) }
        ensures pages { self.new.pages ≡ self.old.pages }
        ensures waiting { self.new.waiting ≡ self.old.waiting }
    {
        match DeviceRegister::at(at.number()) {
            Some(register) => self.devices.load(register),
            None => 0,
        }
    }

    /// A store of a word to the device's register at an address; nothing where there is none. A page that it gives waits from
    /// then on.
    #[cold]
    #[inline(never)]
    #[tactic(auto, using(crate::proofs::Boards::given_is_there))]
    fn store_register(&mut self, at: PhysAddr, value: u32)
        requires settled { IsSettled self.old }
        ensures board { board_of self.new ≡ board_stored (register_reach (device_register_at at)) Size.Word value at (board_of self.old) }
        ensures pages { self.new.pages ≡ self.old.pages }
        ensures waiting { self.new.waiting ≡ reached_given (register_reach (device_register_at at)) value (board_of self.old) }
    {
        if let Some(register) = DeviceRegister::at(at.number()) {
            self.waiting = self.devices.store(register, value);
        }
    }

    /// What an access of a page does beside it: the page leaves the given ones, and is marked. It comes last, since the compiler
    /// doesn't know that a mark is no part of a page, and would look at the page once more.
    #[inline(always)]
    fn access(&mut self, page: Ppn)
        requires { page < length self.old.pages }
        ensures { self.new ≡ record self.old { devices = page_accessed page self.old.devices } }
    {
        self.devices.touch(page);
        self.marks.touch(page);
    }

    /// Whether an access reaches memory. An address is a multiple of the access's size, so the page alone decides.
    #[inline(always)]
    #[tactic(auto, using(crate::proofs::Boards::length_of_board, crate::proofs::Places::in_memory_by_page))]
    fn is_in_memory(&self, at: PhysAddr, _size: Size) -> bool
        requires { at % alignment _size ≡ 0 }
        ensures reach { result ≡ is_in_memory (board_of self.now) _size at }
        ensures page { IsTrue result ↔ page_number at < length self.now.pages }
    {
        at.page().number() < self.map.len()
    }
}

impl PhysBus for GuestBus {
    type Kept = GuestPages;

    ghost board = { board_of };

    ghost kept = { λ b. outline b.pages };

    ghost lacks = { lacks_in };

    ghost waiting = { λ b page. b.waiting ≡ page };

    #[inline(always)]
    fn ready(&self, at: PhysAddr, size: Size, kind: Kind) -> Result<(), Refusal> {
        if self.is_in_memory(at, size) {
            let page = at.page();
            match lack(self.map.kind(page), kind) {
                None => Ok(()),
                Some(why) => Err(Refusal::Need(page, why)),
            }
        } else if reaches_register(at, size, kind) {
            Ok(())
        } else {
            Err(Refusal::Bus)
        }
    }

    #[inline(always)]
    #[tactic(auto, using(crate::proofs::Refusing::lacks_kept))]
    fn is_plain(&self, at: PhysAddr, size: Size, kind: Kind) -> bool {
        if !self.is_in_memory(at, size) {
            return false;
        }
        let its_page = at.page();
        match lack(self.map.kind(its_page), kind) {
            None => !self.devices.is_given(its_page),
            Some(_) => false,
        }
    }

    #[inline(always)]
    fn peek(&self, at: PhysAddr) -> u32 {
        self.map.read_word(at.number())
    }

    #[inline(always)]
    fn fetch(&mut self, at: PhysAddr) -> u32 {
        let word = self.map.read_word(at.number());
        self.access(at.page());
        word
    }

    #[inline(always)]
    fn load(&mut self, at: PhysAddr, size: Size) -> u32 {
        if self.is_in_memory(at, size) {
            let value = value(&self.map, size, at);
            self.access(at.page());
            value
        } else {
            self.load_register(at)
        }
    }

    #[inline(always)]
    fn load_plain(&self, at: PhysAddr, size: Size) -> u32 {
        value(&self.map, size, at)
    }

    #[inline(always)]
    #[tactic(auto, using(machine::proofs::Plain::plain_memory_stored))]
    fn store_plain(&mut self, at: PhysAddr, size: Size, value: u32) {
        put_value(&mut self.map, size, at, value);
    }

    #[inline(always)]
    fn lines(&self) -> u8 {
        self.devices.lines()
    }

    fn look(&self, at: PhysAddr) -> u8 {
        let _pages = self.map.len();
        self.map.read_byte(at.number())
    }

    #[inline(always)]
    fn store(&mut self, at: PhysAddr, size: Size, value: u32) {
        if self.is_in_memory(at, size) {
            put_value(&mut self.map, size, at, value);
            self.access(at.page());
        } else {
            self.store_register(at, value);
        }
    }
}
