//! A memory whose changes are watched.
ghost use Rattle.std.specs.Prelude.{◌≡◌, ℕ, ◌+◌, ◌*◌, ◌<◌, ◌≤◌, ◌^◌, ◌↔◌, true, false, None, Err, IfOk, OnOk, OnErr, IsOk, length, [], slice_set};
ghost use Rattle.word32.specs.Pages.{page_number};
ghost use Rattle.dev_console.specs.Console.{input_room};
ghost use Rattle.devices.specs.Devices.{device_input_fed};
ghost use Rattle.machine.specs.Answers.{replied};
ghost use Rattle.reset_machine.specs.Marks.{is_marked, Grows};
ghost use Rattle.reset_machine.specs.Watched.{HasPages, IsWatched, AreGivenMarked};

use crate::{Home, Marks};
use devices::{DeviceRegister, Devices};
use flatvm::{Flat, FlatBus};
use machine::{Kind, PhysAddr, PhysBus, Refusal, Rejection, Reply, Size};
use mips_step::Cpu;
use std::alloc::{AllocError, Global};
use std::marker::Model;
use std::sync::Arc;
use word32::Ppn;

/// A plain memory with its devices that marks each page which a store changes, so that it goes back to what it was at first, the memory of its
/// home, by those pages alone. In clauses it is a `WatchedBoard`.
#[derive(Drop)]
pub struct WatchedBus {
    flat: FlatBus,
    marks: Marks,
    home: Arc<Home, Global>,
}

impl Model for WatchedBus {
    ghost use Rattle.reset_machine.specs.Watched.{WatchedBoard, IsWatched};

    ghost Value = { WatchedBoard };

    ghost view = { λ b. record { board = b.flat; home = b.home.value; written = b.marks.list } };

    ghost invariant = { λ b. IsWatched b.flat.memory b.marks.marked b.home.value.board.memory };
}

impl WatchedBus {
    /// The memory and the devices of a home. `AllocError` where a request for memory was refused.
    #[tactic(auto, using(crate::proofs::Watching::home_watched))]
    pub fn new(alloc: Global, home: Arc<Home, Global>) -> Result<WatchedBus, AllocError>
        ensures board { IfOk result (λ bus. bus.board ≡ home.value.board) }
        ensures home { IfOk result (λ bus. bus.home ≡ home.value) }
        ensures written { IfOk result (λ bus. bus.written ≡ []) }
    {
        let flat = home.board()?;
        let marks = Marks::new(alloc, home.page_count())?;
        Ok(WatchedBus { flat, marks, home })
    }

    /// The memory with the devices, and how many pages it has.
    #[tactic(auto, using(crate::proofs::Watching::watched_pages))]
    pub(crate) fn into_flat(self) -> (FlatBus, u32)
        ensures board { result.0 ≡ self.board }
        ensures pages { HasPages result.1 self.board.memory }
    {
        let pages = self.marks.pages() as u32;
        let WatchedBus { flat, marks, home } = self;
        drop(marks);
        drop(home);
        (flat, pages)
    }

    /// The devices.
    pub fn devices(&self) -> &Devices
        ensures { result.now ≡ self.now.board.devices }
    {
        self.flat.devices()
    }

    /// How many pages were written since the memory was that of its home; where none was, it is.
    #[tactic(auto, using(crate::proofs::Watching::all_back))]
    pub fn written(&self) -> usize
        ensures count { result ≡ length self.now.written }
        ensures within { result * 4096 ≤ length self.now.board.memory }
        ensures few { result ≤ 2 ^ 20 }
        ensures none { result ≡ 0 → self.now.board.memory ≡ self.now.home.board.memory }
    {
        self.marks.count()
    }

    /// Adds a byte of the console's input. It answers `Machine` exactly where the console has no room for it, and nothing has changed then.
    #[tactic(auto, using(crate::proofs::Watching::devices_watched))]
    pub fn feed(&mut self, byte: u8) -> Result<Reply, Rejection>
        ensures fed { OnOk result (self.new.board ≡ record self.old.board { devices = device_input_fed byte self.old.board.devices }) }
        ensures home { self.new.home ≡ self.old.home }
        ensures room { IsOk result ↔ (length self.old.board.devices.console.input < input_room) }
        ensures refused { OnErr result (self.new ≡ self.old) }
        ensures error { OnErr result (result ≡ Err Rejection.Machine) }
    {
        self.flat.feed(byte)
    }

    /// The processor of its home.
    pub fn home_processor(&self) -> Cpu
        ensures { result ≡ self.now.home.cpu }
    {
        self.home.processor()
    }

    /// Goes back to the memory and the devices of its home. `AllocError` where a request for memory was refused, and nothing has changed then.
    #[tactic(auto, using(crate::proofs::Watching::as_long, crate::proofs::Watching::still_watched))]
    pub fn reset(&mut self) -> Result<(), AllocError>
        ensures board { OnOk result (self.new.board ≡ self.old.home.board) }
        ensures written { OnOk result (self.new.written ≡ []) }
        ensures home { self.new.home ≡ self.old.home }
        ensures unchanged { OnErr result (self.new ≡ self.old) }
    {
        self.home.put_devices(&mut self.flat)?;
        reload(&mut self.flat, &mut self.marks, &self.home);
        Ok(())
    }
}

/// Puts back each page that is marked, with the bytes that it has at home, and takes its mark away.
#[tactic(auto, using(crate::proofs::Watching::put_inside, crate::proofs::Watching::home_inside))]
fn reload(flat: &mut FlatBus, marks: &mut Marks, home: &Home)
    requires { IsWatched flat.old.memory marks.old.marked home.now.board.memory }
    ensures memory { flat.new ≡ record flat.old { memory = home.now.board.memory } }
    ensures watched { IsWatched flat.new.memory marks.new.marked home.now.board.memory }
    ensures list { marks.new.list ≡ [] }
{
    while let Some(page) = marks.take() {
        home.put_page(page, flat);
    }
}

/// Marks the page that a store of a value to the device's register at an address may give away, if it may give one.
#[cold]
#[inline(never)]
#[tactic(auto, using(crate::proofs::Marking::mark_grows, crate::proofs::Marking::none_more))]
fn mark_given(marks: &mut Marks, at: PhysAddr, value: u32)
    requires { length marks.old.marked ≤ 2 ^ 20 }
    ensures grows { Grows marks.old.marked marks.new.marked }
    ensures given { AreGivenMarked at value marks.new.marked }
{
    if let Some(DeviceRegister::BalGive) = DeviceRegister::at(at.number())
        && (value as usize) < marks.pages()
    {
        marks.mark(Ppn::new(value));
    }
}

/// Marks the page that a store of a value at an address may change.
#[inline(always)]
#[tactic(auto, using(crate::proofs::Marking::mark_grows, crate::proofs::Marking::marked_now))]
fn mark_stored(marks: &mut Marks, at: PhysAddr, value: u32)
    requires { length marks.old.marked ≤ 2 ^ 20 }
    ensures grows { Grows marks.old.marked marks.new.marked }
    ensures stored { page_number at < length marks.old.marked → is_marked (page_number at) marks.new.marked ≡ true }
    ensures given { length marks.old.marked ≤ page_number at → AreGivenMarked at value marks.new.marked }
{
    let page = at.page();
    if (page.number() as usize) < marks.pages() {
        marks.mark(page);
    } else {
        mark_given(marks, at, value);
    }
}

impl PhysBus for WatchedBus {
    // Its home, as its clauses see it.
    type Kept = Flat;

    ghost board = { λ b. b.board };

    ghost kept = { λ b. b.home };

    ghost lacks = { λ kept page kind. None };

    ghost waiting = { λ b page. Unit {0} };

    #[inline(always)]
    fn ready(&self, at: PhysAddr, size: Size, kind: Kind) -> Result<(), Refusal> {
        self.flat.ready(at, size, kind)
    }

    #[inline(always)]
    fn is_plain(&self, at: PhysAddr, size: Size, kind: Kind) -> bool {
        self.flat.is_plain(at, size, kind)
    }

    #[inline(always)]
    fn peek(&self, at: PhysAddr) -> u32 {
        self.flat.peek(at)
    }

    #[inline(always)]
    #[tactic(auto, using(crate::proofs::Watching::touched_watched))]
    fn fetch(&mut self, at: PhysAddr) -> u32 {
        self.flat.fetch(at)
    }

    #[inline(always)]
    #[tactic(auto, using(crate::proofs::Watching::loaded_watched))]
    fn load(&mut self, at: PhysAddr, size: Size) -> u32 {
        self.flat.load(at, size)
    }

    #[inline(always)]
    fn load_plain(&self, at: PhysAddr, size: Size) -> u32 {
        self.flat.load_plain(at, size)
    }

    #[inline(always)]
    #[tactic(auto, using(crate::proofs::Watching::plain_there, crate::proofs::Watching::plain_watched))]
    fn store_plain(&mut self, at: PhysAddr, size: Size, value: u32) {
        self.marks.mark(at.page());
        self.flat.store_plain(at, size, value);
    }

    #[inline(always)]
    fn lines(&self) -> u8 {
        self.flat.lines()
    }

    fn look(&self, at: PhysAddr) -> u8 {
        self.flat.look(at)
    }

    #[inline(always)]
    #[tactic(auto, using(crate::proofs::Watching::store_watched))]
    fn store(&mut self, at: PhysAddr, size: Size, value: u32) {
        mark_stored(&mut self.marks, at, value);
        self.flat.store(at, size, value);
    }
}
