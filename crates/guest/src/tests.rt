//! Guests whose pages are supplied as steps and items need them. An instruction is written as the word that the manual encodes
//! it to, with its text beside; what it leads to is worked out by hand.
ghost use Rattle.std.specs.Prelude.{◌≡◌, ◌<◌, ◌≤◌, ℕ, false, length};
ghost use Rattle.elf32.specs.Images.{FitsPages};
ghost use Rattle.items.specs.Items.{is_step};
ghost use Rattle.guest_pages.specs.Holdings.{tickets_held};

use crate::loading::{PAGE_BYTES, load_image_page, reaches};
use crate::{Guest, Refused, Seat, Stepped};
use elf32::{Image, Segment};
use framepool::Pool;
use frames::{Frame, FrameNo};
use guest_pages::{PageKind, Returned};
use items::{Item, What, WriteBytes};
use machine::{Ppn, Why};
use mips_cp0::Profile;
use mips_instr::Reg;
use page_moves::{Pages, evict_in, supply_first, supply_swapped};
use sharetab::Shares;
use std::alloc::Global;
use std::fmt::Debug;
use std::marker::Model;
use std::process::Abort;
use std::sync::Arc;
use swapstore::{MemStore, SlotBook, SwapStore};
use taxpolicy::SAMPLE_SIZE;

/// Asserts one case. The tests share it, since each assertion in a function's own body makes its proof much longer.
fn expect<T: PartialEq + Debug + Drop>(rt: &impl Abort, case: &'static str, got: T, wanted: T) {
    assert!(rt; got == wanted, "{case}: {got:?}, not {wanted:?}");
}

/// A guest with its first seat, the image that it boots, and four frames for its pages.
struct Parts {
    guest: Guest,
    seat: Seat,
    image: Arc<Image, Global>,
    pool: Pool,
}

impl Model for Parts {
    ghost use Rattle.std.specs.Prelude.{◌≡◌};
    ghost use Rattle.guest.specs.Guests.{GuestIs};

    ghost Value = { GuestIs };

    ghost view = { λ p. p.guest };

    ghost invariant = { λ p. p.seat.head ≡ p.guest.head };
}

/// The page of a number, which has to be there.
fn page(rt: &impl Abort, guest: &Guest, number: u32) -> Ppn
    ensures { result < length guest.now.bus.pages }
{
    if number >= 4 {
        panic!(rt; "there is no page {number}");
    }
    if number >= guest.count() {
        panic!(rt; "there is no page {number}");
    }
    Ppn::new(number)
}

fn kind(rt: &impl Abort, guest: &Guest, number: u32) -> PageKind {
    guest.kind(page(rt, guest, number))
}

/// A page gets a frame of zeros.
fn supply(rt: &impl Abort, alloc: Global, guest: &mut Guest, pool: &mut Pool, number: u32)
    ensures guest { guest.new.head ≡ guest.old.head }
    ensures tickets { (k : ℕ) → tickets_held k guest.new.bus.pages ≡ tickets_held k guest.old.bus.pages }
{
    let p = page(rt, guest, number);
    match guest.kind(p) {
        PageKind::Zero | PageKind::Given => {}
        other => panic!(rt; "page {number} is {other:?}"),
    }
    let Some(no) = pool.take() else {
        panic!(rt; "no frame is free");
    };
    match supply_first(alloc, guest, p, no) {
        Ok(()) => {}
        Err(no) => panic!(rt; "no memory for frame {}", no.close()),
    }
}

/// A page that has a frame gets its bytes of the image.
fn load(rt: &impl Abort, guest: &mut Guest, image: &Image, number: u32)
    ensures { guest.new.head ≡ guest.old.head }
{
    let p = page(rt, guest, number);
    if !image.fits(guest.count()) {
        panic!(rt; "the image has no room");
    }
    match guest.kind(p) {
        PageKind::Private => guest.load_page(image, p),
        other => panic!(rt; "page {number} is {other:?}"),
    }
}

/// One step, for which the log has room.
fn step(rt: &impl Abort, guest: &mut Guest, seat: &mut Seat) -> Stepped
    requires { seat.old.head ≡ guest.old.head }
    ensures { seat.new.head ≡ guest.new.head }
{
    if let Err(stop) = guest.log_room() {
        panic!(rt; "no room in the log: {stop:?}");
    }
    match guest.step(seat) {
        Stepped::Done(returned) => Stepped::Done(returned),
        Stepped::Need(page, why) => Stepped::Need(page, why),
    }
}

/// A frame that came back is free again. A number that is taken before and stays out shows that one is out.
fn give(rt: &impl Abort, pool: &mut Pool, number: FrameNo) {
    match pool.take() {
        Some(other) => {
            let _number = other.close();
            pool.give(number);
        }
        None => panic!(rt; "no frame is free beside {}", number.close()),
    }
}

/// Why what happens is refused.
fn refusal(guest: &mut Guest, seat: &mut Seat, what: What) -> Option<Refused>
    requires head { seat.old.head ≡ guest.old.head }
    requires input { is_step what ≡ false }
    ensures seat { seat.new.head ≡ guest.new.head }
    ensures tickets { (k : ℕ) → tickets_held k guest.new.bus.pages ≡ tickets_held k guest.old.bus.pages }
{
    let item = Item {
        seat: seat.number(),
        what,
    };
    match guest.input(item, seat) {
        Ok(_reply) => None,
        Err(refused) => Some(refused),
    }
}

/// How much of the log another seat sees, which is new, then looks, and is then settled.
fn another_seat(rt: &impl Abort, guest: &mut Guest) -> [u64; 3]
    ensures { guest.new.head ≡ guest.old.head }
{
    if guest.seats() >= 4 {
        panic!(rt; "no seat is left");
    }
    let mut other = guest.seat();
    let new = other.seen_len();
    guest.publish();
    let looked = match guest.head() {
        Ok(head) => head.look(&mut other),
        Err(_) => panic!(rt; "no more owners"),
    };
    guest.settle(&mut other);
    [new, looked, other.seen_len()]
}

/// Two slots of a store in memory, and no shared frame.
struct Swap {
    slots: SlotBook,
    store: MemStore,
    shares: Shares,
}

/// A page leaves its frame, which comes free, for the lowest slot that is free.
fn evict(rt: &impl Abort, guest: &mut Guest, swap: &mut Swap, number: u32) -> FrameNo
    requires { (k : ℕ) → tickets_held k guest.old.bus.pages ≡ 0 }
    ensures { guest.new.head ≡ guest.old.head }
{
    let p = page(rt, guest, number);
    if !guest.kind(p).is_resident() {
        panic!(rt; "page {number} is in no frame");
    }
    let Some(slot) = swap.slots.take() else {
        panic!(rt; "no slot is free");
    };
    if slot.number() >= swap.store.slot_count() {
        panic!(rt; "no slot {}", slot.close());
    }
    match evict_in(guest, p, slot, &mut swap.store, &mut swap.shares) {
        Ok(Some(no)) => no,
        Ok(None) => panic!(rt; "no frame came free"),
        Err(slot) => panic!(rt; "slot {} is not written", slot.close()),
    }
}

/// A page comes back from its slot.
fn restore(
    rt: &impl Abort,
    alloc: Global,
    guest: &mut Guest,
    pool: &mut Pool,
    swap: &mut Swap,
    number: u32,
)
    ensures { guest.new.head ≡ guest.old.head }
{
    let p = page(rt, guest, number);
    match guest.kind(p) {
        PageKind::Swapped => {}
        other => panic!(rt; "page {number} is {other:?}"),
    }
    let (slot, _digest) = guest.away(p);
    if slot >= swap.store.slot_count() {
        panic!(rt; "no slot {slot}");
    }
    if swap.slots.used() == 0 {
        panic!(rt; "no slot is used");
    }
    let Some(no) = pool.take() else {
        panic!(rt; "no frame is free");
    };
    match supply_swapped(alloc, guest, p, no, &mut swap.store) {
        Ok(slot) => swap.slots.give(slot),
        Err((no, error)) => panic!(rt; "page {number}, frame {}: {error:?}", no.close()),
    }
}

impl Parts {
    ghost use Rattle.std.specs.Prelude.{◌≡◌, ◌<◌, false};
    ghost use Rattle.items.specs.Items.{is_step};

    fn supply(&mut self, rt: &impl Abort, alloc: Global, number: u32) {
        supply(rt, alloc, &mut self.guest, &mut self.pool, number);
    }

    fn load(&mut self, rt: &impl Abort, number: u32) {
        load(rt, &mut self.guest, &self.image, number);
    }

    fn step(&mut self, rt: &impl Abort) -> Stepped {
        step(rt, &mut self.guest, &mut self.seat)
    }

    fn need(&self) -> Option<(Ppn, Why)> {
        self.guest.need()
    }

    fn kind(&self, rt: &impl Abort, number: u32) -> PageKind {
        kind(rt, &self.guest, number)
    }

    fn log_len(&self) -> u64 {
        self.guest.log().len()
    }

    fn free(&self) -> u32 {
        self.pool.free()
    }

    fn give(&mut self, rt: &impl Abort, frame: Frame) {
        give(rt, &mut self.pool, frame.strip());
    }

    fn restore(&mut self, rt: &impl Abort, alloc: Global, swap: &mut Swap, number: u32) {
        restore(rt, alloc, &mut self.guest, &mut self.pool, swap, number);
    }

    fn another_seat(&mut self, rt: &impl Abort) -> [u64; 3] {
        another_seat(rt, &mut self.guest)
    }

    fn reg(&self, number: u32) -> u32
        requires { number < 32 }
    {
        self.guest.view().cpu.reg(Reg::new(number))
    }

    fn refusal(&mut self, what: What) -> Option<Refused>
        requires { is_step what ≡ false }
    {
        refusal(&mut self.guest, &mut self.seat, what)
    }

    /// What is answered to a read of two bytes, and those bytes after it.
    fn two_bytes(&self, address: u32) -> (Result<(), Refused>, [u8; 2]) {
        let mut bytes = [0xa5; 2];
        let answer = self.guest.debug_read(address, &mut bytes);
        (answer, bytes)
    }

    /// The pages that so many bytes lie in.
    fn pages_of(&self, address: u32, count: u32) -> Option<(u32, u32)>
        requires some { 0 < count }
        requires few { count ≤ 1024 }
    {
        let (first, last) = self.guest.debug_pages(address, count)?;
        Some((first.number(), last.number()))
    }

    fn close(self) {
        let Parts {
            guest,
            seat,
            image,
            pool,
        } = self;
        guest.close();
        drop(seat);
        drop(image);
        pool.close();
    }
}

/// The bytes of words, in order.
fn bytes_of(rt: &impl Abort, alloc: Global, words: &[u32]) -> Vec<u8> {
    let mut bytes = Vec::new(alloc);
    for word in words {
        if bytes.extend_from_slice(&word.to_le_bytes()).is_err() {
            panic!(rt; "no memory for the words");
        }
    }
    bytes
}

/// An image of these words from 80000000 on.
fn image_of(rt: &impl Abort, alloc: Global, words: &[u32]) -> Image {
    let bytes = bytes_of(rt, alloc, words);
    if bytes.len() > PAGE_BYTES {
        panic!(rt; "too many words");
    }
    match Image::raw(alloc, bytes) {
        Ok(image) => image,
        Err(_) => panic!(rt; "no memory for the image"),
    }
}

fn shared(rt: &impl Abort, alloc: Global, image: Image) -> Arc<Image, Global> {
    match Arc::new(alloc, image) {
        Ok(image) => image,
        Err(_) => panic!(rt; "no memory for the image"),
    }
}

fn owner(rt: &impl Abort, image: &Arc<Image, Global>) -> Arc<Image, Global> {
    match image.clone() {
        Ok(image) => image,
        Err(_) => panic!(rt; "no more owners"),
    }
}

/// A guest of four pages, whose log has at most eight runs.
fn booted(rt: &impl Abort, alloc: Global, image: Arc<Image, Global>) -> Guest
    ensures seats { result.seats ≡ 0 }
    ensures tickets { (k : ℕ) → tickets_held k result.bus.pages ≡ 0 }
{
    if !image.fits(4) {
        panic!(rt; "the image has no room");
    }
    match Guest::boot(alloc, Profile::One, image, 4, 8) {
        Ok(guest) => guest,
        Err(_) => panic!(rt; "no memory for the guest"),
    }
}

fn new_pool(rt: &impl Abort, alloc: Global) -> Pool {
    match Pool::new(alloc, 4) {
        Ok(pool) => pool,
        Err(_) => panic!(rt; "no memory for the pool"),
    }
}

fn started(rt: &impl Abort, alloc: Global, words: &[u32]) -> Parts {
    let image = shared(rt, alloc, image_of(rt, alloc, words));
    let mut guest = booted(rt, alloc, owner(rt, &image));
    let seat = guest.seat();
    Parts {
        guest,
        seat,
        image,
        pool: new_pool(rt, alloc),
    }
}

/// What a step that is made hands back.
fn returned(rt: &impl Abort, stepped: Stepped) -> Returned {
    match stepped {
        Stepped::Done(returned) => returned,
        Stepped::Need(_, why) => panic!(rt; "a page is needed: {why:?}"),
    }
}

/// A step is made, and hands nothing back.
fn made(rt: &impl Abort, stepped: Stepped) {
    match returned(rt, stepped) {
        Returned::Nothing => {}
        other => {
            other.close();
            panic!(rt; "something came back")
        }
    }
}

/// A step is made, and hands a frame back.
fn frame_back(rt: &impl Abort, stepped: Stepped) -> Frame {
    match returned(rt, stepped) {
        Returned::Frame(frame) => frame,
        other => {
            other.close();
            panic!(rt; "no frame came back")
        }
    }
}

/// A step is not made, since it needs a page.
fn needed(rt: &impl Abort, stepped: Stepped) -> (Ppn, Why) {
    match stepped {
        Stepped::Need(page, why) => (page, why),
        Stepped::Done(returned) => {
            returned.close();
            panic!(rt; "the step is made")
        }
    }
}

/// The first touch of a page.
fn first(number: u32) -> (Ppn, Why)
    requires { number < 4 }
{
    (Ppn::new(number), Why::First)
}

/// A load from page 1.
static LOADING: [u32; 2] = [
    0x3c01_8000, // lui $1,0x8000
    0x8c22_1000, // lw $2,0x1000($1)
];

/// The first step needs page 0, which gets its bytes.
fn first_page(rt: &impl Abort, alloc: Global, parts: &mut Parts) {
    expect(rt, "page 0", needed(rt, parts.step(rt)), first(0));
    parts.supply(rt, alloc, 0);
    parts.load(rt, 0);
    made(rt, parts.step(rt));
}

/// The next step needs page 1, as is told before.
fn second_page(rt: &impl Abort, alloc: Global, parts: &mut Parts) {
    expect(rt, "told", parts.need(), Some(first(1)));
    expect(rt, "page 1", needed(rt, parts.step(rt)), first(1));
    parts.supply(rt, alloc, 1);
    expect(rt, "no more", parts.need(), None);
    made(rt, parts.step(rt));
}

#[test]
fn a_step_needs_its_pages(rt: HostRuntime) {
    let mut parts = started(&rt, rt.alloc(), &LOADING);
    first_page(&rt, rt.alloc(), &mut parts);
    expect(&rt, "one step", parts.log_len(), 1);
    second_page(&rt, rt.alloc(), &mut parts);
    expect(&rt, "two steps", parts.log_len(), 2);
    parts.close();
}

/// It gives page 1 to the balloon.
static GIVING: [u32; 3] = [
    0x3c01_bf00, // lui $1,0xbf00
    0x2402_0001, // addiu $2,$0,1
    0xac22_0018, // sw $2,24($1): BAL_GIVE
];

/// Pages 0 and 1 have frames, and two steps are made.
fn about_to_give(rt: &impl Abort, alloc: Global) -> Parts {
    let mut parts = started(rt, alloc, &GIVING);
    parts.supply(rt, alloc, 0);
    parts.load(rt, 0);
    parts.supply(rt, alloc, 1);
    made(rt, parts.step(rt));
    made(rt, parts.step(rt));
    parts
}

#[test]
fn a_page_that_was_given_hands_back_its_frame(rt: HostRuntime) {
    let mut parts = about_to_give(&rt, rt.alloc());
    expect(&rt, "its own", parts.kind(&rt, 1), PageKind::Private);
    let frame = frame_back(&rt, parts.step(&rt));
    expect(&rt, "given", parts.kind(&rt, 1), PageKind::Given);
    expect(&rt, "free before", parts.free(), 2);
    parts.give(&rt, frame);
    // one stays out
    expect(&rt, "free after", parts.free(), 2);
    parts.close();
}

/// A write of two bytes.
fn write(rt: &impl Abort, alloc: Global, address: u32) -> What
    ensures { is_step result ≡ false }
{
    match [7, 8].to_vec(alloc) {
        Ok(bytes) => {
            if bytes.len() > 65535 {
                panic!(rt; "too many bytes");
            }
            What::Write {
                address,
                bytes: WriteBytes::from_vec(bytes),
            }
        }
        Err(_) => panic!(rt; "no memory for the bytes"),
    }
}

fn away(number: u32) -> Option<Refused>
    requires { number < 4 }
{
    Some(Refused::Away(Ppn::new(number)))
}

/// Pages 1 and 2 get frames, before which a write across their border is refused.
fn written(rt: &impl Abort, alloc: Global, parts: &mut Parts) {
    let answer = parts.refusal(write(rt, alloc, 0x8000_1fff));
    expect(rt, "neither", answer, away(1));
    parts.supply(rt, alloc, 1);
    let answer = parts.refusal(write(rt, alloc, 0x8000_1fff));
    expect(rt, "one", answer, away(2));
    parts.supply(rt, alloc, 2);
    let answer = parts.refusal(write(rt, alloc, 0x8000_1fff));
    expect(rt, "both", answer, None);
}

/// A write past the end of memory is refused, whatever pages have frames.
fn past_the_end(rt: &impl Abort, alloc: Global, parts: &mut Parts) {
    let answer = parts.refusal(write(rt, alloc, 0x8000_4000));
    expect(rt, "past the end", answer, Some(Refused::Machine));
}

/// What is read after that.
fn read(rt: &impl Abort, parts: &Parts) {
    let answer = parts.two_bytes(0x8000_1fff);
    expect(rt, "written", answer, (Ok(()), [7, 8]));
    let answer = parts.two_bytes(0x8000_2fff);
    expect(rt, "beside", answer, (Ok(()), [0, 0]));
    expect(rt, "untouched", parts.kind(rt, 3), PageKind::Zero);
    let answer = parts.two_bytes(0xc000_0000);
    expect(rt, "no place", answer, (Err(Refused::Machine), [0xa5; 2]));
    let across = parts.pages_of(0x8000_1fff, 2);
    expect(rt, "pages 1 and 2", across, Some((1, 2)));
    let inside = parts.pages_of(0x8000_1000, 1024);
    expect(rt, "page 1", inside, Some((1, 1)));
    expect(rt, "no pages", parts.pages_of(0x8000_3fff, 2), None);
}

#[test]
fn a_write_wants_its_pages(rt: HostRuntime) {
    let mut parts = started(&rt, rt.alloc(), &LOADING);
    written(&rt, rt.alloc(), &mut parts);
    past_the_end(&rt, rt.alloc(), &mut parts);
    read(&rt, &parts);
    expect(&rt, "one item", parts.log_len(), 1);
    parts.close();
}

#[test]
fn another_seat_sees_the_log(rt: HostRuntime) {
    let mut parts = started(&rt, rt.alloc(), &LOADING);
    expect(&rt, "input", parts.refusal(What::In(7)), None);
    expect(&rt, "one item", parts.another_seat(&rt), [0, 1, 1]);
    first_page(&rt, rt.alloc(), &mut parts);
    expect(&rt, "a step too", parts.another_seat(&rt), [0, 2, 2]);
    parts.close();
}

/// Bytes and zeros from an address on.
fn segment(rt: &impl Abort, alloc: Global, address: u32, bytes: &[u8], size: u32) -> Segment {
    match bytes.to_vec(alloc) {
        Ok(bytes) => Segment {
            address,
            bytes,
            size,
        },
        Err(_) => panic!(rt; "no memory for the bytes"),
    }
}

fn add(rt: &impl Abort, segments: &mut Vec<Segment>, segment: Segment) {
    if segments.push(segment).is_err() {
        panic!(rt; "no memory for the segments");
    }
}

/// Three bytes and three zeros from the last two bytes of page 0 on, and a byte with 4,096 zeros from the start of page 3 on.
fn two_segments(rt: &impl Abort, alloc: Global) -> Image {
    let mut segments = Vec::new(alloc);
    let low = segment(rt, alloc, 0x8000_0ffe, &[1, 2, 3], 6);
    add(rt, &mut segments, low);
    let high = segment(rt, alloc, 0x8000_3000, &[4], 4097);
    add(rt, &mut segments, high);
    Image {
        entry: 0x8000_0000,
        segments,
    }
}

/// The image fits a memory of eight pages.
fn fits_eight(rt: &impl Abort, image: &Image)
    ensures { FitsPages image.now 8 }
{
    if !image.fits(8) {
        panic!(rt; "the image has no room");
    }
}

/// The image fits some memory.
fn fitting(rt: &impl Abort, image: &Image)
    ensures { (pages : ℕ) × FitsPages image.now pages }
{
    fits_eight(rt, image);
}

/// Whether the image reaches a page of eight.
fn is_reached(rt: &impl Abort, image: &Image, number: u32) -> bool {
    if number >= 8 {
        panic!(rt; "there is no page {number}");
    }
    fitting(rt, image);
    reaches(image, Ppn::new(number))
}

/// The first and the last two bytes of a page, and how many are not 0.
fn outer_bytes(page: &[u8; PAGE_BYTES]) -> ([u8; 2], [u8; 2], u32) {
    let mut count = 0u32;
    for byte in page {
        if *byte != 0 {
            count = count.wrapping_add(1);
        }
    }
    ([page[0], page[1]], [page[4094], page[4095]], count)
}

/// The same of a page as the image boots.
fn loaded(rt: &impl Abort, image: &Image, number: u32) -> ([u8; 2], [u8; 2], u32) {
    if number >= 8 {
        panic!(rt; "there is no page {number}");
    }
    fitting(rt, image);
    let mut page = [0xa5; PAGE_BYTES];
    load_image_page(image, Ppn::new(number), &mut page);
    outer_bytes(&page)
}

/// Whether each page from 0 on is reached, its first and last two bytes, and how many are not 0.
static IMAGE_PAGES: [(bool, ([u8; 2], [u8; 2], u32)); 6] = [
    (true, ([0, 0], [1, 2], 2)),
    (true, ([3, 0], [0, 0], 1)),
    (false, ([0, 0], [0, 0], 0)),
    (true, ([4, 0], [0, 0], 1)),
    (true, ([0, 0], [0, 0], 0)),
    (false, ([0, 0], [0, 0], 0)),
];

fn check_page(
    rt: &impl Abort,
    image: &Image,
    number: u32,
    wanted: (bool, ([u8; 2], [u8; 2], u32)),
) {
    let got = (is_reached(rt, image, number), loaded(rt, image, number));
    assert!(rt; got == wanted, "page {number}: {got:?}, not {wanted:?}");
}

#[test]
fn bytes_of_an_image_page(rt: HostRuntime) {
    let image = two_segments(&rt, rt.alloc());
    for k in 0..6 {
        check_page(&rt, &image, k as u32, IMAGE_PAGES[k]);
    }
}

fn new_slots(rt: &impl Abort, alloc: Global) -> SlotBook {
    match SlotBook::new(alloc, 2) {
        Ok(slots) => slots,
        Err(_) => panic!(rt; "no memory for the slots"),
    }
}

fn new_store(rt: &impl Abort, alloc: Global) -> MemStore {
    match MemStore::new(alloc, 2) {
        Ok(store) => store,
        Err(_) => panic!(rt; "no memory for the store"),
    }
}

fn new_shares(rt: &impl Abort, alloc: Global) -> Shares {
    match Shares::new(alloc, 4) {
        Ok(shares) => shares,
        Err(_) => panic!(rt; "no memory for the table"),
    }
}

fn new_swap(rt: &impl Abort, alloc: Global) -> Swap {
    Swap {
        slots: new_slots(rt, alloc),
        store: new_store(rt, alloc),
        shares: new_shares(rt, alloc),
    }
}

fn close_swap(swap: Swap) {
    let Swap {
        slots,
        store: _,
        shares,
    } = swap;
    slots.close();
    shares.close();
}

/// Page 1 gets two bytes, and leaves for a slot.
fn leave(
    rt: &impl Abort,
    alloc: Global,
    guest: &mut Guest,
    seat: &mut Seat,
    pool: &mut Pool,
    swap: &mut Swap,
)
    requires head { seat.old.head ≡ guest.old.head }
    requires tickets { (k : ℕ) → tickets_held k guest.old.bus.pages ≡ 0 }
    ensures { seat.new.head ≡ guest.new.head }
{
    supply(rt, alloc, guest, pool, 1);
    let answer = refusal(guest, seat, write(rt, alloc, 0x8000_1000));
    expect(rt, "written", answer, None);
    let number = evict(rt, guest, swap, 1);
    give(rt, pool, number);
}

/// Page 1 begins with two bytes, and is in a slot.
fn swapped(rt: &impl Abort, alloc: Global, swap: &mut Swap) -> Parts {
    let image = shared(rt, alloc, image_of(rt, alloc, &LOADING));
    let mut guest = booted(rt, alloc, owner(rt, &image));
    let mut seat = guest.seat();
    let mut pool = new_pool(rt, alloc);
    leave(rt, alloc, &mut guest, &mut seat, &mut pool, swap);
    Parts {
        guest,
        seat,
        image,
        pool,
    }
}

/// A step that loads from page 1 needs it, until it is back.
fn loads(rt: &impl Abort, alloc: Global, parts: &mut Parts, swap: &mut Swap) {
    first_page(rt, alloc, parts);
    let (page, why) = needed(rt, parts.step(rt));
    expect(rt, "needed", (page.number(), why), (1, Why::Swapped));
    parts.restore(rt, alloc, swap, 1);
    made(rt, parts.step(rt));
    expect(rt, "its word", parts.reg(2), 0x0807);
}

#[test]
fn a_page_in_a_slot_is_away(rt: HostRuntime) {
    let mut swap = new_swap(&rt, rt.alloc());
    let mut parts = swapped(&rt, rt.alloc(), &mut swap);
    let answer = parts.two_bytes(0x8000_1000);
    let refused = Err(Refused::Away(Ppn::new(1)));
    expect(&rt, "away", answer, (refused, [0xa5; 2]));
    loads(&rt, rt.alloc(), &mut parts, &mut swap);
    let answer = parts.two_bytes(0x8000_1000);
    expect(&rt, "back", answer, (Ok(()), [7, 8]));
    parts.close();
    close_swap(swap);
}

impl Parts {
    /// Of each page whether it is marked as touched.
    fn touched(&self) -> [bool; 4] {
        let guest = &self.guest;
        [
            guest.is_touched(0),
            guest.is_touched(1),
            guest.is_touched(2),
            guest.is_touched(3),
        ]
    }

    fn clear(&mut self, draws: &[u32; SAMPLE_SIZE]) {
        self.guest.clear_touched(draws);
    }
}

/// A draw of each of the pages 1 to 3; all others are of page 0.
fn each_page() -> [u32; SAMPLE_SIZE] {
    let mut draws = [0; SAMPLE_SIZE];
    draws[1] = 1;
    draws[2] = 2;
    draws[3] = 3;
    draws
}

#[test]
fn accesses_mark_pages_until_they_are_drawn(rt: HostRuntime) {
    let alloc = rt.alloc();
    let draws = each_page();
    let mut parts = started(&rt, alloc, &LOADING);
    parts.supply(&rt, alloc, 0);
    parts.load(&rt, 0);
    expect(&rt, "no access", parts.touched(), [false; 4]);
    made(&rt, parts.step(&rt));
    let fetched = [true, false, false, false];
    expect(&rt, "a fetch", parts.touched(), fetched);
    expect(&rt, "draws of page 0", parts.guest.touched(&draws), 97);
    parts.clear(&draws);
    expect(&rt, "each is drawn", parts.touched(), [false; 4]);
    expect(&rt, "a need", needed(&rt, parts.step(&rt)), first(1));
    parts.supply(&rt, alloc, 1);
    expect(&rt, "a supply", parts.touched(), [false; 4]);
    made(&rt, parts.step(&rt));
    let loaded = [true, true, false, false];
    expect(&rt, "a load", parts.touched(), loaded);
    parts.supply(&rt, alloc, 2);
    let read = parts.two_bytes(0x8000_2000);
    expect(&rt, "a debugger's read", read, (Ok(()), [0; 2]));
    expect(&rt, "marks nothing", parts.touched(), loaded);
    let write = write(&rt, alloc, 0x8000_2000);
    expect(&rt, "a debugger's write", parts.refusal(write), None);
    let written = [true, true, true, false];
    expect(&rt, "marks its page", parts.touched(), written);
    expect(
        &rt,
        "draws of marked pages",
        parts.guest.touched(&draws),
        99,
    );
    parts.clear(&[1; SAMPLE_SIZE]);
    let others = [true, false, true, false];
    expect(&rt, "page 1 alone is drawn", parts.touched(), others);
    parts.close();
}
