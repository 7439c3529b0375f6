//! Tiny programs over pages, and what else happens to a guest. An instruction is written as the word that the manual encodes
//! it to, with its text beside; what it leads to is worked out by hand.
ghost use Rattle.std.specs.Prelude.{◌≡◌, ◌<◌, length};
ghost use Rattle.word32.specs.Zeros.{zeros};
ghost use Rattle.guest_pages.specs.declared.page.PageKind.{PageKind};
ghost use Rattle.guest_pages.specs.Pages.{kind_at};
ghost use Rattle.guest_bus.specs.Buses.{IsSettled};

use crate::{GuestBus, InputError};
use frames::{Frame, Numbers, SlotTicket};
use guest_number::GuestNo;
use guest_pages::{PageKind, Returned};
use items::{DebugRegister, What, WriteBytes};
use machine::{PhysAddr, Reply, StepOut, Why};
use mips_cp0::Profile;
use mips_instr::Reg;
use mips_step::Cpu;
use sha2::{Digest, Sha256};
use sharetab::{GuestPage, Offer, Shares};
use std::alloc::{AllocError, Global};
use std::fmt::Debug;
use std::process::Abort;
use std::test::Fail;
use word32::Ppn;

/// Asserts one case. The tests share it, since each assertion in a function's own body makes its proof much longer.
fn expect<T: PartialEq + Debug + Drop>(rt: &impl Abort, case: &'static str, got: T, wanted: T) {
    assert!(rt; got == wanted, "{case}: {got:?}, not {wanted:?}");
}

/// The page of a number, which has to be there.
fn page(rt: &impl Abort, bus: &GuestBus, number: u32) -> Ppn
    ensures { result < length bus.now.pages }
{
    if number >= bus.pages() {
        panic!(rt; "there is no page {number}");
    }
    Ppn::new(number)
}

/// Nothing happens here, but that a page that waits ends the test.
fn settled(rt: &impl Abort, bus: &GuestBus)
    ensures { IsSettled bus.now }
{
    if bus.waiting().is_some() {
        panic!(rt; "a page waits");
    }
}

/// A frame of zeros.
fn zeroed(rt: &impl Abort, alloc: Global, numbers: &mut Numbers) -> Frame
    ensures { result.bytes ≡ zeros 4096 }
{
    let no = match numbers.next_frame() {
        Some(no) => no,
        None => panic!(rt; "no number is left"),
    };
    match Frame::zeroed(alloc, no) {
        Ok(frame) => frame,
        Err(no) => panic!(rt; "no memory for frame {}", no.close()),
    }
}

fn supply_zero(rt: &impl Abort, bus: &mut GuestBus, number: u32, frame: Frame)
    requires { frame.bytes ≡ zeros 4096 }
{
    settled(rt, bus);
    let p = page(rt, bus, number);
    match bus.kind(p) {
        PageKind::Zero | PageKind::Given => bus.supply_zero(p, frame),
        other => panic!(rt; "page {number} is {other:?}"),
    }
}

/// Puts a byte into a page that has a frame of its own.
fn put_byte(rt: &impl Abort, bus: &mut GuestBus, at: PhysAddr, byte: u8) {
    settled(rt, bus);
    let p = at.page();
    if p.number() >= bus.pages() {
        panic!(rt; "{at:?} lies past memory");
    }
    match bus.kind(p) {
        PageKind::Private => bus.fill(at, &[byte]),
        other => panic!(rt; "{at:?} is in a page that is {other:?}"),
    }
}

/// Puts a word into pages that have frames of their own.
fn put_word(rt: &impl Abort, bus: &mut GuestBus, at: u32, word: u32) {
    if at > 0xffff {
        panic!(rt; "{at} lies past memory");
    }
    let bytes = word.to_le_bytes();
    put_byte(rt, bus, PhysAddr::new(at), bytes[0]);
    put_byte(rt, bus, PhysAddr::new(at + 1), bytes[1]);
    put_byte(rt, bus, PhysAddr::new(at + 2), bytes[2]);
    put_byte(rt, bus, PhysAddr::new(at + 3), bytes[3]);
}

/// Page 0 gets a frame, and these words into it.
fn load(rt: &impl Abort, alloc: Global, bus: &mut GuestBus, numbers: &mut Numbers, words: &[u32]) {
    supply_zero(rt, bus, 0, zeroed(rt, alloc, numbers));
    for k in 0..words.len() {
        if k < 1024 {
            put_word(rt, bus, 4 * k as u32, words[k]);
        }
    }
}

fn step(rt: &impl Abort, cpu: &mut Cpu, bus: &mut GuestBus) -> StepOut {
    settled(rt, bus);
    cpu.step(bus)
}

fn steps(rt: &impl Abort, cpu: &mut Cpu, bus: &mut GuestBus, count: usize) {
    for _ in 0..count {
        expect(rt, "a step", step(rt, cpu, bus), StepOut::Done);
    }
}

fn needs(number: u32, why: Why) -> StepOut
    requires { number < 4 }
{
    StepOut::Need(Ppn::new(number), why)
}

fn reg(cpu: &Cpu, number: u32) -> u32
    requires { number < 32 }
{
    cpu.reg(Reg::new(number))
}

/// The kinds of the pages.
fn kinds(rt: &impl Abort, bus: &GuestBus) -> [PageKind; 4] {
    [
        bus.kind(page(rt, bus, 0)),
        bus.kind(page(rt, bus, 1)),
        bus.kind(page(rt, bus, 2)),
        bus.kind(page(rt, bus, 3)),
    ]
}

/// How many pages are private, shared, swapped and resident.
fn counts(bus: &GuestBus) -> [u32; 4] {
    [bus.private(), bus.shared(), bus.swapped(), bus.resident()]
}

/// The first byte of a page that is in a frame.
fn first_byte(rt: &impl Abort, bus: &GuestBus, number: u32) -> Option<u8> {
    match bus.peek_page(page(rt, bus, number)) {
        Some(bytes) => Some(bytes[0]),
        None => None,
    }
}

fn ended(rt: &impl Abort, mut numbers: Numbers) {
    match numbers.next_frame() {
        Some(no) => panic!(rt; "number {} is left", no.close()),
        None => numbers.close(),
    }
}

/// A load from page 1, and a store to it.
static LOAD_AND_STORE: [u32; 4] = [
    0x3c01_8000, // lui $1,0x8000
    0x2402_0005, // addiu $2,$0,5
    0x8c23_1000, // lw $3,0x1000($1)
    0xac22_1000, // sw $2,0x1000($1)
];

#[test]
fn a_page_is_supplied_before_its_first_load(rt: HostRuntime) -> Result<(), Fail> {
    let mut bus = GuestBus::new(rt.alloc(), 4)?;
    let mut numbers = Numbers::below(2);
    load(&rt, rt.alloc(), &mut bus, &mut numbers, &LOAD_AND_STORE);
    let mut cpu = Cpu::boot(Profile::One, 0x8000_0000);
    steps(&rt, &mut cpu, &mut bus, 2);
    let first = needs(1, Why::First);
    expect(&rt, "need", step(&rt, &mut cpu, &mut bus), first);
    let again = needs(1, Why::First);
    expect(&rt, "again", step(&rt, &mut cpu, &mut bus), again);
    expect(&rt, "no step", cpu.pc(), 0x8000_0008);
    let zero = [
        PageKind::Private,
        PageKind::Zero,
        PageKind::Zero,
        PageKind::Zero,
    ];
    expect(&rt, "nowhere yet", kinds(&rt, &bus), zero);
    supply_zero(&rt, &mut bus, 1, zeroed(&rt, rt.alloc(), &mut numbers));
    steps(&rt, &mut cpu, &mut bus, 2);
    expect(&rt, "zeros", reg(&cpu, 3), 0);
    expect(&rt, "stored", first_byte(&rt, &bus, 1), Some(5));
    expect(&rt, "two frames", counts(&bus), [2, 0, 0, 2]);
    bus.close();
    ended(&rt, numbers);
    Ok(())
}

/// The frame of a page becomes a shared one, once the table has no entry of its digest.
fn admit(rt: &impl Abort, bus: &mut GuestBus, number: u32, shares: &mut Shares) -> bool {
    settled(rt, bus);
    let p = page(rt, bus, number);
    let digest = match bus.peek_page(p) {
        Some(bytes) => Sha256::digest(bytes),
        None => panic!(rt; "page {number} is in no frame"),
    };
    let noted = GuestPage {
        guest: GuestNo::new(0),
        page: p,
    };
    match shares.offer(&digest, noted) {
        Ok(Offer::Taken) => panic!(rt; "page {number} has the bytes of an entry"),
        Ok(_) => {}
        Err(_) => return false,
    }
    match bus.kind(p) {
        PageKind::Private => {
            if !shares.is_vacant(bus.own_frame(p)) {
                panic!(rt; "the frame of page {number} is shared");
            }
            bus.admit(p, shares).is_ok()
        }
        other => panic!(rt; "page {number} is {other:?}"),
    }
}

/// A page reads the shared frame of its bytes from then on.
fn join(rt: &impl Abort, bus: &mut GuestBus, number: u32, shares: &mut Shares) -> Frame {
    settled(rt, bus);
    let p = page(rt, bus, number);
    let joined = match bus.peek_page(p) {
        Some(bytes) => shares.join(bytes),
        None => panic!(rt; "page {number} is in no frame"),
    };
    match (joined, bus.kind(p)) {
        (Ok(Some((share, ticket))), PageKind::Private) => bus.share(p, share, ticket),
        _ => panic!(rt; "page {number} has no frame to join"),
    }
}

fn supply_copy(rt: &impl Abort, bus: &mut GuestBus, number: u32, frame: Frame) -> u32 {
    settled(rt, bus);
    let p = page(rt, bus, number);
    match bus.kind(p) {
        PageKind::Shared => bus.supply_copy(p, frame).close(),
        other => panic!(rt; "page {number} is {other:?}"),
    }
}

fn shared_number(rt: &impl Abort, bus: &GuestBus, number: u32) -> u32 {
    let p = page(rt, bus, number);
    match bus.kind(p) {
        PageKind::Shared => bus.shared_frame(p),
        other => panic!(rt; "page {number} is {other:?}"),
    }
}

/// Pages 1 and 2 share a frame with a 7 in it.
fn share_two(
    rt: &impl Abort,
    alloc: Global,
    bus: &mut GuestBus,
    numbers: &mut Numbers,
    shares: &mut Shares,
) {
    supply_zero(rt, bus, 1, zeroed(rt, alloc, numbers));
    supply_zero(rt, bus, 2, zeroed(rt, alloc, numbers));
    put_word(rt, bus, 0x1000, 7);
    put_word(rt, bus, 0x2000, 7);
    expect(rt, "admitted", admit(rt, bus, 1, shares), true);
    expect(rt, "no longer its own", join(rt, bus, 2, shares).close(), 2);
}

#[test]
fn a_shared_page_is_copied_before_a_store(rt: HostRuntime) -> Result<(), Fail> {
    let mut shares = Shares::new(rt.alloc(), 4)?;
    let mut bus = match GuestBus::new(rt.alloc(), 4) {
        Ok(bus) => bus,
        Err(refused) => {
            shares.close();
            return Err(refused.into());
        }
    };
    let mut numbers = Numbers::below(4);
    load(&rt, rt.alloc(), &mut bus, &mut numbers, &LOAD_AND_STORE);
    share_two(&rt, rt.alloc(), &mut bus, &mut numbers, &mut shares);
    let mut cpu = Cpu::boot(Profile::One, 0x8000_0000);
    steps(&rt, &mut cpu, &mut bus, 3);
    expect(&rt, "loaded", reg(&cpu, 3), 7);
    let copy = needs(1, Why::Copy);
    expect(&rt, "need", step(&rt, &mut cpu, &mut bus), copy);
    expect(&rt, "no store", first_byte(&rt, &bus, 1), Some(7));
    expect(&rt, "whose frame", shared_number(&rt, &bus, 2), 1);
    expect(&rt, "one frame each", counts(&bus), [1, 2, 0, 3]);
    let frame = zeroed(&rt, rt.alloc(), &mut numbers);
    expect(&rt, "ticket", supply_copy(&rt, &mut bus, 1, frame), 1);
    steps(&rt, &mut cpu, &mut bus, 1);
    expect(&rt, "stored", first_byte(&rt, &bus, 1), Some(5));
    expect(&rt, "the other page", first_byte(&rt, &bus, 2), Some(7));
    bus.close();
    shares.close();
    ended(&rt, numbers);
    Ok(())
}

/// It gives page 1 to the balloon and loads from it.
static GIVE: [u32; 5] = [
    0x3c01_bf00, // lui $1,0xbf00
    0x2402_0001, // addiu $2,$0,1
    0xac22_0018, // sw $2,24($1): BAL_GIVE
    0x3c03_8000, // lui $3,0x8000
    0x8c64_1000, // lw $4,0x1000($3)
];

fn returned_frame(rt: &impl Abort, returned: Returned) -> Frame {
    match returned {
        Returned::Frame(frame) => frame,
        other => {
            other.close();
            panic!(rt; "no frame came back")
        }
    }
}

fn nothing(rt: &impl Abort, returned: Returned) {
    match returned {
        Returned::Nothing => {}
        other => {
            other.close();
            panic!(rt; "something came back")
        }
    }
}

#[test]
fn a_given_page_leaves_its_frame(rt: HostRuntime) -> Result<(), Fail> {
    let mut bus = GuestBus::new(rt.alloc(), 4)?;
    let mut numbers = Numbers::below(3);
    load(&rt, rt.alloc(), &mut bus, &mut numbers, &GIVE);
    supply_zero(&rt, &mut bus, 1, zeroed(&rt, rt.alloc(), &mut numbers));
    put_word(&rt, &mut bus, 0x1000, 7);
    let mut cpu = Cpu::boot(Profile::One, 0x8000_0000);
    nothing(&rt, bus.settle());
    steps(&rt, &mut cpu, &mut bus, 3);
    expect(&rt, "waits", bus.waiting(), Some(Ppn::new(1)));
    let frame = returned_frame(&rt, bus.settle());
    expect(&rt, "its frame", (frame.number(), frame.bytes()[0]), (1, 7));
    frame.close();
    expect(&rt, "settled", bus.waiting(), None);
    nothing(&rt, bus.settle());
    expect(&rt, "given", kinds(&rt, &bus)[1], PageKind::Given);
    steps(&rt, &mut cpu, &mut bus, 1);
    let first = needs(1, Why::First);
    expect(&rt, "need", step(&rt, &mut cpu, &mut bus), first);
    supply_zero(&rt, &mut bus, 1, zeroed(&rt, rt.alloc(), &mut numbers));
    expect(&rt, "still given", bus.devices().given(), 1);
    steps(&rt, &mut cpu, &mut bus, 1);
    expect(&rt, "zeros", reg(&cpu, 4), 0);
    expect(&rt, "taken", bus.devices().given(), 0);
    bus.close();
    ended(&rt, numbers);
    Ok(())
}

fn slot_ticket(rt: &impl Abort, numbers: &mut Numbers) -> SlotTicket {
    match numbers.next_slot() {
        Some(slot) => slot,
        None => panic!(rt; "no number is left"),
    }
}

fn swap_out(rt: &impl Abort, bus: &mut GuestBus, number: u32, slot: SlotTicket) -> Returned {
    settled(rt, bus);
    let p = page(rt, bus, number);
    match bus.peek_page(p) {
        Some(bytes) => {
            let digest = Sha256::digest(bytes);
            bus.swap_out(p, slot, digest)
        }
        None => panic!(rt; "page {number} is in no frame"),
    }
}

fn supply_swapped(rt: &impl Abort, bus: &mut GuestBus, number: u32, frame: Frame) -> u32 {
    settled(rt, bus);
    let p = page(rt, bus, number);
    match bus.kind(p) {
        PageKind::Swapped => {
            let (slot, digest) = bus.away(p);
            if Sha256::digest(frame.bytes()) == digest {
                bus.supply_swapped(p, frame).close()
            } else {
                panic!(rt; "slot {slot} has other bytes")
            }
        }
        other => panic!(rt; "page {number} is {other:?}"),
    }
}

#[test]
fn a_swapped_page_comes_back_with_its_bytes(rt: HostRuntime) -> Result<(), Fail> {
    let mut bus = GuestBus::new(rt.alloc(), 4)?;
    let mut numbers = Numbers::below(3);
    load(&rt, rt.alloc(), &mut bus, &mut numbers, &LOAD_AND_STORE);
    supply_zero(&rt, &mut bus, 1, zeroed(&rt, rt.alloc(), &mut numbers));
    put_word(&rt, &mut bus, 0x1000, 7);
    let slot = slot_ticket(&rt, &mut numbers);
    let frame = returned_frame(&rt, swap_out(&rt, &mut bus, 1, slot));
    expect(&rt, "one in a slot", counts(&bus), [1, 0, 1, 1]);
    let mut cpu = Cpu::boot(Profile::One, 0x8000_0000);
    steps(&rt, &mut cpu, &mut bus, 2);
    let swapped = needs(1, Why::Swapped);
    expect(&rt, "need", step(&rt, &mut cpu, &mut bus), swapped);
    expect(&rt, "slot", supply_swapped(&rt, &mut bus, 1, frame), 2);
    steps(&rt, &mut cpu, &mut bus, 1);
    expect(&rt, "its word", reg(&cpu, 3), 7);
    bus.close();
    ended(&rt, numbers);
    Ok(())
}

/// What an error says.
fn text_of(error: InputError) -> &'static str {
    match error {
        InputError::Machine => "the machine refuses it",
        InputError::Memory => "no memory",
        InputError::Away(page) => if page.number() == 1 {
            "page 1 is away"
        } else {
            "another page is away"
        },
    }
}

/// What a machine answers to what happens.
fn answer(rt: &impl Abort, cpu: &mut Cpu, bus: &mut GuestBus, what: &What) -> &'static str {
    settled(rt, bus);
    match what {
        What::Step => "no input",
        other => match bus.input(cpu, other).err() {
            None => "done",
            Some(error) => text_of(error),
        },
    }
}

fn write<R: AllocGlobal + Abort>(rt: &R, address: u32, bytes: &[u8]) -> Result<What, AllocError> {
    assert!(rt; bytes.len() <= 65535);
    Ok(What::Write {
        address,
        bytes: WriteBytes::from_vec(bytes.to_vec(rt.alloc())?),
    })
}

/// Each kind of input, and why it is refused.
fn all_inputs<R: AllocGlobal + Abort>(
    rt: &R,
    cpu: &mut Cpu,
    bus: &mut GuestBus,
) -> Result<(), AllocError> {
    expect(rt, "target", answer(rt, cpu, bus, &What::Target(3)), "done");
    expect(rt, "its target", bus.devices().target(), 3);
    let poke = What::Poke {
        register: DebugRegister::new(5),
        value: 9,
    };
    expect(rt, "poke", answer(rt, cpu, bus, &poke), "done");
    expect(rt, "poked", reg(cpu, 5), 9);
    let here = write(rt, 0x8000_0ffc, &[1, 2, 3, 4])?;
    expect(rt, "write", answer(rt, cpu, bus, &here), "done");
    let over = write(rt, 0x8000_0ffc, &[5, 6, 7, 8, 9])?;
    let away = "page 1 is away";
    expect(rt, "over its end", answer(rt, cpu, bus, &over), away);
    let past = write(rt, 0x8000_3fff, &[1, 2])?;
    let refused = "the machine refuses it";
    expect(rt, "past the end", answer(rt, cpu, bus, &past), refused);
    for _ in 0..256u32 {
        expect(rt, "in", answer(rt, cpu, bus, &What::In(7)), "done");
    }
    expect(rt, "full", answer(rt, cpu, bus, &What::In(7)), refused);
    Ok(())
}

fn drained(rt: &impl Abort, cpu: &mut Cpu, bus: &mut GuestBus) -> Option<usize> {
    settled(rt, bus);
    match bus.input(cpu, &What::Drain) {
        Ok(Reply::Output(bytes)) => Some(bytes.len()),
        _ => None,
    }
}

#[test]
fn what_happens_beside_steps(rt: HostRuntime) -> Result<(), Fail> {
    // lui $1,0xbf00 and sw $2,8($1): CON_OUT
    let words = [0x3c01_bf00, 0xac22_0008];
    let mut bus = GuestBus::new(rt.alloc(), 4)?;
    let mut numbers = Numbers::below(1);
    load(&rt, rt.alloc(), &mut bus, &mut numbers, &words);
    let mut cpu = Cpu::boot(Profile::One, 0x8000_0000);
    steps(&rt, &mut cpu, &mut bus, 2);
    let count = drained(&rt, &mut cpu, &mut bus);
    let inputs = all_inputs(&rt, &mut cpu, &mut bus);
    bus.close();
    ended(&rt, numbers);
    inputs?;
    match count {
        Some(count) => {
            expect(&rt, "output", count, 1);
            Ok(())
        }
        None => Err(Fail::from("a Drain that replies no output")),
    }
}
