//! Programs that use the devices, and what happens to a machine from outside. An instruction is written as the word that
//! the manual encodes it to, with its text beside; what it leads to is worked out by hand.
ghost use Rattle.std.specs.Prelude.{◌<◌};

use crate::{Flat, FlatBus};
use elf32::Image;
use items::{DebugRegister, What, WriteBytes};
use machine::{Rejection, Reply, StepOut};
use mips_cp0::Profile;
use mips_instr::Reg;
use mips_step::{Cpu, debug};
use std::fmt::Debug;
use std::process::Abort;
use std::test::Fail;

/// How many pages each machine has: its memory ends at 80010000.
const PAGES: u32 = 16;

/// Asserts one case. The tests share it, since each assertion in a function's own body makes its proof much longer.
fn expect<C: Debug + Drop, T: PartialEq + Debug + Drop>(
    rt: &impl Abort,
    case: C,
    got: T,
    wanted: T,
) {
    assert!(rt; got == wanted, "{case:?}: {got:?}, not {wanted:?}");
}

/// The image of these words, which stands and is entered at 80000000.
fn image_of<R: AllocGlobal + Abort>(rt: &R, words: &[u32]) -> Result<Image, Fail> {
    let mut bytes = Vec::new(rt.alloc());
    for word in words {
        bytes.extend_from_slice(&word.to_le_bytes())?;
    }
    assert!(rt; bytes.len() < 1 << 32);
    Ok(Image::raw(rt.alloc(), bytes)?)
}

/// The machine that these words boot, with `PAGES` pages.
fn boot<R: AllocGlobal + Abort>(rt: &R, words: &[u32]) -> Result<Flat, Fail> {
    let image = image_of(rt, words)?;
    assert!(rt; image.fits(PAGES));
    Ok(Flat::boot(rt.alloc(), Profile::One, &image, PAGES)?)
}

/// The memory and the devices that these words boot, apart from the processor.
fn boot_bus<R: AllocGlobal + Abort>(rt: &R, words: &[u32]) -> Result<FlatBus, Fail> {
    let image = image_of(rt, words)?;
    assert!(rt; image.fits(PAGES));
    Ok(FlatBus::boot(rt.alloc(), &image, PAGES)?)
}

/// Why the machine refuses what happens.
fn rejection(flat: &mut Flat, what: &What) -> Option<Rejection> {
    flat.input(what).err()
}

fn accept(rt: &impl Abort, flat: &mut Flat, what: &What) {
    expect(rt, what, rejection(flat, what), None);
}

fn poke(number: u8, value: u32) -> What
    requires { number < 38 }
{
    What::Poke {
        register: DebugRegister::new(number),
        value,
    }
}

fn write<R: AllocGlobal + Abort>(rt: &R, address: u32, bytes: &[u8]) -> Result<What, Fail> {
    assert!(rt; bytes.len() <= 65535);
    Ok(What::Write {
        address,
        bytes: WriteBytes::from_vec(bytes.to_vec(rt.alloc())?),
    })
}

fn drain(flat: &mut Flat) -> Result<Vec<u8>, Fail> {
    match flat.input(&What::Drain) {
        Ok(Reply::Output(bytes)) => Ok(bytes),
        _ => Err(Fail::from("a Drain that replies no output")),
    }
}

fn make_steps(flat: &mut Flat, count: usize) {
    for _ in 0..count {
        flat.step();
    }
}

fn reg(flat: &Flat, number: u32) -> u32
    requires { number < 32 }
{
    flat.view().cpu.reg(Reg::new(number))
}

#[test]
fn input_has_room_for_256_bytes(rt: HostRuntime) -> Result<(), Fail> {
    // lui $1,0xbf00 and lw $3,4($1)
    let mut flat = boot(&rt, &[0x3c01_bf00, 0x8c23_0004])?;
    for k in 0..256u32 {
        accept(&rt, &mut flat, &What::In((255 - k) as u8));
    }
    let full = Some(Rejection::Machine);
    expect(
        &rt,
        "the 257th byte",
        rejection(&mut flat, &What::In(7)),
        full,
    );
    expect(&rt, "and again", rejection(&mut flat, &What::In(7)), full);
    make_steps(&mut flat, 2);
    expect(&rt, "the oldest byte", reg(&flat, 3), 255);
    accept(&rt, &mut flat, &What::In(7));
    expect(&rt, "full again", rejection(&mut flat, &What::In(7)), full);
    Ok(())
}

#[test]
fn input_is_echoed(rt: HostRuntime) -> Result<(), Fail> {
    // lui $1,0xbf00, and twice lw $3,4($1) and sw $3,8($1)
    let code = [
        0x3c01_bf00,
        0x8c23_0004,
        0xac23_0008,
        0x8c23_0004,
        0xac23_0008,
    ];
    let mut flat = boot(&rt, &code)?;
    accept(&rt, &mut flat, &What::In(0x61));
    accept(&rt, &mut flat, &What::In(0x62));
    make_steps(&mut flat, 5);
    expect(&rt, "register 3", reg(&flat, 3), 0x62);
    let output = drain(&mut flat)?;
    expect(&rt, "output", output.as_slice(), [0x61, 0x62].as_slice());
    let none = drain(&mut flat)?;
    expect(&rt, "no output is left", none.len(), 0);
    Ok(())
}

/// It writes 0, 1, 2 and so on to CON_OUT, one in three instructions. Behind it stands a load of CON_STAT.
static COUNTING: [u32; 5] = [
    0x3c01_bf00, // lui $1,0xbf00
    0xac22_0008, // sw $2,8($1)
    0x1000_fffe, // beq $0,$0,-2: to the store
    0x2442_0001, // addiu $2,$2,1
    0x8c23_0000, // lw $3,0($1)
];

/// Whether byte k is k modulo 256.
fn is_counting(bytes: &[u8]) -> bool {
    for k in 0..bytes.len() {
        if bytes[k] != (k % 256) as u8 {
            return false;
        }
    }
    true
}

/// What CON_STAT shows.
fn console_status(rt: &impl Abort, flat: &mut Flat) -> u32 {
    accept(rt, flat, &poke(37, 0x8000_0010));
    flat.step();
    reg(flat, 3)
}

#[test]
fn output_has_room_for_4096_bytes(rt: HostRuntime) -> Result<(), Fail> {
    let mut flat = boot(&rt, &COUNTING)?;
    // store k, from 0 on, is step 3 * k + 2: store 4096, of another 0, is the last of these
    make_steps(&mut flat, 12290);
    expect(&rt, "full, no input", console_status(&rt, &mut flat), 0);
    let output = drain(&mut flat)?;
    expect(&rt, "count", output.len(), 4096);
    expect(&rt, "bytes", is_counting(&output), true);
    expect(&rt, "room again", console_status(&rt, &mut flat), 2);
    Ok(())
}

/// It gives page 7, reads it, gives page 16, which there isn't, and gives page 7 again and takes it.
static BALLOON: [u32; 15] = [
    0x3c01_bf00, // lui $1,0xbf00
    0x2402_0007, // addiu $2,$0,7
    0xac22_0018, // sw $2,24($1): BAL_GIVE
    0x8c25_0014, // lw $5,20($1): BAL_COUNT
    0x3c06_8000, // lui $6,0x8000
    0x34c6_7000, // ori $6,$6,0x7000
    0x8cc7_0000, // lw $7,0($6)
    0x8c28_0014, // lw $8,20($1)
    0x2403_0010, // addiu $3,$0,16
    0xac23_0018, // sw $3,24($1)
    0x8c29_0014, // lw $9,20($1)
    0xac22_0018, // sw $2,24($1)
    0x8c2a_0014, // lw $10,20($1)
    0xac22_001c, // sw $2,28($1): BAL_TAKE
    0x8c2b_0014, // lw $11,20($1)
];

fn make_bus_steps(rt: &impl Abort, cpu: &mut Cpu, bus: &mut FlatBus, count: usize) {
    for _ in 0..count {
        assert!(rt; cpu.step(bus) == StepOut::Done);
    }
}

/// Why a write of so many bytes AA is refused.
fn write_aa<R: AllocGlobal + Abort>(
    rt: &R,
    cpu: &mut Cpu,
    bus: &mut FlatBus,
    address: u32,
    count: usize,
) -> Result<Option<Rejection>, Fail> {
    let bytes = vec![in rt.alloc(); 0xaa; count]?;
    assert!(rt; bytes.len() <= 65535);
    let what = What::Write {
        address,
        bytes: WriteBytes::from_vec(bytes),
    };
    Ok(bus.input(cpu, &what).err())
}

fn read_word(rt: &impl Abort, cpu: &Cpu, bus: &FlatBus, address: u32) -> u32 {
    let mut bytes = [0; 4];
    assert!(rt; debug::read(cpu, bus, address, &mut bytes).is_ok());
    u32::from_le_bytes(bytes)
}

/// The last word before page 7, its first and its last word, and the first after it.
fn around_page_7(rt: &impl Abort, cpu: &Cpu, bus: &FlatBus) -> [u32; 4] {
    [
        read_word(rt, cpu, bus, 0x8000_6ffc),
        read_word(rt, cpu, bus, 0x8000_7000),
        read_word(rt, cpu, bus, 0x8000_7ffc),
        read_word(rt, cpu, bus, 0x8000_8000),
    ]
}

/// Bytes AA on both sides of the page's ends.
fn fill_around_page_7<R: AllocGlobal + Abort>(
    rt: &R,
    cpu: &mut Cpu,
    bus: &mut FlatBus,
) -> Result<(), Fail> {
    expect(rt, "start", write_aa(rt, cpu, bus, 0x8000_6ffc, 8)?, None);
    expect(rt, "end", write_aa(rt, cpu, bus, 0x8000_7ffc, 8)?, None);
    Ok(())
}

/// What the program loads, in its order, once its end is reached: registers 5, 7, 8, 9, 10 and 11.
fn loaded(cpu: &Cpu) -> [u32; 6] {
    [
        cpu.reg(Reg::new(5)),
        cpu.reg(Reg::new(7)),
        cpu.reg(Reg::new(8)),
        cpu.reg(Reg::new(9)),
        cpu.reg(Reg::new(10)),
        cpu.reg(Reg::new(11)),
    ]
}

#[test]
fn given_pages_are_cleared(rt: HostRuntime) -> Result<(), Fail> {
    let mut bus = boot_bus(&rt, &BALLOON)?;
    let mut cpu = Cpu::boot(Profile::One, 0x8000_0000);
    fill_around_page_7(&rt, &mut cpu, &mut bus)?;
    let filled = [0xaaaa_aaaa; 4];
    expect(&rt, "before", around_page_7(&rt, &cpu, &bus), filled);
    make_bus_steps(&rt, &mut cpu, &mut bus, 3);
    let cleared = [0xaaaa_aaaa, 0, 0, 0xaaaa_aaaa];
    expect(&rt, "given", around_page_7(&rt, &cpu, &bus), cleared);
    // a debugger that looks leaves it given
    expect(&rt, "count", bus.devices().given(), 1);
    make_bus_steps(&rt, &mut cpu, &mut bus, 12);
    expect(&rt, "loaded", loaded(&cpu), [1, 0, 0, 0, 1, 0]);
    expect(&rt, "taken", around_page_7(&rt, &cpu, &bus), cleared);
    Ok(())
}

#[test]
fn a_write_takes_a_given_page_back(rt: HostRuntime) -> Result<(), Fail> {
    let mut bus = boot_bus(&rt, &BALLOON)?;
    let mut cpu = Cpu::boot(Profile::One, 0x8000_0000);
    make_bus_steps(&rt, &mut cpu, &mut bus, 3);
    expect(&rt, "given", bus.devices().given(), 1);
    let refused = write_aa(&rt, &mut cpu, &mut bus, 0x8000_7ffc, 4)?;
    expect(&rt, "write", refused, None);
    expect(&rt, "taken", bus.devices().given(), 0);
    let words = around_page_7(&rt, &cpu, &bus);
    expect(&rt, "written", words, [0, 0, 0xaaaa_aaaa, 0]);
    Ok(())
}

/// Writes, in order: the address, how many bytes, whether it is refused, and the last word of memory after it.
static WRITES: [(u32, usize, bool, u32); 8] = [
    // 1,024 bytes at most
    (0x8000_1000, 1024, false, 0),
    (0x8000_1000, 1025, true, 0),
    // over the end of memory, and up to it
    (0x8000_fffe, 3, true, 0),
    (0x8000_fffe, 2, false, 0xaaaa_0000),
    // past it
    (0x8001_0000, 1, true, 0xaaaa_0000),
    // no byte has a place anywhere
    (0x8001_0000, 0, false, 0xaaaa_0000),
    // kseg3 and kuseg, where no entry maps a page
    (0xffff_fffe, 4, true, 0xaaaa_0000),
    (0x0000_0000, 1, true, 0xaaaa_0000),
];

#[test]
fn writes_have_a_place_and_a_limit(rt: HostRuntime) -> Result<(), Fail> {
    let mut bus = boot_bus(&rt, &[])?;
    let mut cpu = Cpu::boot(Profile::One, 0x8000_0000);
    for row in &WRITES {
        let (address, count, is_refused, last) = *row;
        let refused = write_aa(&rt, &mut cpu, &mut bus, address, count)?.is_some();
        let got = (refused, read_word(&rt, &cpu, &bus, 0x8000_fffc));
        expect(&rt, (address, count), got, (is_refused, last));
    }
    Ok(())
}

/// It writes an entry of the TLB from registers: EntryHi, EntryLo0, EntryLo1 and Index.
static TLB_WRITE: [u32; 5] = [
    0x4081_5000, // mtc0 $1,EntryHi
    0x4082_1000, // mtc0 $2,EntryLo0
    0x4083_1800, // mtc0 $3,EntryLo1
    0x4084_0000, // mtc0 $4,Index
    0x4200_0002, // tlbwi
];

fn map(rt: &impl Abort, flat: &mut Flat, entry: [u32; 4]) {
    accept(rt, flat, &poke(37, 0x8000_0000));
    accept(rt, flat, &poke(1, entry[0]));
    accept(rt, flat, &poke(2, entry[1]));
    accept(rt, flat, &poke(3, entry[2]));
    accept(rt, flat, &poke(4, entry[3]));
    make_steps(flat, 5);
}

#[test]
fn a_write_goes_on_at_address_0(rt: HostRuntime) -> Result<(), Fail> {
    let mut flat = boot(&rt, &TLB_WRITE)?;
    // the last page of addresses is page 3, the first is page 4; valid, and not to be written by the program
    map(&rt, &mut flat, [0xffff_e000, 0, 3 << 6 | 2, 0]);
    map(&rt, &mut flat, [0, 4 << 6 | 2, 0, 1]);
    accept(&rt, &mut flat, &write(&rt, 0xffff_fffe, &[1, 2, 3, 4])?);
    // lhu $5,0x3ffe($6) and lhu $6,0x4000($6), with register 6 80000000
    accept(&rt, &mut flat, &poke(6, 0x8000_0000));
    accept(&rt, &mut flat, &poke(37, 0x8000_0000));
    let loads = [0xfe, 0x3f, 0xc5, 0x94, 0x00, 0x40, 0xc6, 0x94];
    accept(&rt, &mut flat, &write(&rt, 0x8000_0000, &loads)?);
    make_steps(&mut flat, 2);
    let halves = (reg(&flat, 5), reg(&flat, 6));
    expect(&rt, "both ends", halves, (0x0201, 0x0403));
    Ok(())
}

/// The devices' registers, from bf000000.
static OFFSETS: [u32; 7] = [0x00, 0x04, 0x08, 0x10, 0x14, 0x18, 0x1c];

/// A machine with a byte of input, a target of 5, and register 1 at the devices' registers.
fn boot_with_devices<R: AllocGlobal + Abort>(rt: &R) -> Result<Flat, Fail> {
    let mut flat = boot(rt, &[])?;
    accept(rt, &mut flat, &What::In(0x61));
    accept(rt, &mut flat, &What::Target(5));
    accept(rt, &mut flat, &poke(1, 0xbf00_0000));
    Ok(flat)
}

/// Steps from an address, with interrupts disabled and no exception before.
fn step_at(rt: &impl Abort, flat: &mut Flat, address: u32) {
    accept(rt, flat, &poke(32, 0));
    accept(rt, flat, &poke(37, address));
    accept(rt, flat, &What::Step);
}

/// Makes one instruction, at 80002000.
fn run_word<R: AllocGlobal + Abort>(rt: &R, flat: &mut Flat, word: u32) -> Result<(), Fail> {
    accept(rt, flat, &write(rt, 0x8000_2000, &word.to_le_bytes())?);
    step_at(rt, flat, 0x8000_2000);
    Ok(())
}

/// PC, Cause and EPC.
fn control(flat: &Flat) -> (u32, u32, u32) {
    let cpu = flat.view().cpu;
    (cpu.pc(), cpu.cp0().cause(), cpu.cp0().epc())
}

/// How many bytes of output wait, how many pages are given, the target.
fn devices(flat: &Flat) -> (usize, u32, u32) {
    let devices = flat.view().devices;
    (devices.output_len(), devices.given(), devices.target())
}

/// Loads and stores of a part of a word, of register 3 with base register 1.
static NARROW: [u32; 10] = [
    0x8023_0000, // lb
    0x8423_0000, // lh
    0x8823_0000, // lwl
    0x9023_0000, // lbu
    0x9423_0000, // lhu
    0x9823_0000, // lwr
    0xa023_0000, // sb
    0xa423_0000, // sh
    0xa823_0000, // swl
    0xb823_0000, // swr
];

/// Each of them at one register: a bus error of data, ExcCode 7.
fn check_narrow<R: AllocGlobal + Abort>(rt: &R, flat: &mut Flat, offset: u32) -> Result<(), Fail> {
    for word in &NARROW {
        run_word(rt, flat, *word | offset)?;
        let got = control(flat);
        expect(rt, (word, offset), got, (0x8000_0180, 7 << 2, 0x8000_2000));
    }
    Ok(())
}

#[test]
fn device_registers_answer_words_alone(rt: HostRuntime) -> Result<(), Fail> {
    let mut flat = boot_with_devices(&rt)?;
    for offset in OFFSETS {
        check_narrow(&rt, &mut flat, offset)?;
    }
    for offset in OFFSETS {
        // a fetch: a bus error of instructions, ExcCode 6
        step_at(&rt, &mut flat, 0xbf00_0000 + offset);
        let wanted = (0x8000_0180, 6 << 2, 0xbf00_0000 + offset);
        expect(&rt, offset, control(&flat), wanted);
    }
    expect(&rt, "devices", devices(&flat), (0, 0, 5));
    // lw $3,4($1): the byte is still there
    run_word(&rt, &mut flat, 0x8c23_0004)?;
    expect(&rt, "input", reg(&flat, 3), 0x61);
    Ok(())
}

/// What each register loads with no input, room for output, a target of 5 and no page given.
static LOADS: [(u32, u32); 7] = [
    (0x00, 2),
    (0x04, 0xffff_ffff),
    (0x08, 0),
    (0x10, 5),
    (0x14, 0),
    (0x18, 0),
    (0x1c, 0),
];

#[test]
fn device_registers_load(rt: HostRuntime) -> Result<(), Fail> {
    let mut flat = boot_with_devices(&rt)?;
    // lw $3,0($1): input waits, output has room
    run_word(&rt, &mut flat, 0x8c23_0000)?;
    expect(&rt, "status", reg(&flat, 3), 3);
    run_word(&rt, &mut flat, 0x8c23_0004)?;
    for row in &LOADS {
        let (offset, value) = *row;
        accept(&rt, &mut flat, &poke(3, 0x55));
        run_word(&rt, &mut flat, 0x8c23_0000 | offset)?;
        expect(&rt, offset, reg(&flat, 3), value);
    }
    Ok(())
}

/// Values that are stored, in order: page numbers, and numbers of no page.
static VALUES: [u32; 6] = [0, 1, PAGES - 1, PAGES, 0x8000_0000, 0xffff_ffff];

/// Registers, in order, each with how many pages are given after each value is stored, and whether the values are output.
static STORES: [(u32, [u32; 6], bool); 7] = [
    (0x00, [0; 6], false),
    (0x04, [0; 6], false),
    (0x08, [0; 6], true),
    (0x10, [0; 6], false),
    (0x14, [0; 6], false),
    (0x18, [1, 2, 3, 3, 3, 3], false),
    (0x1c, [2, 1, 0, 0, 0, 0], false),
];

/// `sw $2,offset($1)` of each value.
fn check_stores<R: AllocGlobal + Abort>(
    rt: &R,
    flat: &mut Flat,
    offset: u32,
    given: &[u32; 6],
) -> Result<(), Fail> {
    for k in 0..6 {
        accept(rt, flat, &poke(2, VALUES[k]));
        run_word(rt, flat, 0xac22_0000 | offset)?;
        let (_, count, target) = devices(flat);
        expect(rt, (offset, k), (count, target), (given[k], 5));
    }
    Ok(())
}

#[test]
fn device_registers_store(rt: HostRuntime) -> Result<(), Fail> {
    let mut flat = boot_with_devices(&rt)?;
    for row in &STORES {
        let (offset, given, is_output) = *row;
        check_stores(&rt, &mut flat, offset, &given)?;
        // the lowest byte of each value
        let bytes = [0, 1, 15, 16, 0, 255];
        let wanted = if is_output {
            bytes.as_slice()
        } else {
            [].as_slice()
        };
        let output = drain(&mut flat)?;
        expect(&rt, offset, output.as_slice(), wanted);
    }
    run_word(&rt, &mut flat, 0x8c23_0004)?;
    expect(&rt, "input", reg(&flat, 3), 0x61);
    Ok(())
}

/// `beq $0,$0,1` and `addiu $2,$0,1` in its delay slot.
static BRANCH: [u32; 2] = [0x1000_0001, 0x2402_0001];

/// The handler's first instruction, `mfc0 $4,Cause`.
static HANDLER: [u8; 4] = [0x00, 0x68, 0x04, 0x40];

/// Whether input raises IP2, or a target IP3; the steps before that; Status; and then whether an interrupt is taken, EPC
/// and what Cause shows.
static INTERRUPTS: [(bool, usize, u32, bool, u32, u32); 8] = [
    (true, 0, 0x0401, true, 0x8000_0000, 0x0000_0400),
    (true, 1, 0x0401, true, 0x8000_0000, 0x8000_0400),
    (false, 0, 0x0801, true, 0x8000_0000, 0x0000_0800),
    (false, 1, 0x0801, true, 0x8000_0000, 0x8000_0800),
    // the other mask, and none enabled
    (true, 0, 0x0801, false, 0, 0),
    (false, 0, 0x0401, false, 0, 0),
    (true, 0, 0x0c00, false, 0, 0),
    (false, 1, 0x0c00, false, 0, 0),
];

/// A machine whose device raises its line after some steps, one step later.
fn interrupted<R: AllocGlobal + Abort>(
    rt: &R,
    is_input: bool,
    steps: usize,
    status: u32,
) -> Result<Flat, Fail> {
    let mut flat = boot(rt, &BRANCH)?;
    accept(rt, &mut flat, &write(rt, 0x8000_0180, &HANDLER)?);
    accept(rt, &mut flat, &poke(32, status));
    make_steps(&mut flat, steps);
    let what = if is_input {
        What::In(0x61)
    } else {
        What::Target(1)
    };
    accept(rt, &mut flat, &what);
    flat.step();
    Ok(flat)
}

/// The interrupt is taken before the instruction: its result is not there.
fn check_taken(rt: &impl Abort, flat: &mut Flat, epc: u32, cause: u32) {
    let (pc, _, got) = control(flat);
    expect(rt, (cause, "pc, epc"), (pc, got), (0x8000_0180, epc));
    expect(rt, (cause, "register 2"), reg(flat, 2), 0);
    flat.step();
    expect(rt, (cause, "cause"), reg(flat, 4), cause);
}

#[test]
fn devices_interrupt(rt: HostRuntime) -> Result<(), Fail> {
    for row in &INTERRUPTS {
        let (is_input, steps, status, is_taken, epc, cause) = *row;
        let mut flat = interrupted(&rt, is_input, steps, status)?;
        if is_taken {
            check_taken(&rt, &mut flat, epc, cause);
        } else {
            // after the branch its delay slot is next, and after that its target, 80000008
            let pc = if steps == 0 { 0x8000_0004 } else { 0x8000_0008 };
            expect(&rt, (is_input, status), control(&flat), (pc, 0, 0));
        }
    }
    Ok(())
}

/// Registers that a debugger writes, in the order of their numbers.
fn written_registers(cpu: &Cpu) -> [u32; 9] {
    let cp0 = cpu.cp0();
    [
        cpu.reg(Reg::new(0)),
        cpu.reg(Reg::new(5)),
        cpu.reg(Reg::new(31)),
        cp0.status(),
        cpu.lo(),
        cpu.hi(),
        cp0.bad_vaddr(),
        cp0.cause(),
        cpu.pc(),
    ]
}

/// A value for each of those registers, and what it then has: register 0 and BadVAddr stay, and Status and Cause have the
/// bits that MTC0 writes (CU0, BEV, IM7 to IM0, UM, ERL, EXL, IE; IV, IP1, IP0).
static POKES: [(u8, u32, u32); 9] = [
    (0, 0xffff_ffff, 0),
    (5, 0xffff_ffff, 0xffff_ffff),
    (31, 0x1234_5678, 0x1234_5678),
    (32, 0xffff_ffff, 0x1040_ff17),
    (33, 0x0000_0033, 0x0000_0033),
    (34, 0x0000_0034, 0x0000_0034),
    (35, 0xffff_ffff, 0),
    (36, 0xffff_ffff, 0x0080_0300),
    (37, 0x8000_0100, 0x8000_0100),
];

#[test]
fn registers_are_poked(rt: HostRuntime) -> Result<(), Fail> {
    let mut flat = boot(&rt, &BRANCH)?;
    flat.step();
    let slot = flat.view().cpu.slot();
    expect(&rt, "slot", slot, Some(0x8000_0008));
    for k in 0..9 {
        let (number, value, wanted) = POKES[k];
        assert!(rt; number < 38);
        accept(&rt, &mut flat, &poke(number, value));
        let got = written_registers(flat.view().cpu);
        expect(&rt, number, got[k], wanted);
    }
    expect(&rt, "no slot", flat.view().cpu.slot(), None);
    Ok(())
}
