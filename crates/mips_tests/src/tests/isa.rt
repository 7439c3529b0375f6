//! Words and their instructions, from the encodings of the standard (volume II, the instructions' formats and the
//! tables of instruction bit encodings).
mod build;
mod computing;
mod control;
mod fields;
mod memory;

use super::expect;
use computing::*;
use control::*;
use fields::Fields;
use memory::*;
use mips_isa::*;
use std::process::Abort;
use std::test::Fail;

/// Whether a word decodes to the instruction of these fields, and the word of that instruction.
fn coded(word: u32, fields: Fields) -> (bool, u32) {
    (decode(word) == Some(fields.instr()), encode(fields.instr()))
}

/// The word decodes to the instruction, which encodes to it and has this text at 80001000.
fn agrees(
    rt: &(impl Abort + AllocGlobal),
    word: u32,
    fields: Fields,
    line: &'static str,
) -> Result<(), Fail> {
    expect(rt, line, coded(word, fields), (true, word));
    let written = text(rt.alloc(), fields.instr(), 0x8000_1000)?;
    expect(rt, word, written.as_str(), line);
    Ok(())
}

/// Each of the rows agrees.
fn agree(
    rt: &(impl Abort + AllocGlobal),
    rows: &[(u32, Fields, &'static str)],
) -> Result<(), Fail> {
    for row in rows {
        let (word, fields, line) = *row;
        agrees(rt, word, fields, line)?;
    }
    Ok(())
}

#[test]
fn words_instructions_and_texts(rt: HostRuntime) -> Result<(), Fail> {
    agree(&rt, &COMPUTING_ROWS)?;
    agree(&rt, &CONTROL_ROWS)?;
    agree(&rt, &MEMORY_ROWS)
}

/// Words of no row: each field that must be zero set in turn, and codes that the standard leaves free.
static WORDS_OF_NO_ROW: [u32; 120] = [
    0x0022_1860,
    0x0022_1861,
    0x0022_1862,
    0x0022_1863,
    0x0022_1864,
    0x0022_1865,
    0x0022_1866,
    0x0022_1867,
    0x0022_186a,
    0x0022_186b,
    0x0022_184a,
    0x0022_184b,
    0x0022_1844,
    0x0022_1846,
    0x0022_1847,
    0x0020_0000,
    0x0202_1900,
    0x0202_1902,
    0x0202_1903,
    0x0021_0008,
    0x0020_8008,
    0x0020_0208,
    0x0021_0011,
    0x0020_8011,
    0x0020_0211,
    0x0021_0013,
    0x0020_8013,
    0x0020_0213,
    0x0022_f809,
    0x0020_fc09,
    0x0020_1010,
    0x0001_1010,
    0x0000_1050,
    0x0020_1012,
    0x0001_1012,
    0x0000_1052,
    0x0022_0818,
    0x0022_0058,
    0x0022_0819,
    0x0022_0059,
    0x0022_081a,
    0x0022_005a,
    0x0022_081b,
    0x0022_005b,
    0x0020_000f,
    0x0001_000f,
    0x0000_080f,
    0x1821_0004,
    0x1c21_0004,
    0x5821_0004,
    0x5c21_0004,
    0x3c22_1234,
    0x7022_1800,
    0x7022_0040,
    0x7022_1801,
    0x7022_0041,
    0x7022_1804,
    0x7022_0044,
    0x7022_1805,
    0x7022_0045,
    0x7022_1842,
    0x7021_1020,
    0x7020_1020,
    0x7022_1060,
    0x7023_1021,
    0x7022_1121,
    0x0000_0001,
    0x0000_0005,
    0x0000_000e,
    0x0000_0014,
    0x0000_0015,
    0x0000_0016,
    0x0000_0017,
    0x0000_001c,
    0x0000_001d,
    0x0000_001e,
    0x0000_001f,
    0x0000_0028,
    0x0000_0029,
    0x0000_002c,
    0x0000_002d,
    0x0000_002e,
    0x0000_002f,
    0x0000_0035,
    0x0000_0037,
    0x0000_0038,
    0x0000_003f,
    0x0424_0000,
    0x0425_0000,
    0x0426_0000,
    0x0427_0000,
    0x042d_0000,
    0x042f_0000,
    0x0434_0000,
    0x0437_0000,
    0x0438_0000,
    0x043f_0000,
    0x7000_0003,
    0x7000_0006,
    0x7000_0007,
    0x7000_0008,
    0x7000_001f,
    0x7000_0022,
    0x7000_003f,
    0x4c00_0000,
    0x6000_0000,
    0x6400_0000,
    0x6800_0000,
    0x6c00_0000,
    0x7400_0000,
    0x7800_0000,
    0x7c00_0000,
    0x9c00_0000,
    0xb000_0000,
    0xb400_0000,
    0xd000_0000,
    0xdc00_0000,
    0xec00_0000,
    0xf000_0000,
    0xfc00_0000,
];

#[test]
fn words_of_no_row(rt: HostRuntime) {
    for word in &WORDS_OF_NO_ROW {
        assert!(rt; decode(*word).is_none(), "{word:08x}");
    }
}

/// What a word of opcode 10 with these two codes is, where the fields between them are zero or are not.
fn cop0_names(rs: u32, code: u32, zeros: bool) -> Option<&'static str> {
    match (rs, code) {
        (0, 0..=7) => Some("mfc0"),
        (4, 0..=7) => Some("mtc0"),
        (16..=31, 0x20) => Some("wait"),
        (16, 0x01) if zeros => Some("tlbr"),
        (16, 0x02) if zeros => Some("tlbwi"),
        (16, 0x06) if zeros => Some("tlbwr"),
        (16, 0x08) if zeros => Some("tlbp"),
        (16, 0x18) if zeros => Some("eret"),
        _ => None,
    }
}

/// What a word is decoded to, by name.
fn name_of(word: u32) -> Option<&'static str> {
    decode(word).map(|instr| mnemonic_of(&instr))
}

/// The names of the words with these two codes: with zeros between them, with rt 5 and rd 12, and with sa 1.
fn cop0_words_are_named(rt: &impl Abort, rs: u32, code: u32) {
    let word = 0x4000_0000 | rs << 21 | code;
    let wait = if rs >= 16 && code == 0x20 {
        Some("wait")
    } else {
        None
    };
    expect(
        rt,
        word,
        [
            name_of(word),
            name_of(word | 0x5_6000),
            name_of(word | 0x40),
        ],
        [
            cop0_names(rs, code, true),
            cop0_names(rs, code, false),
            wait,
        ],
    );
}

/// Each pair of rs and fn with opcode 10: once with zeros between them, once with rt 5 and rd 12, once with sa 1.
#[test]
fn every_word_of_coprocessor_0(rt: HostRuntime) {
    for rs in 0..32u32 {
        for code in 0..64u32 {
            cop0_words_are_named(&rt, rs, code);
        }
    }
}

/// Branches at the ends of the address space: the address, the offset and the target.
static BRANCH_TARGETS: [(u32, u16, u32); 3] = [
    (0xffff_fffc, 0, 0),
    (0, 0xfffe, 0xffff_fffc),
    (0x8000_0000, 0x7fff, 0x8002_0000),
];

/// Jumps at the end of a region and of the address space: the address, the code's target and where that is.
static JUMP_TARGETS: [(u32, u32, u32); 3] = [
    (0x8fff_fffc, 1, 0x9000_0004),
    (0x8fff_fff8, 1, 0x8000_0004),
    (0xffff_fffc, 0x3ff_ffff, 0x0fff_fffc),
];

fn branches_reach(rt: &impl Abort) {
    for row in &BRANCH_TARGETS {
        let (address, offset, target) = *row;
        let got = branch_target_of(address, offset);
        expect(rt, (address, offset), got, target);
    }
}

fn jumps_reach(rt: &impl Abort) {
    for row in &JUMP_TARGETS {
        let (address, code, target) = *row;
        let got = jump_target_of(address, JumpTarget::new(code % 0x400_0000));
        expect(rt, (address, code), got, target);
    }
}

#[test]
fn targets(rt: HostRuntime) {
    branches_reach(&rt);
    jumps_reach(&rt);
}

/// The coprocessor that a word is an instruction of.
fn unit_of(word: u32) -> Option<u32> {
    match decode(word) {
        Some(Instr::Coprocessor { op, .. }) => Some(op.unit()),
        _ => None,
    }
}

/// The coprocessor of each opcode.
static UNITS: [(u32, u32); 10] = [
    (0x11, 1),
    (0x31, 1),
    (0x35, 1),
    (0x39, 1),
    (0x3d, 1),
    (0x12, 2),
    (0x32, 2),
    (0x36, 2),
    (0x3a, 2),
    (0x3e, 2),
];

#[test]
fn units(rt: HostRuntime) {
    for row in &UNITS {
        let (opcode, unit) = *row;
        expect(&rt, opcode, unit_of(opcode << 26), Some(unit));
    }
}
