//! Parts of words: each of the four instructions at each place of a word, and pairs of them for words that are not aligned,
//! in the middle of memory and at its end.
use super::code::Code;
use super::code::Code::*;
use super::layout::{JoinedRun, check_joined};
use std::process::Abort;
use std::test::Fail;

/// What is done to words of memory whose address is in register 1; register 2 has aabbccdd.
struct Parts {
    name: &'static str,
    /// The words that memory has there; the last of them may be the last of memory.
    words: &'static [Code],
    /// The offset of these words from the end of memory, where they are its last.
    from_end: u32,
    code: &'static [Code],
    /// How many steps are made, the four that fill registers 1 and 2 too.
    steps: usize,
    /// Where it would go on after them.
    pc: u32,
    /// The registers from 3 on that are not 0.
    regs: &'static [(u32, u32)],
}

/// The bytes 11 22 33 44.
const ONE_WORD: [Code; 1] = [Word(0x4433_2211)];

/// The bytes 11 22 33 44 55 66 77 88.
const TWO_WORDS: [Code; 2] = [Word(0x4433_2211), Word(0x8877_6655)];

static PARTS: [Parts; 6] = [
    Parts {
        name: "lwl",
        words: &ONE_WORD,
        from_end: 4,
        code: &[
            Addu(8, 2, 0),
            Lwl(8, 0, 1),
            Addu(9, 2, 0),
            Lwl(9, 1, 1),
            Addu(10, 2, 0),
            Lwl(10, 2, 1),
            Addu(11, 2, 0),
            Lwl(11, 3, 1),
        ],
        steps: 12,
        pc: 0x8000_0030,
        regs: &[
            (8, 0x11bb_ccdd),
            (9, 0x2211_ccdd),
            (10, 0x3322_11dd),
            (11, 0x4433_2211),
        ],
    },
    Parts {
        name: "lwr",
        words: &ONE_WORD,
        from_end: 4,
        code: &[
            Addu(8, 2, 0),
            Lwr(8, 0, 1),
            Addu(9, 2, 0),
            Lwr(9, 1, 1),
            Addu(10, 2, 0),
            Lwr(10, 2, 1),
            Addu(11, 2, 0),
            Lwr(11, 3, 1),
        ],
        steps: 12,
        pc: 0x8000_0030,
        regs: &[
            (8, 0x4433_2211),
            (9, 0xaa44_3322),
            (10, 0xaabb_4433),
            (11, 0xaabb_cc44),
        ],
    },
    Parts {
        name: "swl",
        words: &ONE_WORD,
        from_end: 4,
        code: &[
            Lw(3, 0, 1),
            Swl(2, 0, 1),
            Lw(8, 0, 1),
            Sw(3, 0, 1),
            Swl(2, 1, 1),
            Lw(9, 0, 1),
            Sw(3, 0, 1),
            Swl(2, 2, 1),
            Lw(10, 0, 1),
            Sw(3, 0, 1),
            Swl(2, 3, 1),
            Lw(11, 0, 1),
        ],
        steps: 16,
        pc: 0x8000_0040,
        regs: &[
            (3, 0x4433_2211),
            (8, 0x4433_22aa),
            (9, 0x4433_aabb),
            (10, 0x44aa_bbcc),
            (11, 0xaabb_ccdd),
        ],
    },
    Parts {
        name: "swr",
        words: &ONE_WORD,
        from_end: 4,
        code: &[
            Lw(3, 0, 1),
            Swr(2, 0, 1),
            Lw(8, 0, 1),
            Sw(3, 0, 1),
            Swr(2, 1, 1),
            Lw(9, 0, 1),
            Sw(3, 0, 1),
            Swr(2, 2, 1),
            Lw(10, 0, 1),
            Sw(3, 0, 1),
            Swr(2, 3, 1),
            Lw(11, 0, 1),
        ],
        steps: 16,
        pc: 0x8000_0040,
        regs: &[
            (3, 0x4433_2211),
            (8, 0xaabb_ccdd),
            (9, 0xbbcc_dd11),
            (10, 0xccdd_2211),
            (11, 0xdd33_2211),
        ],
    },
    Parts {
        name: "words that are loaded by pairs",
        words: &TWO_WORDS,
        from_end: 8,
        code: &[
            Lwr(8, 0, 1),
            Lwl(8, 3, 1),
            Lwr(9, 1, 1),
            Lwl(9, 4, 1),
            Lwl(10, 5, 1), // the other order does as well
            Lwr(10, 2, 1),
            Lwl(11, 6, 1),
            Lwr(11, 3, 1),
            Lwr(12, 4, 1),
            Lwl(12, 7, 1),
        ],
        steps: 14,
        pc: 0x8000_0038,
        regs: &[
            (8, 0x4433_2211),
            (9, 0x5544_3322),
            (10, 0x6655_4433),
            (11, 0x7766_5544),
            (12, 0x8877_6655),
        ],
    },
    Parts {
        name: "words that are stored by pairs",
        words: &TWO_WORDS,
        from_end: 8,
        code: &[
            Lw(3, 0, 1),
            Lw(4, 4, 1),
            Swr(2, 0, 1),
            Swl(2, 3, 1),
            Lw(8, 0, 1),
            Lw(9, 4, 1),
            Sw(3, 0, 1),
            Swr(2, 1, 1),
            Swl(2, 4, 1),
            Lw(10, 0, 1),
            Lw(11, 4, 1),
            Sw(3, 0, 1),
            Sw(4, 4, 1),
            Swl(2, 5, 1), // the other order does as well
            Swr(2, 2, 1),
            Lw(12, 0, 1),
            Lw(13, 4, 1),
            Sw(3, 0, 1),
            Sw(4, 4, 1),
            Swl(2, 6, 1),
            Swr(2, 3, 1),
            Lw(14, 0, 1),
            Lw(15, 4, 1),
        ],
        steps: 27,
        pc: 0x8000_006c,
        regs: &[
            (3, 0x4433_2211),
            (4, 0x8877_6655),
            (8, 0xaabb_ccdd),
            (9, 0x8877_6655),
            (10, 0xbbcc_dd11),
            (11, 0x8877_66aa),
            (12, 0xccdd_2211),
            (13, 0x8877_aabb),
            (14, 0xdd33_2211),
            (15, 0x88aa_bbcc),
        ],
    },
];

/// Two pages of memory.
const END: u32 = 0x2000;

/// The parts at this offset of memory.
fn check_parts<R: AllocGlobal + Abort>(rt: &R, parts: &Parts, at: u32) -> Result<(), Fail> {
    let setup = [
        Lui(1, 0x8000),
        Ori(1, 1, at),
        Lui(2, 0xaabb),
        Ori(2, 2, 0xccdd),
    ];
    let joined = JoinedRun {
        code: &[&setup, parts.code, &[At(at)], parts.words],
        pages: 2,
        steps: parts.steps,
        pc: parts.pc,
        regs: &[&[(1, 0x8000_0000 | at), (2, 0xaabb_ccdd)], parts.regs],
        system: [0, 0, 0, 0],
    };
    check_joined(rt, (parts.name, "at", at), &joined)
}

fn check_at_each_place<R: AllocGlobal + Abort>(rt: &R, parts: &Parts) -> Result<(), Fail> {
    check_parts(rt, parts, 0x0400)?;
    check_parts(rt, parts, 0x0ffc)?;
    check_parts(rt, parts, END.wrapping_sub(parts.from_end))
}

#[test]
fn parts_of_words_in_memory_and_at_its_end(rt: HostRuntime) -> Result<(), Fail> {
    for parts in &PARTS {
        check_at_each_place(&rt, parts)?;
    }
    Ok(())
}
