//! The corners of the language.
use super::{Listed, Verdict, expect, fault_of, listings, taken, verdicts};
use masm::assemble_image;
use std::alloc::{AllocError, Global};
use std::process::Abort;

static LINES_AND_CHARACTERS: [Verdict; 27] = [
    // A carriage return right before a line feed belongs to the line's end; no other does.
    ("eret\r\neret\r\n", 0, 0),
    ("eret\r", 1, 1),
    ("eret \r", 3, 1),
    ("eret\r\r\n", 1, 1),
    ("\reret\n", 1, 1),
    ("eret # \r", 0, 0),
    ("mfhi $1\r\n\r\n", 0, 0),
    // The last line may end without a line feed.
    ("eret", 0, 0),
    ("eret\n\n\n", 0, 0),
    // A character that isn't ASCII makes its line 1, in a comment and behind other faults too.
    ("eret # é\n", 1, 1),
    ("eret\n# é", 1, 2),
    ("foo é", 1, 1),
    ("add é", 1, 1),
    ("eret\n\u{fffd}", 1, 2),
    ("eret #\u{7f}", 0, 0),
    // Any other character that no token has is 1 in the first word and 3 among the operands.
    ("e%ret", 1, 1),
    ("%", 1, 1),
    ("eret %", 3, 1),
    ("mfhi %1", 3, 1),
    ("mfhi $1;", 3, 1),
    ("eret;", 1, 1),
    ("eret\u{0}", 1, 1),
    ("eret\u{b}", 1, 1),
    ("mfhi $1\u{c}", 3, 1),
    ("eret # \u{0} %", 0, 0),
    ("eret# close", 0, 0),
    ("eret //", 3, 1),
];

#[test]
fn lines_and_characters(rt: HostRuntime) {
    verdicts(&rt, &LINES_AND_CHARACTERS);
}

static BLANKS: [Verdict; 16] = [
    (" \t eret \t ", 0, 0),
    ("add\t $1 ,\t$2\t,  $3\t# sum", 0, 0),
    ("  a:\teret", 0, 0),
    ("a:eret", 0, 0),
    ("a:.word a", 0, 0),
    (" \t \n\t# only\neret", 0, 0),
    // No blank before a colon or before `(`, nor within an operand.
    ("a : eret", 2, 1),
    ("add : eret", 3, 1),
    ("lw $1,4 ($2)", 3, 1),
    ("lw $1,4( $2)", 3, 1),
    ("lw $1,4($2 )", 3, 1),
    ("mfhi $ 1", 3, 1),
    ("addi $1,$2,- 5", 3, 1),
    ("addi $1,$2,1 2", 3, 1),
    ("add $1 $2,$3", 3, 1),
    ("add$1,$2,$3", 1, 1),
];

#[test]
fn blanks(rt: HostRuntime) {
    verdicts(&rt, &BLANKS);
}

static WORDS: [Verdict; 33] = [
    // A first word that is no well-shaped name.
    ("1: eret", 1, 1),
    (": eret", 1, 1),
    ("a:: eret", 1, 1),
    ("a: b: eret", 1, 1),
    ("a$: eret", 1, 1),
    (".a: eret", 1, 1),
    (".", 1, 1),
    ("..word 5", 1, 1),
    (".5 5", 1, 1),
    ("a.b", 1, 1),
    ("$1", 1, 1),
    ("5", 1, 1),
    (",", 1, 1),
    ("(", 1, 1),
    // A well-shaped one that names nothing.
    ("ADD $1,$2,$3", 2, 1),
    ("Eret", 2, 1),
    (".WORD 5", 2, 1),
    (".words 5", 2, 1),
    ("word 5", 2, 1),
    (".add $1,$2,$3", 2, 1),
    ("bgt $1,$2,a", 2, 1),
    ("_", 2, 1),
    ("not $1,$2", 2, 1),
    ("sdbbp 0", 2, 1),
    ("cop1 5", 2, 1),
    // Names of labels may be those of instructions, have any length, and begin with `_`.
    ("add: j add", 0, 0),
    ("_: j _", 0, 0),
    ("_1a: j _1a", 0, 0),
    ("A: a: eret", 1, 1),
    ("A: eret\na: j A", 0, 0),
    ("word: .word word", 0, 0),
    // A label alone on a line, at the end too, and several for one place.
    ("a:\nb:\n j a\n j c\nc:", 0, 0),
    ("a: # alone\neret", 0, 0),
];

#[test]
fn words(rt: HostRuntime) {
    verdicts(&rt, &WORDS);
}

static REGISTERS: [Verdict; 14] = [
    // Registers.
    ("mfhi $31", 0, 0),
    ("mfhi $0", 0, 0),
    ("mfhi $32", 3, 1),
    ("mfhi $01", 3, 1),
    ("mfhi $00", 3, 1),
    ("mfhi $-1", 3, 1),
    ("mfhi $", 3, 1),
    ("mfhi $t", 3, 1),
    ("mfhi $1a", 3, 1),
    ("mfhi $0x1", 3, 1),
    ("mfhi $99999999999999999999", 3, 1),
    ("mfhi 1", 3, 1),
    ("mfhi $$1", 3, 1),
    ("mfhi $1($2)", 3, 1),
];

static NUMBERS: [Verdict; 22] = [
    // Numbers.
    ("addi $1,$2,0007", 0, 0),
    ("addi $1,$2,-0", 0, 0),
    ("addi $1,$2,-007", 0, 0),
    ("addi $1,$2,0x7FfF", 0, 0),
    ("addi $1,$2,0x00000000000000000000000000000001", 0, 0),
    ("addi $1,$2,00000000000000000000000000000000032767", 0, 0),
    ("addi $1,$2,-0x5", 3, 1),
    ("addi $1,$2,0X5", 3, 1),
    ("addi $1,$2,+1", 3, 1),
    ("addi $1,$2,0x", 3, 1),
    ("addi $1,$2,0xg", 3, 1),
    ("addi $1,$2,-", 3, 1),
    ("addi $1,$2,--1", 3, 1),
    ("addi $1,$2,1a", 3, 1),
    ("addi $1,$2,1.0", 3, 1),
    ("addi $1,$2,'a'", 3, 1),
    ("addi $1,$2,x", 3, 1),
    ("addi $1,$2,99999999999999999999999999999999999999", 4, 1),
    ("addi $1,$2,-99999999999999999999999999999999999999", 4, 1),
    ("addi $1,$2,0xffffffffffffffffffffffffffffffffffffff", 4, 1),
    ("addi $1,$2,18446744073709551616", 4, 1),
    ("addi $1,$2,18446744073709551617", 4, 1),
];

static OFFSETS: [Verdict; 15] = [
    // Offsets with bases.
    ("lw $1,0($2)", 0, 0),
    ("lw $1,0x10($2)", 0, 0),
    ("lw $1,($2)", 3, 1),
    ("lw $1,4", 3, 1),
    ("lw $1,4()", 3, 1),
    ("lw $1,4($2", 3, 1),
    ("lw $1,4$2)", 3, 1),
    ("lw $1,4(2)", 3, 1),
    ("lw $1,4($32)", 3, 1),
    ("lw $1,4($2))", 3, 1),
    ("lw $1,4(($2)", 3, 1),
    ("lw $1,4($2)4", 3, 1),
    ("lw $1,a($2)", 3, 1),
    ("lw $1,a", 3, 1),
    ("lw 4($2),$1", 3, 1),
];

static COUNTS: [Verdict; 18] = [
    // One missing, one too many, and commas in wrong places.
    ("add", 3, 1),
    ("add $1", 3, 1),
    ("add $1,$2", 3, 1),
    ("add $1,$2,$3,$4", 3, 1),
    ("add $1,$2,$3,", 3, 1),
    ("add ,$1,$2,$3", 3, 1),
    ("add $1,,$3", 3, 1),
    ("add ,", 3, 1),
    ("eret ,", 3, 1),
    ("eret $0", 3, 1),
    ("syscall", 3, 1),
    ("syscall 0,0", 3, 1),
    ("jalr $2", 3, 1),
    ("mfc0 $1,$2", 3, 1),
    ("div $0,$1,$2", 3, 1),
    ("j a,b", 3, 1),
    ("j $1", 3, 1),
    ("j 4($1)", 3, 1),
];

#[test]
fn operands(rt: HostRuntime) {
    verdicts(&rt, &REGISTERS);
    verdicts(&rt, &NUMBERS);
    verdicts(&rt, &OFFSETS);
    verdicts(&rt, &COUNTS);
}

static DIRECTIVES: [Verdict; 21] = [
    (".word nowhere", 5, 1),
    ("a: .word a+4", 3, 1),
    ("a: eret\n.entry 5", 3, 2),
    ("a: eret\n.entry $1", 3, 2),
    ("a: eret\n.entry a,a", 3, 2),
    // An unknown name in an earlier `.entry` is still one.
    (".entry b\na: eret\n.entry a", 5, 1),
    (".word", 3, 1),
    (".word 1,2", 0, 0),
    (".word $1", 3, 1),
    (".byte a", 3, 1),
    (".space a", 3, 1),
    (".org a", 3, 1),
    (".org", 3, 1),
    (".word 4294967296", 4, 1),
    (".word -2147483649", 4, 1),
    (".byte 256", 4, 1),
    (".byte -129", 4, 1),
    (".space -1", 4, 1),
    (".space 4294967296", 4, 1),
    (".org -1", 4, 1),
    (".org 4294967296", 4, 1),
];

static PLACES: [Verdict; 21] = [
    // Anywhere, where no content follows.
    (".org 0\neret", 7, 2),
    ("eret\n.org 0", 0, 0),
    ("eret\n.org 0x80000001", 0, 0),
    ("eret\n.org 0xffffffff\n.space 0\na:", 0, 0),
    (
        ".org 0x80000001\n.byte 0\n.org 0x80000004\na: eret\n.entry a",
        0,
        0,
    ),
    (".org 0x80000001\n.byte 0", 9, 0),
    (".space 0", 8, 0),
    ("a: .entry a", 8, 0),
    (".org 0x80000010", 8, 0),
    // The edges of the addresses.
    (".org 0x7fffffff\n.byte 0", 7, 2),
    (
        ".org 0x9fffffff\n.byte 0\n.org 0x80000000\na: eret\n.entry a",
        0,
        0,
    ),
    (".org 0x9fffffff\n.byte 0\n.byte 0", 7, 3),
    (".org 0xa0000000\n.byte 0", 7, 2),
    (".org 0x9ffffffc\neret\neret", 7, 3),
    (".space 536870913", 7, 1),
    (".space 4294967295", 7, 1),
    // Alignment is of instructions and words alone.
    (".byte 0\n.byte 0\n.space 3\n.byte 0", 0, 0),
    (".byte 0\neret", 7, 2),
    (".byte 0\n.word 0", 7, 2),
    (".byte 0\na: .word a", 7, 2),
    (".byte 0\n.space 3\neret", 0, 0),
];

#[test]
fn directives(rt: HostRuntime) {
    verdicts(&rt, &DIRECTIVES);
    verdicts(&rt, &PLACES);
}

static OVERLAPS_AND_COUNTS: [Verdict; 9] = [
    ("eret\n.org 0x80000000\neret", 7, 3),
    ("eret\n.org 0x80000003\n.byte 0", 7, 3),
    ("eret\n.org 0x80000004\n.byte 0", 0, 0),
    (".org 0x80000004\neret\n.org 0x80000000\neret\neret", 7, 5),
    (
        ".org 0x80000004\neret\n.org 0x80000000\neret\n.byte 0",
        7,
        5,
    ),
    (
        ".org 0x80000004\neret\n.org 0x80000000\neret\n.space 0",
        0,
        0,
    ),
    (".org 0x80000008\neret\n.org 0x80000000\n.space 100", 7, 4),
    (".org 0x80000000\n.space 100\n.org 0x80000008\neret", 7, 4),
    (
        ".org 0x80000000\n.space 4\n.org 0x80000000\n.space 0\neret",
        7,
        5,
    ),
];

#[test]
fn overlaps_and_counts(rt: HostRuntime) {
    verdicts(&rt, &OVERLAPS_AND_COUNTS);
    many_segments(&rt);
}

/// A source of sixty-four segments with one byte each, and of an empty one before each.
fn source_of_64(alloc: Global) -> Result<String, AllocError> {
    let mut source = String::new(alloc);
    for number in 0u32..64 {
        add_segment(&mut source, 0x8000_0000 + number * 16)?;
    }
    Ok(source)
}

fn add_segment(source: &mut String, address: u32) -> Result<(), AllocError> {
    writeln!(source, ".org {address}\n.org {address}\n.byte 1")
}

/// A source with these lines behind it is refused with this fault, by its number, and line.
fn goes_on(
    rt: &(impl Abort + AllocGlobal),
    source: &mut String,
    lines: &'static str,
    want: (u32, u64),
) {
    taken(rt, lines, source.push_str(lines));
    let found = fault_of(assemble_image(rt.alloc(), source));
    expect(rt, lines, found, want);
}

/// Sixty-four segments with content are taken, with empty ones among them; the first content of another one is not.
fn many_segments(rt: &(impl Abort + AllocGlobal)) {
    let mut source = taken(rt, "the source", source_of_64(rt.alloc()));
    goes_on(rt, &mut source, "", (0, 0));
    goes_on(
        rt,
        &mut source,
        ".byte 2\n.org 0x80010000\n.space 0\na:\n",
        (0, 0),
    );
    goes_on(rt, &mut source, ".byte 3\n", (7, 197));
}

static TARGETS: [Verdict; 21] = [
    ("beq $0,$0,0x80020004", 4, 1),
    ("beq $0,$0,0x80000002", 4, 1),
    ("beq $0,$0,0x7ffe0000", 4, 1),
    ("beq $0,$0,0x7ffe0004", 0, 0),
    ("beq $0,$0,-4", 4, 1),
    ("beq $0,$0,4", 4, 1),
    ("beq $0,$0,4294967296", 4, 1),
    ("j 0x80000002", 4, 1),
    ("j 0x90000000", 4, 1),
    ("j 0x7ffffffc", 4, 1),
    ("j 0x8ffffffc", 0, 0),
    ("j -4", 4, 1),
    ("j 99999999999999999999", 4, 1),
    // A jump's region is that of its delay slot.
    (".org 0x8ffffffc\nj 0x80000000", 4, 2),
    (".org 0x8ffffffc\nj 0x90000000", 0, 0),
    // A name at an odd address is no target.
    (".byte 0\na: .space 3\nj a", 4, 3),
    (".org 0x80000002\na:\n.org 0x80000000\nbeq $0,$0,a", 4, 4),
    ("beq $0,$0,a\n.space 131068\na: eret", 0, 0),
    ("beq $0,$0,a\n.space 131072\na: eret", 4, 1),
    ("a: .space 131068\nbeq $0,$0,a", 0, 0),
    ("a: .space 131072\nbeq $0,$0,a", 4, 2),
];

static TARGETS_LISTED: [Listed; 3] = [
    ("a: beq $0,$0,a", "80000000 1000ffff beq $0,$0,0x80000000\n"),
    ("jal 2147483664", "80000000 0c000004 jal 0x80000010\n"),
    (
        "bltzal $3,a\na:",
        "80000000 04700000 bltzal $3,0x80000004\n",
    ),
];

#[test]
fn targets(rt: HostRuntime) {
    verdicts(&rt, &TARGETS);
    listings(&rt, &TARGETS_LISTED);
}

static ENTRIES: [Verdict; 7] = [
    ("eret\na:\n.entry a", 9, 0),
    (".entry a\n.byte 1\na: .byte 1", 9, 0),
    (".entry a\neret\n.org 0x80001000\na:", 9, 0),
    (".entry a\n.space 4\na: .space 1", 0, 0),
    (".entry a\na: .byte 1", 0, 0),
    (".org 0x80000002\n.space 2\n.entry a\na: eret", 0, 0),
    // In another segment than the first.
    ("eret\n.org 0x80001000\na: eret\n.entry a", 0, 0),
];

#[test]
fn entries(rt: HostRuntime) {
    verdicts(&rt, &ENTRIES);
}
