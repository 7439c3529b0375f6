//! Sources with one fault or two: which one is told, and its line.
use super::{Verdict, verdicts};

static RANGES: [Verdict; 44] = [
    ("sll $1,$2,32", 4, 1),
    ("sll $1,$2,-1", 4, 1),
    ("srl $1,$2,31", 0, 0),
    ("sra $1,$2,0", 0, 0),
    ("teq $1,$2,1024", 4, 1),
    ("tne $1,$2,-1", 4, 1),
    ("tlt $1,$2,1023", 0, 0),
    ("syscall 1048576", 4, 1),
    ("syscall -1", 4, 1),
    ("break 1048575", 0, 0),
    ("break 1048576", 4, 1),
    ("sync 32", 4, 1),
    ("sync 31", 0, 0),
    ("sync -1", 4, 1),
    ("wait 524288", 4, 1),
    ("wait 524287", 0, 0),
    ("wait -1", 4, 1),
    ("cache 32,0($1)", 4, 1),
    ("cache 31,0($1)", 0, 0),
    ("pref -1,0($1)", 4, 1),
    ("pref 0,32768($1)", 4, 1),
    ("mfc0 $1,$2,8", 4, 1),
    ("mtc0 $1,$2,7", 0, 0),
    ("mfc0 $1,$2,-1", 4, 1),
    ("addi $1,$2,32768", 4, 1),
    ("addi $1,$2,-32769", 4, 1),
    ("addiu $1,$2,65535", 4, 1),
    ("slti $1,$2,32768", 4, 1),
    ("sltiu $1,$2,-32768", 0, 0),
    ("sltiu $1,$2,0xffff", 4, 1),
    ("andi $1,$2,65536", 4, 1),
    ("andi $1,$2,-1", 4, 1),
    ("ori $1,$2,65535", 0, 0),
    ("xori $1,$2,0x10000", 4, 1),
    ("lui $1,65536", 4, 1),
    ("lui $1,-1", 4, 1),
    ("lui $1,65535", 0, 0),
    ("lw $1,32768($2)", 4, 1),
    ("lw $1,-32769($2)", 4, 1),
    ("sb $1,-32768($2)", 0, 0),
    ("ll $1,40000($2)", 4, 1),
    ("teqi $1,32768", 4, 1),
    ("tgei $1,-32769", 4, 1),
    ("tltiu $1,32767", 0, 0),
];

/// A number out of its range, at each range and both its ends.
#[test]
fn ranges(rt: HostRuntime) {
    verdicts(&rt, &RANGES);
}

static ORDER_WITHIN_A_LINE: [Verdict; 24] = [
    ("foo 1,,%", 2, 1),
    ("1foo $32", 1, 1),
    ("foo é", 1, 1),
    ("addi $32,$1,99999", 3, 1),
    ("addi $1,99999,x", 3, 1),
    ("sll $1,$2,99,1", 3, 1),
    ("cache 99,0", 3, 1),
    ("lw $32,99999($1)", 3, 1),
    ("lw $1,99999($32)", 3, 1),
    ("cache 99,99999($1)", 4, 1),
    (".word 99999999999,1", 4, 1),
    ("a: eret\na: foo", 2, 2),
    ("a: eret\na: add", 3, 2),
    ("a: eret\na: sll $1,$2,32", 4, 2),
    ("a: eret\na: .byte 256", 4, 2),
    ("a: .byte 1\na: eret", 6, 2),
    ("a: .byte 1\na: .word nowhere", 6, 2),
    (".byte 1\nsll $1,$2,32", 4, 2),
    (".byte 1\nadd", 3, 2),
    (".byte 1\n.word nowhere", 7, 2),
    (".byte 1\nj 3", 7, 2),
    ("a:\na:\n", 6, 2),
    ("a: a1: eret", 1, 1),
    ("a:\n.org 0x80000000\na: .org 0x80000000", 6, 3),
];

/// In one line 1 comes before 2, 2 before 3, 3 before 4, and these before 6, and 6 before 7.
#[test]
fn order_within_a_line(rt: HostRuntime) {
    verdicts(&rt, &ORDER_WITHIN_A_LINE);
}

static TWO_LINES_OF_THE_FIRST_PASS: [Verdict; 32] = [
    ("%\nfoo", 1, 1),
    ("foo\n%", 2, 1),
    ("add\n%", 3, 1),
    ("sync 99\n%", 4, 1),
    ("a:\na:\n%", 6, 2),
    (".org 0\neret\n%", 7, 2),
    ("eret\n%\nfoo", 1, 2),
    ("foo\nadd", 2, 1),
    ("add\nfoo", 3, 1),
    ("sync 99\nfoo", 4, 1),
    ("a:\na:\nfoo", 6, 2),
    (".org 0\neret\nfoo", 7, 2),
    ("%\nadd", 1, 1),
    ("foo\nsync 99", 2, 1),
    ("add\nsync 99", 3, 1),
    ("sync 99\nadd", 4, 1),
    ("a:\na:\nadd", 6, 2),
    (".org 0\neret\nadd", 7, 2),
    ("%\nsync 99", 1, 1),
    ("eret\n\n\nfoo", 2, 4),
    ("a:\nsync 99\na:", 4, 2),
    (".org 0\nsync 99\neret", 4, 2),
    ("a:\nfoo\na:", 2, 2),
    (".org 0\nfoo\neret", 2, 2),
    (".org 0\na:\na:\neret", 6, 3),
    (".org 0\na: eret\na:", 7, 2),
    ("a:\na: .org 0\neret", 6, 2),
    ("# c\n\n  %", 1, 3),
    ("eret\nadd\nadd", 3, 2),
    ("eret\nsync 99\nsync 99", 4, 2),
    ("a:\nb:\na:\nb:", 6, 3),
    (".org 1\neret\neret", 7, 2),
];

/// The first line with a fault of the first pass is told, whatever its kind.
#[test]
fn two_lines_of_the_first_pass(rt: HostRuntime) {
    verdicts(&rt, &TWO_LINES_OF_THE_FIRST_PASS);
}

static FIRST_PASS_BEFORE_SECOND: [Verdict; 28] = [
    ("j x\n%", 1, 2),
    ("j x\nfoo", 2, 2),
    ("j x\nadd", 3, 2),
    ("j x\nsync 99", 4, 2),
    ("j x\na:\na:", 6, 3),
    ("j x\n.byte 1\neret", 7, 3),
    ("j 3\n%", 1, 2),
    ("j 3\nfoo", 2, 2),
    ("j 3\nadd", 3, 2),
    ("j 3\nsync 99", 4, 2),
    ("j 3\na:\na:", 6, 3),
    ("j 3\n.byte 1\neret", 7, 3),
    (".word x\n%", 1, 2),
    (".word x\nfoo", 2, 2),
    (".word x\nadd", 3, 2),
    (".word x\nsync 99", 4, 2),
    (".entry x\n%", 1, 2),
    (".entry x\nfoo", 2, 2),
    (".entry x\nadd", 3, 2),
    (".entry x\nsync 99", 4, 2),
    ("%\nj x", 1, 1),
    ("foo\nj x", 2, 1),
    ("add\nj x", 3, 1),
    ("sync 99\nj x", 4, 1),
    ("a:\na:\nj x", 6, 2),
    (".byte 1\nj x", 7, 2),
    ("sync 99\nj 3", 4, 1),
    ("j x\nj 3\n%", 1, 3),
];

/// A fault of the first pass comes before one of the second in an earlier line.
#[test]
fn first_pass_before_second(rt: HostRuntime) {
    verdicts(&rt, &FIRST_PASS_BEFORE_SECOND);
}

static TWO_LINES_OF_THE_SECOND_PASS: [Verdict; 18] = [
    ("j x\nj 3", 5, 1),
    ("j 3\nj x", 4, 1),
    (".word x\nj 3", 5, 1),
    ("j 3\n.word x", 4, 1),
    (".entry x\nj 3", 5, 1),
    ("j 3\n.entry x", 4, 1),
    ("eret\nj x\nj y", 5, 2),
    ("eret\nbeq $0,$0,x", 5, 2),
    ("eret\nbltz $0,x", 5, 2),
    ("eret\njal x", 5, 2),
    ("eret\n.word x", 5, 2),
    ("eret\n.entry x", 5, 2),
    ("x: j X", 5, 1),
    ("x: j x\nj x_", 5, 2),
    ("j add", 5, 1),
    ("bgtz $1,0x90000000", 4, 1),
    ("a: j a\nb: j a\nc: j d\ne: j f", 5, 3),
    ("bne $1,$2,0x80000001\nj y", 4, 1),
];

/// Of the second pass the first line is told.
#[test]
fn two_lines_of_the_second_pass(rt: HostRuntime) {
    verdicts(&rt, &TWO_LINES_OF_THE_SECOND_PASS);
}

static FAULTS_OF_THE_WHOLE: [Verdict; 23] = [
    ("", 8, 0),
    ("\n\n", 8, 0),
    ("# nothing", 8, 0),
    ("a:\nb:", 8, 0),
    (".space 0\n.org 5", 8, 0),
    ("a:\n.entry a", 8, 0),
    (".entry x", 5, 1),
    ("%", 1, 1),
    (".org 3\n.entry a\na:", 8, 0),
    (".byte 1\na: .byte 1\n.entry a", 9, 0),
    (".byte 1\na: .byte 1\n.entry a\nfoo", 2, 4),
    (".byte 1\na: .byte 1\n.entry a\n.entry x", 5, 4),
    ("a: .byte 1\nb: .byte 1\n.entry b\n.entry a", 0, 0),
    (".org 0x80000001\n.byte 1", 9, 0),
    (".org 0x80000001\n.byte 1\n%", 1, 3),
    (".org 0x80000002\n.space 4\nj x", 7, 3),
    (".org 0x80000002\n.space 2\nj x", 5, 3),
    (".org 0x80000002\n.space 2\nj 0x80000000", 9, 0),
    (".org 0xfffffffc\na:\n.org 0x80000000\neret\n.entry a", 9, 0),
    (".org 0\na:\n.org 0x80000000\neret\n.entry a", 9, 0),
    ("eret\n.entry a\na:", 9, 0),
    ("eret\n.entry a\na: .space 0", 9, 0),
    ("eret\n.entry a\na: .byte 0", 0, 0),
];

/// Faults of lines come before those of the whole, and 8 before 9.
#[test]
fn faults_of_the_whole(rt: HostRuntime) {
    verdicts(&rt, &FAULTS_OF_THE_WHOLE);
}
