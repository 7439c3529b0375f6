//! Sources: what they are assembled to, what is printed of that, and what is said of a source that is refused.
use super::{Step, clear, file_of, holds, play, prints, refuses, write, write_source};
use std::fs;
use std::fs::File;
use std::net::{Net, TcpListener, TcpStream};
use std::process::Abort;
use std::rt::Files;
use std::sync::Wait;
use std::test::Fail;
use std::thread::Threads;

/// What assembles a source.
const ASM: &str = "asm FILE.s FILE";

/// Sources and the disassembly of what they are assembled to.
static LISTINGS: [(&str, &str); 2] = [
    (
        "addiu $1,$0,5\nloop: addu $2,$2,$1\nbne $1,$0,loop\naddiu $1,$1,-1\n",
        "80000000 24010005 addiu $1,$0,5\n80000004 00411021 addu $2,$2,$1\n80000008 1420fffe bne $1,$0,0x80000004\n8000000c 2421ffff addiu $1,$1,-1\n",
    ),
    // a word of no instruction, a word of coprocessor 1, and bytes
    (
        ".word 0xffffffff\r\n.word 0x46000000\r\n.byte 0x7f\r\n.byte -1\r\n.byte 0\r\n",
        "80000000 ffffffff .word 0xffffffff\n80000004 46000000 .word 0x46000000\n80000008 7f .byte 0x7f\n80000009 ff .byte 0xff\n8000000a 00 .byte 0x00\n",
    ),
];

#[test]
fn what_is_assembled_is_printed(rt: HostRuntime) -> Result<(), Fail> {
    let file = file_of(&rt, "listed")?;
    for (source, lines) in &LISTINGS {
        write_source(&rt, file.as_str(), source.as_bytes())?;
        prints(&rt, file.as_str(), ASM, "")?;
        prints(&rt, file.as_str(), "dis FILE", lines)?;
    }
    clear(&rt, file.as_str())
}

/// The file of one instruction: an ELF header, a program header and the word 42000018 (`eret`) at 80000000.
const ERET: [u8; 88] = [
    0x7f, 0x45, 0x4c, 0x46, 0x01, 0x01, 0x01, 0x00, 0x00, 0x00, 0x00, 0x00, 0x00, 0x00, 0x00, 0x00,
    0x02, 0x00, 0x08, 0x00, 0x01, 0x00, 0x00, 0x00, 0x00, 0x00, 0x00, 0x80, 0x34, 0x00, 0x00, 0x00,
    0x00, 0x00, 0x00, 0x00, 0x00, 0x00, 0x00, 0x00, 0x34, 0x00, 0x20, 0x00, 0x01, 0x00, 0x00, 0x00,
    0x00, 0x00, 0x00, 0x00, 0x01, 0x00, 0x00, 0x00, 0x54, 0x00, 0x00, 0x00, 0x00, 0x00, 0x00, 0x80,
    0x00, 0x00, 0x00, 0x00, 0x04, 0x00, 0x00, 0x00, 0x04, 0x00, 0x00, 0x00, 0x00, 0x00, 0x00, 0x00,
    0x00, 0x00, 0x00, 0x00, 0x18, 0x00, 0x00, 0x42,
];

static OVERWRITTEN: [Step; 4] = [
    Step::Source(b"eret"),
    Step::File(&[0xff; 200]),
    Step::Prints(ASM, ""),
    Step::Holds(&ERET),
];

#[test]
fn an_executable_is_written_over_what_was_there(rt: HostRuntime) -> Result<(), Fail> {
    play(&rt, file_of(&rt, "written")?.as_str(), &OVERWRITTEN)
}

/// Sources that are refused, as bytes, and what is said of them.
static REFUSALS: [(&[u8], &str); 3] = [
    (b"a: a: eret", "vmhost: asm 1 line 1\n"),
    (b"", "vmhost: asm 8 line 0\n"),
    (b"eret # \xff", "vmhost: asm 1 line 1\n"),
];

fn check_refusal<R>(rt: &R, file: &str, source: &[u8], want: &str) -> Result<(), Fail>
where
    R: Files<File = File>
        + AllocGlobal
        + Abort
        + Threads
        + Wait
        + Net<Listener = TcpListener, Stream = TcpStream>
        + Sync,
{
    write_source(rt, file, source)?;
    refuses(rt, file, ASM, want)?;
    assert!(rt; !fs::exists(rt, file)?, "{want}");
    write(rt, file, b"before")?;
    refuses(rt, file, ASM, want)?;
    holds(rt, file, b"before")?;
    clear(rt, file)
}

#[test]
fn a_refused_source_leaves_the_file(rt: HostRuntime) -> Result<(), Fail> {
    let file = file_of(&rt, "refused")?;
    for (source, want) in &REFUSALS {
        check_refusal(&rt, file.as_str(), source, want)?;
    }
    Ok(())
}

/// What can't be read or written, and that a source's fault comes before that of the file that is written.
static NOT_THERE: [Step; 8] = [
    Step::Refuses(ASM, "vmhost: file FILE.s\n"),
    Step::Refuses("dis FILE", "vmhost: file FILE\n"),
    Step::Refuses("asm / FILE", "vmhost: file /\n"),
    Step::Refuses("dis /", "vmhost: file /\n"),
    Step::Source(b"eret"),
    Step::Refuses("asm FILE.s FILE/out", "vmhost: file FILE/out\n"),
    Step::Source(b"eret eret"),
    Step::Refuses("asm FILE.s FILE/out", "vmhost: asm 3 line 1\n"),
];

#[test]
fn files_that_are_not_there(rt: HostRuntime) -> Result<(), Fail> {
    play(&rt, file_of(&rt, "missing")?.as_str(), &NOT_THERE)
}
