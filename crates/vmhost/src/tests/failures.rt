//! Files that fail in mid-stream, and streams that can't be written.
use super::{Said, clear, file_of, say, words_of, write};
use command_line::program::{program, unreadable};
use commands::asm::executable_of;
use commands::dis::disassembly;
use commands::fault::of_file;
use commands::image_file::{elf_image, raw_image};
use commands::{Exec, Fault, Format, MachineKind};
use guest::Stop;
use mips_cp0::Profile;
use output_file::write_bytes;
use runs::Nobody;
use std::alloc::Global;
use std::fs::File;
use std::io;
use std::io::{Read, Write};
use std::net::{Net, TcpListener, TcpStream};
use std::process::Abort;
use std::rt::Files;
use std::sync::Wait;
use std::test::Fail;
use std::thread::Threads;

/// Gives zeros, one at a time, and fails after so many of them.
#[derive(Drop)]
struct Failing {
    left: u32,
    kind: io::ErrorKind,
}

impl Read for Failing {
    fn read(&mut self, buf: &mut [u8]) -> io::Result<usize> {
        if self.left == 0 {
            return Err(io::Error::from(self.kind));
        }
        match buf.first_mut() {
            Some(byte) => {
                *byte = 0;
                self.left -= 1;
                Ok(1)
            }
            None => Ok(0),
        }
    }
}

/// The kinds of error that a read fails with, and what is said of the file `x` then.
static KINDS: [(io::ErrorKind, &str); 2] = [
    (io::ErrorKind::BrokenPipe, "file x"),
    (io::ErrorKind::OutOfMemory, "memory"),
];

/// Sees that there is a fault, and its text.
fn check_fault<R: AllocGlobal + Abort>(
    rt: &R,
    fault: Option<Fault>,
    want: &str,
) -> Result<(), Fail> {
    let text = format!(in rt.alloc(); "{}", fault.ok_or("no fault")?)?;
    assert_eq!(rt; text.as_str(), want);
    Ok(())
}

#[test]
fn a_read_that_fails_is_no_shorter_file(rt: HostRuntime) -> Result<(), Fail> {
    for (profile, pages) in [
        (Profile::One, 1),
        (Profile::One, 2),
        (Profile::One, 16_384),
        (Profile::One, 16_385),
        (Profile::Two, 32_768),
        (Profile::Two, 32_769),
    ] {
        let order = Exec {
            image: "x",
            format: Format::Raw,
            kind: MachineKind::Guest,
            profile,
            pages,
            steps: 1,
            log: None,
        };
        for left in [0, 1, 4, 4096] {
            for (kind, want) in &KINDS {
                let image = raw_image(rt.alloc(), Failing { left, kind: *kind }, order);
                check_fault(&rt, image.err(), want)?;
            }
        }
    }
    Ok(())
}

fn check_reads(
    rt: &(impl Abort + AllocGlobal),
    left: u32,
    kind: io::ErrorKind,
    want: &str,
) -> Result<(), Fail> {
    let alloc = rt.alloc();
    check_fault(
        rt,
        elf_image(alloc, Failing { left, kind }, "x", 16).err(),
        want,
    )?;
    check_fault(
        rt,
        disassembly(alloc, Failing { left, kind }, "x").err(),
        want,
    )?;
    check_fault(
        rt,
        executable_of(alloc, Failing { left, kind }, "x").err(),
        want,
    )
}

#[test]
fn an_executable_or_a_source_that_cannot_be_read(rt: HostRuntime) -> Result<(), Fail> {
    for left in [0, 1, 52, 4096] {
        for (kind, want) in &KINDS {
            check_reads(&rt, left, *kind, want)?;
        }
    }
    Ok(())
}

const CONTENT: &[u8] = b"executable";

/// Writes the content where there is room for so many bytes, and sees what of it was written; gives the fault.
fn write_narrow(
    rt: &(impl Abort + AllocGlobal),
    room: usize,
    got: &[u8],
) -> Option<Fault<'static>> {
    let mut file = Narrow::new(rt.alloc(), room);
    let fault = of_file("x", write_bytes(&mut file, CONTENT)).err();
    assert_eq!(rt; file.got.as_slice(), got);
    fault
}

#[test]
fn an_executable_that_cannot_be_written(rt: HostRuntime) -> Result<(), Fail> {
    for room in 0..10 {
        let fault = write_narrow(&rt, room, &CONTENT[..room]);
        check_fault(&rt, fault, "file x")?;
    }
    let fault = write_narrow(&rt, 10, CONTENT);
    assert!(rt; fault.is_none());
    Ok(())
}

/// Takes so many bytes, at most three at a time, and then fails; a flush fails where it has taken that many.
#[derive(Drop)]
struct Narrow {
    got: Vec<u8>,
    room: usize,
}

impl Narrow {
    fn new(alloc: Global, room: usize) -> Narrow {
        Narrow {
            got: Vec::new(alloc),
            room,
        }
    }
}

impl Write for Narrow {
    fn write(&mut self, buf: &[u8]) -> io::Result<usize> {
        let left = self.room.saturating_sub(self.got.len());
        if left == 0 {
            return Err(io::Error::from(io::ErrorKind::StorageFull));
        }
        let count = buf.len().min(left).min(3);
        self.got.extend_from_slice(&buf[..count])?;
        Ok(count)
    }

    fn flush(&mut self) -> io::Result<()> {
        if self.got.len() < self.room {
            Ok(())
        } else {
            Err(io::Error::from(io::ErrorKind::StorageFull))
        }
    }
}

/// What stands on the error output where the output took no more.
static UNPRINTED: &str =
    "vmhost: output\n  standard output takes no more, as where its disk is full; what stands there may be cut off\n";

/// Command lines, and the status that they have where all can be written; `FILE` is a raw image.
static ANSWERS: [(&str, u8); 6] = [
    ("--help", 0),
    ("exec --raw FILE", 0),
    ("exec FILE", 1),
    ("dis FILE", 1),
    ("asm FILE FILE", 1),
    ("exec", 2),
];

fn check_streams<R>(rt: &R, file: &str, line: &str, status: u8) -> Result<(), Fail>
where
    R: Files<File = File>
        + AllocGlobal
        + Abort
        + Threads
        + Wait
        + Net<Listener = TcpListener, Stream = TcpStream>
        + Sync,
{
    let ample = say(rt, line, file)?;
    assert_eq!(rt; ample.status, status, "{line}");
    let words = words_of(rt.alloc(), line, file)?;
    let whole = ample.out.len().max(ample.err.len());
    for room in 0..whole.saturating_add(2) {
        let fits = room > whole;
        let got = answer_in(rt, words.as_slice(), room, &ample, fits);
        let want = if fits { status } else { 1 };
        assert_eq!(rt; got, (want, true), "{line}, room {room}");
    }
    Ok(())
}

/// The status where each output takes so many bytes, in which the ample answer fits or doesn't, and whether both got a beginning of that, or the
/// error output, where it is to be silent, one of the words for an output that took no more.
fn answer_in<R>(rt: &R, words: &[String], room: usize, ample: &Said, fits: bool) -> (u8, bool)
where
    R: Files<File = File>
        + AllocGlobal
        + Threads
        + Wait
        + Net<Listener = TcpListener, Stream = TcpStream>
        + Sync,
{
    let mut out = Narrow::new(rt.alloc(), room);
    let mut err = Narrow::new(rt.alloc(), room);
    let status = program(rt, words, &mut io::empty(), &mut out, &mut err, &mut Nobody);
    let told = if fits || !ample.err.is_empty() {
        ample.err.as_str()
    } else {
        UNPRINTED
    };
    (
        status,
        begins(ample.out.as_str(), &out) && begins(told, &err),
    )
}

fn begins(whole: &str, got: &Narrow) -> bool {
    whole.as_bytes().starts_with(got.got.as_slice())
}

#[test]
fn streams_that_fail(rt: HostRuntime) -> Result<(), Fail> {
    let file = file_of(&rt, "streams")?;
    write(&rt, file.as_str(), b"\x02\x00\x01\x8c")?;
    for (line, status) in &ANSWERS {
        check_streams(&rt, file.as_str(), line, *status)?;
    }
    clear(&rt, file.as_str())
}

/// The kinds of error with which the command line can't be read, the status, and what is written then.
static UNREADABLE: [(io::ErrorKind, u8, &str); 2] = [
    (io::ErrorKind::OutOfMemory, 1, "vmhost: memory\n"),
    (
        io::ErrorKind::InvalidData,
        2,
        "error: the command line is no UTF-8 text\n",
    ),
];

fn check_unreadable(rt: &(impl Abort + AllocGlobal), kind: io::ErrorKind, status: u8, text: &str) {
    let mut err = Vec::new(rt.alloc());
    let found = unreadable(&io::Error::from(kind), &mut err);
    assert_eq!(rt; (found, err.as_slice()), (status, text.as_bytes()));
}

fn check_unwritten(rt: &(impl Abort + AllocGlobal), kind: io::ErrorKind) {
    let mut narrow = Narrow::new(rt.alloc(), 4);
    assert_eq!(rt; unreadable(&io::Error::from(kind), &mut narrow), 1);
}

#[test]
fn a_command_line_that_cannot_be_read(rt: HostRuntime) {
    for (kind, status, text) in &UNREADABLE {
        check_unreadable(&rt, *kind, *status, text);
        check_unwritten(&rt, *kind);
    }
}

#[test]
fn numbers_of_stops_and_text_of_want_of_memory(rt: HostRuntime) -> Result<(), Fail> {
    assert_eq!(rt; (Stop::Memory.number(), Stop::LogFull.number()), (5, 6));
    assert_eq!(rt;
        format!(in rt.alloc(); "{}", Fault::Memory)?.as_str(),
        "memory"
    );
    Ok(())
}
