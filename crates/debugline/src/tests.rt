//! Lines cut in many ways, each command with its faults, and replies.
ghost use Rattle.debugline.specs.Replies.{HasReply};

use crate::{Answer, Command, Framer, Line, MOST_BYTES, parse, reply};
use items::DebugRegister;
use rand_core::utils::NextWord;
use rand_pcg::Pcg32;
use std::alloc::{AllocError, Global};
use std::process::Abort;
use std::test::Fail;

/// Lines, and the commands that they are.
const COMMANDS: [(&str, &str); 17] = [
    ("regs", "Regs"),
    ("reg 0", "Reg(DebugRegister { number: 0 })"),
    ("reg 25", "Reg(DebugRegister { number: 37 })"),
    ("reg 0000001F", "Reg(DebugRegister { number: 31 })"),
    ("set 2 6", "Set(DebugRegister { number: 2 }, 6)"),
    (
        "set 25 FFFFffff",
        "Set(DebugRegister { number: 37 }, 4294967295)",
    ),
    ("read 80000000 1", "Read { address: 2147483648, length: 1 }"),
    ("read 0 400", "Read { address: 0, length: 1024 }"),
    (
        "read aBcDeF01 00000010",
        "Read { address: 2882400001, length: 16 }",
    ),
    (
        "write 80000000 00",
        "Write { address: 2147483648, bytes: [0] }",
    ),
    ("write 8 0aFf", "Write { address: 8, bytes: [10, 255] }"),
    ("cont", "Cont"),
    ("step", "Step"),
    ("break 80000008", "Break(2147483656)"),
    ("clear 0", "Clear(0)"),
    ("detach", "Detach"),
    ("end", "End"),
];

/// Lines that are no commands.
const NO_COMMANDS: [&str; 62] = [
    "",
    " ",
    "stop",
    "regs ",
    " regs",
    "regs\r",
    "\tregs",
    "Regs",
    "reg\0",
    "regs 0",
    "reg",
    "reg ",
    "reg  0",
    "reg 0 ",
    "reg 0 0",
    "reg 26",
    "reg 000000001",
    "reg 100000000",
    "reg g",
    "reg -1",
    "reg +1",
    "reg 0x1",
    "reg $2",
    "set",
    "set 1",
    "set 1 ",
    "set 26 0",
    "set 1 100000000",
    "set 1 2 3",
    "set  1 2",
    "set 1  2",
    "read",
    "read 80000000",
    "read 80000000 ",
    "read 80000000 0",
    "read 0 401",
    "read 0 1 1",
    "read g 1",
    "read 1 g",
    "write 0",
    "write 0 ",
    "write 0 0",
    "write 0 000",
    "write 0 0g",
    "write 0 00 00",
    "write 0 00 ",
    "write g 00",
    "write 000000000 00",
    "cont 1",
    "cont ",
    "step 1",
    "break",
    "break ",
    "break 0 0",
    "break 100000000",
    "clear",
    "clear x",
    "clear 0 0",
    "detach 0",
    "end 0",
    "end ",
    "\u{e9}",
];

/// The lines of a stream in pieces of a size.
fn lines_in_pieces(alloc: Global, stream: &[u8], size: usize) -> Result<Vec<Line>, AllocError> {
    let mut framer = Framer::new(alloc);
    let mut lines = Vec::new(alloc);
    for piece in stream.chunks(size.max(1)) {
        for line in framer.feed(alloc, piece)? {
            lines.push(line)?;
        }
    }
    Ok(lines)
}

/// So many bytes `a`, and then a text.
fn long_text(
    alloc: Global,
    beginning: &str,
    count: usize,
    end: &str,
) -> Result<Vec<u8>, AllocError> {
    let mut text = Vec::new(alloc);
    text.extend_from_slice(beginning.as_bytes())?;
    for _ in 0..count {
        text.push(b'a')?;
    }
    text.extend_from_slice(end.as_bytes())?;
    Ok(text)
}

/// A line of a text.
fn line_of(alloc: Global, text: &str) -> Result<Line, AllocError> {
    Ok(Line::Text(text.as_bytes().to_vec(alloc)?))
}

#[test]
fn half_lines_wait(rt: HostRuntime) -> Result<(), Fail> {
    let mut framer = Framer::new(rt.alloc());
    let none = framer.feed(rt.alloc(), b"regs")?;
    assert!(rt; none.is_empty());
    let lines = framer.feed(rt.alloc(), b"\n\nstep\nco")?;
    let text = format!(in rt.alloc(); "{lines:?}")?;
    assert_eq!(rt;
        text.as_str(),
        "[Text([114, 101, 103, 115]), Text([]), Text([115, 116, 101, 112])]"
    );
    let lines = framer.feed(rt.alloc(), b"nt\n")?;
    let text = format!(in rt.alloc(); "{lines:?}")?;
    assert_eq!(rt; text.as_str(), "[Text([99, 111, 110, 116])]");
    Ok(())
}

#[test]
fn the_longest_line(rt: HostRuntime) -> Result<(), Fail> {
    for (count, is_long) in [
        (4095, false),
        (4096, false),
        (4097, true),
        (4098, true),
        (65536, true),
    ] {
        let stream = long_text(rt.alloc(), "", count, "\nreg 0\n")?;
        for size in [1usize, 4096, 70000] {
            let lines = lines_in_pieces(rt.alloc(), &stream, size)?;
            assert_eq!(rt; lines.len(), 2, "{count}");
            assert!(rt; (lines[0] == Line::Long) == is_long, "{count}");
            assert!(rt; parse(rt.alloc(), &lines[0])?.is_none());
            assert!(rt; parse(rt.alloc(), &lines[1])? == Some(Command::Reg(DebugRegister::new(0))));
        }
    }
    let endless = long_text(rt.alloc(), "", 65536, "")?;
    let lines = lines_in_pieces(rt.alloc(), &endless, 5000)?;
    assert!(rt; lines.is_empty());
    assert_eq!(rt; MOST_BYTES, 4096);
    Ok(())
}

/// A stream of random bytes, of which each eighth or so ends a line.
fn random_stream(alloc: Global, random: &mut Pcg32) -> Result<Vec<u8>, AllocError> {
    let mut stream = Vec::new(alloc);
    for _ in 0..300 {
        let word = random.next_word();
        stream.push(if word % 8 == 0 {
            b'\n'
        } else {
            (word / 256 % 256) as u8
        })?;
    }
    Ok(stream)
}

/// The lines of a stream in pieces of 1 to 20 bytes.
fn lines_in_random_pieces(
    alloc: Global,
    stream: &[u8],
    random: &mut Pcg32,
) -> Result<Vec<Line>, AllocError> {
    let mut framer = Framer::new(alloc);
    let mut lines = Vec::new(alloc);
    let mut rest = stream;
    for _ in 0..stream.len() {
        let size = random.next_word() as usize % 20 + 1;
        let (piece, more) = rest.split_at(size.min(rest.len()));
        for line in framer.feed(alloc, piece)? {
            lines.push(line)?;
        }
        rest = more;
    }
    Ok(lines)
}

#[test]
fn random_streams_however_they_are_cut(rt: HostRuntime) -> Result<(), Fail> {
    for seed in 1..=100 {
        let mut random = Pcg32::new(seed, 0);
        let stream = random_stream(rt.alloc(), &mut random)?;
        let whole = lines_in_pieces(rt.alloc(), &stream, 300)?;
        let lines = lines_in_random_pieces(rt.alloc(), &stream, &mut random)?;
        assert!(rt; lines == whole, "seed {seed}");
        let ends = stream.iter().filter(|byte| **byte == b'\n').count();
        assert_eq!(rt; whole.len(), ends, "seed {seed}");
        for line in &whole {
            let command = parse(rt.alloc(), line)?;
            assert!(rt; command.is_none(), "seed {seed}");
        }
    }
    Ok(())
}

#[test]
fn commands_and_lines_that_are_none(rt: HostRuntime) -> Result<(), Fail> {
    for (text, wanted) in COMMANDS {
        let Some(command) = parse(rt.alloc(), &line_of(rt.alloc(), text)?)? else {
            return Err("no command".into());
        };
        let shown = format!(in rt.alloc(); "{command:?}")?;
        assert_eq!(rt; shown.as_str(), wanted);
    }
    for text in NO_COMMANDS {
        assert!(rt;
            parse(rt.alloc(), &line_of(rt.alloc(), text)?)?.is_none(),
            "{text:?}"
        );
    }
    for (digits, taken) in [(2046, true), (2048, true), (2049, false), (2050, false)] {
        let line = Line::Text(long_text(rt.alloc(), "write 0 ", digits, "")?);
        assert_eq!(rt; parse(rt.alloc(), &line)?.is_some(), taken, "{digits}");
    }
    Ok(())
}

/// Asserts the text of an answer.
fn expect(rt: &impl Abort, alloc: Global, answer: Answer, wanted: &str) -> Result<(), AllocError>
    requires { HasReply answer }
{
    let text = reply(alloc, &answer)?;
    assert!(rt; text.as_str() == wanted, "{text}, not {wanted}");
    Ok(())
}

#[test]
fn replies(rt: HostRuntime) -> Result<(), Fail> {
    let alloc = rt.alloc();
    expect(&rt, alloc, Answer::Done, "ok")?;
    expect(&rt, alloc, Answer::Break, "break")?;
    expect(&rt, alloc, Answer::Held, "held")?;
    expect(&rt, alloc, Answer::Words(vec![in alloc; 5]?), "00000005")?;
    expect(
        &rt,
        alloc,
        Answer::Words(vec![in alloc; 0x8000_0008, 0xffff_ffff, 0, 0x0123_abcd]?),
        "80000008ffffffff000000000123abcd",
    )?;
    expect(
        &rt,
        alloc,
        Answer::Bytes(vec![in alloc; 0, 10, 255]?),
        "000aff",
    )?;
    expect(&rt, alloc, Answer::Error(0), "E00")?;
    expect(&rt, alloc, Answer::Error(1), "E01")?;
    expect(&rt, alloc, Answer::Error(14), "E14")?;
    expect(&rt, alloc, Answer::Error(99), "E99")?;
    Ok(())
}
