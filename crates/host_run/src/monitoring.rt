//! The monitor: a person's lines, and what is replied to each.
ghost use Rattle.std.specs.Prelude.{◌≡◌, ◌≤◌, length};
ghost use Rattle.monitor_answers.specs.Hands.{AreHands};

use crate::switches::Switches;
use cell::Gate;
use debugline::{Framer, Line};
use host::Host;
use monitor::Fault;
use monitor_answers::{Answer, MonitorHand, hear};
use std::alloc::Global;
use std::io;
use std::io::{ErrorKind, Read, Write};
use std::sync::Wait;
use swapstore::SwapStore;

/// How many bytes of the input are read at once.
const PIECE: usize = 4096;

/// How often the text of a reply is tried where there is no memory for it.
const TRIES: u32 = 16;

/// Why the monitor ended.
#[derive(Clone, Copy, Debug, PartialEq, Eq)]
pub enum Leave {
    /// A line said `quit`, to which nothing is replied yet.
    Quit,
    /// The input ended, or could not be read.
    InputEnded,
    /// A reply could not be written.
    OutputFailed,
}

// The next bytes of the input; none at its end.
fn read<I: Read>(input: &mut I, piece: &mut [u8]) -> usize
    ensures { result ≤ length piece.new }
{
    for _ in 0..u64::MAX {
        match input.read(piece) {
            Ok(count) => return count,
            Err(error) => {
                if error.kind() != ErrorKind::Interrupted {
                    return 0;
                }
            }
        }
    }
    0
}

// What is answered to a line; None where it is `quit`. A line that is too long is no command.
fn answer_to<S: SwapStore + Drop, G: Gate + Drop, R: Wait>(
    rt: &R,
    alloc: Global,
    host: &Host<S, G>,
    switches: &Switches,
    hands: &mut [MonitorHand],
    line: &Line,
) -> Option<Answer>
    requires switches { length switches.now.stops.items ≡ length host.now.guests.cells.items }
    requires hands { AreHands host.now.guests.cells.items hands.old }
    ensures hands { AreHands host.now.guests.cells.items hands.new }
{
    match line {
        Line::Text(bytes) => hear(rt, alloc, host, hands, &switches.stops, bytes),
        Line::Long => Some(Answer::Refused(Fault::Command)),
    }
}

// The lines of an answer. Where there is no memory for them, also later, that is said in their place.
fn write_answer<O: Write>(alloc: Global, answer: &Answer, out: &mut O) -> io::Result<()> {
    for _ in 0..TRIES {
        if let Ok(text) = answer.text(alloc) {
            return write_text(out, text.as_str());
        }
    }
    write_line(out, Fault::Memory.text())
}

fn write_line<O: Write>(out: &mut O, line: &str) -> io::Result<()> {
    writeln!(out, "{line}")?;
    out.flush()
}

fn write_text<O: Write>(out: &mut O, text: &str) -> io::Result<()> {
    out.write_all(text.as_bytes())?;
    out.flush()
}

// Answers a line. Some where the monitor ends with it.
fn take_line<S: SwapStore + Drop, G: Gate + Drop, R: Wait, O: Write>(
    rt: &R,
    alloc: Global,
    host: &Host<S, G>,
    switches: &Switches,
    hands: &mut [MonitorHand],
    line: &Line,
    out: &mut O,
) -> Option<Leave>
    requires switches { length switches.now.stops.items ≡ length host.now.guests.cells.items }
    requires hands { AreHands host.now.guests.cells.items hands.old }
    ensures hands { AreHands host.now.guests.cells.items hands.new }
{
    let Some(given) = answer_to(rt, alloc, host, switches, hands, line) else {
        return Some(Leave::Quit);
    };
    // One that was held may go on now.
    switches.wake_all();
    match write_answer(alloc, &given, out) {
        Ok(()) => None,
        Err(_) => Some(Leave::OutputFailed),
    }
}

// Takes the next piece of the input, and answers each line that it ends, in order. Some where the monitor ends with one of them.
fn take<S: SwapStore + Drop, G: Gate + Drop, R: Wait, O: Write>(
    rt: &R,
    alloc: Global,
    host: &Host<S, G>,
    switches: &Switches,
    hands: &mut [MonitorHand],
    framer: &mut Framer,
    piece: &[u8],
    out: &mut O,
) -> Option<Leave>
    requires switches { length switches.now.stops.items ≡ length host.now.guests.cells.items }
    requires hands { AreHands host.now.guests.cells.items hands.old }
    ensures hands { AreHands host.now.guests.cells.items hands.new }
{
    let Ok(lines) = framer.feed(alloc, piece) else {
        return match write_line(out, Fault::Memory.text()) {
            Ok(()) => None,
            Err(_) => Some(Leave::OutputFailed),
        };
    };
    for line in &lines {
        if let Some(leave) = take_line(rt, alloc, host, switches, hands, line, out) {
            return Some(leave);
        }
    }
    None
}

/// Answers the lines of the input, one after another, by seat 1 of each guest, until one says `quit` or the input ends. The last line needn't end
/// by a line feed.
pub(crate) fn rule<S: SwapStore + Drop, G: Gate + Drop, R: Wait, I: Read, O: Write>(
    rt: &R,
    alloc: Global,
    host: &Host<S, G>,
    switches: &Switches,
    hands: &mut [MonitorHand],
    input: &mut I,
    out: &mut O,
) -> Leave
    requires switches { length switches.now.stops.items ≡ length host.now.guests.cells.items }
    requires hands { AreHands host.now.guests.cells.items hands.old }
    ensures hands { AreHands host.now.guests.cells.items hands.new }
{
    let mut framer = Framer::new(alloc);
    let mut piece = [0u8; PIECE];
    let mut is_begun = false;
    for _ in rt.forever() {
        let count = read(input, &mut piece);
        let came: &[u8] = match count {
            0 if is_begun => b"\n",
            0 => return Leave::InputEnded,
            _ => &piece[..count],
        };
        is_begun = !came.ends_with(b"\n");
        if let Some(leave) = take(rt, alloc, host, switches, hands, &mut framer, came, out) {
            return leave;
        }
    }
    unreachable!()
}
