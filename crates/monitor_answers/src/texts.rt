//! The lines of each answer.
ghost use Rattle.std.specs.Prelude.{◌≡◌, ◌++◌, IfOk, OnOk, Option, codes, decimal, string_bytes};
ghost use Rattle.std.specs.List.{flat_map};
ghost use Rattle.guest_log.specs.Stops.{stop_number};
ghost use Rattle.monitor.specs.Faults.{fault_text};
ghost use Rattle.reclaim.specs.Levels.{level_name};
ghost use Rattle.monitor_answers.specs.Texts as spec;

use crate::{Answer, GuestLine, Way};
use guest::Stop;
use guest_number::GuestNo;
use machine_memory::BookCounts;
use monitor::Fault;
use reclaim::Level;
use std::alloc::{AllocError, Global};

/// The orders that there are.
pub const HELP: &str = "list           a line for each guest, then end
books          the books of frames, pages and slots
level          the level of free memory
tax N          the tax on idle memory becomes N percent, 0 to 99
target G N     guest G is asked to give N pages to its balloon
hold G         guest G makes no further step
go G           guest G goes on
log G          how many items and runs the log of guest G has
in G HEX       bytes for the console of guest G
drain G        what the console of guest G has put out
room           the frames and slots left over by the guests' minimums
help           these lines
quit           the host ends, and writes the logs
end
";

fn push_way(out: &mut String, way: Way) -> Result<(), AllocError>
    ensures { OnOk result (string_bytes out.new ≡ string_bytes out.old ++ spec.way_text way) }
{
    match way {
        Way::Runs => out.push_str("run"),
        Way::Held => out.push_str("held"),
        Way::Blocked => out.push_str("blocked"),
        Way::Stopped(number) => write!(out, "stop {number}"),
    }
}

// A count behind its label.
fn push_count(out: &mut String, label: &str, count: u64) -> Result<(), AllocError>
    ensures { OnOk result (string_bytes out.new ≡ string_bytes out.old ++ label.now ++ decimal count) }
{
    write!(out, "{label}{count}")
}

// A number of pages, shares or guests behind its label.
fn push_number(out: &mut String, label: &str, number: u32) -> Result<(), AllocError>
    ensures { OnOk result (string_bytes out.new ≡ string_bytes out.old ++ label.now ++ decimal number) }
{
    write!(out, "{label}{number}")
}

fn push_pages(out: &mut String, line: &GuestLine) -> Result<(), AllocError>
    ensures { OnOk result (string_bytes out.new ≡ string_bytes out.old ++ spec.pages_text line.now) }
{
    push_number(out, "guest ", line.guest.number())?;
    push_number(out, " pages ", line.pages)?;
    push_number(out, " resident ", line.resident)?;
    push_number(out, " given ", line.given)?;
    push_number(out, " swapped ", line.swapped)
}

fn push_standing(out: &mut String, line: &GuestLine) -> Result<(), AllocError>
    ensures { OnOk result (string_bytes out.new ≡ string_bytes out.old ++ spec.standing_text line.now) }
{
    push_number(out, " shares ", line.shares)?;
    out.push_str(" ")?;
    push_way(out, line.way)?;
    out.push_str("\n")
}

fn push_guest(out: &mut String, line: &GuestLine) -> Result<(), AllocError>
    ensures { OnOk result (string_bytes out.new ≡ string_bytes out.old ++ spec.line_text line.now) }
{
    push_pages(out, line)?;
    push_standing(out, line)
}

fn push_guests(out: &mut String, lines: &[GuestLine]) -> Result<(), AllocError>
    ensures { OnOk result (string_bytes out.new ≡ string_bytes out.old ++ flat_map spec.line_text lines.now) }
{
    for line in lines {
        push_guest(out, line)?;
    }
    Ok(())
}

fn push_list(out: &mut String, lines: &[GuestLine]) -> Result<(), AllocError>
    ensures { OnOk result (string_bytes out.new ≡ string_bytes out.old ++ (flat_map spec.line_text lines.now ++ codes "end\n")) }
{
    push_guests(out, lines)?;
    out.push_str("end\n")
}

fn push_books(out: &mut String, counts: &BookCounts) -> Result<(), AllocError>
    ensures { OnOk result (string_bytes out.new ≡ string_bytes out.old ++ spec.books_text counts.now) }
{
    push_count(out, "frames ", counts.frames)?;
    push_count(out, " free ", counts.free)?;
    push_count(out, " private ", counts.private)?;
    push_count(out, " shared ", counts.shared)?;
    push_count(out, " refs ", counts.references)?;
    push_count(out, " slots ", counts.swapped)?;
    push_count(out, " of ", counts.slots)?;
    out.push_str("\n")
}

fn push_level(out: &mut String, level: Level) -> Result<(), AllocError>
    ensures { OnOk result (string_bytes out.new ≡ string_bytes out.old ++ (codes "level " ++ level_name level ++ codes "\n")) }
{
    let name = level.name();
    writeln!(out, "level {name}")
}

fn push_log(out: &mut String, guest: GuestNo, items: u64, runs: u32) -> Result<(), AllocError>
    ensures { OnOk result (string_bytes out.new ≡ string_bytes out.old
        ++ (codes "log " ++ decimal guest ++ codes " items " ++ decimal items ++ codes " runs " ++ decimal runs ++ codes "\n")) }
{
    let guest = guest.number();
    writeln!(out, "log {guest} items {items} runs {runs}")
}

fn push_put(out: &mut String, guest: GuestNo, count: usize) -> Result<(), AllocError>
    ensures { OnOk result (string_bytes out.new ≡ string_bytes out.old ++ (codes "in " ++ decimal guest ++ codes " " ++ decimal count ++ codes "\n")) }
{
    let guest = guest.number();
    writeln!(out, "in {guest} {count}")
}

fn push_digits(alloc: Global, out: &mut String, bytes: &[u8]) -> Result<(), AllocError>
    ensures { OnOk result (string_bytes out.new ≡ string_bytes out.old ++ spec.output_digits bytes.now) }
{
    match bytes {
        [] => out.push_str("-"),
        _ => {
            let digits = hex::encode(alloc, bytes)?;
            out.push_str(digits.as_str())
        }
    }
}

fn push_output(
    alloc: Global,
    out: &mut String,
    guest: GuestNo,
    bytes: &[u8],
) -> Result<(), AllocError>
    ensures { OnOk result (string_bytes out.new ≡ string_bytes out.old ++ (codes "drain " ++ decimal guest ++ codes " " ++ spec.output_digits bytes.now ++ codes "\n")) }
{
    let guest = guest.number();
    write!(out, "drain {guest} ")?;
    push_digits(alloc, out, bytes)?;
    out.push_str("\n")
}

fn push_left(out: &mut String, frames: u32, slots: u32) -> Result<(), AllocError>
    ensures { OnOk result (string_bytes out.new ≡ string_bytes out.old ++ spec.left_text frames slots) }
{
    push_number(out, "room frames ", frames)?;
    push_number(out, " slots ", slots)?;
    out.push_str("\n")
}

fn push_room(out: &mut String, left: Option<(u32, u32)>) -> Result<(), AllocError>
    ensures { OnOk result (string_bytes out.new ≡ string_bytes out.old ++ spec.room_text left) }
{
    match left {
        None => out.push_str("room none\n"),
        Some(left) => push_left(out, left.0, left.1),
    }
}

fn push_stop(out: &mut String, stop: Stop) -> Result<(), AllocError>
    ensures { OnOk result (string_bytes out.new ≡ string_bytes out.old ++ (codes "error stop " ++ decimal (stop_number stop) ++ codes "\n")) }
{
    let number = stop.number();
    writeln!(out, "error stop {number}")
}

fn push_fault(out: &mut String, fault: Fault) -> Result<(), AllocError>
    ensures { OnOk result (string_bytes out.new ≡ string_bytes out.old ++ (fault_text fault ++ codes "\n")) }
{
    out.push_str(fault.text())?;
    out.push_str("\n")
}

// Writes the lines of an answer.
fn push_answer(alloc: Global, out: &mut String, answer: &Answer) -> Result<(), AllocError>
    ensures { OnOk result (string_bytes out.new ≡ string_bytes out.old ++ spec.answer_text answer.now) }
{
    match answer {
        Answer::Done => out.push_str("ok\n"),
        Answer::Guests(lines) => push_list(out, lines),
        Answer::Books(counts) => push_books(out, counts),
        Answer::Level(level) => push_level(out, *level),
        Answer::Log { guest, items, runs } => push_log(out, *guest, *items, *runs),
        Answer::Put { guest, count } => push_put(out, *guest, *count),
        Answer::Output { guest, bytes } => push_output(alloc, out, *guest, bytes),
        Answer::Room(left) => push_room(out, *left),
        Answer::Help => out.push_str(HELP),
        Answer::Stopped(stop) => push_stop(out, *stop),
        Answer::Refused(fault) => push_fault(out, *fault),
    }
}

impl Answer {
    ghost use Rattle.std.specs.Prelude.{◌≡◌, IfOk, string_bytes};
    ghost use Rattle.monitor_answers.specs.Texts as spec;

    /// The lines of the answer, each with its line feed: one, but several of `list` and `help`, whose last is `end`.
    ///
    /// `AllocError` where memory is refused: the answer can be told again.
    pub fn text(&self, alloc: Global) -> Result<String, AllocError>
        ensures { IfOk result (λ text. string_bytes text ≡ spec.answer_text self.now) }
    {
        let mut text = String::new(alloc);
        push_answer(alloc, &mut text, self)?;
        Ok(text)
    }
}
