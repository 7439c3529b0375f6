//! The lines of what is answered to events.
ghost use Rattle.std.specs.Prelude.{◌≡◌, ◌++◌, OnOk, codes, decimal, string_bytes};
ghost use Rattle.page_moves.specs.declared.scan.Scan.{Scan};
ghost use Rattle.simulation.specs.Lines as spec;

use crate::{Act, PageCounts, Said};
use dump::{push_digits, push_output_digits};
use guest::{Refused, Stop};
use guest_number::GuestNo;
use machine::{Reply, Why};
use page_moves::Scan;
use reclaim::Level;
use sharetab::GuestPage;
use std::alloc::AllocError;
use tenant::EvictError;
use world::events::Fed;
use world::{
    Answer, BookCounts, DebugError, End, Event, Evicted, FaultError, MoveCounts, Ran, RunStop, Turn,
};

/// What a line begins with where it names its event and its guest.
#[derive(Clone, Copy, Debug, PartialEq, Eq)]
pub enum Heading {
    Step(GuestNo),
    Run(GuestNo),
    In(GuestNo),
    Drain(GuestNo),
    Stats(GuestNo),
    Audit(GuestNo),
    /// It names neither.
    Bare,
}

/// What the line of an act begins with. That of an item does only where it is the output of a console.
pub fn heading_of(act: &Act) -> Heading
    ensures { result ≡ spec.heading_of act.now }
{
    match act {
        Act::World(Event::Steps(guest, _)) => Heading::Step(*guest),
        Act::World(Event::Run(guest, _)) => Heading::Run(*guest),
        Act::World(Event::Feed(guest, _)) => Heading::In(*guest),
        Act::World(Event::Input(guest, _)) => Heading::Drain(*guest),
        Act::Stats(guest) => Heading::Stats(*guest),
        Act::Pages(guest) => Heading::Audit(*guest),
        _ => Heading::Bare,
    }
}

/// The number by which what stops an event is known: 1 no frame, 2 no slot, 3 a slot that could not be read, 4 one that is damaged,
/// 5 no memory of the host, 6 a log that is full.
fn stop_number(stop: RunStop) -> u32
    ensures { result ≡ spec.stop_number stop }
{
    match stop {
        RunStop::NoFrame => 1,
        RunStop::NoSwap => 2,
        RunStop::SwapRead => 3,
        RunStop::SwapDamaged => 4,
        RunStop::Memory => 5,
        RunStop::LogFull => 6,
    }
}

fn push_stop(out: &mut String, stop: RunStop) -> Result<(), AllocError>
    ensures { OnOk result (string_bytes out.new ≡ string_bytes out.old ++ spec.stop_text stop) }
{
    let number = stop_number(stop);
    write!(out, "stop {number}")
}

fn push_why(out: &mut String, why: Why) -> Result<(), AllocError>
    ensures { OnOk result (string_bytes out.new ≡ string_bytes out.old ++ spec.why_text why) }
{
    match why {
        Why::First => out.push_str("first"),
        Why::Swapped => out.push_str("swapped"),
        Why::Copy => out.push_str("copy"),
    }
}

fn push_end(out: &mut String, end: End) -> Result<(), AllocError>
    ensures { OnOk result (string_bytes out.new ≡ string_bytes out.old ++ spec.end_text end) }
{
    match end {
        End::Done => Ok(()),
        End::Need(page, why) => {
            let number = page.number();
            write!(out, " need {number} ")?;
            push_why(out, why)
        }
        End::Stop(stop) => {
            out.push_str(" ")?;
            push_stop(out, stop)
        }
    }
}

fn push_heading(out: &mut String, heading: Heading) -> Result<(), AllocError>
    ensures { OnOk result (string_bytes out.new ≡ string_bytes out.old ++ spec.heading_text heading) }
{
    match heading {
        Heading::Step(guest) => write!(out, "step {} ", guest.number()),
        Heading::Run(guest) => write!(out, "run {} ", guest.number()),
        Heading::In(guest) => write!(out, "in {} ", guest.number()),
        Heading::Drain(guest) => write!(out, "drain {} ", guest.number()),
        Heading::Stats(guest) => write!(out, "stats {} ", guest.number()),
        Heading::Audit(guest) => write!(out, "audit {} ", guest.number()),
        Heading::Bare => Ok(()),
    }
}

fn push_ran(out: &mut String, heading: Heading, ran: Ran) -> Result<(), AllocError>
    ensures { OnOk result (string_bytes out.new ≡ string_bytes out.old ++ spec.ran_text heading ran) }
{
    let steps = ran.steps;
    push_heading(out, heading)?;
    write!(out, "done {steps}")?;
    push_end(out, ran.end)?;
    out.push_str("\n")
}

// No step of a guest that is blocked.
fn push_blocked(out: &mut String, heading: Heading) -> Result<(), AllocError>
    ensures { OnOk result (string_bytes out.new ≡ string_bytes out.old ++ spec.blocked_text heading) }
{
    push_heading(out, heading)?;
    out.push_str("done 0 blocked")?;
    out.push_str("\n")
}

fn push_fed_end(out: &mut String, stop: Option<Stop>) -> Result<(), AllocError>
    ensures { OnOk result (string_bytes out.new ≡ string_bytes out.old ++ spec.fed_end_text stop) }
{
    match stop {
        None => Ok(()),
        Some(stop) => {
            out.push_str(" ")?;
            push_stop(out, RunStop::from(stop))
        }
    }
}

fn push_fed(out: &mut String, heading: Heading, fed: Fed) -> Result<(), AllocError>
    ensures { OnOk result (string_bytes out.new ≡ string_bytes out.old ++ spec.fed_text heading fed) }
{
    let count = fed.count;
    push_heading(out, heading)?;
    write!(out, "{count}")?;
    push_fed_end(out, fed.stop)?;
    out.push_str("\n")
}

fn push_output(out: &mut String, heading: Heading, output: &[u8]) -> Result<(), AllocError>
    ensures { OnOk result (string_bytes out.new ≡ string_bytes out.old ++ spec.output_text heading output.now) }
{
    push_heading(out, heading)?;
    push_output_digits(out, output)?;
    out.push_str("\n")
}

fn push_stopped(out: &mut String, stop: RunStop) -> Result<(), AllocError>
    ensures { OnOk result (string_bytes out.new ≡ string_bytes out.old ++ spec.stopped_text stop) }
{
    push_stop(out, stop)?;
    out.push_str("\n")
}

fn push_input(
    out: &mut String,
    heading: Heading,
    done: &Result<Reply, Refused>,
) -> Result<(), AllocError>
    ensures { OnOk result (string_bytes out.new ≡ string_bytes out.old ++ spec.input_text heading done.now) }
{
    match done {
        Ok(Reply::Done) => out.push_str("ok\n"),
        Ok(Reply::Output(output)) => push_output(out, heading, output),
        Err(Refused::Machine) => Ok(()),
        Err(Refused::Away(_)) => Ok(()),
        Err(Refused::Stop(stop)) => push_stopped(out, RunStop::from(*stop)),
    }
}

fn push_access_error(out: &mut String, error: DebugError) -> Result<(), AllocError>
    ensures { OnOk result (string_bytes out.new ≡ string_bytes out.old ++ spec.access_text error) }
{
    match error {
        DebugError::NoPlace => out.push_str("error E14\n"),
        DebugError::Stop(stop) => push_stopped(out, stop),
    }
}

fn push_probed(out: &mut String, done: &Result<Vec<u8>, DebugError>) -> Result<(), AllocError>
    ensures { OnOk result (string_bytes out.new ≡ string_bytes out.old ++ spec.probed_text done.now) }
{
    match done {
        Ok(bytes) => {
            push_digits(out, bytes)?;
            out.push_str("\n")
        }
        Err(error) => push_access_error(out, *error),
    }
}

fn push_written(out: &mut String, done: Result<(), DebugError>) -> Result<(), AllocError>
    ensures { OnOk result (string_bytes out.new ≡ string_bytes out.old ++ spec.written_text done) }
{
    match done {
        Ok(()) => out.push_str("ok\n"),
        Err(error) => push_access_error(out, error),
    }
}

fn push_faulted(out: &mut String, done: Result<(), FaultError>) -> Result<(), AllocError>
    ensures { OnOk result (string_bytes out.new ≡ string_bytes out.old ++ spec.faulted_text done) }
{
    match done {
        Ok(()) => out.push_str("ok\n"),
        Err(error) => push_stopped(out, RunStop::from(error)),
    }
}

fn push_admitted(out: &mut String, other: GuestPage) -> Result<(), AllocError>
    ensures { OnOk result (string_bytes out.new ≡ string_bytes out.old ++ spec.scan_text (Scan.Admitted other)) }
{
    let guest = other.guest.number();
    let page = other.page.number();
    writeln!(out, "admitted {guest} {page}")
}

fn push_scan(out: &mut String, scan: Scan) -> Result<(), AllocError>
    ensures { OnOk result (string_bytes out.new ≡ string_bytes out.old ++ spec.scan_text scan) }
{
    match scan {
        Scan::Noted => out.push_str("noted\n"),
        Scan::Admitted(other) => push_admitted(out, other),
        Scan::Joined => out.push_str("joined\n"),
        Scan::Skipped => out.push_str("skipped\n"),
        Scan::Memory => push_stopped(out, RunStop::Memory),
    }
}

fn push_evicted(out: &mut String, evicted: Result<Evicted, EvictError>) -> Result<(), AllocError>
    ensures { OnOk result (string_bytes out.new ≡ string_bytes out.old ++ spec.evict_text evicted) }
{
    match evicted {
        Ok(Evicted::Done) => out.push_str("ok\n"),
        Ok(Evicted::Skipped) => out.push_str("skipped\n"),
        Err(EvictError::NoSwap) => out.push_str("refused 2\n"),
        Err(EvictError::SwapWrite) => out.push_str("refused 8\n"),
    }
}

fn push_level(out: &mut String, level: Level) -> Result<(), AllocError>
    ensures { OnOk result (string_bytes out.new ≡ string_bytes out.old ++ spec.level_text level) }
{
    let name = level.name();
    writeln!(out, "level {name}")
}

// A count behind its label.
fn push_count(out: &mut String, label: &str, count: u64) -> Result<(), AllocError>
    ensures { OnOk result (string_bytes out.new ≡ string_bytes out.old ++ label.now ++ decimal count) }
{
    write!(out, "{label}{count}")
}

fn push_books(out: &mut String, counts: BookCounts) -> Result<(), AllocError>
    ensures { OnOk result (string_bytes out.new ≡ string_bytes out.old ++ spec.books_text counts) }
{
    push_count(out, "frames ", counts.frames)?;
    push_count(out, " free ", counts.free)?;
    push_count(out, " private ", counts.private)?;
    push_count(out, " shared ", counts.shared)?;
    push_count(out, " refs ", counts.references)?;
    push_count(out, " slots ", counts.swapped)?;
    push_count(out, " of ", counts.slots)?;
    out.push_str("\n")
}

// How many pages of a guest are where.
fn push_pages(out: &mut String, heading: Heading, counts: PageCounts) -> Result<(), AllocError>
    ensures { OnOk result (string_bytes out.new ≡ string_bytes out.old ++ spec.pages_text heading counts) }
{
    push_heading(out, heading)?;
    push_count(out, "private ", counts.private)?;
    push_count(out, " shared ", counts.shared)?;
    push_count(out, " swapped ", counts.swapped)?;
    push_count(out, " given ", counts.given)?;
    push_count(out, " zero ", counts.zero)?;
    out.push_str("\n")
}

// How many pages got a frame, or came to read a shared one.
fn push_gained(out: &mut String, counts: MoveCounts) -> Result<(), AllocError>
    ensures { OnOk result (string_bytes out.new ≡ string_bytes out.old ++ spec.gained_text counts) }
{
    push_count(out, "first ", counts.first)?;
    push_count(out, " copied ", counts.copied)?;
    push_count(out, " read ", counts.read)?;
    push_count(out, " joined ", counts.joined)
}

// How many pages left their frames for slots.
fn push_left(out: &mut String, counts: MoveCounts) -> Result<(), AllocError>
    ensures { OnOk result (string_bytes out.new ≡ string_bytes out.old ++ spec.left_text counts) }
{
    push_count(out, " fault ", counts.fault)?;
    push_count(out, " run ", counts.run)?;
    push_count(out, " debugger ", counts.debugger)?;
    push_count(out, " level ", counts.level)?;
    push_count(out, " evict ", counts.order)
}

fn push_moves(out: &mut String, heading: Heading, counts: MoveCounts) -> Result<(), AllocError>
    ensures { OnOk result (string_bytes out.new ≡ string_bytes out.old ++ spec.moves_text heading counts) }
{
    push_heading(out, heading)?;
    push_gained(out, counts)?;
    push_left(out, counts)?;
    out.push_str("\n")
}

fn push_turned(out: &mut String, done: &Result<Turn, AllocError>) -> Result<(), AllocError>
    ensures { OnOk result (string_bytes out.new ≡ string_bytes out.old ++ spec.turned_text done.now) }
{
    match done {
        Ok(turn) => push_level(out, turn.level),
        Err(_) => push_stopped(out, RunStop::Memory),
    }
}

// What the world answers to an event.
fn push_answer(out: &mut String, heading: Heading, answer: &Answer) -> Result<(), AllocError>
    ensures { OnOk result (string_bytes out.new ≡ string_bytes out.old ++ spec.answer_text heading answer.now) }
{
    match answer {
        Answer::Ran(ran) => push_ran(out, heading, *ran),
        Answer::Blocked => push_blocked(out, heading),
        Answer::Fed(fed) => push_fed(out, heading, *fed),
        Answer::Input(done) => push_input(out, heading, done),
        Answer::Probed(done) => push_probed(out, done),
        Answer::Written(done) => push_written(out, *done),
        Answer::Faulted(done) => push_faulted(out, *done),
        Answer::Evicted(done) => push_evicted(out, *done),
        Answer::Scanned(scan) => push_scan(out, *scan),
        Answer::Sampled => out.push_str("ok\n"),
        Answer::Turned(done) => push_turned(out, done),
        Answer::Stepped(_) => Ok(()),
        Answer::Supplied(_) => Ok(()),
        Answer::Nowhere => Ok(()),
    }
}

fn push_dumped(out: &mut String, done: &Result<String, AllocError>) -> Result<(), AllocError>
    ensures { OnOk result (string_bytes out.new ≡ string_bytes out.old ++ spec.dumped_text done.now) }
{
    match done {
        Ok(text) => out.push_str(text),
        Err(_) => push_stopped(out, RunStop::Memory),
    }
}

fn push_damaged(out: &mut String, done: &Result<(), AllocError>) -> Result<(), AllocError>
    ensures { OnOk result (string_bytes out.new ≡ string_bytes out.old ++ spec.damaged_text done.now) }
{
    match done {
        Ok(()) => out.push_str("ok\n"),
        Err(_) => push_stopped(out, RunStop::Memory),
    }
}

/// Writes the line of what is answered to an act, or the lines of a dump, where the line begins with this.
pub fn push_said(out: &mut String, heading: Heading, said: &Said) -> Result<(), AllocError>
    ensures { OnOk result (string_bytes out.new ≡ string_bytes out.old ++ spec.said_text heading said.now) }
{
    match said {
        Said::Answered(answer) => push_answer(out, heading, answer),
        Said::Skipped => out.push_str("skipped\n"),
        Said::Counted(counts) => push_books(out, *counts),
        Said::Placed(counts) => push_pages(out, heading, *counts),
        Said::Dumped(done) => push_dumped(out, done),
        Said::Moved(counts) => push_moves(out, heading, *counts),
        Said::Damaged(done) => push_damaged(out, done),
    }
}
