//! How far a run is, told on a terminal.
use runs::Watch;
use std::io;
use std::io::Write;
use std::time::{Clock, Instant};

/// How many milliseconds a run says nothing of itself.
const QUIET: u128 = 2000;

/// How many milliseconds a line stands at least.
const STANDS: u128 = 200;

/// Tells on a terminal how many steps a run has made so far and how many it makes a second, in one line that is written again and again,
/// first where the run has taken two seconds; and wipes it where the run is over. Where there is no terminal, or no clock, it tells nothing.
#[derive(Drop)]
pub struct Progress<'a, C: Clock, E: Write + Drop> {
    clock: &'a C,
    terminal: Option<E>,
    /// When it was made.
    begun: Option<Instant>,
    /// How many milliseconds after that a line was written last.
    shown: Option<u128>,
}

impl<'a, C: Clock, E: Write + Drop> Progress<'a, C, E> {
    /// Of a run that begins now, told to this terminal, if there is one.
    pub fn new(clock: &'a C, terminal: Option<E>) -> Progress<'a, C, E> {
        let begun = Instant::now(clock).ok();
        Progress {
            clock,
            terminal,
            begun,
            shown: None,
        }
    }

    /// How many milliseconds the run has taken so far, where a line is due.
    fn due(&self) -> Option<u128> {
        let taken = self.begun?.elapsed(self.clock).ok()?.as_millis();
        let next = match self.shown {
            None => QUIET,
            Some(shown) => shown.saturating_add(STANDS),
        };
        if taken < next { None } else { Some(taken) }
    }
}

impl<'a, C: Clock, E: Write + Drop> Watch for Progress<'a, C, E> {
    fn made(&mut self, steps: u32) {
        if self.terminal.is_none() {
            return;
        }
        let Some(taken) = self.due() else {
            return;
        };
        self.shown = Some(taken);
        if let Some(terminal) = &mut self.terminal {
            let _ = write_line(terminal, steps, taken);
        }
    }

    fn over(&mut self) {
        if self.shown.is_none() {
            return;
        }
        self.shown = None;
        if let Some(terminal) = &mut self.terminal {
            let _ = wipe(terminal);
        }
    }
}

/// Writes over the line so many steps, made in so many milliseconds, and how many a second these are.
fn write_line<E: Write>(terminal: &mut E, steps: u32, taken: u128) -> io::Result<()> {
    let rate = u128::from(steps) * 1000 / taken.max(1);
    write!(terminal, "\r{steps} steps so far, {rate} a second\x1b[K")?;
    terminal.flush()
}

/// Wipes the line.
fn wipe<E: Write>(terminal: &mut E) -> io::Result<()> {
    terminal.write_all(b"\r\x1b[K")?;
    terminal.flush()
}
