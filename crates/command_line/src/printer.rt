//! A standard output, and why it takes no more.
ghost use Rattle.std.specs.Prelude.{◌≡◌, is_ok, IfOk};
ghost use Rattle.std.specs.IoError.{error_kind};
ghost use Rattle.command_line.specs.Exit.{AppendsFront, code_of, unprinted_text};

use crate::program::Status;
use std::io;
use std::io::{ErrorKind, Write};

/// A standard output that notes why it took no more, where who prints doesn't tell that.
#[derive(Drop)]
pub(crate) struct Printer<'a, O> {
    out: &'a mut O,
    failed: Option<ErrorKind>,
}

impl<'a, O> Printer<'a, O> {
    /// It has taken all so far.
    pub(crate) fn new(out: &'a mut O) -> Printer<'a, O> {
        Printer { out, failed: None }
    }

    /// An answer, with the reason where it could not be printed and that is known.
    pub(crate) fn told(self, answered: io::Result<Status>) -> io::Result<Status>
        ensures same { is_ok result ≡ is_ok answered }
        ensures status { IfOk result (λ s. answered ≡ Ok s) }
    {
        match (answered, self.failed) {
            (Ok(status), _) => Ok(status),
            (Err(_), Some(kind)) => Err(io::Error::from(kind)),
            (Err(error), None) => Err(error),
        }
    }
}

// What became of a call, and in `failed` why it failed, if it did.
fn noted<T: Drop>(failed: &mut Option<ErrorKind>, answered: io::Result<T>) -> io::Result<T>
    ensures { result ≡ answered }
{
    if let Err(error) = &answered {
        *failed = Some(error.kind());
    }
    answered
}

impl<O: Write> Write for Printer<'_, O> {
    ghost contents = { λ p. O.contents p.out.now };

    fn write(&mut self, buf: &[u8]) -> io::Result<usize> {
        let answered = self.out.write(buf);
        noted(&mut self.failed, answered)
    }

    fn write_all(&mut self, buf: &[u8]) -> io::Result<()> {
        let answered = self.out.write_all(buf);
        noted(&mut self.failed, answered)
    }

    fn flush(&mut self) -> io::Result<()> {
        let answered = self.out.flush();
        noted(&mut self.failed, answered)
    }
}

/// What is said of a standard output that takes no more.
const UNPRINTED: &[u8] =
    b"vmhost: output\n  standard output takes no more, as where its disk is full; what stands there may be cut off\n";

/// Says that not all could be printed, where that is of use: not where the reader of the output has ended, nor where another output failed, or there
/// was no memory. Where neither output takes more the status alone tells it.
pub(crate) fn tell_unprinted<E: Write>(error: &io::Error, err: &mut E) -> Status
    ensures status { code_of result ≡ 1 }
    ensures silent { error_kind error.now ≡ ErrorKind.BrokenPipe → err.new ≡ err.old }
    ensures told { AppendsFront (E.contents err.old) (E.contents err.new) unprinted_text }
{
    match error.kind() {
        ErrorKind::BrokenPipe | ErrorKind::Other => {}
        _ => write_front(err, UNPRINTED),
    }
    Status::Refused
}

/// Writes a text as far as it can be written.
fn write_front<W: Write>(to: &mut W, text: &[u8])
    ensures { AppendsFront (W.contents to.old) (W.contents to.new) text.now }
{
    let mut rest = text;
    // Each turn writes a byte at least, unless it is interrupted.
    for _ in 0..text.len() {
        match to.write(rest) {
            Ok(0) => break,
            Ok(count) => rest = &rest[count..],
            Err(error) if error.kind() == ErrorKind::Interrupted => {}
            Err(_) => break,
        }
    }
    let _ = to.flush();
}
