//! The lines that are sent back.
ghost use Rattle.std.specs.Prelude.{◌≡◌, ◌+◌, ◌<◌, ◌++◌, IfOk, OnOk, OnErr, string_bytes};
ghost use Rattle.debugline.specs.Lines.{ended};
ghost use Rattle.debugline.specs.Replies.{HasReply, reply_of, error_text};
ghost use Rattle.host.specs.Stops.{stop_number};
ghost use Rattle.debug_session.specs.Replies.{error_number, words_shown, reply_bytes};

use crate::State;
use cell::Registers;
use debugline::{Answer, reply};
use host::{DebugError, Reply, Stop};
use items::DebugRegister;
use std::alloc::{AllocError, Global};

// The number of the error by which a stop is told.
pub(crate) fn stop_error(stop: Stop) -> u8
    ensures value { result ≡ 30 + stop_number stop }
    ensures small { result < 100 }
{
    match stop {
        Stop::NoFrame => 31,
        Stop::NoSwap => 32,
        Stop::SwapRead => 33,
        Stop::SwapDamaged => 34,
        Stop::Memory => 35,
        Stop::LogFull => 36,
    }
}

// The number of the error by which a refusal is told.
fn error_of(error: DebugError) -> u8
    ensures value { result ≡ error_number error }
    ensures small { result < 100 }
{
    match error {
        DebugError::NoBreakpoint => 2,
        DebugError::NoPlace => 14,
        DebugError::Stop(stop) => stop_error(stop),
    }
}

// The words of one register, or of all.
fn words_of(
    alloc: Global,
    which: Option<DebugRegister>,
    words: &Registers,
) -> Result<Vec<u32>, AllocError>
    ensures { IfOk result (λ shown. shown.items ≡ words_shown which words.now) }
{
    match which {
        None => words.to_vec(alloc),
        Some(register) => {
            let one = [words[register.number() as usize]];
            one.to_vec(alloc)
        }
    }
}

// What is answered where a request was done, of whose registers one or all are wanted.
fn answer_of(alloc: Global, which: Option<DebugRegister>, done: Reply) -> Result<Answer, AllocError>
    ensures text { IfOk result (λ answer. reply_of answer ≡ reply_bytes which done) }
    ensures sound { IfOk result (λ answer. HasReply answer) }
{
    match done {
        Reply::Registers(words) => Ok(Answer::Words(words_of(alloc, which, &words)?)),
        Reply::Bytes(bytes) => Ok(Answer::Bytes(bytes)),
        Reply::Done => Ok(Answer::Done),
    }
}

// Sends an answer as a line, behind what is to be sent already.
pub(crate) fn tell(alloc: Global, out: &mut String, answer: &Answer) -> Result<(), AllocError>
    requires { HasReply answer.now }
    ensures ok { OnOk result (string_bytes out.new ≡ string_bytes out.old ++ ended (reply_of answer.now)) }
    ensures err { OnErr result (string_bytes out.new ≡ string_bytes out.old) }
{
    let mut line = reply(alloc, answer)?;
    line.push('\n')?;
    out.push_str(line.as_str())
}

// Tells that a request was done, of whose registers one or all are wanted. The session waits for the next line then.
pub(crate) fn tell_done(
    alloc: Global,
    which: Option<DebugRegister>,
    done: Reply,
    out: &mut String,
) -> Result<State, AllocError>
    ensures state { IfOk result (λ next. next ≡ State.Ready) }
    ensures said { OnOk result (string_bytes out.new ≡ string_bytes out.old ++ ended (reply_bytes which done)) }
{
    let answer = answer_of(alloc, which, done)?;
    tell(alloc, out, &answer)?;
    Ok(State::Ready)
}

// Tells why a request was refused.
pub(crate) fn tell_refused(
    alloc: Global,
    error: DebugError,
    out: &mut String,
) -> Result<State, AllocError>
    ensures state { IfOk result (λ next. next ≡ State.Ready) }
    ensures said { OnOk result (string_bytes out.new ≡ string_bytes out.old ++ ended (error_text (error_number error))) }
{
    tell(alloc, out, &Answer::Error(error_of(error)))?;
    Ok(State::Ready)
}
