//! The program `vmhost`: it assembles, disassembles and runs MIPS32 machine code in a virtual machine.
//!
//! All that it does is `command_line::program`, over the system's files and streams. What it writes to standard output is gathered until it is
//! handed on, so that a script's replies are not a call of the system each.
#![tactic(auto)]

use command_line::program::{program, unreadable, words};
use command_line::progress::Progress;
use std::io::{BufWriter, IsTerminal};
use std::process::ExitCode;

fn main(rt: HostRuntime) -> ExitCode {
    let mut err = rt.stderr();
    let mut out = match BufWriter::new(rt.alloc(), rt.stdout()) {
        Ok(out) => out,
        Err(error) => return ExitCode::from(unreadable(&error, &mut err)),
    };
    let told = rt.stderr();
    let terminal = if told.is_terminal() { Some(told) } else { None };
    let mut watch = Progress::new(&rt, terminal);
    let status = match words(&rt) {
        Ok(words) => {
            program(
                &rt,
                words.as_slice(),
                &mut rt.reader(),
                &mut out,
                &mut err,
                &mut watch,
            )
        }
        Err(error) => unreadable(&error, &mut err),
    };
    ExitCode::from(status)
}

#[cfg(test)]
mod tests;
