//! The program `memory_bench`: it does one small part of what a guest's memory and its log need so many times, and prints a
//! number that depends on the work. `bench/memory_parts` times it from outside.
//!
//! `Work` has what can be done, and does it; `appending`, `accesses` and `sharing` have the loops. Few of their contracts say
//! what is done: bodies that do nothing keep them, so that the work is done at all is seen by the tests of `work` and by the times.
#![tactic(auto)]

mod accesses;
mod appending;
mod frame;
mod sharing;
mod work;

use std::io::Write;
use std::process::ExitCode;
use std::{env, io};
use work::Work;

const USAGE: &str =
    "usage: memory_bench append_step|append|look|load|store|plain_load|plain_store|offer|join|digest COUNT";

/// What the words after the program's name ask for.
enum Order {
    /// How the program is called.
    Usage,
    /// So many rounds of a work.
    Rounds(Work, u32),
}

/// None where the words are refused.
fn parse(words: &[String]) -> Option<Order> {
    match words {
        [] => Some(Order::Usage),
        [name, count] => match (Work::named(name.as_str()), count.parse::<u32>()) {
            (Some(work), Ok(count)) => Some(Order::Rounds(work, count)),
            _ => None,
        },
        _ => None,
    }
}

fn run(rt: &HostRuntime) -> io::Result<ExitCode> {
    let words: Vec<String> = env::args(rt)?.skip(1).collect(rt.alloc())?;
    match parse(words.as_slice()) {
        Some(Order::Usage) => writeln!(rt.stdout(), "{USAGE}")?,
        Some(Order::Rounds(work, count)) => {
            let answer = work.rounds(rt.alloc(), count)?;
            writeln!(rt.stdout(), "{answer}")?;
        }
        None => {
            writeln!(rt.stderr(), "{USAGE}")?;
            return Ok(ExitCode::from(2));
        }
    }
    Ok(ExitCode::SUCCESS)
}

fn main(rt: HostRuntime) -> ExitCode {
    match run(&rt) {
        Ok(status) => status,
        Err(_) => ExitCode::from(1),
    }
}

#[cfg(test)]
mod tests;
