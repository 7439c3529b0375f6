//! The program `host_bench`: it does one thing of a host so many times, and prints a number that depends on the work. `bench/host` times it
//! from outside.
//!
//! `Work` has what can be done, and does it: steps of a guest in a world (`alone`) and by slices of a host (`slices`), calls to a guest while
//! another thread runs it (`beside`), and scans and evictions of its pages (`moving`). It is the same guest in each (`guests`). That no
//! more is done than is asked for is proved, and that each look at a log is counted; that all of it is done is seen by the tests.
#![tactic(auto)]

mod alone;
mod beside;
mod guests;
mod hosts;
mod moving;
mod reading;
mod slices;
mod work;

use std::alloc::Global;
use std::io::Write;
use std::process::ExitCode;
use std::sync::Wait;
use std::thread::Threads;
use std::{env, io};
use work::Work;

const USAGE: &str = "usage: host_bench world_steps|slices|feed|seen|read|scan|evict COUNT";

/// What the words after the program's name ask for.
enum Order {
    /// How the program is called.
    Usage,
    /// So many rounds of a work.
    Rounds(Work, u32),
}

/// None where the words are refused.
fn parse(words: &[String]) -> Option<Order> {
    match words {
        [] => Some(Order::Usage),
        [name, count] => match (Work::named(name.as_str()), count.parse::<u32>()) {
            (Some(work), Ok(count)) => Some(Order::Rounds(work, count)),
            _ => None,
        },
        _ => None,
    }
}

// The words after the program's name.
fn words(rt: &HostRuntime) -> io::Result<Vec<String>> {
    Ok(env::args(rt)?.skip(1).collect(rt.alloc())?)
}

// Does what the words ask for.
fn run<R: Threads + Wait + Sync, O: Write, E: Write>(
    rt: &R,
    alloc: Global,
    words: &[String],
    out: &mut O,
    err: &mut E,
) -> io::Result<ExitCode> {
    match parse(words) {
        Some(Order::Usage) => writeln!(out, "{USAGE}")?,
        Some(Order::Rounds(work, count)) => {
            let answer = work.rounds(rt, alloc, count)?;
            writeln!(out, "{answer}")?;
        }
        None => {
            writeln!(err, "{USAGE}")?;
            return Ok(ExitCode::from(2));
        }
    }
    Ok(ExitCode::SUCCESS)
}

fn main(rt: HostRuntime) -> ExitCode {
    let Ok(words) = words(&rt) else {
        return ExitCode::from(1);
    };
    match run(
        &rt,
        rt.alloc(),
        words.as_slice(),
        &mut rt.stdout(),
        &mut rt.stderr(),
    ) {
        Ok(status) => status,
        Err(_) => ExitCode::from(1),
    }
}

#[cfg(test)]
mod tests;
