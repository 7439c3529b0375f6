//! The program `memory_figures`: it runs small guests on too little memory, and prints what becomes of their pages: of ten guests of one
//! image, whose pages are scanned for equal ones (`sharing`), and of an active and an idle guest of equal shares, without a tax on idle
//! pages and then with one (`idling`). `bench/memory` shows its numbers as tables and plots.
//!
//! What the numbers are is not proved, but that a world did what it says: they are its own counts. The tests say what they have to show.
#![tactic(auto)]

mod guests;
mod idling;
mod sharing;

use std::io::Write;
use std::process::ExitCode;
use std::{env, io};

const USAGE: &str = "usage: memory_figures sharing|idling";

/// What the words after the program's name ask for.
enum Order {
    /// How the program is called.
    Usage,
    Sharing,
    Idling,
}

/// None where the words are refused.
fn parse(words: &[String]) -> Option<Order> {
    match words {
        [] => Some(Order::Usage),
        [name] => match name.as_str() {
            "sharing" => Some(Order::Sharing),
            "idling" => Some(Order::Idling),
            _ => None,
        },
        _ => None,
    }
}

fn run(rt: &HostRuntime) -> io::Result<ExitCode> {
    let words: Vec<String> = env::args(rt)?.skip(1).collect(rt.alloc())?;
    match parse(words.as_slice()) {
        Some(Order::Usage) => writeln!(rt.stdout(), "{USAGE}")?,
        Some(Order::Sharing) => {
            for guests in 1..=sharing::MOST_GUESTS {
                let books = sharing::books_of(rt.alloc(), guests)?;
                writeln!(rt.stdout(), "{guests} {books}")?;
            }
        }
        Some(Order::Idling) => {
            for period in &idling::periods(rt.alloc())? {
                writeln!(rt.stdout(), "{period}")?;
            }
        }
        None => {
            writeln!(rt.stderr(), "{USAGE}")?;
            return Ok(ExitCode::from(2));
        }
    }
    Ok(ExitCode::SUCCESS)
}

fn main(rt: HostRuntime) -> ExitCode {
    match run(&rt) {
        Ok(status) => status,
        Err(_) => ExitCode::from(1),
    }
}

#[cfg(test)]
mod tests;
