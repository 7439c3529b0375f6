//! What is kept of runs beside their lines.
ghost use Rattle.std.specs.Prelude.{IfErr};
ghost use Rattle.commands.specs.Raw.{IsPageCount};
ghost use Rattle.fuzz_command.specs.Faults.{IsCommandFault};

use crate::coverage::Coverage;
use crate::job::RunResult;
use crate::logs::CrashLogs;
use crate::order::FuzzOrder;
use commands::Fault;
use output_file::write_file;
use std::alloc::{AllocError, Global};
use std::rt::Files;

/// Whoever keeps what the runs of inputs gave.
pub(crate) trait Keeper {
    /// Keeps what the run of the input of this number and name gave, if it is to be kept.
    fn keep(&mut self, number: usize, name: &str, done: &RunResult);
}

/// The logs of runs that are to be kept, and the words of memory that PC led to, where they are to be written.
#[derive(Drop)]
pub(crate) struct Records<'r, 'a, R: Files + AllocGlobal> {
    rt: &'r R,
    logs: CrashLogs<'r, 'a, R>,
    coverage: Coverage,
    // whether no line of it is lacking
    is_whole: bool,
    file: Option<&'a str>,
}

// The coverage of an order, before the first run: of each word of a machine's memory, where it asks for one.
#[tactic(auto, using(crate::proofs::Limits::few_pages))]
fn first_coverage(alloc: Global, order: &FuzzOrder<'_>) -> Result<Coverage, AllocError>
    requires { IsPageCount order.now.run.profile order.now.run.pages }
{
    match order.coverage {
        Some(_) => Coverage::new(alloc, order.run.pages),
        None => Ok(Coverage::none(alloc)),
    }
}

impl<'r, 'a, R: Files + AllocGlobal> Records<'r, 'a, R> {
    /// Those of an order. The directory for its logs is made where it is not there.
    pub(crate) fn new(rt: &'r R, order: &FuzzOrder<'a>) -> Result<Records<'r, 'a, R>, Fault<'a>>
        requires { IsPageCount order.now.run.profile order.now.run.pages }
        ensures { IfErr result (IsCommandFault order.now) }
    {
        let logs = CrashLogs::new(rt, order)?;
        let coverage = first_coverage(rt.alloc(), order)?;
        Ok(Records {
            rt,
            logs,
            coverage,
            is_whole: true,
            file: order.coverage,
        })
    }

    /// The number of the first input whose log could not be written; None where each was, or none was to be.
    pub(crate) fn unwritten(&self) -> Option<usize> {
        self.logs.unwritten()
    }

    /// Writes the words that were reached, where they are to be written; false where they can't be.
    pub(crate) fn write_coverage(&self) -> bool {
        match self.file {
            Some(name) => self.is_whole
                && write_file(self.rt, name, self.coverage.text().as_bytes()).is_ok(),
            None => true,
        }
    }
}

impl<R: Files + AllocGlobal> Keeper for Records<'_, '_, R> {
    fn keep(&mut self, number: usize, name: &str, done: &RunResult) {
        self.logs.keep(number, &done.log);
        if self.file.is_some() && self.coverage.add(name, &done.reached).is_err() {
            self.is_whole = false;
        }
    }
}
