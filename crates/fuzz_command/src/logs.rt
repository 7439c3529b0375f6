//! The logs of runs that end in an exception.
ghost use Rattle.std.specs.Prelude.{IfErr};
ghost use Rattle.fuzz_command.specs.Faults.{IsCommandFault};

use crate::job::CrashLog;
use crate::order::FuzzOrder;
use commands::Fault;
use commands::log_file::{log_name, make_directory};
use output_file::{is_one_file, write_file};
use std::rt::Files;

/// The files of the logs of runs, in a directory; or none, where there is no directory for them.
#[derive(Drop)]
pub(crate) struct CrashLogs<'r, 'a, R: Files + AllocGlobal> {
    rt: &'r R,
    directory: Option<&'a str>,
    image: &'a str,
    unwritten: Option<usize>,
}

impl<'r, 'a, R: Files + AllocGlobal> CrashLogs<'r, 'a, R> {
    /// Files in the directory of an order, if it names one, which is made where it is not there.
    pub(crate) fn new(rt: &'r R, order: &FuzzOrder<'a>) -> Result<CrashLogs<'r, 'a, R>, Fault<'a>>
        ensures { IfErr result (IsCommandFault order.now) }
    {
        if let Some(name) = order.logs {
            make_directory(rt, name)?;
        }
        Ok(CrashLogs {
            rt,
            directory: order.logs,
            image: order.run.image,
            unwritten: None,
        })
    }

    /// The number of the first input whose log could not be written; None where each was, or none was to be.
    pub(crate) fn unwritten(&self) -> Option<usize> {
        self.unwritten
    }

    /// Whether the log of an input's run is written. None is written over the image.
    fn write(&self, directory: &str, number: usize, bytes: &[u8]) -> bool {
        let Ok(name) = log_name(self.rt.alloc(), directory, number) else {
            return false;
        };
        !is_one_file(self.rt, name.as_str(), self.image)
            && write_file(self.rt, name.as_str(), bytes).is_ok()
    }

    /// Keeps the log of the run of the input of this number, if it is to be kept.
    pub(crate) fn keep(&mut self, number: usize, log: &CrashLog) {
        let Some(directory) = self.directory else {
            return;
        };
        let kept = match log {
            CrashLog::Unwanted => true,
            CrashLog::File(bytes) => self.write(directory, number, bytes),
            CrashLog::Lost => false,
        };
        if !kept && self.unwritten.is_none() {
            self.unwritten = Some(number);
        }
    }
}
