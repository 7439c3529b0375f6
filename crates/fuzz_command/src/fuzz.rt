//! The command `fuzz`.
ghost use Rattle.std.specs.Prelude.{◌≡◌, ◌≢◌, ℕ, None, IfErr, IfOk, IsErrOf};
ghost use Rattle.commands.specs.Raw.{IsPageCount};
ghost use Rattle.elf32.specs.Images.{FitsPages};
ghost use Rattle.fuzz_command.specs.Faults.{IsCommandFault, IsFuzzFault, IsSettingFault};
ghost use Rattle.fuzz_command.specs.Inputs.{AreBefore, AreInputs, BeginInputs};
ghost use Rattle.fuzz_command.specs.Settings.{CanRun, IsSettingOf, setting_of};
ghost use Rattle.fuzz_command.specs.Writing.{Begins, IsBroken, IsFuzzed, IsImage, IsLeft, Writes};

use crate::apart::outputs_are_apart;
use crate::fault::FuzzFault;
use crate::files::fuzz_files;
use crate::lines::{MOST_LINE, fuzz_lines};
use crate::order::FuzzOrder;
use crate::ready::make_ready;
use crate::records::{Keeper, Records};
use crate::setting::Setting;
use commands::Fault;
use commands::exec::load;
use commands::fault::of_file;
use commands::image_file::Loaded;
use elf32::Image;
use std::alloc::Global;
use std::fs::File;
use std::io::{BufRead, BufReader, Read, Write};
use std::rt::Files;
use std::thread::Threads;

/// How the runs of all inputs went.
#[derive(Clone, Copy, Debug, PartialEq, Eq)]
pub struct FuzzEnd {
    /// Whether a guest stopped before its last step.
    pub stopped: bool,
    /// The number of the first input, counted from 1, whose log could not be written.
    pub unwritten: Option<usize>,
    /// Whether the file of the words that were reached is written, where there is to be one.
    pub is_covered: bool,
}

/// How many bytes of lines are read ahead at least, where they have come.
const LEAST_AHEAD: usize = 8192;

// Runs the inputs of an order.
fn run_inputs<'a, R: Files + AllocGlobal + Threads + Sync, I: BufRead, K: Keeper, O: Write>(
    rt: &R,
    order: &FuzzOrder<'a>,
    setting: &Setting<'_>,
    input: &mut I,
    keeper: &mut K,
    out: &mut O,
) -> Result<bool, FuzzFault<'a>>
    requires can { CanRun setting.now }
    ensures lines { IfOk result (λ stopped. Writes (setting_of setting.now) (AreInputs order.now.inputs.items (I.remaining input.old)) (O.contents out.old) (O.contents out.new) stopped) }
    ensures broken { (n : ℕ) → IsErrOf result (FuzzFault.Line n) → Begins (setting_of setting.now) (AreBefore n (I.remaining input.old)) (O.contents out.old) (O.contents out.new) }
    ensures begun { IfErr result (λ fault. fault ≢ FuzzFault.Output → Begins (setting_of setting.now) (BeginInputs order.now.inputs.items (I.remaining input.old)) (O.contents out.old) (O.contents out.new)) }
    ensures faults { IfErr result (IsFuzzFault order.now) }
{
    if order.inputs.is_empty() {
        let room = order.jobs.batch(order.run.steps) * MOST_LINE;
        let mut ahead = match BufReader::with_capacity(rt.alloc(), room.max(LEAST_AHEAD), input) {
            Ok(ahead) => ahead,
            Err(_) => return Err(FuzzFault::Command(Fault::Memory)),
        };
        fuzz_lines(rt, setting, &order.jobs, &mut ahead, keeper, out)
    } else {
        fuzz_files(rt, setting, &order.jobs, &order.inputs, keeper, out)
    }
}

/// Runs the image in a file on each of the inputs of an order, as `fuzz_order` does.
///
/// An error is one of `fuzz_order`, but that the file is open and no output is in its way.
#[tactic(auto, using(crate::proofs::Faults::of_setting))]
pub fn fuzz_file<'a, R: Files + AllocGlobal + Threads + Sync, F: Read + Drop, I: BufRead, O: Write>(
    rt: &R,
    file: F,
    order: &FuzzOrder<'a>,
    input: &mut I,
    out: &mut O,
) -> Result<FuzzEnd, FuzzFault<'a>>
    ensures lines { IfOk result (λ end. IsFuzzed order.now (F.remaining file) (I.remaining input.old) (O.contents out.old) (O.contents out.new) end.stopped) }
    ensures broken { (n : ℕ) → IsErrOf result (FuzzFault.Line n) → IsBroken order.now (F.remaining file) (I.remaining input.old) (O.contents out.old) (O.contents out.new) n }
    ensures begun { IfErr result (λ fault. fault ≢ FuzzFault.Output → IsLeft order.now (F.remaining file) (I.remaining input.old) (O.contents out.old) (O.contents out.new)) }
    ensures faults { IfErr result (IsFuzzFault order.now) }
{
    let Loaded { image, digest } = load_image(rt.alloc(), file, order)?;
    let mut records = Records::new(rt, order)?;
    let setting = settled(rt.alloc(), order, &image, digest)?;
    let ran = run_inputs(rt, order, &setting, input, &mut records, out);
    let is_covered = records.write_coverage();
    let stopped = ran?;
    Ok(FuzzEnd {
        stopped,
        unwritten: records.unwritten(),
        is_covered,
    })
}

// The image that a file holds, for an order, and the file's digest.
fn load_image<'a, F: Read + Drop>(
    alloc: Global,
    file: F,
    order: &FuzzOrder<'a>,
) -> Result<Loaded, Fault<'a>>
    ensures image { IfOk result (λ loaded. IsImage order.now (F.remaining file) loaded.image) }
    ensures faults { IfErr result (IsCommandFault order.now) }
{
    load(alloc, file, order.run)
}

// How an order runs an image, whose machine is made ready.
fn settled<'o, 'a>(
    alloc: Global,
    order: &'o FuzzOrder<'a>,
    image: &Image,
    digest: [u8; 32],
) -> Result<Setting<'o>, FuzzFault<'a>>
    requires legal { IsPageCount order.now.run.profile order.now.run.pages }
    requires fits { FitsPages image.now order.now.run.pages }
    ensures can { IfOk result CanRun }
    ensures setting { IfOk result (λ setting. IsSettingOf order.now image.now (setting_of setting)) }
    ensures faults { IfErr result (IsSettingFault order.now) }
{
    let (home, made) = make_ready(alloc, order, image)?;
    Ok(Setting {
        home,
        made,
        profile: order.run.profile,
        pages: order.run.pages,
        steps: order.run.steps,
        until: &order.until,
        shown: order.shown,
        covers: order.reached || order.coverage.is_some(),
        reached: order.reached,
        logs: order.logs.map(|_| digest),
    })
}

/// Runs the image of an order on each of its inputs, or, where it has none, on each line that is read from `input`, of hexadecimal digits: each
/// on a machine that is as the order makes it ready. The line of each is written as soon as its run is over: it says how far the run went, why it ended,
/// and what the console had put out. The logs of runs that end in an exception are written into the directory of the order, if it names one;
/// and which words of memory PC led to in all runs, into the file that it names for that, also where an error ended them early.
///
/// An error is `Command`: `File` where an output would be written over the image or an input's file, and then where the image's file can't be read;
/// of the image `Elf`, `Raw` and `Boot` as `run_image` has them; `File` where the directory of the logs can't be made, and then where an input's
/// file can't be read or has more than 256 bytes; `Boot` and `Memory` where a request for memory was refused. `Unready`, before any input is read, where the machine does not come to the address where it
/// is ready: it stays in a loop for ever, or has made 2^30 steps. `Line` with the number of the first
/// line that is no input; `Unread` where the lines can't be read; `Output` where a line could not be written. But for the last the lines of the
/// inputs before stand, and nothing else.
pub fn fuzz_order<'a, R: Files + AllocGlobal + Threads + Sync, I: BufRead, O: Write>(
    rt: &R,
    order: &FuzzOrder<'a>,
    input: &mut I,
    out: &mut O,
) -> Result<FuzzEnd, FuzzFault<'a>>
    ensures lines { IfOk result (λ end. IsFuzzed order.now None (I.remaining input.old) (O.contents out.old) (O.contents out.new) end.stopped) }
    ensures broken { (n : ℕ) → IsErrOf result (FuzzFault.Line n) → IsBroken order.now None (I.remaining input.old) (O.contents out.old) (O.contents out.new) n }
    ensures begun { IfErr result (λ fault. fault ≢ FuzzFault.Output → IsLeft order.now None (I.remaining input.old) (O.contents out.old) (O.contents out.new)) }
    ensures faults { IfErr result (IsFuzzFault order.now) }
{
    outputs_are_apart(rt, order)?;
    let file = of_file(order.run.image, File::open(rt, order.run.image))?;
    fuzz_file(rt, file, order, input, out)
}
