//! The line of an input.
ghost use Rattle.std.specs.Prelude.{◌≡◌, ◌++◌, IfOk, OnOk, codes, flat_map, string_bytes};
ghost use Rattle.fuzz_command.specs.Lines as spec;
ghost use Rattle.fuzz_command.specs.Lines.{words_of};

use crate::order::Shown;
use dump::{push_digits, push_output_digits, push_word};
use masm::HexWord;
use mips_tlb::KSEG0;
use runs::{Ending, Ran, Runnable};
use sha2::{Digest, Sha256};
use std::alloc::{AllocError, Global};

// Why a run that didn't stop ended.
fn push_ending(out: &mut String, ending: Option<Ending>) -> Result<(), AllocError>
    ensures { OnOk result (string_bytes out.new ≡ string_bytes out.old ++ spec.ending_text ending) }
{
    match ending {
        None => out.push_str("steps"),
        Some(Ending::Loop(pc)) => {
            let pc = HexWord(pc);
            write!(out, "loop {pc}")
        }
        Some(Ending::Exception(code, epc)) => {
            let epc = HexWord(epc);
            write!(out, "exception {code} {epc}")
        }
        Some(Ending::Address(pc)) => {
            let pc = HexWord(pc);
            write!(out, "address {pc}")
        }
    }
}

// Why a run ended.
fn push_end(out: &mut String, ran: Ran) -> Result<(), AllocError>
    ensures { OnOk result (string_bytes out.new ≡ string_bytes out.old ++ spec.end_text ran.stop ran.ending) }
{
    match ran.stop {
        None => push_ending(out, ran.ending),
        Some(stop) => {
            let number = stop.number();
            write!(out, "stop {number}")
        }
    }
}

// A console's output, as it is to be shown.
fn push_shown(out: &mut String, shown: Shown, output: &[u8]) -> Result<(), AllocError>
    ensures { OnOk result (string_bytes out.new ≡ string_bytes out.old ++ spec.shown_text shown output.now) }
{
    match shown {
        Shown::Digest => {
            let digest = Sha256::digest(output);
            push_digits(out, &digest)
        }
        Shown::Digits => push_output_digits(out, output),
    }
}

/// The address of the word of memory of this number in kseg0, where it is the same whatever the TLB holds.
pub(crate) fn address_of(word: u32) -> u32
    ensures { result ≡ spec.word_address word }
{
    word.wrapping_mul(4).wrapping_add(KSEG0)
}

// The addresses of words of memory.
fn push_addresses(out: &mut String, words: &[u32]) -> Result<(), AllocError>
    ensures { OnOk result (string_bytes out.new ≡ string_bytes out.old ++ flat_map spec.address_text words.now) }
{
    for word in words {
        out.push_str(" ")?;
        push_word(out, address_of(*word))?;
    }
    Ok(())
}

// The words of memory that were reached, where they are to be shown.
fn push_reached(out: &mut String, reached: Option<&[u32]>) -> Result<(), AllocError>
    ensures { OnOk result (string_bytes out.new ≡ string_bytes out.old ++ spec.reached_text (words_of reached.entry)) }
{
    let Some(words) = reached else {
        return Ok(());
    };
    out.push_str(" reached")?;
    if words.is_empty() {
        out.push_str(" -")
    } else {
        push_addresses(out, words)
    }
}

/// The line of a run of this name, after which the machine is this; with the words of memory that were reached, where they are shown.
pub(crate) fn line_of<M: Runnable>(
    alloc: Global,
    shown: Shown,
    name: &str,
    ran: Ran,
    machine: &M,
    reached: Option<&[u32]>,
) -> Result<String, AllocError>
    ensures { IfOk result (λ text. string_bytes text ≡ spec.run_text shown name.now ran (M.state machine.now).board.devices.console.output (words_of reached.entry)) }
{
    let output = machine.view().devices.copy_output()?;
    let mut out = String::from_str(alloc, name)?;
    let steps = ran.steps;
    write!(out, " steps {steps} ")?;
    push_end(&mut out, ran)?;
    out.push_str(" out ")?;
    push_shown(&mut out, shown, &output)?;
    push_reached(&mut out, reached)?;
    out.push_str("\n")?;
    Ok(out)
}
