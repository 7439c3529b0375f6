//! The text of the registers that a dump leaves out.
ghost use Rattle.std.specs.Prelude.{◌≡◌, ◌++◌, ◌<◌, OnOk, length, string_bytes};
ghost use Rattle.dump.specs.Dumps.{field_text};
ghost use Rattle.inspection.specs.Registers as spec;

use masm::HexWord;
use mips_cp0::{Cp0, SystemRegister};
use mips_step::Cpu;
use mips_tlb::{Entry, Tlb};
use std::alloc::AllocError;

/// Writes the registers of a processor that a dump leaves out, while these interrupt lines are raised.
pub fn push_processor(out: &mut String, cpu: &Cpu, lines: u8) -> Result<(), AllocError>
    ensures { OnOk result (string_bytes out.new ≡ string_bytes out.old ++ spec.processor_text lines cpu.now) }
{
    push_system(out, cpu.cp0(), lines)?;
    push_state(out, cpu)?;
    push_entries(out, cpu.tlb())
}

/// HI, LO, whether an SC would store, and what follows the delay slot that PC stands in.
fn push_state(out: &mut String, cpu: &Cpu) -> Result<(), AllocError>
    ensures { OnOk result (string_bytes out.new ≡ string_bytes out.old ++ spec.state_text cpu.now) }
{
    push_product(out, cpu)?;
    push_link(out, cpu.ll_bit())?;
    push_slot(out, cpu.slot())
}

/// A word behind its label, on a line of its own.
#[tactic(auto, unfolding(crate::specs::Registers::line_text))]
fn push_word(out: &mut String, label: &str, word: u32) -> Result<(), AllocError>
    ensures { OnOk result (string_bytes out.new ≡ string_bytes out.old ++ spec.line_text label.now word) }
{
    let word = HexWord(word);
    writeln!(out, "{label}{word}")
}

/// A system register by its number and name, on a line of its own.
#[tactic(auto, unfolding(crate::specs::Registers::register_text))]
fn push_register(out: &mut String, number: &str, name: &str, word: u32) -> Result<(), AllocError>
    ensures { OnOk result (string_bytes out.new ≡ string_bytes out.old ++ spec.register_text number.now name.now word) }
{
    let word = HexWord(word);
    writeln!(out, "cp0 {number} {name} {word}")
}

fn push_system(out: &mut String, cp0: &Cp0, lines: u8) -> Result<(), AllocError>
    ensures { OnOk result (string_bytes out.new ≡ string_bytes out.old ++ spec.system_text lines cp0.now) }
{
    push_first(out, cp0, lines)?;
    push_second(out, cp0, lines)?;
    push_third(out, cp0, lines)?;
    push_fourth(out, cp0, lines)
}

fn push_first(out: &mut String, cp0: &Cp0, lines: u8) -> Result<(), AllocError>
    ensures { OnOk result (string_bytes out.new ≡ string_bytes out.old ++ spec.first_text lines cp0.now) }
{
    push_register(out, "0", "index", cp0.value(SystemRegister::Index, lines))?;
    push_register(out, "1", "random", cp0.value(SystemRegister::Random, lines))?;
    push_register(
        out,
        "2",
        "entrylo0",
        cp0.value(SystemRegister::EntryLo0, lines),
    )?;
    push_register(
        out,
        "3",
        "entrylo1",
        cp0.value(SystemRegister::EntryLo1, lines),
    )
}

fn push_second(out: &mut String, cp0: &Cp0, lines: u8) -> Result<(), AllocError>
    ensures { OnOk result (string_bytes out.new ≡ string_bytes out.old ++ spec.second_text lines cp0.now) }
{
    push_register(
        out,
        "4",
        "context",
        cp0.value(SystemRegister::Context, lines),
    )?;
    push_register(
        out,
        "5",
        "pagemask",
        cp0.value(SystemRegister::PageMask, lines),
    )?;
    push_register(out, "6", "wired", cp0.value(SystemRegister::Wired, lines))?;
    push_register(out, "9", "count", cp0.value(SystemRegister::Count, lines))
}

fn push_third(out: &mut String, cp0: &Cp0, lines: u8) -> Result<(), AllocError>
    ensures { OnOk result (string_bytes out.new ≡ string_bytes out.old ++ spec.third_text lines cp0.now) }
{
    push_register(
        out,
        "10",
        "entryhi",
        cp0.value(SystemRegister::EntryHi, lines),
    )?;
    push_register(
        out,
        "11",
        "compare",
        cp0.value(SystemRegister::Compare, lines),
    )?;
    push_register(out, "15", "prid", cp0.value(SystemRegister::PrId, lines))
}

fn push_fourth(out: &mut String, cp0: &Cp0, lines: u8) -> Result<(), AllocError>
    ensures { OnOk result (string_bytes out.new ≡ string_bytes out.old ++ spec.fourth_text lines cp0.now) }
{
    push_register(
        out,
        "16",
        "config",
        cp0.value(SystemRegister::Config, lines),
    )?;
    push_register(
        out,
        "16.1",
        "config1",
        cp0.value(SystemRegister::Config1, lines),
    )?;
    push_register(
        out,
        "30",
        "errorepc",
        cp0.value(SystemRegister::ErrorEpc, lines),
    )
}

fn push_product(out: &mut String, cpu: &Cpu) -> Result<(), AllocError>
    ensures { OnOk result (string_bytes out.new ≡ string_bytes out.old ++ spec.product_text cpu.now) }
{
    push_word(out, "hi ", cpu.hi())?;
    push_word(out, "lo ", cpu.lo())
}

fn push_link(out: &mut String, ll_bit: bool) -> Result<(), AllocError>
    ensures { OnOk result (string_bytes out.new ≡ string_bytes out.old ++ spec.link_text ll_bit) }
{
    out.push_str(if ll_bit { "llbit 1\n" } else { "llbit 0\n" })
}

fn push_slot(out: &mut String, slot: Option<u32>) -> Result<(), AllocError>
    ensures { OnOk result (string_bytes out.new ≡ string_bytes out.old ++ spec.slot_text slot) }
{
    match slot {
        Some(address) => push_word(out, "slot ", address),
        None => out.push_str("slot -\n"),
    }
}

fn push_entries(out: &mut String, tlb: &Tlb) -> Result<(), AllocError>
    ensures { OnOk result (string_bytes out.new ≡ string_bytes out.old ++ spec.entries_text (length tlb.now) tlb.now) }
{
    for number in 0..tlb.len() {
        push_entry(out, number as u32, tlb.read(number))?;
    }
    Ok(())
}

/// An entry of the TLB by its number, as TLBR puts it into EntryHi, EntryLo0 and EntryLo1.
fn push_entry(out: &mut String, number: u32, entry: Entry) -> Result<(), AllocError>
    ensures { OnOk result (string_bytes out.new ≡ string_bytes out.old ++ spec.entry_text number entry) }
{
    push_number(out, number)?;
    push_field(out, " hi ", entry.entry_hi())?;
    push_field(out, " lo0 ", entry.even.entry_lo(entry.global))?;
    push_field(out, " lo1 ", entry.odd.entry_lo(entry.global))?;
    out.push_str("\n")
}

#[tactic(auto, unfolding(crate::specs::Registers::number_text))]
fn push_number(out: &mut String, number: u32) -> Result<(), AllocError>
    ensures { OnOk result (string_bytes out.new ≡ string_bytes out.old ++ spec.number_text number) }
{
    write!(out, "tlb {number}")
}

/// A word behind its label.
#[tactic(auto, unfolding(dump::specs::Dumps::field_text))]
fn push_field(out: &mut String, label: &str, word: u32) -> Result<(), AllocError>
    ensures { OnOk result (string_bytes out.new ≡ string_bytes out.old ++ field_text label.now word) }
{
    let word = HexWord(word);
    write!(out, "{label}{word}")
}
