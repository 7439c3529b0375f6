//! The second pass: what the statements mean, now that all names are known.
ghost use Rattle.std.specs.Prelude.{◌≡◌, ◌+◌, ◌-◌, ◌<◌, ◌^◌, ◌∷◌, ◌&&◌, nat_le, nat_lt, [], flat_map, map, true, vec_len, Some, OnOk, IfOk, IfErr, Ok, Err};
ghost use Rattle.std.specs.Int.{to_le_bytes, w32};
ghost use Rattle.std.specs.List.{list_any};
ghost use Rattle.masm.specs.Answers.{Knows, IsOutput, Follows, Gives, HasRoom, HasRoomFor, is_word};
ghost use Rattle.masm.specs.Assembly as spec;
ghost use Rattle.masm.specs.Images.{IsImageOf, StandFor};
ghost use Rattle.masm.specs.Listings as listings;
ghost use Rattle.masm.specs.Meanings as meaning;
ghost use Rattle.masm.specs.Names as naming;
ghost use Rattle.masm_lines.specs.Lists.{parts, half_bytes, byte_of};
ghost use Rattle.masm_lines.specs.Statements.{Words};
ghost use Rattle.masm_lines.specs.Texts.{bytes_in, ended};
ghost use Rattle.masm_lines.specs.Views.{list_values, statement_view, text_view};
ghost use Rattle.word32.specs.Zeros.{zeros};

use crate::error::{AsmError, LineError};
use crate::layout::FIRST_ADDRESS;
use crate::reading::Names;
use crate::target::aimed;
use crate::words::{push_pair, push_text, push_words};
use elf32::{Image, Segment};
use masm_lines::{AsmFault, List, Statement, Text, address_bits, line_of};
use mips_instr::{ImmediateOp, Instr, Reg};
use mips_isa::encode;
use std::alloc::{AllocError, Global};

/// What the lines so far have put.
#[derive(Drop)]
pub struct Output {
    /// The non-empty segments before the present one, in the source's order.
    pub earlier: Vec<Segment>,
    /// The present segment's first address and bytes.
    pub address: u32,
    pub bytes: Vec<u8>,
    /// The address of the last `.entry`.
    pub entry: Option<u32>,
}

impl Output {
    fn new(alloc: Global) -> Output
        ensures { IsOutput result listings.first_output }
    {
        Output {
            earlier: Vec::new(alloc),
            address: FIRST_ADDRESS,
            bytes: Vec::new(alloc),
            entry: None,
        }
    }

    /// Takes a line that the first pass has taken, or answers its fault.
    #[tactic(auto, unfolding(crate::specs::Assembly::second_step))]
    fn take(&mut self, alloc: Global, names: &Names, text: &[u8]) -> Result<(), LineError>
        requires { HasRoom self.old text.now }
        ensures { (known : naming.Names) (output : listings.Output) → Knows names.now known → IsOutput self.old output
            → Follows (IsOutput self.new) result (spec.second_step known output text.now) }
    {
        match line_of(text) {
            Ok(line) => match line.statement {
                None => Ok(()),
                Some(statement) => self.put(alloc, names, &statement),
            },
            Err(fault) => Err(LineError::Fault(fault)),
        }
    }

    /// Takes a statement.
    fn put(&mut self, alloc: Global, names: &Names, statement: &Statement) -> Result<(), LineError>
        requires { HasRoomFor self.old (statement_view statement.now) }
        ensures { (known : naming.Names) (output : listings.Output) → Knows names.now known → IsOutput self.old output
            → Follows (IsOutput self.new) result (listings.with_statement known output (Some (statement_view statement.now))) }
    {
        match *statement {
            Statement::Org(start) => self.begin(alloc, start)?,
            Statement::Entry(name) => self.entry = Some(names.address_of(name)?),
            Statement::Byte(byte) => self.put_byte(byte)?,
            Statement::Halves(list) => self.put_halves(&list)?,
            Statement::Bytes(list) => self.put_bytes(&list)?,
            Statement::Text(text, zero) => self.put_text(&text, zero)?,
            Statement::Space(count) => self.put_zeros(count)?,
            Statement::Words(list) => return self.put_words(names, &list),
            Statement::Load(rt, number) => self.put_load(rt, address_bits(number)?)?,
            Statement::LoadOf(rt, name) => self.put_load(rt, names.address_of(name)?)?,
            _ => {
                let word = self.word_of(names, statement)?;
                self.put_word(word)?;
            }
        }
        Ok(())
    }

    /// The word that a statement of one word means at the next address.
    #[tactic(auto, unfolding(crate::specs::Meanings::item_of))]
    fn word_of(&self, names: &Names, statement: &Statement) -> Result<u32, AsmFault>
        requires word { is_word (statement_view statement.now) ≡ true }
        requires room { HasRoomFor self.now (statement_view statement.now) }
        ensures ok { (known : naming.Names) (output : listings.Output) → Knows names.now known → IsOutput self.now output
            → IfOk result (λ word. (item : meaning.Content)
            × (meaning.item_of known (listings.next_place output) (statement_view statement.now) ≡ Ok item)
            × StandFor (to_le_bytes w32 word) item) }
        ensures err { (known : naming.Names) (output : listings.Output) → Knows names.now known → IsOutput self.now output
            → IfErr result (λ fault. meaning.item_of known (listings.next_place output) (statement_view statement.now) ≡ Err fault) }
    {
        match *statement {
            Statement::Instruction(instr) => Ok(encode(instr)),
            Statement::Transfer(instr, number) => {
                let target = address_bits(number)?;
                Ok(encode(aimed(instr, self.next_address(), target)?))
            }
            Statement::TransferTo(instr, name) => {
                let target = names.address_of(name)?;
                Ok(encode(aimed(instr, self.next_address(), target)?))
            }
            Statement::Word(word) => Ok(word),
            Statement::AddressOf(name) => names.address_of(name),
            _ => Ok(0),
        }
    }

    /// Where the next item stands.
    fn next_address(&self) -> u32
        requires { self.now.address + vec_len self.now.bytes < 2 ^ 32 }
        ensures { result ≡ self.now.address + vec_len self.now.bytes }
    {
        self.address + self.bytes.len() as u32
    }

    /// Ends the present segment, and begins one.
    fn begin(&mut self, alloc: Global, start: u32) -> Result<(), AllocError>
        requires { vec_len self.old.bytes < 2 ^ 32 }
        ensures { (output : listings.Output) → IsOutput self.old output
            → OnOk result (IsOutput self.new (record { earlier = listings.parts_of output; current = listings.part_at start; entry = output.entry })) }
    {
        let bytes = std::mem::replace(&mut self.bytes, Vec::new(alloc));
        if !bytes.is_empty() {
            let size = bytes.len() as u32;
            self.earlier.push(Segment {
                address: self.address,
                bytes,
                size,
            })?;
        }
        self.address = start;
        Ok(())
    }

    fn put_word(&mut self, word: u32) -> Result<(), AllocError>
        ensures { (output : listings.Output) (item : meaning.Content) → IsOutput self.old output → StandFor (to_le_bytes w32 word) item
            → OnOk result (IsOutput self.new (listings.with_item output item)) }
    {
        self.bytes.extend_from_slice(&word.to_le_bytes())
    }

    fn put_byte(&mut self, byte: u8) -> Result<(), AllocError>
        ensures { (output : listings.Output) → IsOutput self.old output
            → OnOk result (IsOutput self.new (listings.with_item output (meaning.Bytes (byte ∷ [])))) }
    {
        self.bytes.push(byte)?;
        Ok(())
    }

    fn put_halves(&mut self, list: &List) -> Result<(), AllocError>
        ensures { (output : listings.Output) → IsOutput self.old output
            → OnOk result (IsOutput self.new (listings.with_item output (meaning.Bytes (flat_map half_bytes (parts list.now.text.now))))) }
    {
        list.push_halves(&mut self.bytes)
    }

    fn put_bytes(&mut self, list: &List) -> Result<(), AllocError>
        ensures { (output : listings.Output) → IsOutput self.old output
            → OnOk result (IsOutput self.new (listings.with_item output (meaning.Bytes (flat_map byte_of (parts list.now.text.now))))) }
    {
        list.push_bytes(&mut self.bytes)
    }

    /// Puts a text, with a zero behind it or not.
    fn put_text(&mut self, text: &Text, zero: bool) -> Result<(), AllocError>
        ensures { (output : listings.Output) → IsOutput self.old output
            → OnOk result (IsOutput self.new (listings.with_item output (meaning.Bytes (ended zero (bytes_in text.now.text.now))))) }
    {
        push_text(&mut self.bytes, text, zero)
    }

    /// Puts words, each a number or the address of a name.
    fn put_words(&mut self, names: &Names, list: &List) -> Result<(), LineError>
        ensures { (known : naming.Names) (output : listings.Output) → Knows names.now known → IsOutput self.old output
            → Follows (IsOutput self.new) result (listings.with_statement known output (Some (Words (list_values list.now)))) }
    {
        push_words(&mut self.bytes, names, list)
    }

    /// Puts LUI and ORI of a number.
    fn put_load(&mut self, rt: Reg, number: u32) -> Result<(), AllocError>
        ensures { (output : listings.Output) → IsOutput self.old output
            → OnOk result (IsOutput self.new (listings.with_item output (meaning.loaded rt number))) }
    {
        let upper = Instr::LoadUpper {
            rt,
            imm: (number / 0x1_0000) as u16,
        };
        let lower = Instr::Immediate {
            op: ImmediateOp::Ori,
            rt,
            rs: rt,
            imm: (number % 0x1_0000) as u16,
        };
        push_pair(&mut self.bytes, encode(upper), encode(lower))
    }

    fn put_zeros(&mut self, count: u32) -> Result<(), AllocError>
        requires { vec_len self.old.bytes + count < 2 ^ 63 }
        ensures { (output : listings.Output) → IsOutput self.old output
            → OnOk result (IsOutput self.new (listings.with_item output (meaning.Bytes (zeros count)))) }
    {
        self.bytes.resize(self.bytes.len() + count as usize, 0)
    }

    /// The image of all lines.
    fn image(mut self, alloc: Global) -> Result<Image, AsmError>
        requires { vec_len self.bytes < 2 ^ 32 }
        ensures { (output : listings.Output) → IsOutput self output
            → Gives (λ image listing. IsImageOf listing image) result (spec.at_line 0 (listings.listing_of output)) }
    {
        self.begin(alloc, FIRST_ADDRESS)?;
        let Output {
            earlier: segments,
            entry,
            ..
        } = self;
        let Some(first) = segments.first() else {
            return Err(AsmError::Fault {
                fault: AsmFault::Empty,
                line: 0,
            });
        };
        let entry = entry.unwrap_or(first.address);
        if entry % 4 != 0 || !is_within(&segments, entry) {
            return Err(AsmError::Fault {
                fault: AsmFault::Entry,
                line: 0,
            });
        }
        Ok(Image { entry, segments })
    }
}

/// Whether a segment has a byte at an address.
fn is_within(segments: &[Segment], address: u32) -> bool
    ensures { result ≡ list_any (λ s. nat_le s.address address && nat_lt (address - s.address) s.size) segments.now }
{
    segments
        .iter()
        .any(|s| s.address <= address && address - s.address < s.size)
}

/// What lines put that the first pass has taken, whose names are these.
fn put_all(alloc: Global, names: &Names, lines: &[&str]) -> Result<Output, AsmError>
    requires { Gives (λ names reading. Knows names reading.names) (Ok names.now)
        (spec.over_lines spec.first_step 1 spec.first_reading (map text_view lines.now)) }
    ensures value { (reading : spec.Reading) → spec.over_lines spec.first_step 1 spec.first_reading (map text_view lines.now) ≡ Ok reading
        → Gives IsOutput result (spec.over_lines (spec.second_step reading.names) 1 listings.first_output (map text_view lines.now)) }
    ensures small { IfOk result (λ output. vec_len output.bytes < 2 ^ 32) }
{
    let mut output = Output::new(alloc);
    for i in 0..lines.len() {
        if let Err(error) = output.take(alloc, names, lines[i].as_bytes()) {
            return Err(error.at(i as u64 + 1));
        }
    }
    Ok(output)
}

/// The image of lines that the first pass has taken, whose names are these.
pub fn image_of(alloc: Global, lines: &[&str], names: &Names) -> Result<Image, AsmError>
    requires { Gives (λ names reading. Knows names reading.names) (Ok names.now) (spec.first_pass (map text_view lines.now)) }
    ensures { Gives (λ image listing. IsImageOf listing image) result (spec.assembly_of (map text_view lines.now)) }
{
    let output = put_all(alloc, names, lines)?;
    output.image(alloc)
}
