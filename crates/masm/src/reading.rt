//! The first pass: the names and the places.
ghost use Rattle.std.specs.Prelude.{◌≡◌, ◌∷◌, ◌++◌, [], ℕ, List, None, false, map, ◌<◌, ◌^◌, OnOk};
ghost use Rattle.masm.specs.Answers.{Knows, IsReading, Follows, Gives};
ghost use Rattle.masm.specs.Assembly as spec;
ghost use Rattle.masm.specs.Names as naming;
ghost use Rattle.masm.specs.Places.{next_address};
ghost use Rattle.masm.specs.Views.{layout_view};
ghost use Rattle.masm_lines.specs.Views.{line_view, text_view};

use crate::error::{AsmError, LineError};
use crate::layout::Layout;
use masm_lines::{AsmFault, Line, line_of};
use std::alloc::{AllocError, Global};
use std::collections::BTreeMap;

/// The addresses of names.
#[derive(Drop)]
pub struct Names {
    pub entries: BTreeMap<Vec<u8>, u32>,
}

impl Names {
    /// No names.
    fn new(alloc: Global) -> Names
        ensures { Knows result [] }
    {
        Names {
            entries: BTreeMap::new(alloc),
        }
    }

    /// The address that a name stands for.
    pub fn address_of(&self, name: &[u8]) -> Result<u32, AsmFault>
        ensures { (known : naming.Names) → Knows self.now known → result ≡ naming.known_address known name.now }
    {
        match self.entries.get(name) {
            Some(address) => Ok(*address),
            None => Err(AsmFault::UnknownName),
        }
    }

    /// Whether a line's label is an earlier line's.
    fn is_double(&self, line: &Line) -> bool
        ensures { (known : naming.Names) → Knows self.now known → result ≡ naming.is_double known (line_view line.now).label }
    {
        match line.label {
            Some(name) => self.entries.contains_key(name),
            None => false,
        }
    }

    /// Adds a line's label, if it has one, which no earlier line has.
    fn add(&mut self, alloc: Global, line: &Line, address: u32) -> Result<(), AllocError>
        ensures { (known : naming.Names) → Knows self.old known → naming.is_double known (line_view line.now).label ≡ false
            → OnOk result (Knows self.new (naming.with_label known (line_view line.now).label address)) }
    {
        match line.label {
            Some(name) => self.insert(alloc, name, address),
            None => Ok(()),
        }
    }

    /// Adds a name, which isn't there yet.
    fn insert(&mut self, alloc: Global, name: &[u8], address: u32) -> Result<(), AllocError>
        ensures { (known : naming.Names) → Knows self.old known → naming.address_of known name.now ≡ None
            → OnOk result (Knows self.new (known ++ (name.now, address) ∷ [])) }
    {
        let key = Vec::from_slice(alloc, name)?;
        self.entries.insert(key, address)?;
        Ok(())
    }
}

/// What the lines so far have named and filled.
#[derive(Drop)]
pub struct Reading {
    pub names: Names,
    pub layout: Layout,
}

impl Reading {
    /// Takes a line, or answers its fault.
    #[tactic(auto, unfolding(crate::specs::Assembly::first_step))]
    fn take(&mut self, alloc: Global, text: &[u8]) -> Result<(), LineError>
        requires { next_address (layout_view self.old.layout) < 2 ^ 32 }
        ensures step { (reading : spec.Reading) → IsReading self.old reading → Follows (IsReading self.new) result (spec.first_step reading text.now) }
        ensures in_range { OnOk result (next_address (layout_view self.new.layout) < 2 ^ 32) }
    {
        match line_of(text) {
            Ok(line) => self.place(alloc, &line),
            Err(fault) => Err(LineError::Fault(fault)),
        }
    }

    /// Takes what a line says, or answers its fault.
    fn place(&mut self, alloc: Global, line: &Line) -> Result<(), LineError>
        requires { next_address (layout_view self.old.layout) < 2 ^ 32 }
        ensures step { (reading : spec.Reading) → IsReading self.old reading → Follows (IsReading self.new) result (spec.placed reading (line_view line.now)) }
        ensures in_range { OnOk result (next_address (layout_view self.new.layout) < 2 ^ 32) }
    {
        if self.names.is_double(line) {
            return Err(LineError::Fault(AsmFault::DoubleName));
        }
        if self.layout.has_misplaced(line) {
            return Err(LineError::Fault(AsmFault::Place));
        }
        let address = self.layout.next_address() as u32;
        self.names.add(alloc, line, address)?;
        self.layout.advance_line(line)?;
        Ok(())
    }
}

/// The names of lines, each of which is of the grammar and may stand at its place; else the first fault of the first pass.
pub fn names_of(alloc: Global, lines: &[&str]) -> Result<Names, AsmError>
    ensures { Gives (λ names reading. Knows names reading.names) result (spec.first_pass (map text_view lines.now)) }
{
    let mut reading = Reading {
        names: Names::new(alloc),
        layout: Layout::new(alloc),
    };
    for i in 0..lines.len() {
        if let Err(error) = reading.take(alloc, lines[i].as_bytes()) {
            return Err(error.at(i as u64 + 1));
        }
    }
    let Reading { names, layout: _ } = reading;
    Ok(names)
}
