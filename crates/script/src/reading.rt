//! Reading a script.
ghost use Rattle.std.specs.Prelude.{◌≡◌, IfOk, IfErr, IfSome, Ok, Err, Some, map, true};
ghost use Rattle.std.specs.List.{list_all};
ghost use Rattle.std.specs.Str.Lines.{lines};
ghost use Rattle.script.specs.Allowed.{allows_block};
ghost use Rattle.script.specs.Answers.{Answers, Gives, line_in};
ghost use Rattle.script.specs.Scripts as spec;
ghost use Rattle.script.specs.Views.{action_view, block_view, header_view, part_view, reading_view, script_view, statement_view, text_view};

use crate::action::{Action, ActionLine, Block};
use crate::allowed::may_be_done;
use crate::draft::Draft;
use crate::error::{LineError, ScriptError};
use crate::header::Script;
use crate::part::Part;
use crate::statement::{Statement, statement_of};
use crate::words::is_skipped;
use std::alloc::{AllocError, Global};
use std::mem::replace;

/// What the lines so far have said.
#[derive(Drop)]
pub struct Reading<'a> {
    pub header: Draft<'a>,
    /// The blocks that are whole.
    pub blocks: Vec<Block>,
    /// The block that lines are put into.
    pub block: Block,
    /// Whether that is one of a `repeat`.
    pub repeats: bool,
}

/// The block of lines that are done so many times, as it begins.
fn first_block(alloc: Global, times: u32) -> Block
    ensures { block_view result ≡ spec.first_block times }
{
    Block {
        times,
        lines: Vec::new(alloc),
    }
}

impl<'a> Reading<'a> {
    /// Nothing so far.
    fn new(alloc: Global) -> Reading<'a>
        ensures { reading_view result ≡ spec.first_reading }
    {
        Reading {
            header: Draft::new(alloc),
            blocks: Vec::new(alloc),
            block: first_block(alloc, 1),
            repeats: false,
        }
    }

    /// Takes the line of a number.
    #[tactic(auto, unfolding(crate::specs::Scripts::after_line))]
    fn take(&mut self, alloc: Global, number: u64, line: &'a str) -> Result<(), LineError>
        ensures { Answers (λ done. reading_view self.new) result (spec.after_line number (reading_view self.old) line.now) }
    {
        if is_skipped(line) {
            return Ok(());
        }
        match statement_of(alloc, line) {
            Ok(statement) => self.add(alloc, number, statement),
            Err(error) => Err(error),
        }
    }

    /// Takes what the line of a number says.
    #[tactic(auto, unfolding(crate::specs::Scripts::with_statement))]
    fn add(&mut self, alloc: Global, number: u64, statement: Statement<'a>) -> Result<(), LineError>
        ensures { Answers (λ done. reading_view self.new) result (spec.with_statement number (reading_view self.old) (statement_view statement.entry)) }
    {
        match statement {
            Statement::OfHeader(part) => self.add_part(&part),
            Statement::OfAction(action) => self.add_action(number, action),
            Statement::OfRepeat(times) => self.begin_repeat(alloc, times),
            Statement::OfEnd => self.end_repeat(alloc),
        }
    }

    /// Takes a line of the header, which stands before the first event and the first `repeat`.
    #[tactic(auto, unfolding(crate::specs::Scripts::with_header_line))]
    fn add_part(&mut self, part: &Part<'a>) -> Result<(), LineError>
        ensures { Answers (λ done. reading_view self.new) result (spec.with_header_line (reading_view self.old) (part_view part.now)) }
    {
        if !self.blocks.is_empty() || !self.block.lines.is_empty() {
            return Err(LineError::Refused);
        }
        self.header.add(part)
    }

    /// Takes what is done, which stands behind a whole header that allows it.
    #[tactic(auto, unfolding(crate::specs::Scripts::with_action))]
    fn add_action(&mut self, number: u64, action: Action) -> Result<(), LineError>
        ensures { Answers (λ done. reading_view self.new) result (spec.with_action number (reading_view self.old) (action_view action)) }
    {
        let Some(slots) = self.header.slots_of_whole() else {
            return Err(LineError::Refused);
        };
        if !may_be_done(&self.header.guests, slots, &action) {
            return Err(LineError::Refused);
        }
        self.block.lines.push(ActionLine { number, action })?;
        Ok(())
    }

    /// Begins a `repeat`, which stands behind a whole header and within no other.
    #[tactic(auto, unfolding(crate::specs::Scripts::with_repeat))]
    fn begin_repeat(&mut self, alloc: Global, times: u32) -> Result<(), LineError>
        ensures { Answers (λ done. reading_view self.new) result (spec.with_repeat (reading_view self.old) times) }
    {
        if self.repeats {
            return Err(LineError::Refused);
        }
        let Some(_) = self.header.slots_of_whole() else {
            return Err(LineError::Refused);
        };
        self.begin_block(alloc, times, true)
    }

    /// Ends a `repeat`.
    #[tactic(auto, unfolding(crate::specs::Scripts::with_end))]
    fn end_repeat(&mut self, alloc: Global) -> Result<(), LineError>
        ensures { Answers (λ done. reading_view self.new) result (spec.with_end (reading_view self.old)) }
    {
        if !self.repeats {
            return Err(LineError::Refused);
        }
        self.begin_block(alloc, 1, false)
    }

    /// Puts the block so far behind those that are whole, and begins the next.
    fn begin_block(&mut self, alloc: Global, times: u32, repeats: bool) -> Result<(), LineError>
        ensures { Answers (λ done. reading_view self.new) result (Some (spec.with_block (reading_view self.old) times repeats)) }
    {
        let whole = replace(&mut self.block, first_block(alloc, times));
        self.repeats = repeats;
        self.blocks.push(whole)?;
        Ok(())
    }

    /// The script, if its header is whole and each `repeat` has its `end`.
    #[tactic(auto, unfolding(crate::specs::Scripts::script_in))]
    fn finish(self) -> Result<Script<'a>, LineError>
        ensures { Answers script_view result (spec.script_in (reading_view self.entry)) }
    {
        let Reading {
            header,
            mut blocks,
            block,
            repeats,
        } = self;
        if repeats {
            return Err(LineError::Refused);
        }
        let Some(header) = header.finish() else {
            return Err(LineError::Refused);
        };
        blocks.push(block)?;
        Ok(Script { header, blocks })
    }
}

/// The script that a text is. Its lines end with a line feed, the last one with or without; a carriage return right before it
/// belongs to the line's end. The error is the first line that is refused, or comes where memory is refused.
pub fn read(alloc: Global, text: &str) -> Result<Script<'_>, ScriptError>
    ensures script { IfOk result (λ script. spec.script_of text.now ≡ Ok (script_view script)) }
    // A refusal for another cause than memory is the first line that is refused.
    ensures refused { IfErr result (λ error. IfSome (line_in error) (λ line. spec.script_of text.now ≡ Err line)) }
    // Each guest, register, slot and byte of an event is there, and each length is in its range.
    ensures allowed { IfOk result (λ script. list_all (allows_block (header_view script.header)) (map block_view script.blocks.items) ≡ true) }
{
    let lines = lines_of(alloc, text)?;
    read_lines(alloc, &lines)
}

/// The lines of a text.
fn lines_of(alloc: Global, text: &str) -> Result<Vec<&str>, AllocError>
    ensures { IfOk result (λ parts. map text_view parts.items ≡ lines text.now) }
{
    text.lines().collect(alloc)
}

/// The script that lines are.
fn read_lines<'a>(alloc: Global, lines: &[&'a str]) -> Result<Script<'a>, ScriptError>
    ensures { Gives script_view result (spec.script_from 1 spec.first_reading (map text_view lines.now)) }
{
    let mut reading = Reading::new(alloc);
    for i in 0..lines.len() {
        let number = i as u64 + 1;
        match reading.take(alloc, number, lines[i]) {
            Ok(()) => {}
            Err(LineError::Refused) => return Err(ScriptError::Line(number)),
            Err(LineError::Memory) => return Err(ScriptError::Memory),
        }
    }
    match reading.finish() {
        Ok(script) => Ok(script),
        Err(LineError::Refused) => Err(ScriptError::Line(lines.len() as u64 + 1)),
        Err(LineError::Memory) => Err(ScriptError::Memory),
    }
}
