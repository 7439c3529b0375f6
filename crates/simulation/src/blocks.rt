//! What the blocks of a script say is done, one event after another, and the replies, each written as it is made, and handed on before
//! what may take long.
ghost use Rattle.std.specs.Prelude.{◌≡◌, ◌++◌, ◌∷◌, [], All, IfOk, IsErrOf, OnOk, false, length, map, string_bytes};
ghost use Rattle.std.specs.Io.KnownBytes.{Appends, Keeps};
ghost use Rattle.reclaim.specs.Levels.{next_level_of};
ghost use Rattle.script.specs.Courses.{block_events, course_of, line_events, lines_events};
ghost use Rattle.script.specs.Views.{block_view, event_view, line_view};
ghost use Rattle.simulation.specs.Acts.{IsBlockFor, IsFor, IsLineFor, IsShort, is_scarce};
ghost use Rattle.simulation.specs.Lines.{number_text, said_text};
ghost use Rattle.simulation.specs.Playing.{IsOutcome};
ghost use Rattle.simulation.specs.declared.blocks.Interruption.TheVariants.{Memory};

use crate::acts::act_of;
use crate::doing::perform;
use crate::text::{Heading, heading_of, push_said};
use crate::{Act, Said};
use rand_core::Rng;
use reclaim::{Level, next_level};
use script::{ActionLine, Block, Event};
use std::alloc::{AllocError, Global};
use std::io::Write;
use swapstore::{Damage, SwapStore};
use world::{Event as Happening, World};

/// From how many steps on an event may take so long that the replies before it are handed on first: about a tenth of a millisecond.
const LONG: u32 = 1 << 12;

/// How many bytes a reply has room for from its beginning: all that are made often are shorter.
const LINE: usize = 128;

/// Why not all is done.
#[derive(Clone, Copy, Debug, PartialEq, Eq)]
pub enum Interruption {
    /// A request for memory was refused.
    Memory,
    /// A reply could not be written.
    Output,
}

impl From<AllocError> for Interruption {
    ghost from_gives = { λ _ error. error ≡ Memory };

    fn from(_error: AllocError) -> Self {
        Interruption::Memory
    }
}

// The reply to an act, behind the number of its line where it is to have that.
fn reply(
    alloc: Global,
    line: u64,
    numbered: bool,
    heading: Heading,
    said: &Said,
) -> Result<String, AllocError>
    ensures { IfOk result (λ text. string_bytes text ≡ number_text numbered line ++ said_text heading said.now) }
{
    let mut text = String::with_capacity(alloc, LINE)?;
    if numbered {
        write!(text, "{line}: ")?;
    }
    push_said(&mut text, heading, said)?;
    Ok(text)
}

// Writes a reply.
fn write_reply<W: Write>(out: &mut W, text: &str) -> Result<(), Interruption>
    ensures written { OnOk result (Appends (W.contents out.old) (W.contents out.new) text.now) }
    ensures no_want { ¬ IsErrOf result Memory }
{
    match out.write_all(text.as_bytes()) {
        Ok(()) => Ok(()),
        Err(_) => Err(Interruption::Output),
    }
}

// Hands on all that was written, so that it can be seen.
fn hand_on<W: Write>(out: &mut W) -> Result<(), Interruption>
    ensures kept { Keeps (W.contents out.old) (W.contents out.new) }
    ensures no_want { ¬ IsErrOf result Memory }
{
    match out.flush() {
        Ok(()) => Ok(()),
        Err(_) => Err(Interruption::Output),
    }
}

// Whether pages are swapped out by a turn of the policy in a world of so many frames: at the levels hard and low.
fn swaps_out<S: SwapStore>(world: &World<S>, frames: u32) -> bool
    ensures { result ≡ is_scarce (next_level_of (length world.now.pool.free) frames world.now.level) }
{
    match next_level(world.level(), world.free(), frames) {
        Level::High | Level::Soft => false,
        Level::Hard | Level::Low => true,
    }
}

// Whether an act may take long in a world of so many frames: many steps, or a turn of the policy by which pages are swapped out, which may
// be many.
fn is_long<S: SwapStore>(world: &World<S>, frames: u32, act: &Act) -> bool
    ensures { result ≡ false → IsShort (next_level_of (length world.now.pool.free) frames world.now.level) act.now }
{
    match act {
        Act::World(Happening::Steps(_, count)) => *count >= LONG,
        Act::World(Happening::Run(_, count)) => *count >= LONG,
        Act::World(Happening::Level) => swaps_out(world, frames),
        _ => false,
    }
}

// Hands on what was written before an act that may take long.
fn hand_on_before<S: SwapStore, W: Write>(
    out: &mut W,
    world: &World<S>,
    frames: u32,
    act: &Act,
) -> Result<(), Interruption>
    ensures kept { Keeps (W.contents out.old) (W.contents out.new) }
    ensures no_want { ¬ IsErrOf result Memory }
{
    if is_long(world, frames, act) {
        hand_on(out)
    } else {
        Ok(())
    }
}

// Does an event of the line of this number, and writes the reply.
fn play_event<S: Damage, R: Rng, W: Write>(
    alloc: Global,
    world: &mut World<S>,
    rng: &mut R,
    frames: u32,
    event: Event,
    line: u64,
    numbered: bool,
    out: &mut W,
) -> Result<(), Interruption>
    requires { IsFor (length world.old.tenants) (S.slots world.old.store) (event_view event) }
    ensures { IsOutcome S.SwapStore numbered (length world.old.tenants) (S.slots world.old.store) (R.stream rng.old) world.old
        (record { line = line; event = event_view event } ∷ []) (R.stream rng.new) world.new (W.contents out.old) (W.contents out.new) result }
{
    let act = act_of(event);
    hand_on_before(out, world, frames, &act)?;
    let heading = heading_of(&act);
    let said = perform(alloc, world, rng, act);
    let text = reply(alloc, line, numbered, heading, &said);
    drop(said);
    let text = text?;
    write_reply(out, &text)
}

// Does the events of the line of this number.
fn play_events<S: Damage, R: Rng, W: Write>(
    alloc: Global,
    world: &mut World<S>,
    rng: &mut R,
    frames: u32,
    events: Vec<Event>,
    line: u64,
    numbered: bool,
    out: &mut W,
) -> Result<(), Interruption>
    requires { All (IsFor (length world.old.tenants) (S.slots world.old.store)) (map event_view events.items) }
    ensures { IsOutcome S.SwapStore numbered (length world.old.tenants) (S.slots world.old.store) (R.stream rng.old) world.old
        (map (λ e. record { line = line; event = e }) (map event_view events.items)) (R.stream rng.new) world.new (W.contents out.old) (W.contents out.new) result }
{
    for event in events {
        play_event(alloc, world, rng, frames, event, line, numbered, out)?;
    }
    Ok(())
}

// Does what a line says, in a world of so many guests.
fn play_line<S: Damage, R: Rng, W: Write>(
    alloc: Global,
    world: &mut World<S>,
    rng: &mut R,
    guests: u32,
    frames: u32,
    line: &ActionLine,
    numbered: bool,
    out: &mut W,
) -> Result<(), Interruption>
    requires guests { length world.old.tenants ≡ guests }
    requires can { IsLineFor guests (S.slots world.old.store) (line_view line.now) }
    ensures { IsOutcome S.SwapStore numbered guests (S.slots world.old.store) (R.stream rng.old) world.old
        (line_events guests (line_view line.now)) (R.stream rng.new) world.new (W.contents out.old) (W.contents out.new) result }
{
    let events = line.action.events(alloc, guests)?;
    play_events(
        alloc,
        world,
        rng,
        frames,
        events,
        line.number,
        numbered,
        out,
    )
}

// Does what lines say, one after another.
fn play_lines<S: Damage, R: Rng, W: Write>(
    alloc: Global,
    world: &mut World<S>,
    rng: &mut R,
    guests: u32,
    frames: u32,
    lines: &[ActionLine],
    numbered: bool,
    out: &mut W,
) -> Result<(), Interruption>
    requires guests { length world.old.tenants ≡ guests }
    requires can { All (IsLineFor guests (S.slots world.old.store)) (map line_view lines.now) }
    ensures { IsOutcome S.SwapStore numbered guests (S.slots world.old.store) (R.stream rng.old) world.old
        (lines_events guests (map line_view lines.now)) (R.stream rng.new) world.new (W.contents out.old) (W.contents out.new) result }
{
    for line in lines {
        play_line(alloc, world, rng, guests, frames, line, numbered, out)?;
    }
    Ok(())
}

// Does what the lines of a block say, so many times.
fn play_block<S: Damage, R: Rng, W: Write>(
    alloc: Global,
    world: &mut World<S>,
    rng: &mut R,
    guests: u32,
    frames: u32,
    block: &Block,
    numbered: bool,
    out: &mut W,
) -> Result<(), Interruption>
    requires guests { length world.old.tenants ≡ guests }
    requires can { IsBlockFor guests (S.slots world.old.store) (block_view block.now) }
    ensures { IsOutcome S.SwapStore numbered guests (S.slots world.old.store) (R.stream rng.old) world.old
        (block_events guests (block_view block.now)) (R.stream rng.new) world.new (W.contents out.old) (W.contents out.new) result }
{
    for turn in 0..block.times {
        // The number of turns that were made: the loop's invariant speaks of it.
        let _turn = turn;
        play_lines(
            alloc,
            world,
            rng,
            guests,
            frames,
            &block.lines,
            numbered,
            out,
        )?;
    }
    Ok(())
}

// Does what blocks say, one after another.
fn play_blocks<S: Damage, R: Rng, W: Write>(
    alloc: Global,
    world: &mut World<S>,
    rng: &mut R,
    guests: u32,
    frames: u32,
    blocks: &[Block],
    numbered: bool,
    out: &mut W,
) -> Result<(), Interruption>
    requires guests { length world.old.tenants ≡ guests }
    requires can { All (IsBlockFor guests (S.slots world.old.store)) (map block_view blocks.now) }
    ensures { IsOutcome S.SwapStore numbered guests (S.slots world.old.store) (R.stream rng.old) world.old
        (course_of guests (map block_view blocks.now)) (R.stream rng.new) world.new (W.contents out.old) (W.contents out.new) result }
{
    for block in blocks {
        play_block(alloc, world, rng, guests, frames, block, numbered, out)?;
    }
    Ok(())
}

/// Does what blocks say in a world of so many guests and frames, and writes the reply to each event as soon as it is done. What was written
/// is handed on before each event that may take long (`is_long`), and at the end, also where that comes early.
///
/// `Memory` where a request for memory was refused: then the replies to the first events are written, and no more. `Output` where a
/// reply could not be written.
pub(crate) fn play<S: Damage, R: Rng, W: Write>(
    alloc: Global,
    world: &mut World<S>,
    rng: &mut R,
    guests: u32,
    frames: u32,
    blocks: &[Block],
    numbered: bool,
    out: &mut W,
) -> Result<(), Interruption>
    requires guests { length world.old.tenants ≡ guests }
    requires can { All (IsBlockFor guests (S.slots world.old.store)) (map block_view blocks.now) }
    ensures { IsOutcome S.SwapStore numbered guests (S.slots world.old.store) (R.stream rng.old) world.old
        (course_of guests (map block_view blocks.now)) (R.stream rng.new) world.new (W.contents out.old) (W.contents out.new) result }
{
    let played = play_blocks(alloc, world, rng, guests, frames, blocks, numbered, out);
    let shown = hand_on(out);
    match shown {
        Ok(()) => played,
        Err(_) => shown,
    }
}
