//! The console.
ghost use Rattle.std.specs.Prelude.{◌≡◌, ◌<◌, ◌≤◌, ◌^◌, ◌↔◌, nat_lt, length, All, IfOk, OnOk, OnErr, IsOk};
ghost use Rattle.dev_console.specs.Console.{input_room, output_room, silent_console, has_input, console_status, next_input, input_taken, output_written, input_fed, output_drained};

use crate::InputFull;
use circular_buffer::HeapCircularBuffer;
use std::alloc::{AllocError, Global};
use std::marker::Model;

/// How many bytes of input may wait.
pub const INPUT_ROOM: usize = 256;

/// How many bytes of output may wait.
pub const OUTPUT_ROOM: usize = 4096;

/// What the guest reads where no input waits.
const NO_INPUT: u32 = 0xffff_ffff;

/// Bit 0 of the status word: input waits.
const INPUT_WAITS: u32 = 1;

/// Bit 1 of the status word: the output has room.
const OUTPUT_HAS_ROOM: u32 = 2;

/// The guest's console. In clauses it is the bytes of its input and of its output, `ConsoleIs`.
#[derive(Drop)]
pub struct Console {
    input: HeapCircularBuffer<u8>,
    output: HeapCircularBuffer<u8>,
}

impl Model for Console {
    ghost use Rattle.std.specs.Prelude.{◌≡◌};
    ghost use Rattle.dev_console.specs.Console.{ConsoleIs, input_room, output_room};

    ghost Value = { ConsoleIs };

    ghost view = { λ c. record { input = c.input.items; output = c.output.items } };

    ghost invariant = { λ c. (c.input.capacity ≡ input_room) × (c.output.capacity ≡ output_room) };
}

impl Console {
    /// A console where nothing waits, with all the room that it will ever need. `AllocError` where a request for memory
    /// was refused.
    pub fn new(alloc: Global) -> Result<Console, AllocError>
        ensures { IfOk result (λ console. console ≡ silent_console) }
    {
        let input = HeapCircularBuffer::with_capacity(alloc, INPUT_ROOM)?;
        let output = HeapCircularBuffer::with_capacity(alloc, OUTPUT_ROOM)?;
        Ok(Console { input, output })
    }

    /// The same console once more, for a snapshot: the same bytes wait in it. `AllocError` where a request for memory was
    /// refused.
    pub fn try_clone(&self) -> Result<Console, AllocError>
        ensures { IfOk result (λ console. console ≡ self.now) }
    {
        Ok(Console {
            input: copied(&self.input)?,
            output: copied(&self.output)?,
        })
    }

    /// Whether input waits.
    pub fn has_input(&self) -> bool
        ensures { result ≡ has_input self.now.input }
    {
        !self.input.is_empty()
    }

    /// Whether a byte of input more has room: fewer than `INPUT_ROOM` wait.
    pub fn has_input_room(&self) -> bool
        ensures { result ≡ nat_lt (length self.now.input) input_room }
    {
        self.input.len() < INPUT_ROOM
    }

    /// Whether a byte of output more has room: fewer than `OUTPUT_ROOM` wait.
    pub fn has_output_room(&self) -> bool
        ensures { result ≡ nat_lt (length self.now.output) output_room }
    {
        self.output.len() < OUTPUT_ROOM
    }

    /// The status word: bit 0 where input waits, bit 1 where the output has room.
    pub fn status(&self) -> u32
        ensures { result ≡ console_status self.now }
    {
        let input = if self.has_input() { INPUT_WAITS } else { 0 };
        let output = if self.has_output_room() {
            OUTPUT_HAS_ROOM
        } else {
            0
        };
        input + output
    }

    /// The next byte of the input, which stays; 0xffffffff where none waits.
    pub fn next_input(&self) -> u32
        ensures { result ≡ next_input self.now.input }
    {
        match self.input.front() {
            Some(byte) => u32::from(*byte),
            None => NO_INPUT,
        }
    }

    /// Takes the next byte out of the input, and answers it; 0xffffffff where none waits.
    pub fn take_input(&mut self) -> u32
        ensures value { result ≡ next_input self.old.input }
        ensures taken { self.new ≡ input_taken self.old }
    {
        match self.input.pop_front() {
            Some(byte) => u32::from(byte),
            None => NO_INPUT,
        }
    }

    /// Writes a byte of output. It is lost where `OUTPUT_ROOM` bytes wait.
    pub fn write_output(&mut self, byte: u8)
        ensures { self.new ≡ output_written byte self.old }
    {
        let _lost = self.output.try_push_back(byte);
    }

    /// Adds a byte of input.
    ///
    /// It answers `InputFull` exactly where `INPUT_ROOM` bytes wait, and the console is then as before.
    pub fn feed(&mut self, byte: u8) -> Result<(), InputFull>
        ensures room { IsOk result ↔ (length self.old.input < input_room) }
        ensures fed { OnOk result (self.new ≡ input_fed byte self.old) }
        ensures refused { OnErr result (self.new ≡ self.old) }
    {
        match self.input.try_push_back(byte) {
            Ok(()) => Ok(()),
            Err(_byte) => Err(InputFull),
        }
    }

    /// How many bytes of output wait.
    pub fn output_len(&self) -> usize
        ensures count { result ≡ length self.now.output }
        ensures within { result ≤ output_room }
    {
        self.output.len()
    }

    /// The bytes of output that wait, the oldest first; they stay. `AllocError` where a request for memory was refused.
    pub fn copy_output(&self) -> Result<Vec<u8>, AllocError>
        ensures { IfOk result (λ bytes. bytes.items ≡ self.now.output) }
    {
        self.output.to_vec(*self.output.allocator())
    }

    /// Takes all bytes out of the output, and answers them, the oldest first.
    ///
    /// It answers `AllocError` where a request for memory was refused, and the console is then as before.
    pub fn drain(&mut self) -> Result<Vec<u8>, AllocError>
        ensures bytes { IfOk result (λ bytes. bytes.items ≡ self.old.output) }
        ensures drained { OnOk result (self.new ≡ output_drained self.old) }
        ensures refused { OnErr result (self.new ≡ self.old) }
    {
        let bytes = self.copy_output()?;
        self.output.clear();
        Ok(bytes)
    }

    /// A law of each console: what waits is within its room, and is bytes.
    pub fn bounds(&self)
        ensures input_within { length self.now.input ≤ input_room }
        ensures output_within { length self.now.output ≤ output_room }
        ensures input_bytes { All (λ byte. byte < 2 ^ 8) self.now.input }
        ensures output_bytes { All (λ byte. byte < 2 ^ 8) self.now.output }
    {
        // A ring that is asked for its length says that it is within its room.
        let _waiting = (self.input.len(), self.output.len());
        holds_bytes(&self.input);
        holds_bytes(&self.output);
    }
}

// The same buffer once more.
#[tactic(auto, using(crate::proofs::Copies::copied_in_two))]
fn copied(from: &HeapCircularBuffer<u8>) -> Result<HeapCircularBuffer<u8>, AllocError>
    ensures { IfOk result (λ copy. copy ≡ from.now) }
{
    let _within = from.len();
    let mut copy = HeapCircularBuffer::with_capacity(*from.allocator(), from.capacity())?;
    let (front, back) = from.as_slices();
    copy.extend_from_slice(front);
    copy.extend_from_slice(back);
    Ok(copy)
}

// The items of a buffer of bytes are bytes: those of the two slices that it stands in are.
fn holds_bytes(buffer: &HeapCircularBuffer<u8>)
    ensures { All (λ byte. byte < 2 ^ 8) buffer.now.items }
{
    let (front, back) = buffer.as_slices();
    are_bytes(front);
    are_bytes(back);
}

fn are_bytes(bytes: &[u8])
    ensures { All (λ byte. byte < 2 ^ 8) bytes.now }
{
    // Who reads a slice of bytes knows that each is one.
    let _length = bytes.len();
}
