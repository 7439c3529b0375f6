//! Laws of the definitions.
ghost use Rattle.std.specs.Prelude.{◌≡◌, ℕ, ◌<◌, ◌≤◌, ◌^◌, true, false, List, [], ◌∷◌, ◌++◌, length, bit_and};
ghost use Rattle.dev_console.specs.Console.{ConsoleIs, output_room, silent_console, has_input, console_status, next_input, input_taken, output_written, input_fed};

/// A law: bytes are read in the order in which they were fed, each once.
pub fn input_is_read_in_order()
    ensures first { (byte : ℕ) → next_input (input_fed byte silent_console).input ≡ byte }
    ensures alone { (byte : ℕ) → input_taken (input_fed byte silent_console) ≡ silent_console }
    ensures before { (byte : ℕ) (c : ConsoleIs) → has_input c.input ≡ true → next_input (input_fed byte c).input ≡ next_input c.input }
    ensures after { (byte : ℕ) (c : ConsoleIs) → has_input c.input ≡ true → input_taken (input_fed byte c) ≡ input_fed byte (input_taken c) }
{}

/// A law: the number that is read where no input waits is no byte.
pub fn no_input_is_no_byte()
    ensures none { (byte : ℕ) → byte < 2 ^ 8 → byte < next_input [] }
    ensures waits { (byte : ℕ) (later : List ℕ) → next_input (byte ∷ later) ≡ byte }
{}

/// A law: of bytes that are written the first that have room are kept, in order.
pub fn output_keeps_the_first()
    ensures kept { (byte : ℕ) (c : ConsoleIs) → length c.output < output_room → (output_written byte c).output ≡ c.output ++ byte ∷ [] }
    ensures lost { (byte : ℕ) (c : ConsoleIs) → output_room ≤ length c.output → output_written byte c ≡ c }
    ensures input { (byte : ℕ) (c : ConsoleIs) → (output_written byte c).input ≡ c.input }
{}

/// A law: bit 0 of the status word is set exactly while input waits, bit 1 exactly while the output has room, and no other
/// bit.
pub fn status_has_a_bit_for_each()
    ensures input { (c : ConsoleIs) → has_input c.input ≡ true → bit_and (console_status c) 1 ≡ 1 }
    ensures no_input { (c : ConsoleIs) → has_input c.input ≡ false → bit_and (console_status c) 1 ≡ 0 }
    ensures room { (c : ConsoleIs) → length c.output < output_room → bit_and (console_status c) 2 ≡ 2 }
    ensures no_room { (c : ConsoleIs) → output_room ≤ length c.output → bit_and (console_status c) 2 ≡ 0 }
    ensures others { (c : ConsoleIs) → bit_and (console_status c) 3 ≡ console_status c }
{}
