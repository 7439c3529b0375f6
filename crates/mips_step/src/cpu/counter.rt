//! The program counter.
ghost use Rattle.std.specs.Prelude.{◌≡◌, ◌+◌, ◌*◌, ◌%◌, ◌^◌, true, false, None, Some, is_some};
ghost use Rattle.mips_instr.specs.Targets.{slot_address};
ghost use Rattle.machine.specs.Processor.{Processor, at_counter, follower, after_slot};
ghost use Rattle.machine.specs.Operations.{branched};

use crate::sign::extended;
use std::marker::Model;

/// The program counter: so many words on from an address, and in a delay slot the address that follows. Where a run of many steps has it apart from
/// the processor, that address is the page's and the words are the place in it, so that PC is reckoned where it is asked for alone. In clauses it
/// is PC and, in a delay slot, what follows it.
#[derive(Drop)]
pub struct Counter {
    base: u32,
    words: u32,
    next: u32,
    in_slot: bool,
    // So that a copy of a counter has no gaps between its fields, which the compiler would set to zero one by one.
    gap_of_one: u8,
    gap_of_two: u16,
}

impl Model for Counter {
    ghost use Rattle.std.specs.Prelude.{if◌then◌else◌, ◌+◌, ◌*◌, ◌%◌, ◌^◌, None, Some};
    ghost use Rattle.machine.specs.Processor.{CounterIs};

    ghost Value = { CounterIs };

    ghost view = { λ c. record { pc = (c.base + 4 * c.words) % 2 ^ 32; slot = if c.in_slot then Some c.next else None } };
}

impl Counter {
    /// At an address, which stands in no delay slot.
    #[inline(always)]
    pub fn at(pc: u32) -> Counter
        ensures { result ≡ record { pc = pc; slot = None } }
    {
        Counter::words_on(pc, 0)
    }

    /// So many words on from an address, in no delay slot.
    #[inline(always)]
    pub fn words_on(base: u32, words: u32) -> Counter
        ensures { result ≡ record { pc = (base + 4 * words) % 2 ^ 32; slot = None } }
    {
        Counter {
            base,
            words,
            next: 0,
            in_slot: false,
            gap_of_one: 0,
            gap_of_two: 0,
        }
    }

    /// The same counter once more.
    #[inline(always)]
    pub fn again(&self) -> Counter
        ensures { result ≡ self.now }
    {
        Counter {
            base: self.base,
            words: self.words,
            next: self.next,
            in_slot: self.in_slot,
            gap_of_one: 0,
            gap_of_two: 0,
        }
    }

    /// PC: the virtual address of the next instruction.
    #[inline(always)]
    pub fn pc(&self) -> u32
        ensures { result ≡ self.now.pc }
    {
        self.base.wrapping_add(self.words.wrapping_mul(4))
    }

    /// Where PC stands in a delay slot, the address that follows it.
    #[inline(always)]
    pub(crate) fn slot(&self) -> Option<u32>
        ensures { result ≡ self.now.slot }
    {
        if self.in_slot { Some(self.next) } else { None }
    }

    /// Whether PC stands in a delay slot.
    #[inline(always)]
    pub fn is_in_slot(&self) -> bool
        ensures { result ≡ is_some self.now.slot }
    {
        self.in_slot
    }

    /// The address after the delay slot of the instruction at PC.
    #[inline(always)]
    pub fn after_slot(&self) -> u32
        ensures { result ≡ after_slot self.now.pc }
    {
        self.pc().wrapping_add(8)
    }

    /// Goes on to what follows.
    #[inline(always)]
    pub fn advance(&mut self)
        ensures { self.new ≡ record { pc = follower self.old.slot self.old.pc; slot = None } }
    {
        if self.in_slot {
            *self = Counter::at(self.next);
        } else {
            self.words = self.words.wrapping_add(1);
        }
    }

    /// Goes on to the delay slot, which a target follows.
    #[inline(always)]
    pub fn jump(&mut self, target: u32)
        ensures { self.new ≡ record { pc = slot_address self.old.pc; slot = Some target } }
    {
        self.words = self.words.wrapping_add(1);
        self.next = target;
        self.in_slot = true;
    }

    /// Goes on past the delay slot; in a delay slot the same follows as before.
    #[inline(always)]
    pub(crate) fn skip(&mut self)
        ensures { self.new ≡ record self.old { pc = after_slot self.old.pc } }
    {
        self.words = self.words.wrapping_add(2);
    }

    /// Goes on as a branch does, of which only a likely one that is not taken executes no delay slot.
    #[inline(always)]
    pub fn branch(&mut self, taken: bool, likely: bool, offset: u16)
        ensures branched { (cpu : Processor) → at_counter self.new cpu ≡ branched taken likely offset (at_counter self.old cpu) }
        ensures taken { taken ≡ true → (self.new.pc ≡ slot_address self.old.pc) × (is_some self.new.slot ≡ true) }
        ensures always { likely ≡ false → (self.new.pc ≡ slot_address self.old.pc) × (is_some self.new.slot ≡ true) }
    {
        if likely && !taken {
            self.skip();
            return;
        }
        // so many words on from the branch, which the compiler selects without a jump
        let words = if taken {
            extended(offset).wrapping_add(1)
        } else {
            2
        };
        let follower = self.words_from_here(words);
        self.jump(follower);
    }

    /// The address so many words on from PC.
    #[inline(always)]
    fn words_from_here(&self, words: u32) -> u32
        ensures { result ≡ (self.now.pc + 4 * words) % 2 ^ 32 }
    {
        self.base
            .wrapping_add(self.words.wrapping_add(words).wrapping_mul(4))
    }
}
