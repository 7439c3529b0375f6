//! The bus.
ghost use Rattle.std.specs.Prelude.{◌≡◌, ◌≢◌, ℕ, ◌<◌, ◌%◌, true, length, slice_index, Option, Some, None};
ghost use Rattle.word32.specs.Pages.{page_number};
ghost use Rattle.mips_tlb.specs.declared.kind.Kind.{Kind};
ghost use Rattle.machine.specs.declared.access.Why.{Why};
ghost use Rattle.machine.specs.Board.{Board, reach, value_in, reached_value, touched, board_loaded, board_stored, memory_stored, lines_of, limit_of};
ghost use Rattle.machine.specs.Given.{reached_given};
ghost use Rattle.machine.specs.Places.{alignment};
ghost use Rattle.machine.specs.Bus.{readiness, IsReady, IsPlain};

use crate::{Kind, PhysAddr, Refusal, Size};

/// What the processor reaches by physical addresses: memory, and the registers of devices.
///
/// The meaning of a bus is the `board` behind it, as if each page were there; what its owner keeps behind it and no
/// access changes (`kept`); and by that why it `lacks` a page, by the page's number and what the access is for. Behind a
/// bus that lacks a page the board may hold anything in that page. Its law is the clauses of its methods: `ready` tells
/// whether an access is answered and changes nothing; an access is made where `ready` answers `Ok` for it, as it does where `is_plain`
/// holds, gives and changes the board as the definitions say, and leaves what is kept.
///
/// A store to the balloon may give a page away. The board shows that page as zeros from then on, while the bus may leave
/// it to its owner to take the page away after the step; until then the page is `waiting`, and so does the next access.
pub trait PhysBus {
    /// The memory and the devices behind the bus, with each page there.
    ghost board: { Self → Board };

    /// What no access changes, as a type whose values clauses compare.
    type Kept;

    /// What no access changes: whatever the owner of a bus has to find again after a step.
    ghost kept: { Self → Self.Kept };

    /// Why a page of this number is lacking for an access of a kind, or `None` where it is there.
    ghost lacks: { Self.Kept → ℕ → Kind → Option Why };

    /// The page that was given away and waits for the owner of the bus to take it; `None` where no page waits. A bus that
    /// leaves no page to its owner may say so of any page.
    ghost waiting: { Self → Option ℕ → Type 0 };

    /// Whether an access would be answered, and why not.
    fn ready(&self, at: PhysAddr, size: Size, kind: Kind) -> Result<(), Refusal>
        requires { at % alignment size ≡ 0 }
        ensures { result ≡ readiness (board self.now) (lacks (kept self.now)) kind size at };

    /// Whether an access is plain: memory answers it, and beside the bytes that a store writes it changes nothing. A bus may
    /// answer no for any access.
    fn is_plain(&self, at: PhysAddr, size: Size, kind: Kind) -> bool
        requires { at % alignment size ≡ 0 }
        ensures { result ≡ true → IsPlain (board self.now) (lacks (kept self.now)) kind size at };

    /// The word that a fetch would give.
    fn peek(&self, at: PhysAddr) -> u32
        requires settled { waiting self.now None }
        requires aligned { at % 4 ≡ 0 }
        requires ready { IsReady (board self.now) (lacks (kept self.now)) Kind.Fetch Size.Word at }
        ensures { result ≡ value_in (board self.now).memory Size.Word at };

    /// Fetches a word.
    fn fetch(&mut self, at: PhysAddr) -> u32
        requires settled { waiting self.old None }
        requires aligned { at % 4 ≡ 0 }
        requires ready { IsReady (board self.old) (lacks (kept self.old)) Kind.Fetch Size.Word at }
        ensures value { result ≡ value_in (board self.old).memory Size.Word at }
        ensures board { board self.new ≡ touched at (board self.old) }
        ensures kept { kept self.new ≡ kept self.old }
        ensures settled { waiting self.new None };

    /// Loads a value, which has no more bits than the access.
    fn load(&mut self, at: PhysAddr, size: Size) -> u32
        requires settled { waiting self.old None }
        requires aligned { at % alignment size ≡ 0 }
        requires ready { IsReady (board self.old) (lacks (kept self.old)) Kind.Load size at }
        ensures value { result ≡ reached_value (reach (board self.old) Kind.Load size at) size at (board self.old) }
        ensures small { result < limit_of size }
        ensures board { board self.new ≡ board_loaded (reach (board self.old) Kind.Load size at) at (board self.old) }
        ensures kept { kept self.new ≡ kept self.old }
        ensures settled { waiting self.new None };

    /// Loads a value where the access is plain. It does nothing beside that: a bus that notes which pages are accessed has noted an access
    /// that `load` made of the page before.
    fn load_plain(&self, at: PhysAddr, size: Size) -> u32
        requires settled { waiting self.now None }
        requires aligned { at % alignment size ≡ 0 }
        requires plain { IsPlain (board self.now) (lacks (kept self.now)) Kind.Load size at }
        ensures value { result ≡ value_in (board self.now).memory size at }
        ensures small { result < limit_of size };

    /// Stores a value where the access is plain, as `load_plain` loads one.
    fn store_plain(&mut self, at: PhysAddr, size: Size, value: u32)
        requires settled { waiting self.old None }
        requires aligned { at % alignment size ≡ 0 }
        requires plain { IsPlain (board self.old) (lacks (kept self.old)) Kind.Store size at }
        ensures board { board self.new ≡ memory_stored size value at (board self.old) }
        ensures kept { kept self.new ≡ kept self.old }
        ensures settled { waiting self.new None };

    /// The interrupt lines that are raised, bit k for IPk.
    fn lines(&self) -> u8
        ensures { result ≡ lines_of (board self.now) };

    /// The byte of memory at an address, as a debugger sees it: a page that was never touched or was given away is
    /// zeros, and stays as it is.
    fn look(&self, at: PhysAddr) -> u8
        requires settled { waiting self.now None }
        requires inside { at < length (board self.now).memory }
        requires there { lacks (kept self.now) (page_number at) Kind.Load ≢ Some Why.Swapped }
        ensures { result ≡ slice_index (board self.now).memory at };

    /// Stores a value, of which a byte or a half-word takes the lowest bits. It may give a page away, which then
    /// may wait for the owner of the bus.
    fn store(&mut self, at: PhysAddr, size: Size, value: u32)
        requires settled { waiting self.old None }
        requires aligned { at % alignment size ≡ 0 }
        requires ready { IsReady (board self.old) (lacks (kept self.old)) Kind.Store size at }
        ensures board { board self.new ≡ board_stored (reach (board self.old) Kind.Store size at) size value at (board self.old) }
        ensures kept { kept self.new ≡ kept self.old }
        ensures waiting { waiting self.new (reached_given (reach (board self.old) Kind.Store size at) value (board self.old)) };
}
