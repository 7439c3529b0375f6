//! Laws of a machine's boot, of the run of its items, and of what a debugger reads of it.
ghost use Rattle.std.specs.Prelude.{◌≡◌, ◌↔◌, ℕ, ◌+◌, ◌-◌, ◌%◌, ◌^◌, ◌<◌, ◌≤◌, false, List, ◌++◌, length, slice_index, Some, None, Ok};
ghost use Rattle.word32.specs.Zeros.{zeros};
ghost use Rattle.elf32.specs.declared.image.Segment.{Segment};
ghost use Rattle.elf32.specs.declared.image.Image.{Image};
ghost use Rattle.mips_cp0.specs.Bits.{has_bits};
ghost use Rattle.mips_cp0.specs.Status.{status_erl, is_user_mode};
ghost use Rattle.mips_tlb.specs.declared.kind.Kind.TheVariants.{Load};
ghost use Rattle.mips_tlb.specs.Translation.{translation, answer_of};
ghost use Rattle.machine.specs.declared.access.Size.TheVariants.{Byte};
ghost use Rattle.machine.specs.Board.{reach, reached_value};
ghost use Rattle.machine.specs.Board.Reach.{InMemory, Nowhere};
ghost use Rattle.machine.specs.Places.{place};
ghost use Rattle.machine.specs.Step.{Machine};
ghost use Rattle.items.specs.declared.item.What.{What};
ghost use Rattle.items.specs.declared.item.Item.{Item};
ghost use Rattle.machine.specs.Agreeing.{GivenAreZeros};
ghost use Rattle.machine.specs.Boot.{placed, boot_board};
ghost use Rattle.machine.specs.Items.{after, run, AllAccepted};
ghost use Rattle.machine.specs.Replies.{in_memory, probe, byte_at, bytes_at};

/// A law: the run of joined items is the run of the later ones from where the earlier ones lead; and they are all accepted
/// where the earlier ones are, and the later ones from there.
#[tactic(auto, using(crate::proofs::Runs::run_append, crate::proofs::Runs::accepted_append))]
pub fn runs_join()
    ensures machine { (earlier later : List Item) (m : Machine) → run (earlier ++ later) m ≡ run later (run earlier m) }
    ensures accepted { (earlier later : List Item) (m : Machine) →
        AllAccepted (earlier ++ later) m ↔ (AllAccepted earlier m × AllAccepted later (run earlier m)) }
{}

/// A law: a memory that holds one segment, from its first byte on, is the segment's bytes and then zeros.
#[tactic(auto, using(crate::proofs::Placed::placed_first))]
pub fn first_segment_is_its_bytes_and_zeros()
    ensures { (s : Segment) (size : ℕ) →
        s.address ≡ 0x80000000 → length s.bytes.items ≤ size → placed (zeros size) s ≡ s.bytes.items ++ zeros (size - length s.bytes.items) }
{}

/// A law: a page that is given to the balloon is zeros: it is so at boot, and whatever happens to a machine where it is so.
#[tactic(auto, using(crate::proofs::GivenPages::boot_zeros, crate::proofs::GivenPages::after_zeros, crate::proofs::GivenPages::run_zeros))]
pub fn given_pages_are_zeros()
    ensures boot { (image : Image) (pages : ℕ) → GivenAreZeros (boot_board image pages) }
    ensures each { (what : What) (m : Machine) → GivenAreZeros m.board → GivenAreZeros (after what m).board }
    ensures run { (items : List Item) (m : Machine) → GivenAreZeros m.board → GivenAreZeros (run items m).board }
{}

/// A law: a probe does not depend on the mode that runs. In kernel mode it is where a load leads, if that lies in memory,
/// and it is the same at each value of Status that has the same ERL, the one bit that decides whether kuseg is mapped.
pub fn probe_ignores_the_mode()
    ensures kernel_load { (m : Machine) (address : ℕ) →
        is_user_mode m.cpu.cp0.status ≡ false → probe m address ≡ in_memory m.board.memory (answer_of (translation m.cpu.tlb m.cpu.cp0 Load address)) }
    ensures any_mode { (m : Machine) (status address : ℕ) →
        has_bits status_erl status ≡ has_bits status_erl m.cpu.cp0.status →
        probe (record m { cpu = record m.cpu { cp0 = record m.cpu.cp0 { status = status } } }) address ≡ probe m address }
{}

/// A law: where a load of a byte, in the mode that runs, leads to memory, it gives the byte that is read there; where it
/// leads past memory, no byte is read.
pub fn a_byte_read_is_a_byte_loaded()
    ensures loaded { (m : Machine) (address at : ℕ) →
        place Load Byte m.cpu address ≡ Ok at → reach m.board Load Byte at ≡ InMemory →
        byte_at m address ≡ Some (reached_value InMemory Byte at m.board) }
    ensures past { (m : Machine) (address at : ℕ) →
        place Load Byte m.cpu address ≡ Ok at → reach m.board Load Byte at ≡ Nowhere → byte_at m address ≡ None }
{}

/// A law: what is read of a length is that many bytes, each of them the one at its address; and where bytes are those at
/// their addresses, they are what is read.
#[tactic(auto, using(crate::proofs::Replies::read_length, crate::proofs::Replies::read_whole))]
pub fn a_read_is_its_bytes()
    ensures count { (m : Machine) (address count : ℕ) (bytes : List ℕ) → bytes_at m address count ≡ Some bytes → length bytes ≡ count }
    ensures each { (m : Machine) (address count k : ℕ) (bytes : List ℕ) →
        bytes_at m address count ≡ Some bytes → k < count → byte_at m ((address + k) % 2 ^ 32) ≡ Some (slice_index bytes k) }
    ensures whole { (m : Machine) (address : ℕ) (bytes : List ℕ) →
        ((k : ℕ) → k < length bytes → byte_at m ((address + k) % 2 ^ 32) ≡ Some (slice_index bytes k)) →
        bytes_at m address (length bytes) ≡ Some bytes }
{}
