//! Laws of a step: the word that it reads, the pages that it depends on, leaves, gives and takes.
ghost use Rattle.std.specs.Prelude.{◌≡◌, ◌⊎◌, ℕ, Bool, true, false, IsTrue, All, length, Some, None, option_to_list};
ghost use Rattle.mips_isa.specs.Memory.{touches_memory};
ghost use Rattle.mips_isa.specs.Table.{readings};
ghost use Rattle.mips_instr.specs.declared.instr.Instr.{Instr};
ghost use Rattle.mips_tlb.specs.declared.kind.Kind.{Kind};
ghost use Rattle.machine.specs.Processor.{Processor};
ghost use Rattle.machine.specs.Board.{Board, page_bytes, is_given_page};
ghost use Rattle.machine.specs.Bus.{Lacks};
ghost use Rattle.machine.specs.Operations.{is_load_or_store, operation_of, instruction_of};
ghost use Rattle.machine.specs.Step.{Machine, machine_with, step};
ghost use Rattle.machine.specs.Accesses.{accesses, first_lack};
ghost use Rattle.machine.specs.Agreeing.{Agree, Within, StoresTo, GivenAreZeros};
ghost use Rattle.machine.specs.Given.{balloon_order, pages_taken, ordered, step_given, AccessesPage, TakesPage, GivesPage};
ghost use Rattle.machine.specs.Given.BalloonOrder.{Give, Take};

use mips_isa::decode;

/// A law: the readings of a word are the instruction that it encodes, or none. So no word has a second reading.
#[tactic(auto, using(crate::proofs::Operations::first_reading))]
pub fn words_have_no_second_reading(word: u32)
    ensures { readings word ≡ option_to_list (instruction_of word) }
{
    let _ = decode(word);
}

/// A law: an instruction touches memory exactly where its operation is a load or a store.
pub fn loads_and_stores_touch_memory()
    ensures { (i : Instr) → touches_memory i ≡ is_load_or_store (operation_of i) }
{}

/// A law: in two boards that agree on the pages that a step accesses in one of them, the step accesses the same pages and
/// leads to the same processor, and the boards after it agree on the same pages as before.
pub fn agreeing_boards_step_alike()
    ensures accesses { (these : ℕ → Bool) (cpu : Processor) (a b : Board) → Agree these a b
        → Within these (accesses (machine_with cpu a)) → accesses (machine_with cpu b) ≡ accesses (machine_with cpu a) }
    ensures cpu { (these : ℕ → Bool) (cpu : Processor) (a b : Board) → Agree these a b
        → Within these (accesses (machine_with cpu a)) → (step (machine_with cpu b)).cpu ≡ (step (machine_with cpu a)).cpu }
    ensures board { (these : ℕ → Bool) (cpu : Processor) (a b : Board) → Agree these a b
        → Within these (accesses (machine_with cpu a)) → Agree these (step (machine_with cpu a)).board (step (machine_with cpu b)).board }
{}

/// A law: in two boards that agree on the pages that are not lacking, the step lacks the same page first, or none.
pub fn agreeing_boards_lack_alike()
    ensures { (these : ℕ → Bool) (lacks : Lacks) (cpu : Processor) (a b : Board) → Agree these a b
        → ((page : ℕ) (kind : Kind) → lacks page kind ≡ None → IsTrue (these page))
        → first_lack lacks (accesses (machine_with cpu b)) ≡ first_lack lacks (accesses (machine_with cpu a)) }
{}

/// A law: a step leaves the bytes of each page that it does not store to and that is not given after it, the size of
/// memory and the number of pages that can be given.
pub fn other_pages_stay()
    ensures bytes { (m : Machine) (page : ℕ) → All (λ x. StoresTo page x → ⊥) (accesses m) → is_given_page page (step m).board ≡ false
        → page_bytes page (step m).board.memory ≡ page_bytes page m.board.memory }
    ensures size { (m : Machine) → length (step m).board.memory ≡ length m.board.memory }
    ensures pages { (m : Machine) → length (step m).board.devices.balloon.given ≡ length m.board.devices.balloon.given }
{}

/// A law: where each page that is given is zeros, it is so after a step.
pub fn given_pages_are_zeros()
    ensures { (m : Machine) → GivenAreZeros m.board → GivenAreZeros (step m).board }
{}

/// A law: a step takes the pages that it accesses out of the given ones and then follows its order, and changes nothing
/// else of the balloon. So a page that a step takes is one that it accesses or the one that it orders to take, and a page
/// that it gives is the one that it orders to give.
pub fn given_pages_change_by_accesses_and_orders()
    ensures balloon { (m : Machine) → (step m).board.devices.balloon ≡ ordered (balloon_order m) (pages_taken (accesses m) m.board.devices.balloon) }
    ensures taken { (m : Machine) (page : ℕ) → TakesPage page m → AccessesPage page m ⊎ (balloon_order m ≡ Some (Take page)) }
    ensures given { (m : Machine) (page : ℕ) → GivesPage page m → balloon_order m ≡ Some (Give page) }
{}

/// A law: the page that a step gives, if it gives one, is given after it; and a page that was not given before a step and is
/// after it is the one that the step gives.
#[tactic(auto, using(crate::proofs::StepGiven::newly_given, crate::proofs::StepGiven::given_after))]
pub fn a_step_gives_one_page()
    ensures newly { (m : Machine) (page : ℕ) → GivesPage page m → step_given m ≡ Some page }
    ensures given { (m : Machine) (page : ℕ) → step_given m ≡ Some page → is_given_page page (step m).board ≡ true }
{}
