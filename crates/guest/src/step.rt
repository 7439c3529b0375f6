//! A processor over pages: its steps, what else happens to it, and what is read of it, all as of the machine whose processor
//! and pages they are.
ghost use Rattle.std.specs.Prelude.{◌≡◌, ◌≢◌, ◌↔◌, ◌+◌, ◌<◌, ◌≤◌, ℕ, true, false, List, length, Option, Some, None, OnOk, OnErr, IfOk, IfSome, IsErrOf};
ghost use Rattle.items.specs.Entries.{steps_of};
ghost use Rattle.items.specs.Items.{is_step};
ghost use Rattle.items.specs.declared.item.What.TheVariants.{Drain};
ghost use Rattle.mips_tlb.specs.declared.kind.Kind.TheVariants.{Store};
ghost use Rattle.machine.specs.Accesses.{accesses, first_lack};
ghost use Rattle.machine.specs.Agreeing.{GivenAreZeros};
ghost use Rattle.machine.specs.Given.{step_given};
ghost use Rattle.machine.specs.Step.{Machine, machine_with, step};
ghost use Rattle.machine.specs.Answers.{replied};
ghost use Rattle.machine.specs.Items.{accepts, after, reply, run};
ghost use Rattle.machine.specs.Replies.{bytes_at, SomePlaceIn};
ghost use Rattle.mips_fast.specs.Runs.{steps, AreQuiet};
ghost use Rattle.guest_pages.specs.declared.page.PageKind.{PageKind};
ghost use Rattle.guest_pages.specs.declared.page.Returned.{Returned};
ghost use Rattle.guest_pages.specs.Pages.{kind_at, AreWhole};
ghost use Rattle.guest_pages.specs.Outline.{outline};
ghost use Rattle.page_moves.specs.Faith.{Kept};
ghost use Rattle.guest_bus.specs.Buses.{IsSettled, board_of, after_settling, page_returned};
ghost use Rattle.guest_bus.specs.Lacking.{lacks_in};
ghost use Rattle.guest_bus.specs.Writes.{WritesTo};
ghost use Rattle.machine.specs.declared.access.Why.{Why};
ghost use Rattle.guest.specs.Guests.{need_of, HandsBack, last_given, HasPaused, IsMade};
ghost use Rattle.guest.specs.declared.progress.Pause.{Pause};
ghost use Rattle.guest.specs.Views.{pages_seen, Shows};

use crate::{Pause, Progress, Stepped};
use guest_bus::{GuestBus, InputError};
use guest_pages::Returned;
use items::What;
use machine::{Ppn, Reply, StepOut, Why};
use mips_fast::{Everything, RunCache};
use mips_step::{Cpu, Unreached, debug};

// The page that a step gave leaves its place.
#[inline(always)]
fn settled(bus: &mut GuestBus) -> Returned
    ensures whole { AreWhole bus.old.pages }
    ensures bus { bus.new ≡ after_settling bus.old }
    ensures board { board_of bus.new ≡ board_of bus.old }
    ensures returned { result ≡ page_returned bus.old.waiting bus.old.pages }
{
    bus.sound();
    bus.settle()
}

// Each page has its bytes.
#[inline(always)]
pub(crate) fn whole(bus: &GuestBus)
    ensures { AreWhole bus.now.pages }
{
    bus.sound();
}

/// One step of a processor over pages, after which the page that it gave has left its place. It answers `Need` exactly where
/// the step would access a page that is lacking, and then nothing has changed. Where processor and pages were those of a
/// machine, they are those of that machine's step.
#[inline(always)]
pub(crate) fn step_pages(cpu: &mut Cpu, bus: &mut GuestBus) -> Stepped
    requires settled { IsSettled bus.old }
    ensures need { need_of result ≡ first_lack (lacks_in bus.old.pages) (accesses (machine_with cpu.old (board_of bus.old))) }
    ensures shows { need_of result ≡ None → (m : Machine) → GivenAreZeros m.board → Shows m cpu.old bus.old → Shows (step m) cpu.new bus.new }
    ensures kept { need_of result ≡ None → (m : Machine) → GivenAreZeros m.board → Shows m cpu.old bus.old →
        (held : ℕ → Option (List ℕ)) → Kept held (pages_seen m) bus.old.pages → Kept held (pages_seen (step m)) bus.new.pages }
    ensures hands_back { HandsBack (step_given (machine_with cpu.old (board_of bus.old))) bus.old.pages result bus.new.pages }
    ensures unchanged { need_of result ≢ None → (cpu.new ≡ cpu.old) × (bus.new ≡ bus.old) }
    ensures settled { IsSettled bus.new }
    ensures whole { AreWhole bus.old.pages }
{
    whole(bus);
    match cpu.step(bus) {
        StepOut::Done => Stepped::Done(settled(bus)),
        StepOut::Need(page, why) => {
            whole(bus);
            Stepped::Need(page, why)
        }
    }
}

/// One step as of `step_pages`: None where it is made and gave no page, else why a run of steps pauses there.
#[inline(always)]
fn step_or_pause(cpu: &mut Cpu, bus: &mut GuestBus) -> Option<Pause>
    requires settled { IsSettled bus.old }
    ensures need { (p : ℕ) (why : Why) → result ≡ Some (Pause.Need p why) →
        first_lack (lacks_in bus.old.pages) (accesses (machine_with cpu.old (board_of bus.old))) ≡ Some (p, why) }
    ensures there { (p : ℕ) (why : Why) → result ≡ Some (Pause.Need p why) → p < length bus.old.pages }
    ensures lacking { IsMade result → first_lack (lacks_in bus.old.pages) (accesses (machine_with cpu.old (board_of bus.old))) ≡ None }
    ensures moves { IsMade result → machine_with cpu.new (board_of bus.new) ≡ step (machine_with cpu.old (board_of bus.old)) }
    ensures shows { IsMade result → (m : Machine) → GivenAreZeros m.board → Shows m cpu.old bus.old → Shows (step m) cpu.new bus.new }
    ensures kept { IsMade result → (m : Machine) → GivenAreZeros m.board → Shows m cpu.old bus.old →
        (held : ℕ → Option (List ℕ)) → Kept held (pages_seen m) bus.old.pages → Kept held (pages_seen (step m)) bus.new.pages }
    ensures paused { IsMade result → HasPaused (step_given (machine_with cpu.old (board_of bus.old))) bus.old.pages result bus.new.pages }
    ensures unchanged { (IsMade result → ⊥) → (cpu.new ≡ cpu.old) × (bus.new ≡ bus.old) }
    ensures settled { IsSettled bus.new }
{
    whole(bus);
    match cpu.step(bus) {
        StepOut::Done => match bus.waiting() {
            None => {
                whole(bus);
                None
            }
            Some(_) => Some(Pause::Gave(settled(bus))),
        },
        StepOut::Need(lacking, why) => {
            whole(bus);
            Some(Pause::Need(lacking, why))
        }
    }
}

/// At most `count` steps of a processor over pages, one after another, to the first that needs a page that is lacking, which has
/// changed nothing, or that gave a page, which has left its place then. Where processor and pages were those of a machine, they are
/// those of that machine after so many steps.
#[inline]
pub(crate) fn run_pages(
    cpu: &mut Cpu,
    bus: &mut GuestBus,
    cache: &mut RunCache,
    count: u32,
) -> Progress
    requires settled { IsSettled bus.old }
    ensures few { result.steps ≤ count }
    ensures all { result.pause ≡ None → result.steps ≡ count }
    ensures gave { (returned : Returned) → result.pause ≡ Some (Pause.Gave returned) → 0 < result.steps }
    ensures need { (p : ℕ) (why : Why) → result.pause ≡ Some (Pause.Need p why) →
        first_lack (lacks_in bus.new.pages) (accesses (machine_with cpu.new (board_of bus.new))) ≡ Some (p, why) }
    ensures there { (p : ℕ) (why : Why) → result.pause ≡ Some (Pause.Need p why) → p < length bus.old.pages }
    ensures short { (p : ℕ) (why : Why) → result.pause ≡ Some (Pause.Need p why) → result.steps < count }
    ensures shows { (seat : ℕ) (m : Machine) → GivenAreZeros m.board → Shows m cpu.old bus.old → Shows (run (steps_of seat result.steps) m) cpu.new bus.new }
    ensures kept { (seat : ℕ) (m : Machine) → GivenAreZeros m.board → Shows m cpu.old bus.old → (held : ℕ → Option (List ℕ)) →
        Kept held (pages_seen m) bus.old.pages → Kept held (pages_seen (run (steps_of seat result.steps) m)) bus.new.pages }
    ensures lacking { (seat k : ℕ) → k < result.steps →
        first_lack (lacks_in bus.old.pages) (accesses (run (steps_of seat k) (machine_with cpu.old (board_of bus.old)))) ≡ None }
    ensures gives_last { (seat k : ℕ) → k + 1 < result.steps → step_given (run (steps_of seat k) (machine_with cpu.old (board_of bus.old))) ≡ None }
    ensures paused { (seat : ℕ) →
        HasPaused (last_given seat result.steps (machine_with cpu.old (board_of bus.old))) bus.old.pages result.pause bus.new.pages }
    ensures unchanged { result.steps ≡ 0 → (cpu.new ≡ cpu.old) × (bus.new ≡ bus.old) }
    ensures settled { IsSettled bus.new }
    ensures whole { AreWhole bus.old.pages }
{
    whole(bus);
    let mut made = 0;
    while made < count {
        made += run_quietly(cpu, bus, cache, count - made);
        if made == count {
            return Progress {
                steps: count,
                pause: None,
            };
        }
        if let Some(pause) = step_or_pause(cpu, bus) {
            return Progress {
                steps: made + pause.steps(),
                pause: Some(pause),
            };
        }
        made += 1;
    }
    Progress {
        steps: count,
        pause: None,
    }
}

/// Some steps of a processor over pages, at most `count`, as `mips_fast::run` makes them, and how many: none of them needs a page that is
/// lacking or gives one. Where processor and pages were those of a machine, they are those of that machine after so many steps.
#[inline(always)]
fn run_quietly(cpu: &mut Cpu, bus: &mut GuestBus, cache: &mut RunCache, count: u32) -> u32
    requires settled { IsSettled bus.old }
    ensures few { result ≤ count }
    ensures shows { (seat : ℕ) (m : Machine) → GivenAreZeros m.board → Shows m cpu.old bus.old → Shows (run (steps_of seat result) m) cpu.new bus.new }
    ensures kept { (seat : ℕ) (m : Machine) → GivenAreZeros m.board → Shows m cpu.old bus.old → (held : ℕ → Option (List ℕ)) →
        Kept held (pages_seen m) bus.old.pages → Kept held (pages_seen (run (steps_of seat result) m)) bus.new.pages }
    ensures moves { machine_with cpu.new (board_of bus.new) ≡ steps result (machine_with cpu.old (board_of bus.old)) }
    ensures quiet { AreQuiet (lacks_in bus.old.pages) result (machine_with cpu.old (board_of bus.old)) }
    ensures same { outline bus.new.pages ≡ outline bus.old.pages }
    ensures unchanged { result ≡ 0 → (cpu.new ≡ cpu.old) × (bus.new ≡ bus.old) }
    ensures settled { IsSettled bus.new }
{
    whole(bus);
    let made = mips_fast::run(cpu, bus, cache, &Everything, count);
    whole(bus);
    made
}

/// The `Need` that `step_pages` would answer. Where processor and pages are those of a machine, it is what that machine lacks by
/// where the pages are.
pub(crate) fn need_pages(cpu: &Cpu, bus: &GuestBus) -> Option<(Ppn, Why)>
    requires settled { IsSettled bus.now }
    ensures need { result ≡ first_lack (lacks_in bus.now.pages) (accesses (machine_with cpu.now (board_of bus.now))) }
    ensures there { IfSome result (λ needed. needed.0 < length bus.now.pages) }
    ensures whole { AreWhole bus.now.pages }
{
    whole(bus);
    cpu.need(bus)
}

/// What happens to a processor over pages by an item that is no step, as `GuestBus::input` has it. Where processor and pages were
/// those of a machine, they are those of that machine after it, and the answer is that machine's.
pub(crate) fn input_pages(
    cpu: &mut Cpu,
    bus: &mut GuestBus,
    what: &What,
) -> Result<Reply, InputError>
    requires settled { IsSettled bus.old }
    requires no_step { is_step what.now ≡ false }
    ensures accepted { OnOk result ((m : Machine) → Shows m cpu.old bus.old → accepts what.now m ≡ true) }
    ensures shows { OnOk result ((m : Machine) → Shows m cpu.old bus.old → Shows (after what.now m) cpu.new bus.new) }
    ensures kept { OnOk result ((m : Machine) → Shows m cpu.old bus.old →
        (held : ℕ → Option (List ℕ)) → Kept held (pages_seen m) bus.old.pages → Kept held (pages_seen (after what.now m)) bus.new.pages) }
    ensures reply { IfOk result (λ r. (m : Machine) → Shows m cpu.old bus.old → replied r ≡ reply what.now m) }
    ensures refused { IsErrOf result InputError.Machine → (m : Machine) → Shows m cpu.old bus.old → accepts what.now m ≡ false }
    ensures refused_as_it_stands { IsErrOf result InputError.Machine → accepts what.now (machine_with cpu.old (board_of bus.old)) ≡ false }
    ensures reply_as_it_stands { IfOk result (λ r. replied r ≡ reply what.now (machine_with cpu.old (board_of bus.old))) }
    ensures outline { outline bus.new.pages ≡ outline bus.old.pages }
    ensures memory { IsErrOf result InputError.Memory → what.now ≡ Drain }
    ensures away { (page : ℕ) → IsErrOf result (InputError.Away page) → lacks_in bus.old.pages page Store ≢ None }
    ensures its_page { (page : ℕ) → IsErrOf result (InputError.Away page) → WritesTo what.now (machine_with cpu.old (board_of bus.old)) page }
    ensures unchanged { OnErr result ((bus.new ≡ bus.old) × (cpu.new ≡ cpu.old)) }
    ensures settled { IsSettled bus.new }
{
    whole(bus);
    match bus.input(cpu, what) {
        Ok(reply) => {
            whole(bus);
            Ok(reply)
        }
        Err(error) => Err(error),
    }
}

/// Reads as many bytes as `bytes` has from a virtual address on, as `mips_step::debug::read` has it. Where processor and pages are
/// those of a machine, the bytes are those that are read of that machine.
pub(crate) fn read_pages(
    cpu: &Cpu,
    bus: &GuestBus,
    address: u32,
    bytes: &mut [u8],
) -> Result<(), Unreached>
    requires settled { IsSettled bus.now }
    ensures read { OnOk result ((m : Machine) → Shows m cpu.now bus.now → bytes_at m address (length bytes.old) ≡ Some bytes.new) }
    ensures no_place { (m : Machine) → Shows m cpu.now bus.now → (IsErrOf result Unreached.NoPlace ↔ (bytes_at m address (length bytes.old) ≡ None)) }
    ensures away { (page : ℕ) → IsErrOf result (Unreached.Away page) → kind_at bus.now.pages page ≡ PageKind.Swapped }
    ensures its_page { (page : ℕ) → IsErrOf result (Unreached.Away page) →
        (m : Machine) → Shows m cpu.now bus.now → SomePlaceIn m address (length bytes.old) page }
    ensures not_placed { IsErrOf result Unreached.NoPlace ↔ (bytes_at (machine_with cpu.now (board_of bus.now)) address (length bytes.old) ≡ None) }
    ensures placed_in { (page : ℕ) → IsErrOf result (Unreached.Away page) → SomePlaceIn (machine_with cpu.now (board_of bus.now)) address (length bytes.old) page }
    ensures unchanged { OnErr result (bytes.new ≡ bytes.old) }
{
    whole(bus);
    match debug::read(cpu, bus, address, bytes) {
        Ok(()) => Ok(()),
        Err(unreached) => Err(unreached),
    }
}
