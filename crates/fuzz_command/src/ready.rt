//! How a machine is made ready for inputs.
ghost use Rattle.std.specs.Prelude.{◌≡◌, ◌∷◌, [], IfErr, IfOk, IfSome};
ghost use Rattle.commands.specs.Raw.{IsPageCount};
ghost use Rattle.elf32.specs.Images.{FitsPages};
ghost use Rattle.runs.specs.Runs.{after_steps};
ghost use Rattle.fuzz_command.specs.Faults.{IsReadyFault, IsSettingFault};
ghost use Rattle.fuzz_command.specs.Settings.{ComesTo, IsReady, IsReadyAfter, IsSilent, boot_of};

use crate::fault::FuzzFault;
use crate::order::{FuzzOrder, Ready};
use commands::Fault;
use commands::fault::of_boot;
use elf32::Image;
use reset_machine::{Home, ResetMachine};
use runs::{Nobody, Runnable, Until, run};
use std::alloc::{AllocError, Global};
use std::sync::Arc;

/// How many steps a machine makes at most on its way to an address.
const MOST_STEPS: u32 = 1 << 30;

// A machine as an order's image boots.
#[tactic(auto, using(crate::proofs::Limits::few_pages))]
fn booted(alloc: Global, order: &FuzzOrder<'_>, image: &Image) -> Result<ResetMachine, AllocError>
    requires legal { IsPageCount order.now.run.profile order.now.run.pages }
    requires fits { FitsPages image.now order.now.run.pages }
    ensures machine { IfOk result (λ m. m.machine ≡ boot_of order.now image.now) }
{
    let home = Home::boot(alloc, order.run.profile, image, order.run.pages)?;
    ResetMachine::new(alloc, Arc::new(alloc, home)?)
}

// The states at which PC is an address, and loops for ever.
fn until_address(alloc: Global, address: u32) -> Result<Until, AllocError>
    ensures { IfOk result (λ until. until.addresses.items ≡ address ∷ []) }
{
    let addresses = Vec::from_array(alloc, [address])?;
    Ok(Until {
        loops: true,
        exceptions: false,
        addresses,
    })
}

// Makes steps until PC is an address for the first time, and tells how many; None where it never is while the machine makes 2^30 steps or
// before it is in a loop for ever.
#[tactic(auto, using(crate::proofs::Readiness::steps_alone))]
fn come_to(
    alloc: Global,
    machine: &mut ResetMachine,
    address: u32,
) -> Result<Option<u32>, AllocError>
    requires silent { IsSilent machine.old.machine }
    ensures comes { IfOk result (λ made. IfSome made (ComesTo address machine.old.machine)) }
    ensures machine { IfOk result (λ made. IfSome made (λ steps. machine.new.machine ≡ after_steps steps machine.old.machine)) }
{
    let until = until_address(alloc, address)?;
    let ran = run(machine, &[], MOST_STEPS, &until, &mut Nobody);
    if machine.view().cpu.pc() == address {
        Ok(Some(ran.steps))
    } else {
        Ok(None)
    }
}

// Brings a machine that is as its image boots to where it is ready, and tells after how many steps it is.
fn bring<'a>(alloc: Global, ready: Ready, machine: &mut ResetMachine) -> Result<u32, FuzzFault<'a>>
    requires silent { IsSilent machine.old.machine }
    ensures after { IfOk result (IsReadyAfter ready machine.old.machine) }
    ensures machine { IfOk result (λ made. machine.new.machine ≡ after_steps made machine.old.machine) }
    ensures faults { IfErr result (IsReadyFault ready) }
{
    match ready {
        Ready::Boot => Ok(0),
        Ready::Steps(count) => {
            machine.steps(count);
            Ok(count)
        }
        Ready::Address(address) => match come_to(alloc, machine, address)? {
            Some(made) => Ok(made),
            None => Err(FuzzFault::Unready),
        },
    }
}

/// The machine of an order's image where it is ready, and how many steps it had made since its boot.
///
/// An error is `Boot` or `Memory` where a request for memory was refused, and `Unready` where the machine does not come to the address where it
/// is ready.
#[tactic(auto, using(crate::proofs::Faults::of_ready))]
pub(crate) fn make_ready<'a>(
    alloc: Global,
    order: &FuzzOrder<'a>,
    image: &Image,
) -> Result<(Arc<Home, Global>, u32), FuzzFault<'a>>
    requires legal { IsPageCount order.now.run.profile order.now.run.pages }
    requires fits { FitsPages image.now order.now.run.pages }
    ensures ready { IfOk result (λ made. IsReady order.now image.now made.1 made.0.value) }
    ensures silent { IfOk result (λ made. IsSilent made.0.value) }
    ensures faults { IfErr result (IsSettingFault order.now) }
{
    let mut machine = of_boot(booted(alloc, order, image))?;
    let made = bring(alloc, order.ready, &mut machine)?;
    match Arc::new(alloc, machine.into_home()) {
        Ok(home) => Ok((home, made)),
        Err(_) => Err(FuzzFault::Command(Fault::Memory)),
    }
}
