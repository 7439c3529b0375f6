//! The words that a machine would fetch.
ghost use Rattle.std.specs.Prelude.{◌≡◌, ◌%◌};
ghost use Rattle.runs.specs.Loops as spec;

use crate::{NoPlace, Runnable};
use machine::Kind;
use word32::word_at;

/// The word that a fetch at a virtual address would give, where it would raise no exception and touch no page that is given to the balloon.
pub fn fetched_word<M: Runnable>(machine: &M, address: u32) -> Option<u32>
    ensures { result ≡ spec.fetched_word (M.state machine.now) address }
{
    if address % 4 != 0 {
        return None;
    }
    let view = machine.view();
    let Ok(at) = view
        .cpu
        .tlb()
        .translate(view.cpu.cp0(), address, Kind::Fetch)
    else {
        return None;
    };
    if view.devices.is_given(at.page()) {
        return None;
    }
    word_read(machine, address)
}

/// The word at a virtual address, as a debugger reads it.
fn word_read<M: Runnable>(machine: &M, address: u32) -> Option<u32>
    ensures { result ≡ spec.word_read (M.state machine.now) address }
{
    let mut bytes = [0; 4];
    match machine.read(address, &mut bytes) {
        Ok(()) => Some(word_at(&bytes, 0)),
        Err(NoPlace) => None,
    }
}
