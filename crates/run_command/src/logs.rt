//! The logs that a run leaves.
use crate::order::RunOrder;
use cell::Ended;
use commands::Fault;
use commands::log_file::{log_name, write_log};
use std::io;
use std::io::Write;
use std::rt::Files;

// Writes the log of a guest into the directory of the order. Whether it is written; else its fault stands in `err`.
fn write_one<R: Files + AllocGlobal, E: Write>(
    rt: &R,
    order: &RunOrder<'_>,
    number: usize,
    guest: &Ended,
    digest: &[u8; 32],
    err: &mut E,
) -> io::Result<bool> {
    let Ok(name) = log_name(rt.alloc(), order.logs, number) else {
        writeln!(err, "vmhost: {}", Fault::Memory)?;
        return Ok(false);
    };
    let log = guest.guest.log();
    let pages = guest.guest.page_count();
    match write_log(rt, name.as_str(), log, order.profile, pages, digest) {
        Ok(()) => Ok(true),
        Err(fault) => {
            writeln!(err, "vmhost: {fault}")?;
            Ok(false)
        }
    }
}

/// Writes the log of each guest that has ended into the directory of the order. Whether all are written; the fault of each that isn't stands in
/// `err`, and the others are written.
pub(crate) fn write_logs<R: Files + AllocGlobal, E: Write>(
    rt: &R,
    order: &RunOrder<'_>,
    guests: &[Ended],
    digests: &[[u8; 32]],
    err: &mut E,
) -> bool {
    let mut all = true;
    for (number, (guest, digest)) in guests.iter().zip(digests).enumerate() {
        match write_one(rt, order, number, guest, digest, err) {
            Ok(true) => {}
            _ => all = false,
        }
    }
    all
}

/// Gives up what the guests have left.
pub(crate) fn close_all(mut ended: Vec<Ended>) {
    while let Some(one) = ended.pop() {
        let Ended {
            guest,
            stake,
            seats,
            rest,
            keeper,
        } = one;
        drop(stake);
        drop(seats);
        drop(rest);
        drop(keeper);
        guest.close();
    }
    ended.destroy_empty();
}
