//! A log of each kind of item. Where a request for memory is refused, the log has to be as it was.
ghost use Rattle.std.specs.Prelude.{◌≡◌, ◌<◌, false};
ghost use Rattle.items.specs.Items.{is_step};

use crate::{Log, Stop};
use items::{DebugRegister, Entry, Item, SeatNo, What, WriteBytes};
use std::process::Abort;
use std::test::Fail;

/// Logs so many steps of a seat.
fn log_steps(rt: &impl Abort, log: &mut Log, seat: u8, count: u32)
    requires { seat < 4 }
{
    for _ in 0..count {
        let before = (log.len(), log.runs(), log.entries().len());
        let mut room = log.make_room();
        if room == Err(Stop::Memory) {
            assert_eq!(rt; (log.len(), log.runs(), log.entries().len()), before);
            room = log.make_room();
        }
        match room {
            Ok(()) => log.step(SeatNo::new(seat)),
            Err(_) => assert!(rt; false, "no room for a step"),
        }
    }
}

/// Logs one item of a seat that is no step.
fn log_other(rt: &impl Abort, log: &mut Log, seat: u8, what: What)
    requires seat { seat < 4 }
    requires other { is_step what ≡ false }
{
    let before = (log.len(), log.runs(), log.entries().len());
    let mut room = log.make_item_room();
    if room == Err(Stop::Memory) {
        assert_eq!(rt; (log.len(), log.runs(), log.entries().len()), before);
        room = log.make_item_room();
    }
    match room {
        Ok(()) => log.add(Item {
            seat: SeatNo::new(seat),
            what,
        }),
        Err(_) => assert!(rt; false, "no room for an item"),
    }
}

/// The seat and the number of an entry of steps.
fn steps_of(entry: Option<&Entry>) -> Option<(u8, u64)> {
    match entry {
        Some(Entry::Steps { seat, count }) => Some((seat.number(), *count)),
        _ => None,
    }
}

/// The seat of any other entry, and what it is.
fn one_of(entry: Option<&Entry>) -> Option<(u8, &What)> {
    match entry {
        Some(Entry::One(item)) => Some((item.seat.number(), &item.what)),
        _ => None,
    }
}

#[test]
fn input_parts_the_steps_of_a_seat(rt: HostRuntime) -> Result<(), Fail> {
    let mut log = Log::new(rt.alloc(), 100);
    assert!(rt; log.is_empty());
    assert_eq!(rt; (log.len(), log.runs()), (0, 0));
    assert!(rt; log.last_steps().is_none());
    log_steps(&rt, &mut log, 0, 3);
    assert!(rt; !log.is_empty());
    assert_eq!(rt; (log.len(), log.runs(), log.entries().len()), (3, 1, 0));
    log_other(&rt, &mut log, 0, What::In(0x41));
    assert_eq!(rt; (log.len(), log.runs(), log.entries().len()), (4, 2, 2));
    assert!(rt; log.last_steps().is_none());
    log_steps(&rt, &mut log, 0, 2);
    assert_eq!(rt; (log.len(), log.runs(), log.entries().len()), (6, 3, 2));
    assert_eq!(rt; steps_of(log.entries().get(0)), Some((0, 3)));
    assert!(rt; matches!(one_of(log.entries().get(1)), Some((0, What::In(0x41)))));
    assert_eq!(rt; steps_of(log.last_steps().as_ref()), Some((0, 2)));
    log_steps(&rt, &mut log, 3, 1);
    assert_eq!(rt; (log.len(), log.runs(), log.entries().len()), (7, 4, 3));
    assert_eq!(rt; steps_of(log.entries().get(2)), Some((0, 2)));
    assert_eq!(rt; steps_of(log.last_steps().as_ref()), Some((3, 1)));
    Ok(())
}

#[test]
fn each_other_item_is_a_run(rt: HostRuntime) -> Result<(), Fail> {
    let mut log = Log::new(rt.alloc(), 100);
    let register = DebugRegister::new(37);
    let bytes = WriteBytes::from_vec([7, 0, 255].to_vec(rt.alloc())?);
    log_other(&rt, &mut log, 1, What::In(9));
    log_other(&rt, &mut log, 1, What::In(9));
    log_other(&rt, &mut log, 2, What::Drain);
    log_other(&rt, &mut log, 2, What::Target(5));
    log_other(
        &rt,
        &mut log,
        3,
        What::Poke {
            register,
            value: 0xbfc0_0000,
        },
    );
    log_other(
        &rt,
        &mut log,
        3,
        What::Write {
            address: 0x8000_0ffe,
            bytes,
        },
    );
    assert_eq!(rt; (log.len(), log.runs(), log.entries().len()), (6, 6, 6));
    assert!(rt; matches!(one_of(log.entries().get(0)), Some((1, What::In(9)))));
    assert!(rt; matches!(one_of(log.entries().get(1)), Some((1, What::In(9)))));
    assert!(rt; matches!(one_of(log.entries().get(2)), Some((2, What::Drain))));
    assert!(rt; matches!(one_of(log.entries().get(3)), Some((2, What::Target(5)))));
    match one_of(log.entries().get(4)) {
        Some((3, What::Poke { register, value })) => {
            assert_eq!(rt; (register.number(), *value), (37, 0xbfc0_0000));
        }
        _ => assert!(rt; false, "no Poke of seat 3"),
    }
    match one_of(log.entries().get(5)) {
        Some((3, What::Write { address, bytes })) => {
            assert_eq!(rt; *address, 0x8000_0ffe);
            assert_eq!(rt; bytes.as_slice(), [7, 0, 255].as_slice());
        }
        _ => assert!(rt; false, "no Write of seat 3"),
    }
    assert!(rt; log.last_steps().is_none());
    Ok(())
}

#[test]
fn a_log_is_full_at_its_limit(rt: HostRuntime) -> Result<(), Fail> {
    let mut log = Log::new(rt.alloc(), 2);
    log_steps(&rt, &mut log, 0, 2);
    log_other(&rt, &mut log, 1, What::Drain);
    assert_eq!(rt; log.make_room(), Err(Stop::LogFull));
    assert_eq!(rt; log.make_item_room(), Err(Stop::LogFull));
    assert_eq!(rt; (log.len(), log.runs()), (3, 2));
    assert_eq!(rt; (Stop::Memory.number(), Stop::LogFull.number()), (5, 6));
    Ok(())
}
