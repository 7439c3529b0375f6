//! Orders and faults, written out by hand.
use crate::{Fault, parse};
use std::alloc::{AllocError, Global};
use std::test::Fail;

/// Lines of a host of two guests, and the orders that they are.
const ORDERS: [(&str, &str); 17] = [
    ("list", "List"),
    ("books", "Books"),
    ("level", "Level"),
    ("tax 0", "Tax(0)"),
    ("tax 099", "Tax(99)"),
    (
        "target 0 0",
        "Target { guest: GuestNo { number: 0 }, pages: 0 }",
    ),
    (
        "target 1 4294967295",
        "Target { guest: GuestNo { number: 1 }, pages: 4294967295 }",
    ),
    ("hold 0", "Hold(GuestNo { number: 0 })"),
    ("hold 01", "Hold(GuestNo { number: 1 })"),
    ("go 1", "Go(GuestNo { number: 1 })"),
    ("log 0", "Log(GuestNo { number: 0 })"),
    (
        "in 1 41fF",
        "In { guest: GuestNo { number: 1 }, bytes: [65, 255] }",
    ),
    ("in 0 00", "In { guest: GuestNo { number: 0 }, bytes: [0] }"),
    ("drain 1", "Drain(GuestNo { number: 1 })"),
    ("room", "Room"),
    ("help", "Help"),
    ("quit", "Quit"),
];

/// Lines of a host of two guests with these faults.
const FAULTS: [(Fault, &str); 4] = [
    (
        Fault::Command,
        "|List|stop|list | list|list 0|books 0|level 0|quit 0|room 0|help me|tax|tax 1 2|tax  1|hold|hold 0 0|go|log|log 0 0\
        |drain|drain 0 0|target|target 0|target 0 1 2|target x|in|in 0|in 0 00 00|\t|list\r|run 0 1|\u{e9}",
    ),
    (
        Fault::Number,
        "tax |tax x|tax -1|tax 0x1|tax 4294967296|hold |hold x|go 99999999999|log +0|drain a|target x 1|target 0 x|target 9 x\
        |target  1|target 0 |in x 00|in 0 |in 0 0|in 0 000|in 0 0g|in 9 0g|in  00|hold \u{e9}",
    ),
    (
        Fault::Guest,
        "hold 2|go 2|log 4294967295|drain 2|target 2 0|in 2 00",
    ),
    (Fault::Range, "tax 100|tax 4294967295"),
];

/// The order of a line, as it is printed for programmers, or its fault.
fn shown(alloc: Global, line: &str) -> Result<String, AllocError> {
    match parse(alloc, line, 2) {
        Ok(order) => format!(in alloc; "{order:?}"),
        Err(fault) => format!(in alloc; "{fault}"),
    }
}

#[test]
fn orders_and_faults(rt: HostRuntime) -> Result<(), Fail> {
    for (line, wanted) in ORDERS {
        let text = shown(rt.alloc(), line)?;
        assert!(rt; text.as_str() == wanted, "{line:?}: {text}");
    }
    for (fault, lines) in FAULTS {
        for line in lines.split('|') {
            let text = shown(rt.alloc(), line)?;
            assert!(rt; text.as_str() == fault.text(), "{line:?}: {text}");
        }
    }
    assert!(rt; matches!(parse(rt.alloc(), "hold 0", 0), Err(Fault::Guest)));
    assert_eq!(rt; Fault::Command.text(), "error command");
    assert_eq!(rt; Fault::Number.text(), "error number");
    assert_eq!(rt; Fault::Guest.text(), "error guest");
    assert_eq!(rt; Fault::Range.text(), "error range");
    assert_eq!(rt; Fault::Memory.text(), "error stop 5");
    Ok(())
}

#[test]
fn the_longest_line(rt: HostRuntime) -> Result<(), Fail> {
    for (digits, wanted) in [
        (4088, None),
        (4089, Some(Fault::Number)),
        (4090, None),
        (4091, Some(Fault::Command)),
        (4092, Some(Fault::Command)),
    ] {
        let mut line = String::from_str(rt.alloc(), "in 00 ")?;
        for _ in 0..digits {
            line.push('0')?;
        }
        let fault = parse(rt.alloc(), line.as_str(), 1).err();
        assert!(rt; fault == wanted, "{digits}: {fault:?}");
    }
    Ok(())
}
