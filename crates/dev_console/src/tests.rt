//! A console that is fed, read, written and drained.
use crate::{Console, InputFull};
use std::test::Fail;

#[test]
fn input_is_read_in_order(rt: HostRuntime) -> Result<(), Fail> {
    let mut console = Console::new(rt.alloc())?;
    assert_eq!(rt; console.status(), 2);
    assert_eq!(rt; console.next_input(), 0xffff_ffff);
    assert_eq!(rt; console.feed(b'o'), Ok(()));
    assert_eq!(rt; console.feed(b'k'), Ok(()));
    assert!(rt; console.has_input());
    assert_eq!(rt; console.status(), 3);
    assert_eq!(rt; console.next_input(), 0x6f);
    assert_eq!(rt; console.take_input(), 0x6f);
    assert_eq!(rt; console.take_input(), 0x6b);
    assert_eq!(rt; console.take_input(), 0xffff_ffff);
    assert!(rt; !console.has_input());
    Ok(())
}

#[test]
fn input_beyond_256_bytes_is_refused(rt: HostRuntime) -> Result<(), Fail> {
    let mut console = Console::new(rt.alloc())?;
    for byte in 0..=255 {
        assert!(rt; console.has_input_room());
        assert_eq!(rt; console.feed(byte), Ok(()));
    }
    assert!(rt; !console.has_input_room());
    assert_eq!(rt; console.feed(7), Err(InputFull));
    assert_eq!(rt; InputFull.number(), 1);
    assert_eq!(rt; console.take_input(), 0);
    assert_eq!(rt; console.feed(7), Ok(()));
    assert_eq!(rt; console.take_input(), 1);
    Ok(())
}

#[test]
fn output_beyond_4096_bytes_is_lost(rt: HostRuntime) -> Result<(), Fail> {
    let mut console = Console::new(rt.alloc())?;
    for count in 0..5000u32 {
        console.write_output((count % 251) as u8);
    }
    assert!(rt; !console.has_output_room());
    assert_eq!(rt; console.status(), 0);
    assert_eq!(rt; console.output_len(), 4096);
    let bytes = console.drain()?;
    assert_eq!(rt; bytes.len(), 4096);
    assert_eq!(rt; bytes.first().copied(), Some(0));
    assert_eq!(rt; bytes.last().copied(), Some(79));
    assert!(rt; console.has_output_room());
    Ok(())
}

#[test]
fn output_is_drained_once(rt: HostRuntime) -> Result<(), Fail> {
    let mut console = Console::new(rt.alloc())?;
    console.bounds();
    console.write_output(b'o');
    console.write_output(b'k');
    let copy = console.copy_output();
    assert_eq!(rt; console.output_len(), 2);
    assert_eq!(rt; copy?.as_slice(), b"ok".as_slice());
    let drained = console.drain();
    assert_eq!(rt; console.output_len(), if drained.is_ok() { 0 } else { 2 });
    assert_eq!(rt; drained?.as_slice(), b"ok".as_slice());
    assert_eq!(rt; console.drain()?.len(), 0);
    Ok(())
}

#[test]
fn copy_has_the_same_bytes(rt: HostRuntime) -> Result<(), Fail> {
    let mut console = Console::new(rt.alloc())?;
    for byte in 0..=255 {
        assert_eq!(rt; console.feed(byte), Ok(()));
    }
    assert_eq!(rt; console.take_input(), 0);
    assert_eq!(rt; console.feed(7), Ok(()));
    console.write_output(b'o');
    let mut copy = console.try_clone()?;
    assert_eq!(rt; console.take_input(), 1);
    console.write_output(b'k');
    assert_eq!(rt; copy.take_input(), 1);
    assert_eq!(rt; copy.drain()?.as_slice(), b"o".as_slice());
    assert_eq!(rt; console.drain()?.as_slice(), b"ok".as_slice());
    Ok(())
}
