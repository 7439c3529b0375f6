//! Each call once.
use crate::{DebugRegister, SeatNo, WriteBytes};
use std::test::Fail;

#[test]
fn seats_have_their_numbers(rt: HostRuntime) -> Result<(), Fail> {
    assert_eq!(rt; SeatNo::runner().number(), 0);
    assert_eq!(rt; SeatNo::new(3).number(), 3);
    assert_eq!(rt; SeatNo::new(0), SeatNo::runner());
    Ok(())
}

#[test]
fn registers_are_found_below_38(rt: HostRuntime) -> Result<(), Fail> {
    assert_eq!(rt; DebugRegister::new(37).number(), 37);
    assert_eq!(rt; DebugRegister::find(37), Some(DebugRegister::new(37)));
    assert_eq!(rt; DebugRegister::find(38), None);
    assert_eq!(rt; DebugRegister::find(255), None);
    Ok(())
}

#[test]
fn bytes_are_kept(rt: HostRuntime) -> Result<(), Fail> {
    let some = WriteBytes::from_vec([7, 0, 255].to_vec(rt.alloc())?);
    assert_eq!(rt; some.as_slice(), [7, 0, 255].as_slice());
    assert_eq!(rt; some.len(), 3);
    assert!(rt; !some.is_empty());
    let none = WriteBytes::from_vec(Vec::new(rt.alloc()));
    assert_eq!(rt; none.len(), 0);
    assert!(rt; none.is_empty());
    Ok(())
}
