//! Devices that are loaded, stored and fed.
use crate::{DeviceRegister, Devices};
use dev_console::InputFull;
use std::test::Fail;
use word32::Ppn;

/// Addresses, each with the register that stands there.
static ADDRESSES: [(u32, Option<DeviceRegister>); 9] = [
    (0x1eff_fffc, None),
    (0x1f00_0000, Some(DeviceRegister::ConStat)),
    (0x1f00_0004, Some(DeviceRegister::ConIn)),
    (0x1f00_0008, Some(DeviceRegister::ConOut)),
    (0x1f00_000c, None),
    (0x1f00_0010, Some(DeviceRegister::BalTarget)),
    (0x1f00_0014, Some(DeviceRegister::BalCount)),
    (0x1f00_0018, Some(DeviceRegister::BalGive)),
    (0x1f00_001c, Some(DeviceRegister::BalTake)),
];

#[test]
fn registers_stand_at_their_addresses(rt: HostRuntime) {
    for (address, register) in ADDRESSES {
        assert_eq!(rt; DeviceRegister::at(address), register, "at {address:08x}");
        if let Some(register) = register {
            assert_eq!(rt; register.address(), address);
        }
    }
}

#[test]
fn console_raises_ip2(rt: HostRuntime) -> Result<(), Fail> {
    let mut devices = Devices::new(rt.alloc(), 16)?;
    assert_eq!(rt; devices.lines(), 0);
    assert_eq!(rt; devices.load(DeviceRegister::ConIn), 0xffff_ffff);
    assert_eq!(rt; devices.load(DeviceRegister::ConStat), 2);
    assert_eq!(rt; devices.feed(0xff), Ok(()));
    assert_eq!(rt; devices.lines(), 4);
    assert_eq!(rt; devices.load(DeviceRegister::ConStat), 3);
    assert_eq!(rt; devices.load(DeviceRegister::ConIn), 0xff);
    assert_eq!(rt; devices.lines(), 0);
    for _ in 0..256 {
        assert!(rt; devices.has_input_room());
        assert_eq!(rt; devices.feed(1), Ok(()));
    }
    assert!(rt; !devices.has_input_room());
    assert_eq!(rt; devices.feed(1), Err(InputFull));
    Ok(())
}

#[test]
fn output_is_the_lowest_bytes(rt: HostRuntime) -> Result<(), Fail> {
    let mut devices = Devices::new(rt.alloc(), 16)?;
    devices.bounds();
    assert_eq!(rt; devices.store(DeviceRegister::ConOut, 0x1234_566f), None);
    assert_eq!(rt; devices.store(DeviceRegister::ConOut, 0x6b), None);
    assert_eq!(rt; devices.store(DeviceRegister::ConIn, 0x6b), None);
    assert_eq!(rt; devices.load(DeviceRegister::ConOut), 0);
    let copy = devices.copy_output();
    assert_eq!(rt; devices.output_len(), 2);
    assert_eq!(rt; copy?.as_slice(), b"ok".as_slice());
    let drained = devices.drain();
    assert_eq!(rt; devices.output_len(), if drained.is_ok() { 0 } else { 2 });
    assert_eq!(rt; drained?.as_slice(), b"ok".as_slice());
    Ok(())
}

#[test]
fn balloon_raises_ip3(rt: HostRuntime) -> Result<(), Fail> {
    let mut devices = Devices::new(rt.alloc(), 16)?;
    assert_eq!(rt; devices.pages(), 16);
    devices.set_target(1);
    assert_eq!(rt; devices.target(), 1);
    assert_eq!(rt; devices.lines(), 8);
    assert_eq!(rt; devices.load(DeviceRegister::BalTarget), 1);
    assert_eq!(rt; devices.store(DeviceRegister::BalTarget, 5), None);
    assert_eq!(rt; devices.store(DeviceRegister::BalGive, 16), None);
    assert_eq!(rt; devices.store(DeviceRegister::BalGive, 0x8000_0007), None);
    assert_eq!(rt; devices.load(DeviceRegister::BalCount), 0);
    assert_eq!(rt;
        devices.store(DeviceRegister::BalGive, 7),
        Some(Ppn::new(7))
    );
    assert_eq!(rt; devices.store(DeviceRegister::BalGive, 7), None);
    assert_eq!(rt; devices.load(DeviceRegister::BalCount), 1);
    assert_eq!(rt; devices.given(), 1);
    assert!(rt; devices.is_given(Ppn::new(7)));
    assert_eq!(rt; devices.lines(), 0);
    devices.touch(Ppn::new(7));
    assert_eq!(rt; devices.load(DeviceRegister::BalCount), 0);
    assert_eq!(rt; devices.lines(), 8);
    assert_eq!(rt;
        devices.store(DeviceRegister::BalGive, 15),
        Some(Ppn::new(15))
    );
    assert_eq!(rt; devices.store(DeviceRegister::BalTake, 15), None);
    assert_eq!(rt; devices.given(), 0);
    Ok(())
}

#[test]
fn copy_has_the_same_lines(rt: HostRuntime) -> Result<(), Fail> {
    let mut devices = Devices::new(rt.alloc(), 16)?;
    devices.set_target(2);
    assert_eq!(rt; devices.feed(0x41), Ok(()));
    let mut copy = devices.try_clone()?;
    assert_eq!(rt; devices.load(DeviceRegister::ConIn), 0x41);
    devices.set_target(0);
    assert_eq!(rt; devices.lines(), 0);
    assert_eq!(rt; copy.lines(), 12);
    assert_eq!(rt; copy.load(DeviceRegister::ConIn), 0x41);
    assert_eq!(rt; copy.lines(), 8);
    Ok(())
}
