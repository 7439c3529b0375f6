//! The devices' registers.
ghost use Rattle.std.specs.Prelude.{◌≡◌};
ghost use Rattle.devices.specs.Registers.{device_register_at, device_address};

/// A register of a device: a word at a physical address.
#[derive(Clone, Copy, Debug, PartialEq, Eq)]
pub enum DeviceRegister {
    /// Read: the console's status, bit 0 where input waits, bit 1 where the output has room.
    ConStat,
    /// Read: the console's next byte of input, which is taken; 0xffffffff where none waits.
    ConIn,
    /// Write: a byte of the console's output, the lowest byte of the value.
    ConOut,
    /// Read: how many pages the balloon is asked to hold.
    BalTarget,
    /// Read: how many pages are given to the balloon.
    BalCount,
    /// Write a page's number: the page is given to the balloon.
    BalGive,
    /// Write a page's number: the page is taken out of the balloon.
    BalTake,
}

impl DeviceRegister {
    /// The register of a physical address; None where there is none.
    pub fn at(address: u32) -> Option<DeviceRegister>
        ensures { result ≡ device_register_at address }
    {
        match address {
            0x1f00_0000 => Some(DeviceRegister::ConStat),
            0x1f00_0004 => Some(DeviceRegister::ConIn),
            0x1f00_0008 => Some(DeviceRegister::ConOut),
            0x1f00_0010 => Some(DeviceRegister::BalTarget),
            0x1f00_0014 => Some(DeviceRegister::BalCount),
            0x1f00_0018 => Some(DeviceRegister::BalGive),
            0x1f00_001c => Some(DeviceRegister::BalTake),
            _ => None,
        }
    }

    /// Its physical address, the only one that it has.
    pub fn address(self) -> u32
        ensures { result ≡ device_address self }
    {
        match self {
            DeviceRegister::ConStat => 0x1f00_0000,
            DeviceRegister::ConIn => 0x1f00_0004,
            DeviceRegister::ConOut => 0x1f00_0008,
            DeviceRegister::BalTarget => 0x1f00_0010,
            DeviceRegister::BalCount => 0x1f00_0014,
            DeviceRegister::BalGive => 0x1f00_0018,
            DeviceRegister::BalTake => 0x1f00_001c,
        }
    }
}
