//! The devices.
ghost use Rattle.std.specs.Prelude.{◌≡◌, ◌<◌, ◌≤◌, ◌^◌, ◌↔◌, false, nat_lt, length, All, IfOk, OnOk, OnErr, IsOk};
ghost use Rattle.dev_console.specs.Console.{input_room, output_room};
ghost use Rattle.dev_balloon.specs.Balloon.{is_given, given_count};
ghost use Rattle.devices.specs.Devices.{DevicesAre, fresh_devices, page_accessed, device_input_fed, device_output_drained, device_target_set};
ghost use Rattle.devices.specs.Lines.{device_lines};
ghost use Rattle.devices.specs.Registers.{device_value, device_loaded, device_stored, page_to_give};
ghost use Rattle.devices.specs.declared.register.DeviceRegister.TheVariants.{ConIn, BalGive, BalTake};

use crate::DeviceRegister;
use dev_balloon::Balloon;
use dev_balloon::laws::{none_is_given_of_none, none_is_taken_of_none, taken_page_is_one_less};
use dev_console::{Console, InputFull};
use std::alloc::{AllocError, Global};
use std::marker::Model;
use word32::Ppn;

/// The line of IP2: the console's input waits.
const INPUT_WAITS: u8 = 4;

/// The line of IP3: the balloon's target differs from the number of given pages.
const TARGET_DIFFERS: u8 = 8;

/// The devices of a machine. In clauses they are its console and its balloon, `DevicesAre`.
#[derive(Drop)]
pub struct Devices {
    console: Console,
    balloon: Balloon,
    /// The interrupt lines that are raised, kept since the processor asks for them at each instruction.
    lines: u8,
}

impl Model for Devices {
    ghost use Rattle.std.specs.Prelude.{◌≡◌};
    ghost use Rattle.devices.specs.Devices.{DevicesAre};
    ghost use Rattle.devices.specs.Lines.{device_lines};

    ghost Value = { DevicesAre };

    ghost view = { λ d. record { console = d.console; balloon = d.balloon } };

    ghost invariant = { λ d. d.lines ≡ device_lines (record { console = d.console; balloon = d.balloon }) };
}

// The interrupt lines of a console and a balloon.
fn lines_of(console: &Console, balloon: &Balloon) -> u8
    ensures { result ≡ device_lines (record { console = console.now; balloon = balloon.now }) }
{
    let input = if console.has_input() { INPUT_WAITS } else { 0 };
    let target = if balloon.target() == balloon.given() {
        0
    } else {
        TARGET_DIFFERS
    };
    target + input
}

impl Devices {
    /// The devices of a machine whose memory has so many pages, at most 2^20, as it boots: nothing waits in the console,
    /// the balloon's target is 0 and no page is given. `AllocError` where a request for memory was refused.
    pub fn new(alloc: Global, pages: u32) -> Result<Devices, AllocError>
        requires { pages ≤ 2 ^ 20 }
        ensures { IfOk result (λ devices. devices ≡ fresh_devices pages) }
    {
        let console = Console::new(alloc)?;
        let balloon = Balloon::new(alloc, pages)?;
        let lines = lines_of(&console, &balloon);
        Ok(Devices {
            console,
            balloon,
            lines,
        })
    }

    /// The same devices once more, for a snapshot. `AllocError` where a request for memory was refused.
    pub fn try_clone(&self) -> Result<Devices, AllocError>
        ensures { IfOk result (λ devices. devices ≡ self.now) }
    {
        let console = self.console.try_clone()?;
        let balloon = self.balloon.try_clone()?;
        Ok(Devices {
            console,
            balloon,
            lines: self.lines,
        })
    }

    /// The interrupt lines that are raised, bit k that of IPk: IP3 while the balloon's target differs from the number of
    /// given pages, IP2 while the console's input waits.
    #[inline(always)]
    pub fn lines(&self) -> u8
        ensures { result ≡ device_lines self.now }
    {
        self.lines
    }

    /// What an access to a page of memory does: it takes the page out of the given ones.
    #[inline(always)]
    pub fn touch(&mut self, page: Ppn)
        ensures { self.new ≡ page_accessed page self.old }
    {
        if self.balloon.given() != 0 {
            self.take_accessed(page);
        } else {
            // A law, which runs no code: `touch` of no given page changes nothing.
            none_is_taken_of_none();
        }
    }

    // `touch` where some page is given, which is rare: apart, so that the test alone stands at each access.
    #[cold]
    #[inline(never)]
    fn take_accessed(&mut self, page: Ppn)
        ensures { self.new ≡ page_accessed page self.old }
    {
        self.balloon.touch(page);
        self.lines = lines_of(&self.console, &self.balloon);
    }

    /// Loads a register. A load of CON_IN takes the byte that it answers; the registers that are written alone read 0.
    #[cold]
    #[inline(never)]
    pub fn load(&mut self, register: DeviceRegister) -> u32
        ensures value { result ≡ device_value register self.old }
        ensures small { result < 2 ^ 32 }
        ensures after { self.new ≡ device_loaded register self.old }
    {
        match register {
            DeviceRegister::ConStat => self.console.status(),
            DeviceRegister::ConIn => self.take_input(),
            DeviceRegister::BalTarget => self.balloon.target(),
            DeviceRegister::BalCount => self.balloon.given(),
            DeviceRegister::ConOut | DeviceRegister::BalGive | DeviceRegister::BalTake => 0,
        }
    }

    // A load of CON_IN.
    fn take_input(&mut self) -> u32
        ensures value { result ≡ device_value ConIn self.old }
        ensures after { self.new ≡ device_loaded ConIn self.old }
    {
        let byte = self.console.take_input();
        self.lines = lines_of(&self.console, &self.balloon);
        byte
    }

    /// Stores a value in a register, and answers the page that became given by it, whose bytes become zeros. A store in a
    /// register that is read alone changes nothing, nor does a number of no page.
    #[cold]
    #[inline(never)]
    pub fn store(&mut self, register: DeviceRegister, value: u32) -> Option<Ppn>
        ensures page { result ≡ page_to_give register value self.old }
        ensures after { self.new ≡ device_stored register value self.old }
    {
        match register {
            DeviceRegister::ConOut => {
                self.console.write_output((value & 0xff) as u8);
                None
            }
            DeviceRegister::BalGive => self.give(value),
            DeviceRegister::BalTake => {
                self.take(value);
                None
            }
            DeviceRegister::ConStat
            | DeviceRegister::ConIn
            | DeviceRegister::BalTarget
            | DeviceRegister::BalCount => None,
        }
    }

    // A store in BAL_GIVE.
    fn give(&mut self, number: u32) -> Option<Ppn>
        ensures page { result ≡ page_to_give BalGive number self.old }
        ensures after { self.new ≡ device_stored BalGive number self.old }
    {
        if number >= self.balloon.pages() {
            return None;
        }
        let page = Ppn::new(number);
        let became = self.balloon.give(page);
        self.lines = lines_of(&self.console, &self.balloon);
        if became { Some(page) } else { None }
    }

    // A store in BAL_TAKE.
    fn take(&mut self, number: u32)
        ensures { self.new ≡ device_stored BalTake number self.old }
    {
        if number < self.balloon.pages() {
            self.balloon.take(Ppn::new(number));
            self.lines = lines_of(&self.console, &self.balloon);
        }
    }

    /// Adds a byte of the console's input.
    ///
    /// It answers `InputFull` exactly where as many bytes wait as have room, and the devices are then as before.
    pub fn feed(&mut self, byte: u8) -> Result<(), InputFull>
        ensures room { IsOk result ↔ (length self.old.console.input < input_room) }
        ensures fed { OnOk result (self.new ≡ device_input_fed byte self.old) }
        ensures refused { OnErr result (self.new ≡ self.old) }
    {
        self.console.feed(byte)?;
        self.lines = lines_of(&self.console, &self.balloon);
        Ok(())
    }

    /// Whether a byte of the console's input more has room.
    pub fn has_input_room(&self) -> bool
        ensures { result ≡ nat_lt (length self.now.console.input) input_room }
    {
        self.console.has_input_room()
    }

    /// Takes all bytes out of the console's output, and answers them, the oldest first.
    ///
    /// It answers `AllocError` where a request for memory was refused, and the devices are then as before.
    pub fn drain(&mut self) -> Result<Vec<u8>, AllocError>
        ensures bytes { IfOk result (λ bytes. bytes.items ≡ self.old.console.output) }
        ensures drained { OnOk result (self.new ≡ device_output_drained self.old) }
        ensures refused { OnErr result (self.new ≡ self.old) }
    {
        self.console.drain()
    }

    /// The bytes of the console's output, the oldest first; they stay. `AllocError` where a request for memory was
    /// refused.
    pub fn copy_output(&self) -> Result<Vec<u8>, AllocError>
        ensures { IfOk result (λ bytes. bytes.items ≡ self.now.console.output) }
    {
        self.console.copy_output()
    }

    /// How many bytes of the console's output wait.
    pub fn output_len(&self) -> usize
        ensures count { result ≡ length self.now.console.output }
        ensures within { result ≤ output_room }
    {
        self.console.output_len()
    }

    /// How many pages the balloon is asked to hold.
    pub fn target(&self) -> u32
        ensures { result ≡ self.now.balloon.target }
    {
        self.balloon.target()
    }

    /// Asks the balloon to hold so many pages. It may be more than there are.
    pub fn set_target(&mut self, target: u32)
        ensures { self.new ≡ device_target_set target self.old }
    {
        self.balloon.set_target(target);
        self.lines = lines_of(&self.console, &self.balloon);
    }

    /// How many pages the memory has, at most 2^20.
    pub fn pages(&self) -> u32
        ensures value { result ≡ length self.now.balloon.given }
        ensures small { result ≤ 2 ^ 20 }
    {
        self.balloon.pages()
    }

    /// How many pages are given to the balloon.
    pub fn given(&self) -> u32
        ensures value { result ≡ given_count self.now.balloon }
        ensures within { result ≤ length self.now.balloon.given }
    {
        self.balloon.given()
    }

    /// Whether a page is given to the balloon; a page that there isn't is not. An access to one that is not changes nothing here.
    #[inline(always)]
    pub fn is_given(&self, page: Ppn) -> bool
        ensures value { result ≡ is_given page self.now.balloon }
        ensures same { result ≡ false → page_accessed page self.now ≡ self.now }
    {
        if self.balloon.given() == 0 {
            // A law, which runs no code: none is given, this one neither.
            none_is_given_of_none();
            none_is_taken_of_none();
            false
        } else {
            taken_page_is_one_less();
            self.balloon.is_given(page)
        }
    }

    /// A law of all devices: what waits in the console is within its room, and is bytes.
    pub fn bounds(&self)
        ensures input_within { length self.now.console.input ≤ input_room }
        ensures output_within { length self.now.console.output ≤ output_room }
        ensures input_bytes { All (λ byte. byte < 2 ^ 8) self.now.console.input }
        ensures output_bytes { All (λ byte. byte < 2 ^ 8) self.now.console.output }
    {
        self.console.bounds();
    }
}
