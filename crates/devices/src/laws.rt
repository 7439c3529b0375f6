//! Laws of the definitions.
ghost use Rattle.std.specs.Prelude.{◌≡◌, ℕ, ◌+◌, ◌≢◌, Some, None, true, false, ◌∷◌, bit_and};
ghost use Rattle.dev_console.specs.Console.{has_input};
ghost use Rattle.dev_balloon.specs.Balloon.{is_given, given_count};
ghost use Rattle.devices.specs.Devices.{DevicesAre, fresh_devices, page_accessed};
ghost use Rattle.devices.specs.Lines.{device_lines};
ghost use Rattle.devices.specs.Registers.{device_register_at, device_address, device_value, device_loaded, device_stored, page_to_give};
ghost use Rattle.devices.specs.declared.register.DeviceRegister.{DeviceRegister};
ghost use Rattle.devices.specs.declared.register.DeviceRegister.TheVariants.{ConIn, BalGive, BalTake};

use dev_balloon::laws::taken_page_is_one_less;

/// A law: each register stands at its address, and at no other.
pub fn each_register_has_one_address()
    ensures there { (register : DeviceRegister) → device_register_at (device_address register) ≡ Some register }
    ensures nowhere_else { (a : ℕ) (register : DeviceRegister) → device_register_at a ≡ Some register → a ≡ device_address register }
{}

/// A law: IP2 is raised exactly while input waits, IP3 exactly while the target differs from the number of given pages, and
/// no other line. Nothing is raised at boot.
pub fn lines_are_raised_by_their_devices()
    ensures input { (d : DevicesAre) → has_input d.console.input ≡ true → bit_and (device_lines d) 4 ≡ 4 }
    ensures no_input { (d : DevicesAre) → has_input d.console.input ≡ false → bit_and (device_lines d) 4 ≡ 0 }
    ensures differs { (d : DevicesAre) → d.balloon.target ≢ given_count d.balloon → bit_and (device_lines d) 8 ≡ 8 }
    ensures reached { (d : DevicesAre) → d.balloon.target ≡ given_count d.balloon → bit_and (device_lines d) 8 ≡ 0 }
    ensures others { (d : DevicesAre) → bit_and (device_lines d) 12 ≡ device_lines d }
    ensures boot { (pages : ℕ) → device_lines (fresh_devices pages) ≡ 0 }
{}

/// A law: a load of each register but CON_IN changes nothing, and a load of CON_IN takes the byte that it gives.
pub fn loads_take_input_alone()
    ensures stays { (register : DeviceRegister) (d : DevicesAre) → register ≢ ConIn → device_loaded register d ≡ d }
    ensures taken { (d : DevicesAre) → has_input d.console.input ≡ true → device_value ConIn d ∷ (device_loaded ConIn d).console.input ≡ d.console.input }
    ensures none { (d : DevicesAre) → has_input d.console.input ≡ false → device_loaded ConIn d ≡ d }
{}

/// A law: a store gives a page in BAL_GIVE alone, the page of the value that is stored. The page wasn't given, is given
/// after the store, and is one more; where none is given by it, the store changes nothing.
pub fn stores_give_pages()
    ensures register { (r : DeviceRegister) (value page : ℕ) (d : DevicesAre) → page_to_give r value d ≡ Some page → r ≡ BalGive }
    ensures value { (r : DeviceRegister) (value page : ℕ) (d : DevicesAre) → page_to_give r value d ≡ Some page → page ≡ value }
    ensures fresh { (page : ℕ) (d : DevicesAre) → page_to_give BalGive page d ≡ Some page → is_given page d.balloon ≡ false }
    ensures given { (page : ℕ) (d : DevicesAre) → page_to_give BalGive page d ≡ Some page → is_given page (device_stored BalGive page d).balloon ≡ true }
    ensures more { (n : ℕ) (d : DevicesAre) → page_to_give BalGive n d ≡ Some n → given_count (device_stored BalGive n d).balloon ≡ given_count d.balloon + 1 }
    ensures none { (page : ℕ) (d : DevicesAre) → page_to_give BalGive page d ≡ None → device_stored BalGive page d ≡ d }
{}

/// A law: a page that a store gave is taken out by a store of its number in BAL_TAKE, and by an access to it; all is then as
/// before.
pub fn given_page_is_taken_back()
    ensures stored { (page : ℕ) (d : DevicesAre) → is_given page d.balloon ≡ false → device_stored BalTake page (device_stored BalGive page d) ≡ d }
    ensures accessed { (page : ℕ) (d : DevicesAre) → is_given page d.balloon ≡ false → page_accessed page (device_stored BalGive page d) ≡ d }
{
    taken_page_is_one_less();
}
