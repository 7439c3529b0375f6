//! Guests by their numbers.
ghost use Rattle.std.specs.Prelude.{◌≡◌, ◌<◌, Some, length, slice_get};
ghost use Rattle.cell.specs.Level.{IsMemoryOf};

use cell::Cell;
use guest_cells::GuestCells;
use guest_number::GuestNo;
use swapstore::SwapStore;

// The guest of this number.
pub(crate) fn cell_of<S: SwapStore + Drop>(guests: &GuestCells<S>, guest: GuestNo) -> &Cell<S>
    requires { guest < length guests.now.cells.items }
    ensures place { slice_get guests.now.cells.items guest ≡ Some result.now }
    ensures memory { IsMemoryOf result.now.front.first.value guests.now.memory }
    ensures few { guest < 16 }
{
    &guests.cells[guest.index()]
}
