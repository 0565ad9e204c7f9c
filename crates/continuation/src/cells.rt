ghost use Rattle.std.specs.Prelude.{◌≡◌, ◌<◌, length, take, Some};
ghost use Rattle.continuation.specs.Views.{cell_of, filled_cells};
ghost use Rattle.std.specs.List.{slice_get};

use super::cell::Cell;
use few::Few;

/// The cells that are filled, at most 32, the oldest first.
pub type Cells = Few<Cell, 32>;

/// Empties the cell at a place, and all cells above it.
pub fn release(cells: &mut Cells, at: u8) -> Cell
    requires { at < length (filled_cells cells.old) }
    ensures cell { slice_get (filled_cells cells.old) at ≡ Some (cell_of result) }
    ensures below { filled_cells cells.new ≡ take at (filled_cells cells.old) }
{
    let place = usize::from(at);
    let cell = cells.as_slice()[place];
    cells.truncate(place);
    cell
}
