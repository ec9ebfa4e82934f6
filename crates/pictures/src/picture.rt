ghost use Rattle.std.specs.Prelude.{◌≡◌, ◌*◌, ◌≤◌, length, take};
ghost use Rattle.pictures.specs.Cells.{Lettered};

use crate::cell::Cell;
use grid::Grid;

mod drawing;

/// A rectangle of cells, 1 to 16 wide and at most 16 high, row by row.
#[derive(Clone, Copy, Debug)]
pub struct Picture {
    grid: Grid,
    cells: [Cell; Picture::MOST_CELLS],
    ghost wide: { (1 ≤ grid.width) × (grid.width ≤ 16) },
    ghost high: { grid.height ≤ 16 },
    ghost filled: { length cells ≡ 256 },
    ghost lettered: { Lettered (take (grid.width * grid.height) cells) },
}
