ghost use Rattle.std.specs.Prelude.{◌*◌, ◌≤◌};
ghost use Rattle.tiles.specs.Board.{Numbered};
ghost use Rattle.tiles.specs.Distances.{Measured};

use crate::position::MOST_CELLS;
use grid::Grid;

mod making;

pub use making::is_side;

/// A sliding-tile level: 2 to 4 cells wide and high, each tile number on exactly one cell.
///
/// A position is one number with four bits a cell in reading order, the first cell lowest, 0 for the blank.
#[derive(Clone, Copy, Debug)]
pub struct TileLevel {
    pub(crate) grid: Grid,
    pub(crate) start: u64,
    /// For each cell, how far each tile that lies there is from home: made once, so that a bound divides nothing.
    pub(crate) distances: [[u8; MOST_CELLS]; MOST_CELLS],
    ghost wide: { (2 ≤ grid.width) × (grid.width ≤ 4) },
    ghost high: { (2 ≤ grid.height) × (grid.height ≤ 4) },
    ghost numbered: { Numbered (grid.width * grid.height) start },
    ghost measured: { Measured grid.width distances },
}
