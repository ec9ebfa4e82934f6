ghost use Rattle.std.specs.Prelude.{◌≡◌, ◌≤◌, ◌↔◌, IsTrue};
ghost use Rattle.tiles.specs.Level.{tiles_of, side, MakesLevel};

use super::TileLevel;
use crate::distances::distance_table;
use crate::position::is_numbered;
use grid::Grid;

/// The fewest cells that a board is wide and high.
const SHORTEST_SIDE: u32 = 2;

/// The most cells that a board is wide and high.
const LONGEST_SIDE: u32 = 4;

/// Whether a board may be this wide, or this high.
pub fn is_side(length: u32) -> bool
    ensures says { result ≡ side length }
    ensures decides { IsTrue result ↔ ((2 ≤ length) × (length ≤ 4)) }
{
    (SHORTEST_SIDE..=LONGEST_SIDE).contains(&length)
}

impl TileLevel {
    /// The level on this board that starts at this position, if they make one.
    pub fn new(grid: Grid, start: u64) -> Option<TileLevel>
        ensures { MakesLevel (tiles_of grid.width grid.height start) result }
    {
        if is_side(u32::from(grid.width))
            && is_side(u32::from(grid.height))
            && is_numbered(start, grid.cells())
        {
            let distances = distance_table(grid.width);
            Some(TileLevel {
                grid,
                start,
                distances,
            })
        } else {
            None
        }
    }

    /// The board.
    pub fn grid(&self) -> Grid
        ensures { result ≡ self.now.grid }
    {
        self.grid
    }
}
