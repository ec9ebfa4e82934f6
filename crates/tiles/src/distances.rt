//! How far the tiles of a board are from home, in rows and columns.
ghost use Rattle.std.specs.Prelude.{◌≡◌, ◌<◌};
ghost use Rattle.tiles.specs.Level.{tiles};
ghost use Rattle.tiles.specs.Distances.{way_home, MeasuredOn, Measured};
ghost use Rattle.tiles.specs.Meaning.{manhattan};

use crate::level::TileLevel;
use crate::position::{BITS_PER_CELL, CELL_MASK, MOST_CELLS};

// How far a tile is from its home, in rows and columns, on a board of this width. The blank is never far.
fn way_home(width: u8, cell: u8, tile: u8) -> u8
    requires wide { 0 < width }
    requires on { cell < 16 }
    requires tile { tile < 16 }
    ensures { result ≡ way_home width cell tile }
{
    let Some(home) = tile.checked_sub(1) else {
        return 0;
    };
    (cell / width).abs_diff(home / width) + (cell % width).abs_diff(home % width)
}

// How far each tile that lies on a cell is from its home.
fn distances_on(width: u8, cell: u8) -> [u8; MOST_CELLS]
    requires wide { 0 < width }
    requires on { cell < 16 }
    ensures { MeasuredOn width cell result }
{
    let mut distances = [0; MOST_CELLS];
    for tile in 0..MOST_CELLS {
        distances[tile] = way_home(width, cell, tile as u8);
    }
    distances
}

/// For each cell of a board of this width, how far each tile that lies there is from its home.
pub(crate) fn distance_table(width: u8) -> [[u8; MOST_CELLS]; MOST_CELLS]
    requires { 0 < width }
    ensures { Measured width result }
{
    let mut distances = [[0; MOST_CELLS]; MOST_CELLS];
    for cell in 0..MOST_CELLS {
        distances[cell] = distances_on(width, cell as u8);
    }
    distances
}

impl TileLevel {
    /// How far the tiles are from home, all together.
    pub(crate) fn manhattan(&self, position: u64) -> u16
        ensures { result ≡ manhattan (tiles self.now) position }
    {
        let mut rest = position;
        let mut total = 0;
        for distances in &self.distances[..self.grid.cells()] {
            let tile = (rest & CELL_MASK) as usize;
            total += u16::from(distances[tile]);
            rest >>= BITS_PER_CELL;
        }
        total
    }
}
