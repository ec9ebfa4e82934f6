ghost use Rattle.std.specs.Prelude.{◌≡◌, [], option_map};
ghost use Rattle.pictures.specs.Pictures.{shape_of, blank_shape, with_row, shape, cell_at};

use super::Picture;
use crate::cell::Cell;
use grid::Grid;

/// A picture of the least width, one cell, with no row yet.
impl Default for Picture {
    ghost is_default = { λ picture. shape picture ≡ shape_of 1 0 [] };

    fn default() -> Picture {
        Picture {
            grid: Grid {
                width: 1,
                height: 0,
            },
            cells: [Cell::Free; Picture::MOST_CELLS],
        }
    }
}

impl Picture {
    /// The most cells that a picture is wide and high.
    pub const LONGEST_SIDE: usize = 16;

    /// As many cells as a picture may have.
    pub const MOST_CELLS: usize = Self::LONGEST_SIDE * Self::LONGEST_SIDE;

    /// A picture of this width with no row yet; there is none unless it is 1 to 16 wide.
    pub fn new(width: usize) -> Option<Picture>
        ensures { option_map shape result ≡ blank_shape width }
    {
        if !(1..=Self::LONGEST_SIDE).contains(&width) {
            return None;
        }
        Some(Picture {
            grid: Grid {
                width: width as u8,
                height: 0,
            },
            cells: [Cell::Free; Picture::MOST_CELLS],
        })
    }

    /// The board that the picture covers.
    pub fn grid(&self) -> Grid
        ensures { result ≡ self.now.grid }
    {
        self.grid
    }

    /// The cells, row by row.
    pub fn cells(&self) -> &[Cell]
        ensures { result.now ≡ (shape self.now).cells }
    {
        &self.cells[..self.grid.cells()]
    }

    /// The cell with this number in reading order. Past the last cell all is wall.
    pub fn cell(&self, number: usize) -> Cell
        ensures { result ≡ cell_at (shape self.now) number }
    {
        self.cells().get(number).copied().unwrap_or(Cell::Wall)
    }

    /// The picture with one row more. There is none if the row is not as wide as the picture, if a character draws no
    /// cell, or if the picture has 16 rows.
    pub fn with_row(&self, row: &[u8]) -> Option<Picture>
        ensures { option_map shape result ≡ with_row (shape self.now) row.now }
    {
        let Grid { width, height } = self.grid;
        if row.len() != usize::from(width) || usize::from(height) >= Self::LONGEST_SIDE {
            return None;
        }
        let mut cells = self.cells;
        let first = self.grid.cells();
        // By index, since nothing is told of what is written through an adapter of `iter_mut`.
        for (column, &symbol) in row.iter().enumerate() {
            cells[first + column] = Cell::try_from(char::from(symbol)).ok()?;
        }
        Some(Picture {
            grid: Grid {
                width,
                height: height + 1,
            },
            cells,
        })
    }
}
