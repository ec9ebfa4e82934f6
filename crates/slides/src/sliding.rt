ghost use Rattle.std.specs.Prelude.{◌≡◌};
ghost use Rattle.slides.specs.Sets.{has};
ghost use Rattle.slides.specs.Slides.{free_neighbour, rest_cell, RestsExactly, SlidesExactly};

use crate::cell_set::CellSet;
use grid::{Direction, Grid};

/// The cell where one comes to rest who slides from a cell in a direction until the next cell is blocked or beyond the
/// border: `from` itself where no step can be taken.
pub fn slide(grid: Grid, blocked: &CellSet, from: usize, direction: Direction) -> usize
    ensures rests { result ≡ rest_cell grid.width grid.height (has blocked.now) direction from }
    ensures exactly { RestsExactly grid.width grid.height (has blocked.now) direction from }
    ensures slides { SlidesExactly grid.width grid.height (has blocked.now) direction from }
{
    // A chain of `successors` would not be known to end.
    let mut at = from;
    while let Some(next) = free_neighbour(grid, blocked, at, direction) {
        at = next;
    }
    at
}

// The next cell, unless it is blocked or beyond the border.
fn free_neighbour(grid: Grid, blocked: &CellSet, cell: usize, direction: Direction) -> Option<usize>
    ensures { result ≡ free_neighbour grid.width grid.height (has blocked.now) direction cell }
{
    grid.neighbour(cell, direction)
        .filter(|&next| !blocked.contains(next))
}
