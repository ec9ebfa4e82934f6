ghost use Rattle.std.specs.Prelude.{◌≡◌, ◌<◌};
ghost use Rattle.pictures.specs.Pictures.{shape};
ghost use Rattle.molecules.specs.GoalPlaces.{cell_under, is_goal_place, cell_over};

use crate::labels::is_atom;
use pictures::{Cell, Picture};

/// A molecule that lies on a board, at a goal place or not.
#[derive(Clone, Copy)]
pub(crate) struct Overlay<'a> {
    pub(crate) board: &'a Picture,
    pub(crate) molecule: &'a Picture,
    /// The cell of the board under the molecule's first cell.
    pub(crate) goal_place: u8,
}

impl Overlay<'_> {
    /// Whether every atom of the molecule falls on a cell of the board that is no wall.
    pub(crate) fn fits(&self) -> bool
        ensures { result ≡ is_goal_place (shape self.now.board.now) (shape self.now.molecule.now) self.now.goal_place }
    {
        self.molecule.cells().iter().enumerate().all(|(i, &cell)| !is_atom(cell)
            || self.cell_under(i) != Cell::Wall)
    }

    // The cell of the board under cell `i` of the molecule. Beyond the border, where `Grid` has no cells, all is wall.
    fn cell_under(&self, i: usize) -> Cell
        requires { i < 256 }
        ensures { result ≡ cell_under (shape self.now.board.now) (shape self.now.molecule.now) self.now.goal_place i }
    {
        let goal_place = usize::from(self.goal_place);
        let width = usize::from(self.board.grid().width);
        let molecule_width = usize::from(self.molecule.grid().width);
        let row = goal_place / width + i / molecule_width;
        let column = goal_place % width + i % molecule_width;
        if column < width {
            self.board.cell(row * width + column)
        } else {
            Cell::Wall
        }
    }

    /// The cell of the molecule over a cell of the board. Beside the molecule there is none, which reads as wall.
    pub(crate) fn cell_over(&self, cell: u8) -> Cell
        ensures { result ≡ cell_over (shape self.now.board.now) (shape self.now.molecule.now) self.now.goal_place cell }
    {
        let width = self.board.grid().width;
        let (top, left) = (self.goal_place / width, self.goal_place % width);
        let (row, column) = (cell / width, cell % width);
        let molecule_width = self.molecule.grid().width;
        if row < top || column < left || column - left >= molecule_width {
            return Cell::Wall;
        }
        let part = usize::from(row - top) * usize::from(molecule_width)
            + usize::from(column - left);
        self.molecule.cell(part)
    }
}
