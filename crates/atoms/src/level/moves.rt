//! The atoms of a level: their labels, where they stand, and how one slides.
ghost use Rattle.std.specs.Prelude.{◌≡◌, take};
ghost use Rattle.pictures.specs.Pictures.{shape};
ghost use Rattle.molecules.specs.GoalPlaces.{goal_places};
ghost use Rattle.atoms.specs.Board.{labels_of};
ghost use Rattle.atoms.specs.Level.{atoms, count};
ghost use Rattle.atoms.specs.Moves.{SlidesAtom, atom_at};

use super::AtomLevel;
use crate::position::Position;
use grid::{Coordinates, Direction};
use molecules::Molecule;
use pictures::Picture;
use slides::{CellSet, slide};

impl AtomLevel {
    /// The board as it is drawn, with the atoms where they start.
    pub fn board(&self) -> &Picture
        ensures { result.now ≡ self.now.board }
    {
        &self.board
    }

    /// The wanted molecule.
    pub fn molecule(&self) -> &Molecule
        ensures { result.now ≡ self.now.molecule }
    {
        &self.molecule
    }

    /// The goal places of the molecule: the cells on which its first cell may lie, in reading order.
    pub fn goal_places(&self) -> &[u8]
        ensures { result.now ≡ goal_places (atoms self.now).board (atoms self.now).molecule }
    {
        self.goal_places.as_slice()
    }

    /// The number of the atom that stands on a row and a column of the board.
    pub fn atom_at(&self, position: &Position, at: Coordinates) -> Option<usize>
        ensures { result ≡ atom_at (atoms self.now) position.now at }
    {
        let cell = self.board.grid().cell(at)?;
        let mut standing = self.standing(position).iter();
        standing.position(|stands| usize::from(*stands) == cell)
    }

    /// Slides an atom, where these are the blocked cells of the position `from`: says whether it can slide, and if so
    /// fills `into` with the position then.
    pub(crate) fn slide_atom(
        &self,
        from: &Position,
        blocked: &CellSet,
        atom: usize,
        direction: Direction,
        into: &mut Position,
    ) -> bool
        ensures { SlidesAtom (atoms self.now) from.now blocked.now atom direction result into.old into.new }
    {
        let Some(cell) = self.standing(from).get(atom) else {
            return false;
        };
        let cell = usize::from(*cell);
        let rest = slide(self.board.grid(), blocked, cell, direction);
        if rest == cell {
            return false;
        }
        *into = *from;
        into.cells[atom] = rest as u8;
        true
    }

    /// The labels of the atoms, by number.
    pub fn labels(&self) -> &[u8]
        ensures { result.now ≡ labels_of (shape self.now.board) }
    {
        &self.labels[..self.atoms]
    }

    /// The cells on which the atoms stand, by number.
    pub fn standing<'a>(&self, position: &'a Position) -> &'a [u8]
        ensures { result.now ≡ take (count (atoms self.now)) position.now.cells }
    {
        &position.cells[..self.atoms]
    }
}
