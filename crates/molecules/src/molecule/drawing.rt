ghost use Rattle.std.specs.Prelude.{◌≡◌, [], option_map, Decides};
ghost use Rattle.pictures.specs.Pictures.{shape_of, shape, blank_shape};
ghost use Rattle.molecules.specs.Atoms.{draws_wall, with_want, is_atom_at, row_holds, column_holds, is_edged};
ghost use Rattle.molecules.specs.Atoms.{same_labels, SameLabels};
ghost use Rattle.molecules.specs.Molecules.{molecule_shape};
ghost use Rattle.molecules.specs.GoalPlaces.{wants, WantsExactly};

use super::Molecule;
use crate::labels::{count_label, is_atom};
use crate::overlay::Overlay;
use pictures::{Cell, Picture};

/// A molecule of the least width, one cell, with no row yet.
impl Default for Molecule {
    ghost is_default = { λ molecule. molecule_shape molecule ≡ shape_of 1 0 [] };

    fn default() -> Molecule {
        let picture = Picture::default();
        Molecule { picture }
    }
}

impl Molecule {
    /// A molecule of this width with no row yet; there is none unless it is 1 to 16 wide.
    pub fn new(width: usize) -> Option<Molecule>
        ensures { option_map molecule_shape result ≡ blank_shape width }
    {
        let picture = Picture::new(width)?;
        Some(Molecule { picture })
    }

    /// The molecule with one row more. There is none if the row is not as wide as the molecule, if a character is
    /// neither `.` nor a letter, or if the molecule has 16 rows.
    pub fn with_row(&self, row: &[u8]) -> Option<Molecule>
        ensures { option_map molecule_shape result ≡ with_want (molecule_shape self.now) row.now }
    {
        if draws_wall(row) {
            return None;
        }
        let picture = self.picture.with_row(row)?;
        Some(Molecule { picture })
    }

    /// The molecule as it is drawn.
    pub fn picture(&self) -> &Picture
        ensures { result.now ≡ self.now.picture }
    {
        &self.picture
    }

    // Whether an atom is at a row and a column.
    fn has_atom(&self, row: u8, column: u8) -> bool
        ensures { result ≡ is_atom_at (molecule_shape self.now) row column }
    {
        let width = usize::from(self.picture.grid().width);
        let cell = usize::from(row) * width + usize::from(column);
        is_atom(self.picture.cell(cell))
    }

    // Whether a row holds an atom.
    fn row_holds(&self, row: u8) -> bool
        ensures { result ≡ row_holds (molecule_shape self.now) row }
    {
        let width = self.picture.grid().width;
        (0..width).any(|column| self.has_atom(row, column))
    }

    // Whether a column holds an atom.
    fn column_holds(&self, column: u8) -> bool
        ensures { result ≡ column_holds (molecule_shape self.now) column }
    {
        let height = self.picture.grid().height;
        (0..height).any(|row| self.has_atom(row, column))
    }

    /// Whether each edge row and each edge column holds an atom.
    pub fn is_edged(&self) -> bool
        ensures { result ≡ is_edged (molecule_shape self.now) }
    {
        let size = self.picture.grid();
        size.height > 0
            && self.row_holds(0)
            && self.row_holds(size.height - 1)
            && self.column_holds(0)
            && self.column_holds(size.width - 1)
    }

    /// Whether each label is as often in the molecule as on the board.
    pub fn has_labels_of(&self, board: &Picture) -> bool
        ensures says { result ≡ same_labels (shape board.now) (molecule_shape self.now) }
        ensures decides { Decides result (SameLabels (shape board.now) (molecule_shape self.now)) }
    {
        (b'A'..=b'Z').all(|label| count_label(board, label) == count_label(&self.picture, label))
    }

    /// Whether the molecule wants an atom of this label on `cell` of the board, if its first cell lies on this goal
    /// place.
    pub fn wants(&self, board: &Picture, goal_place: u8, cell: u8, label: u8) -> bool
        ensures says { result ≡ wants (shape board.now) (molecule_shape self.now) goal_place cell label }
        ensures exactly { WantsExactly (shape board.now) (molecule_shape self.now) goal_place cell label }
    {
        let overlay = Overlay {
            board,
            molecule: &self.picture,
            goal_place,
        };
        overlay.cell_over(cell) == Cell::Atom(label)
    }
}

// Whether a character of the row draws a wall.
fn draws_wall(row: &[u8]) -> bool
    ensures { result ≡ draws_wall row.now }
{
    row.contains(&u8::from(Cell::Wall))
}
