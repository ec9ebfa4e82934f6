ghost use Rattle.std.specs.Prelude.{◌≡◌};
ghost use Rattle.pictures.specs.Pictures.{shape};
ghost use Rattle.molecules.specs.Atoms.{is_atom, atom_count, label_count};

use pictures::{Cell, Picture};

/// Whether the cell shows an atom.
pub(crate) fn is_atom(cell: Cell) -> bool
    ensures { result ≡ is_atom cell }
{
    cell.label().is_some()
}

/// How many atoms a picture shows.
pub fn count_atoms(picture: &Picture) -> usize
    ensures { result ≡ atom_count (shape picture.now) }
{
    let cells = picture.cells();
    cells.iter().filter(|&&cell| is_atom(cell)).count()
}

/// How many atoms of this label a picture shows.
pub(crate) fn count_label(picture: &Picture, label: u8) -> usize
    ensures { result ≡ label_count (shape picture.now) label }
{
    let cells = picture.cells();
    cells
        .iter()
        .filter(|&&cell| cell == Cell::Atom(label))
        .count()
}
