ghost use Rattle.std.specs.Prelude.{◌≡◌, ℕ, ◌≤◌};
ghost use Rattle.pictures.specs.Pictures.{shape};
ghost use Rattle.molecules.specs.Atoms.{atom_count};
ghost use Rattle.molecules.specs.Molecules.{molecule_shape};
ghost use Rattle.slides.specs.Sets.{has};
ghost use Rattle.atoms.specs.Board.{is_wall_at, labels_of, array_of, start_cells};
ghost use Rattle.text.specs.Reading.{map_ok};
ghost use Rattle.atoms.specs.Level.{atoms};
ghost use Rattle.atoms.specs.Making.{level_of, MakesValid};

use super::AtomLevel;
use crate::position::Position;
use molecules::{GoalPlaces, Molecule, count_atoms};
use pictures::{Cell, Picture};
use refusals::Fault;
use slides::CellSet;

impl AtomLevel {
    /// The most atoms that a level may have.
    pub const MOST_ATOMS: usize = 16;

    /// The level on this board that wants this molecule. It is refused if an edge of the molecule holds no atom; and
    /// then if the board has no atom or more than 16, or if a label is not as often in the molecule as on the board.
    pub fn new(board: &Picture, molecule: &Molecule) -> Result<AtomLevel, Fault>
        ensures makes { map_ok atoms result ≡ level_of (shape board.now) (molecule_shape molecule.now) }
        ensures valid { MakesValid (shape board.now) (molecule_shape molecule.now) }
    {
        if !molecule.is_edged() {
            return Err(Fault::BareEdge);
        }
        let atoms = count_atoms(board);
        if !(1..=Self::MOST_ATOMS).contains(&atoms) || !molecule.has_labels_of(board) {
            return Err(Fault::AtomLabels);
        }
        Ok(AtomLevel {
            board: *board,
            molecule: *molecule,
            atoms,
            labels: labels_of(board),
            start: start_of(board),
            walls: walls_of(board),
            goal_places: GoalPlaces::find(board, molecule),
        })
    }
}

// The labels of at most 16 atoms, by number.
fn labels_of(board: &Picture) -> [u8; AtomLevel::MOST_ATOMS]
    requires { atom_count (shape board.now) ≤ 16 }
    ensures { result ≡ array_of (labels_of (shape board.now)) }
{
    let mut labels = [0; AtomLevel::MOST_ATOMS];
    let found = board.cells().iter().filter_map(|cell| cell.label());
    // By index, since nothing is told of what is written through an adapter of `iter_mut`.
    for (atom, label) in found.enumerate() {
        labels[atom] = label;
    }
    labels
}

// Where at most 16 atoms stand on the board.
fn start_of(board: &Picture) -> Position
    requires { atom_count (shape board.now) ≤ 16 }
    ensures { result.cells ≡ start_cells (shape board.now) }
{
    let mut cells = [0; AtomLevel::MOST_ATOMS];
    let atoms = board
        .cells()
        .iter()
        .enumerate()
        .filter(|(_, drawn)| drawn.label().is_some());
    // By index, as in `labels_of`.
    for (atom, (cell, _)) in atoms.enumerate() {
        cells[atom] = cell as u8;
    }
    Position { cells }
}

// The walls of a board.
fn walls_of(board: &Picture) -> CellSet
    ensures { (k : ℕ) → has result k ≡ is_wall_at (shape board.now) k }
{
    let mut walls = CellSet::default();
    for (cell, drawn) in board.cells().iter().enumerate() {
        if *drawn == Cell::Wall {
            walls.insert(cell as u8);
        }
    }
    walls
}
