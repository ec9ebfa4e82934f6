ghost use Rattle.std.specs.Prelude.{◌≡◌, ℕ, ◌≤◌, true, take};
ghost use Rattle.pictures.specs.Pictures.{shape};
ghost use Rattle.molecules.specs.Atoms.{is_edged, atom_count, SameLabels};
ghost use Rattle.molecules.specs.Molecules.{molecule_shape};
ghost use Rattle.molecules.specs.GoalPlaces.{list_of, goal_places as all_goal_places};
ghost use Rattle.slides.specs.Sets.{has};
ghost use Rattle.atoms.specs.Board.{is_wall_at, labels_of, start_cells};

use crate::position::Position;
use molecules::{GoalPlaces, Molecule};
use pictures::Picture;
use slides::CellSet;

mod making;
mod moves;

/// An atom level: a board with 1 to 16 atoms, and a molecule of just these labels whose edges hold atoms.
///
/// Atoms are numbered from 0 in reading order.
#[derive(Clone, Copy, Debug)]
pub struct AtomLevel {
    pub(crate) board: Picture,
    pub(crate) molecule: Molecule,
    atoms: usize,
    labels: [u8; AtomLevel::MOST_ATOMS],
    pub(crate) start: Position,
    pub(crate) walls: CellSet,
    pub(crate) goal_places: GoalPlaces,
    ghost counted: { (atoms ≡ atom_count (shape board)) × (1 ≤ atoms) × (atoms ≤ 16) },
    ghost edges: { is_edged (molecule_shape molecule) ≡ true },
    ghost matched: { SameLabels (shape board) (molecule_shape molecule) },
    ghost labelled: { take atoms labels ≡ labels_of (shape board) },
    ghost started: { start.cells ≡ start_cells (shape board) },
    ghost walled: { (k : ℕ) → has walls k ≡ is_wall_at (shape board) k },
    ghost placed: { list_of goal_places ≡ all_goal_places (shape board) (molecule_shape molecule) },
}
