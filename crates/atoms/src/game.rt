//! An atom level as a puzzle: moves slide atoms, and of no position it is known how far it is from the finish.
ghost use Rattle.std.specs.Prelude.{◌≡◌, Decides, refl};
ghost use Rattle.atoms.specs.Level.{atoms, HasBlocked, finished};
ghost use Rattle.atoms.specs.Moves.{PlaysMove, MovesExactly, Finished};
ghost use Rattle.atoms.specs.Meaning.{meaning};
ghost use Rattle.atoms.specs.laws.Lawful;

use crate::level::AtomLevel;
use crate::position::Position;
use equality::same;
use grid::Direction;
use puzzle::{Puzzle, key_of, mix};
use slides::CellSet;

/// Move 4 × atom + direction slides that atom up (0), down (1), left (2) or right (3).
impl Puzzle for AtomLevel {
    type Position = Position;

    /// The cells that are not free: walls, and cells on which an atom stands.
    type Prepared = CellSet;

    ghost meaning = { λ z. meaning (atoms z) };

    ghost Prepares = { λ z. HasBlocked (atoms z) };

    const MOVES: u32 = AtomLevel::MOST_ATOMS as u32 * Direction::COUNT;

    ghost MOVES = { 64 };

    ghost counted = { λ _. refl };

    ghost lawful = { λ z. Lawful.lawful (atoms z) };

    fn start(&self) -> Position {
        self.start
    }

    fn prepare(&self, at: &Position) -> CellSet
        ensures { HasBlocked (atoms self.now) at.now result }
    {
        let mut blocked = self.walls;
        for cell in self.standing(at) {
            blocked.insert(*cell);
        }
        blocked
    }

    fn play(&self, from: &Position, blocked: &CellSet, number: u32, into: &mut Position) -> bool
        ensures plays { PlaysMove (atoms self.now) from.now blocked.now number result into.old into.new }
        ensures exactly { MovesExactly (atoms self.now) from.now number }
    {
        let atom = (number / Direction::COUNT) as usize;
        match Direction::try_from(number % Direction::COUNT) {
            Ok(direction) => self.slide_atom(from, blocked, atom, direction, into),
            Err(_) => false,
        }
    }

    /// Whether on some goal place every atom stands on a cell of its label.
    fn is_goal(&self, at: &Position) -> bool
        ensures says { result ≡ finished (atoms self.now) at.now }
        ensures decides { Decides result (Finished (atoms self.now) at.now) }
    {
        let standing = self.standing(at);
        let labels = self.labels();
        // A misfit goes on with the next goal place, a fit ends the search.
        let mut found = false;
        'goal_places: for goal_place in self.goal_places.as_slice() {
            for (cell, label) in standing.iter().zip(labels) {
                if !self.molecule.wants(&self.board, *goal_place, *cell, *label) {
                    continue 'goal_places;
                }
            }
            found = true;
            break 'goal_places;
        }
        found
    }

    fn lower_bound(&self, _at: &Position) -> Option<u16>
        ensures { result ≡ (meaning (atoms self.now)).lower_bound _at.now }
    {
        Some(0)
    }

    fn key(&self, at: &Position) -> u32
        ensures { result ≡ (meaning (atoms self.now)).key at.now }
    {
        let cells = at.cells.iter();
        key_of(cells.fold(0, |sum, cell| mix(sum, u64::from(*cell))))
    }

    fn is_same(&self, one: &Position, other: &Position) -> bool
        ensures { result ≡ (meaning (atoms self.now)).same one.now other.now }
    {
        same(one, other)
    }
}
