//! The level's own game, with the bound that stands behind it.
ghost use Rattle.std.specs.Prelude.{◌≡◌, refl};
ghost use Rattle.atoms.specs.Level.{atoms, HasBlocked};
ghost use Rattle.pattern_databases.specs.Meaning.{with_bound};

use super::BookedLevel;
use crate::level_bound::LevelBound;
use atoms::{AtomLevel, Position};
use puzzle::Puzzle;
use slides::CellSet;

impl<B: LevelBound> Puzzle for BookedLevel<B> {
    type Position = Position;

    type Prepared = CellSet;

    ghost meaning = { λ z. with_bound (atoms (B.level z.bound)) (B.bound z.bound) };

    ghost Prepares = { λ z. HasBlocked (atoms (B.level z.bound)) };

    const MOVES: u32 = AtomLevel::MOVES;

    ghost MOVES = { 64 };

    ghost counted = { λ _. refl };

    ghost lawful = { λ z. B.lawful z.bound };

    fn start(&self) -> Position {
        self.bound.level().start()
    }

    fn prepare(&self, at: &Position) -> CellSet {
        self.bound.level().prepare(at)
    }

    fn play(&self, from: &Position, prepared: &CellSet, number: u32, into: &mut Position) -> bool {
        self.bound.level().play(from, prepared, number, into)
    }

    fn is_goal(&self, at: &Position) -> bool {
        self.bound.level().is_goal(at)
    }

    fn lower_bound(&self, at: &Position) -> Option<u16> {
        self.bound.lower_bound(at)
    }

    fn key(&self, at: &Position) -> u32 {
        self.bound.level().key(at)
    }

    fn is_same(&self, one: &Position, other: &Position) -> bool {
        self.bound.level().is_same(one, other)
    }
}
