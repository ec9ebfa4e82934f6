ghost use Rattle.levels.specs.Levels.{Rules, rules_of};

use crate::memory::Table;
use ways::Notation;

/// What is done with a level, whatever its kind.
pub trait LevelVisitor {
    type Output;

    /// What comes of it, by the rules of the level.
    ghost Gives: { Self → Rules → Self.Output → Type 0 };

    fn visit<L: Notation>(self, level: &L) -> Self::Output
        ensures { Gives self (rules_of (L.meaning level.now) (L.spelling level.now)) result };
}

/// What is done with a level and a table for its positions, whatever its kind.
pub trait TableVisitor<const PLACES: usize> {
    type Output;

    /// What comes of it, by the rules of the level.
    ghost Gives: { Self → Rules → Self.Output → Type 0 };

    fn visit<L: Notation>(self, level: &L, table: &mut Table<L::Position, PLACES>) -> Self::Output
        ensures { Gives self (rules_of (L.meaning level.now) (L.spelling level.now)) result };
}
