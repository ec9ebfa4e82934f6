ghost use Rattle.std.specs.Prelude.{◌≡◌, ℕ, Option};
ghost use Rattle.puzzle.specs.Meaning.{Lawful, IfReached};
ghost use Rattle.atoms.specs.declared.level.AtomLevel.{AtomLevel as Level};
ghost use Rattle.atoms.specs.declared.position.Position.{Position as At};
ghost use Rattle.atoms.specs.Level.{atoms};
ghost use Rattle.pattern_databases.specs.Meaning.{with_bound};

use atoms::{AtomLevel, Position};

/// A lower bound for the positions of an atom level: with it the level is a puzzle that keeps the law.
pub trait LevelBound {
    ghost level: { Self → Level };

    /// How many moves are left to the finish at least; none where the position is dead.
    ghost bound: { Self → At → Option ℕ };

    fn level(&self) -> &AtomLevel
        ensures { result.now ≡ level self.now };

    fn lower_bound(&self, at: &Position) -> Option<u16>
        ensures { IfReached (with_bound (atoms (level self.now)) (bound self.now)) at.now
            (result ≡ bound self.now at.now) };

    ghost lawful: { (z : Self) → Lawful (with_bound (atoms (level z)) (bound z)) };
}
