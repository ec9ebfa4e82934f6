ghost use Rattle.atoms.specs.Level.{atoms};
ghost use Rattle.pattern_databases.specs.Meaning.{bound};
ghost use Rattle.pattern_databases.specs.laws.Lawful;

use super::BookBound;
use crate::level_bound::LevelBound;
use atoms::{AtomLevel, Position};

/// What a book that passes says of the positions of its level.
impl LevelBound for BookBound<'_> {
    ghost level = { λ z. z.book.layout.level.now };

    ghost bound = { λ z. bound (atoms z.book.layout.level.now) z.book.bytes.now };

    ghost lawful = { λ z. Lawful.lawful z.book.layout.level.now z.book.bytes.now z.book.passes };

    fn level(&self) -> &AtomLevel {
        self.book.layout.level
    }

    fn lower_bound(&self, at: &Position) -> Option<u16> {
        self.bound(at)
    }
}
