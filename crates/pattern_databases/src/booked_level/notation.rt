//! The level's own notation.
ghost use Rattle.atoms.specs.Level.{atoms};
ghost use Rattle.atoms.specs.WrittenMoves.{spelling};
ghost use Rattle.atoms.specs.laws.Readable;

use super::BookedLevel;
use crate::level_bound::LevelBound;
use atoms::{AtomMove, Position};
use text::Line;
use text::pen::Pen;
use ways::{IllegalMove, Notation};

impl<B: LevelBound> Notation for BookedLevel<B> {
    type Written = AtomMove;

    ghost spelling = { λ z. spelling (atoms (B.level z.bound)) };

    ghost readable = { λ z. Readable.readable (B.level z.bound) };

    fn read_move(&self, line: Line) -> Option<AtomMove> {
        self.bound.level().read_move(line)
    }

    fn follow(
        &self,
        from: &Position,
        written: &AtomMove,
        into: &mut Position,
    ) -> Result<(), IllegalMove> {
        self.bound.level().follow(from, written, into)
    }

    fn write_move(&self, at: &Position, number: u32, pen: &mut Pen) {
        self.bound.level().write_move(at, number, pen);
    }
}
