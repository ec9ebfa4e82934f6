//! How moves of atom levels are written: `(move 0 2 right)` slides the atom on row 0 and column 2 to the right.
ghost use Rattle.atoms.specs.Level.{atoms};
ghost use Rattle.atoms.specs.WrittenMoves.{move_text, spelling};
ghost use Rattle.ways.specs.Notations.{FollowsTo};
ghost use Rattle.atoms.specs.laws.Readable;

use crate::level::AtomLevel;
use crate::position::Position;
use grid::{Coordinates, Direction};
use puzzle::Puzzle;
use text::pen::{Compose, Pen};
use text::{Line, forms};
use ways::{IllegalMove, Notation};

/// A move as it is written: where the atom stands, and where it slides.
#[derive(Clone, Copy, Debug)]
pub struct AtomMove {
    pub from: Coordinates,
    pub direction: Direction,
}

/// The line `(move R C DIRECTION)`.
impl Compose for AtomMove {
    ghost text = { move_text };

    fn compose(&self, pen: &mut Pen) {
        pen.put(b"(move ");
        pen.put_decimal(self.from.row);
        pen.put(b" ");
        pen.put_decimal(self.from.column);
        pen.put(b" ");
        pen.put(self.direction.word());
        pen.put(b")");
    }
}

impl Notation for AtomLevel {
    type Written = AtomMove;

    ghost spelling = { λ z. spelling (atoms z) };

    ghost readable = { Readable.readable };

    fn read_move(&self, line: Line) -> Option<AtomMove> {
        let (row, rest) = forms::short_number(forms::arguments(line, b"move")?)?;
        let (column, rest) = forms::short_number(rest)?;
        let (spelled, rest) = forms::word(rest)?;
        if !rest.is_empty() {
            return None;
        }
        let direction = Direction::try_from(spelled).ok()?;
        let from = Coordinates {
            row: row as usize,
            column: column as usize,
        };
        Some(AtomMove { from, direction })
    }

    fn follow(
        &self,
        from: &Position,
        written: &AtomMove,
        into: &mut Position,
    ) -> Result<(), IllegalMove>
        ensures { FollowsTo ((spelling (atoms self.now)).outcome from.now written.now) result into.old into.new }
    {
        let atom = self
            .atom_at(from, written.from)
            .ok_or(IllegalMove::NothingThere)?;
        let blocked = self.prepare(from);
        if self.slide_atom(from, &blocked, atom, written.direction, into) {
            Ok(())
        } else {
            Err(IllegalMove::Closed)
        }
    }

    fn write_move(&self, at: &Position, number: u32, pen: &mut Pen) {
        let atom = (number / Direction::COUNT) as usize;
        let Some(cell) = self.standing(at).get(atom) else {
            return;
        };
        let Some(from) = self.board.grid().coordinates(usize::from(*cell)) else {
            return;
        };
        let Ok(direction) = Direction::try_from(number % Direction::COUNT) else {
            return;
        };
        AtomMove { from, direction }.compose(pen);
    }
}
