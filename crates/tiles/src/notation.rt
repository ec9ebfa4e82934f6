//! How moves of tile levels are written: `(move up)` sends the blank up.
ghost use Rattle.text.specs.Pens.{Writes};
ghost use Rattle.tiles.specs.Level.{tiles};
ghost use Rattle.tiles.specs.WrittenMoves.{direction_line, spelling};
ghost use Rattle.ways.specs.Notations.{FollowsTo};
ghost use Rattle.tiles.specs.laws.Readable;

use crate::level::TileLevel;
use grid::Direction;
use puzzle::Puzzle;
use text::pen::Pen;
use text::{Line, forms};
use ways::{IllegalMove, Notation};

impl Notation for TileLevel {
    type Written = Direction;

    ghost spelling = { λ z. spelling (tiles z) };

    ghost readable = { λ z. Readable.readable (tiles z) };

    fn read_move(&self, line: Line) -> Option<Direction> {
        let (spelled, rest) = forms::word(forms::arguments(line, b"move")?)?;
        if !rest.is_empty() {
            return None;
        }
        Direction::try_from(spelled).ok()
    }

    fn follow(&self, from: &u64, written: &Direction, into: &mut u64) -> Result<(), IllegalMove>
        ensures { FollowsTo ((spelling (tiles self.now)).outcome from.now written.now) result into.old into.new }
    {
        let blank = self.prepare(from);
        if self.send_blank(*from, blank, *written, into) {
            Ok(())
        } else {
            Err(IllegalMove::Closed)
        }
    }

    fn write_move(&self, _at: &u64, number: u32, pen: &mut Pen) {
        if let Ok(direction) = Direction::try_from(number) {
            write_direction(direction, pen);
        }
    }
}

// Writes the line `(move DIRECTION)`.
fn write_direction(direction: Direction, pen: &mut Pen)
    ensures { Writes (direction_line direction) pen.old pen.new }
{
    pen.put(b"(move ");
    pen.put(direction.word());
    pen.put(b")");
}
