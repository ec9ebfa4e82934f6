ghost use Rattle.std.specs.Prelude.{◌≡◌, Ok, Err};
ghost use Rattle.ways.specs.Writing.{move_check, Playable, way_text, written_length, buffer_after, WritesAccepted, IsShort};
ghost use Rattle.ways.specs.inside.Walking.{WritesMoves};

use crate::notation::Notation;
use crate::walk::Walk;
use refusals::{Fault, Refusal};
use text::pen::{Compose, Pen, write_text};

/// The most moves that a written way may have, since its count has at most seven digits.
const MOST_MOVES: usize = 9_999_999;

/// The line of the first move of a way; the head stands before it.
const FIRST_MOVE_LINE: usize = 2;

/// Refuses the first move that is closed, with the line that it would have.
fn check_moves<L: Notation>(level: &L, moves: &[u32]) -> Result<(), Refusal>
    ensures { result ≡ move_check (L.meaning level.now).game moves.now }
{
    let mut walk = Walk::start(level);
    for (i, number) in moves.iter().enumerate() {
        if !walk.play(*number) {
            return Err(Fault::ClosedMove.at(i + FIRST_MOVE_LINE));
        }
    }
    Ok(())
}

/// A way of moves that are open, as the text that says it.
#[derive(Drop)]
struct WayText<'a, L: Notation> {
    level: &'a L,
    moves: &'a [u32],
    ghost playable: { Playable (L.meaning level.now).game moves.now },
}

impl<'a, L: Notation> WayText<'a, L> {
    // Writes a line for each move.
    fn compose_moves(&self, pen: &mut Pen)
        ensures { let z = self.now.level.now in
            WritesMoves (L.meaning z).game (L.spelling z) self.now.moves.now pen.old pen.new }
    {
        let mut walk = Walk::start(self.level);
        for number in self.moves {
            walk.write_move(*number, pen);
            pen.put(b"\n");
            // Each move is open.
            walk.play(*number);
        }
    }
}

impl<'a, L: Notation> Compose for WayText<'a, L> {
    ghost text = { λ t. way_text (L.meaning t.level.now).game (L.spelling t.level.now) t.moves.now };

    fn compose(&self, pen: &mut Pen) {
        pen.put(b"(way ");
        pen.put_decimal(self.moves.len());
        pen.put(b"\n");
        self.compose_moves(pen);
        pen.put(b")\n");
    }
}

/// Writes the way of a list of move numbers at the front of a buffer, and answers how long its text is.
///
/// A closed move is refused first, with the line that it would have; then a text that does not fit, or a way of more
/// than 9,999,999 moves. A refusal leaves the buffer as it was. A buffer of as many bytes as the longest line has with
/// its end, for each move and once more, has room for the text.
pub fn write_way<L: Notation>(level: &L, moves: &[u32], out: &mut [u8]) -> Result<usize, Refusal>
    ensures after { out.new ≡ buffer_after (L.meaning level.now).game (L.spelling level.now) moves.now out.old }
    ensures answers { result ≡ written_length (L.meaning level.now).game (L.spelling level.now) moves.now out.old }
    ensures accepted { WritesAccepted (L.meaning level.now).game (L.spelling level.now) moves.now }
    ensures short { IsShort (L.meaning level.now).game (L.spelling level.now) moves.now }
{
    check_moves(level, moves)?;
    if moves.len() > MOST_MOVES {
        return Err(Fault::NoRoom.at(0));
    }
    write_text(&WayText { level, moves }, out).ok_or(Fault::NoRoom.at(0))
}
