ghost use Rattle.std.specs.Prelude.{◌≡◌};
ghost use Rattle.text.specs.Lines.{bytes};
ghost use Rattle.text.specs.Pens.{Writes};
ghost use Rattle.ways.specs.Notations.{fault_of, Spelling, FollowsIn, Lawful};

use puzzle::Puzzle;
use refusals::Fault;
use text::Line;
use text::pen::Pen;

/// Why a written move is no legal move of a position.
#[derive(Clone, Copy, Debug)]
pub enum IllegalMove {
    /// Nothing stands where the move is said to begin.
    NothingThere,
    /// The move is closed.
    Closed,
}

/// The reason under which the judge refuses it.
impl From<IllegalMove> for Fault {
    ghost from_gives = { λ illegal fault. fault ≡ fault_of illegal };

    fn from(illegal: IllegalMove) -> Fault {
        match illegal {
            IllegalMove::NothingThere => Fault::NothingThere,
            IllegalMove::Closed => Fault::ClosedMove,
        }
    }
}

/// No line of an open move, of any kind, has more bytes; with its line end that makes 32.
pub const LONGEST_LINE: usize = 31;

/// A puzzle whose moves are written. Its spelling says how.
pub trait Notation: Puzzle {
    /// What a move line says.
    type Written: Copy;

    ghost spelling: { Self → Spelling Self.Position Self.Written };

    /// What a line says, if it is a move line in form.
    fn read_move(&self, line: Line) -> Option<Self::Written>
        ensures { result ≡ (spelling self.now).reading (bytes line.entry) };

    /// Follows a written move from a position: fills `into` with where it leads, or says why it is no legal move there.
    /// From a position that no legal moves lead to it is safe, and what it answers and writes is free.
    fn follow(
        &self,
        from: &Self::Position,
        written: &Self::Written,
        into: &mut Self::Position,
    ) -> Result<(), IllegalMove>
        ensures { FollowsIn (Self.meaning self.now) (spelling self.now) from.now written.now result into.old into.new };

    /// Writes the line of a move number, open or closed, without its line end; nothing, where the number has no line.
    fn write_move(&self, at: &Self::Position, number: u32, pen: &mut Pen)
        ensures { Writes ((spelling self.now).line at.now number) pen.old pen.new };

    ghost readable: { (z : Self) → Lawful (Self.meaning z).game (spelling z) };
}
