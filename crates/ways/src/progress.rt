ghost use Rattle.std.specs.Prelude.{◌≡◌};
ghost use Rattle.ways.specs.inside.Passing.{PassesMove};

use crate::notation::Notation;
use crate::walk::Walk;
use refusals::Refusal;

/// The moves of a way so far: how many its head announced, and the first refusal of one.
#[derive(Clone, Copy)]
pub(crate) struct Moves {
    pub announced: u32,
    pub refusal: Option<Refusal>,
}

/// How far a way has been read.
#[derive(Clone, Copy)]
pub(crate) enum Progress {
    /// The head is due.
    Head,
    /// A move or the closing bracket is due.
    Moves(Moves),
    /// Nothing may follow.
    Closed(Moves),
}

impl Moves {
    /// Follows one move more, as it is written on a line, unless one was refused.
    pub(crate) fn follow<L: Notation>(
        &mut self,
        walk: &mut Walk<L>,
        written: &L::Written,
        line: usize,
    )
        ensures leads { let z = walk.old.level.now in
            PassesMove (L.meaning z).game (L.spelling z) line written.now
            self.old walk.old.position self.new walk.new.position }
        ensures same { walk.new.level ≡ walk.old.level }
    {
        if self.refusal.is_none() {
            self.refusal = walk.follow(written, line).err();
        }
    }
}
