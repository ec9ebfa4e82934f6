ghost use Rattle.std.specs.Prelude.{◌≡◌};
ghost use Rattle.puzzle.specs.Game.{Reached};
ghost use Rattle.text.specs.Pens.{Writes};
ghost use Rattle.ways.specs.inside.Walking.{move_judgement, PlaysNumber, FollowsLine, end_judgement};

use crate::notation::{IllegalMove, Notation};
use refusals::{Fault, Refusal};
use text::pen::Pen;

/// A position that legal moves of a level lead to.
#[derive(Drop)]
pub(crate) struct Walk<'a, L: Notation> {
    pub(crate) level: &'a L,
    position: L::Position,
    ghost reached: { ∥ Reached (L.meaning level.now).game position ∥₁ },
}

/// Judges a move: first by what following it answers, then by whether the position before it was finished. No other
/// place knows this order.
fn judge_move(outcome: Result<(), IllegalMove>, was_finished: bool) -> Result<(), Fault>
    ensures { result ≡ move_judgement outcome was_finished }
{
    outcome?;
    if was_finished {
        return Err(Fault::AfterFinish);
    }
    Ok(())
}

impl<'a, L: Notation> Walk<'a, L> {
    /// The start of a level.
    pub(crate) fn start(level: &'a L) -> Self
        ensures on { result.level ≡ level.entry }
        ensures at { result.position ≡ (L.meaning level.now).game.start }
    {
        Walk {
            level,
            position: level.start(),
        }
    }

    /// Plays a move number: says whether there is such a move and it is open. If not, the walk stays where it is.
    pub(crate) fn play(&mut self, number: u32) -> bool
        ensures leads { let z = self.old.level.now in
            PlaysNumber (L.meaning z).game number result self.old.position self.new.position }
        ensures same { self.new.level ≡ self.old.level }
    {
        if number >= L::MOVES {
            return false;
        }
        let from = self.position;
        let prepared = self.level.prepare(&from);
        self.level
            .play(&from, &prepared, number, &mut self.position)
    }

    /// Follows a move that is written on a line, or says why it is refused; then the walk stays where it is.
    pub(crate) fn follow(&mut self, written: &L::Written, line: usize) -> Result<(), Refusal>
        ensures leads { let z = self.old.level.now in
            FollowsLine (L.meaning z).game (L.spelling z) line written.now result self.old.position self.new.position }
        ensures same { self.new.level ≡ self.old.level }
    {
        let from = self.position;
        let outcome = self.level.follow(&from, written, &mut self.position);
        if let Err(fault) = judge_move(outcome, self.level.is_goal(&from)) {
            self.position = from;
            return Err(fault.at(line));
        }
        Ok(())
    }

    /// Ends the moves on a line, or says that the position there is not finished.
    pub(crate) fn end(&self, line: usize) -> Result<(), Refusal>
        ensures { let z = self.now.level.now in
            result ≡ end_judgement (L.meaning z).game (L.spelling z) self.now.position line }
    {
        if !self.level.is_goal(&self.position) {
            return Err(Fault::NotFinished.at(line));
        }
        Ok(())
    }

    /// Writes the line of a move number, without its line end.
    pub(crate) fn write_move(&self, number: u32, pen: &mut Pen)
        ensures { Writes ((L.spelling self.now.level.now).line self.now.position number) pen.old pen.new }
    {
        self.level.write_move(&self.position, number, pen);
    }
}
