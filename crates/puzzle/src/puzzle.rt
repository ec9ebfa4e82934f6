ghost use Rattle.std.specs.Prelude.{◌≡◌, ℕ};
ghost use Rattle.puzzle.specs.Meaning.{Meaning, IfReached, PlaysPrepared, Compares, Lawful};

/// A game that can be searched: positions, a start, numbered moves, finished positions, and how far each is from there
/// at least.
///
/// Its meaning says all this, and when two positions are the same. Of positions that no legal moves lead to, the answers
/// are free, but safe. A question alters nothing.
pub trait Puzzle {
    type Position: Copy;

    /// What is the same for all moves of a position, so that it is computed once for them.
    type Prepared: Copy;

    ghost meaning: { Self → Meaning Self.Position };

    /// What was prepared is a position's.
    ghost Prepares: { Self → Self.Position → Self.Prepared → Type 0 };

    /// How many move numbers there are: 1 to 256.
    const MOVES: u32;

    ghost MOVES: { ℕ };

    /// The position that the puzzle starts at.
    fn start(&self) -> Self::Position
        ensures { result ≡ (meaning self.now).game.start };

    /// Prepares a position for its moves.
    fn prepare(&self, at: &Self::Position) -> Self::Prepared
        ensures { IfReached (meaning self.now) at.now (Prepares self.now at.now result) };

    /// Plays a move of a position that was prepared: says whether it is open, and if so fills `into` with where it leads.
    /// A position may be large, so it is written where it is to lie. With what was prepared of another position it is
    /// safe, and what it answers and writes is free.
    fn play(
        &self,
        from: &Self::Position,
        prepared: &Self::Prepared,
        number: u32,
        into: &mut Self::Position,
    ) -> bool
        ensures { PlaysPrepared (meaning self.now) from.now
            (Prepares self.now from.now prepared.now) number result into.old into.new };

    /// Whether the position is finished.
    fn is_goal(&self, at: &Self::Position) -> bool
        ensures { let m = meaning self.now in IfReached m at.now (result ≡ m.game.finished at.now) };

    /// How many moves are left to the finish at least, or `None` where no moves finish.
    fn lower_bound(&self, at: &Self::Position) -> Option<u16>
        ensures { let m = meaning self.now in IfReached m at.now (result ≡ m.lower_bound at.now) };

    /// The number by which the position is looked up.
    fn key(&self, at: &Self::Position) -> u32
        ensures { let m = meaning self.now in IfReached m at.now (result ≡ m.key at.now) };

    /// Whether two positions are the same.
    fn is_same(&self, one: &Self::Position, other: &Self::Position) -> bool
        ensures { Compares (meaning self.now) one.now other.now result };

    ghost counted: { (z : Self) → (meaning z).game.count ≡ MOVES };

    ghost lawful: { (z : Self) → Lawful (meaning z) };
}
