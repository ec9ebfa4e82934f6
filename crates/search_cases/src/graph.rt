//! A small graph as a puzzle, with bounds that no level has: some that a move lowers by more than one, and one for a dead spot.
ghost use Rattle.std.specs.Prelude.{◌≡◌, refl};
ghost use Rattle.search_cases.specs.Graph.{leads, bound, meaning};
ghost use Rattle.search_cases.specs.laws.Lawful.{lawful};

use puzzle::Puzzle;

/// A spot of the graph.
#[derive(Clone, Copy, PartialEq, Eq, Debug)]
pub(crate) enum Spot {
    /// Where a pit, a long way and a short way begin.
    Gate,
    /// The long way to the hall, which looks short.
    Path,
    Turn,
    /// The short way to the hall, which looks long.
    Hill,
    Hall,
    Door,
    /// The finish.
    Room,
    /// A dead spot.
    Pit,
    /// A spot that leads to a dead one only, and is not known to be dead.
    Trap,
}

impl Spot {
    // Where the moves lead, by number.
    fn leads(self) -> &'static [Spot]
        ensures { result.now ≡ leads self }
    {
        match self {
            Spot::Gate => &[Spot::Pit, Spot::Path, Spot::Hill],
            Spot::Path => &[Spot::Turn],
            Spot::Turn => &[Spot::Hall],
            Spot::Hill => &[Spot::Hall],
            Spot::Hall => &[Spot::Door],
            Spot::Door => &[Spot::Room],
            Spot::Room => &[],
            Spot::Pit => &[],
            Spot::Trap => &[Spot::Pit],
        }
    }

    // How far it is to the room at least; none where it is known that no moves lead there.
    fn bound(self) -> Option<u16>
        ensures { result ≡ bound self }
    {
        match self {
            Spot::Gate => Some(4),
            Spot::Path => Some(0),
            Spot::Turn => Some(0),
            Spot::Hill => Some(3),
            Spot::Hall => Some(0),
            Spot::Door => Some(0),
            Spot::Room => Some(0),
            Spot::Pit => None,
            Spot::Trap => Some(0),
        }
    }
}

/// What tables hold before: the dead spot, which is never stored, so that a start that is not stored is noticed.
#[cfg(test)]
pub(crate) const NO_SPOT: Spot = Spot::Pit;

/// The graph with a spot to start at.
#[derive(Clone, Copy, Debug)]
pub(crate) struct Graph {
    pub(crate) start: Spot,
}

impl Puzzle for Graph {
    type Position = Spot;

    // The moves of a spot have nothing in common that would have to be computed.
    type Prepared = ();

    ghost meaning = { λ z. meaning z.start };

    ghost Prepares = { λ _ _ _. Unit {0} };

    const MOVES: u32 = 3;

    ghost MOVES = { 3 };

    ghost counted = { λ _. refl };

    ghost lawful = { λ z. lawful z.start };

    fn start(&self) -> Spot {
        self.start
    }

    fn prepare(&self, _at: &Spot) {}

    fn play(&self, from: &Spot, _prepared: &(), number: u32, into: &mut Spot) -> bool {
        let Some(to) = from.leads().get(number as usize) else {
            return false;
        };
        *into = *to;
        true
    }

    fn is_goal(&self, at: &Spot) -> bool {
        *at == Spot::Room
    }

    fn lower_bound(&self, at: &Spot) -> Option<u16> {
        at.bound()
    }

    // One key for all, so that spots are told apart by `is_same` alone.
    fn key(&self, _at: &Spot) -> u32 {
        0
    }

    fn is_same(&self, one: &Spot, other: &Spot) -> bool {
        one == other
    }
}
