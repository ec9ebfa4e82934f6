ghost use Rattle.std.specs.Prelude.{◌≡◌};

use crate::level_bound::LevelBound;

mod game;
mod notation;

/// An atom level with a lower bound behind it, as a book gives one: the same game with that bound.
#[derive(Clone, Copy)]
pub struct BookedLevel<B> {
    bound: B,
}

impl<B: LevelBound> BookedLevel<B> {
    /// The level of a bound, with it.
    pub fn new(bound: B) -> BookedLevel<B>
        ensures { result.bound ≡ bound }
    {
        BookedLevel { bound }
    }
}
