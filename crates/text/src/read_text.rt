ghost use Rattle.std.specs.Prelude.{◌<◌};

use super::line::Line;

/// A text whose lines were all taken.
#[derive(Drop)]
pub struct ReadText<'a, R> {
    /// The state after them.
    pub reader: R,
    /// The number that the next line would have.
    pub number: usize,
    /// What no line end follows.
    pub left: Line<'a>,
    ghost positive: { 0 < number },
}
