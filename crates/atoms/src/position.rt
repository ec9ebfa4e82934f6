ghost use Rattle.atoms.specs.laws.Equal;

use crate::level::AtomLevel;
use equality::Exact;

/// Where the atoms of a level stand: the cell of each by its number. Past the last atom all are 0.
#[derive(Clone, Copy, Debug, PartialEq, Eq)]
pub struct Position {
    pub cells: [u8; AtomLevel::MOST_ATOMS],
}

impl Exact for Position {
    ghost exact = { Equal.same_positions };
}
