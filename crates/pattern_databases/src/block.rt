//! One block of a book: the bytes of one goal place and one part.
ghost use Rattle.std.specs.Prelude.{◌≡◌, ◌<◌};
ghost use Rattle.atoms.specs.Level.{atoms};
ghost use Rattle.pattern_databases.specs.Parts.{part_of, part_count};
ghost use Rattle.pattern_databases.specs.inside.Blocks.{IsPart};

use crate::layout::Layout;
use crate::neighbours::Neighbours;

mod filling;
mod goals;
mod testing;

/// What one block of a book is for: a goal place, and a part.
#[derive(Clone, Copy)]
pub(crate) struct Block<'a> {
    pub(crate) layout: &'a Layout<'a>,
    pub(crate) neighbours: &'a Neighbours,
    pub(crate) goal_place: u8,
    pub(crate) part: &'a [u8],
    ghost part_is: { IsPart (atoms layout.now.level.now) part.now },
    ghost beside: { neighbours.now.grid ≡ layout.now.level.now.board.grid },
}

impl<'a> Block<'a> {
    /// The block of a goal place and the part with a number.
    pub(crate) fn new(
        layout: &'a Layout<'a>,
        neighbours: &'a Neighbours,
        goal_place: u8,
        number: usize,
    ) -> Block<'a>
        requires there { number < part_count layout.now.parts.count }
        requires beside { neighbours.now.grid ≡ layout.now.level.now.board.grid }
        ensures layout { result.layout.now ≡ layout.now }
        ensures place { result.goal_place ≡ goal_place }
        ensures part { result.part.now ≡ part_of layout.now.parts.count number }
    {
        Block {
            layout,
            neighbours,
            goal_place,
            part: layout.parts.part(number),
        }
    }
}

/// The byte of a placement from which no part moves lead to a goal entry.
pub(crate) const NEVER: u8 = 255;

/// The greatest number of moves that a byte tells; it tells of more, too.
pub(crate) const MOST_MOVES: u8 = 254;
