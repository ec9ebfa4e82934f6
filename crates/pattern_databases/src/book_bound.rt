ghost use Rattle.std.specs.Prelude.{◌≡◌, ℕ, ◌<◌, length, slice_index};
ghost use Rattle.atoms.specs.Level.{atoms};
ghost use Rattle.pattern_databases.specs.Layout.{parts, first_blocks, place_length as length_of_place};

use crate::book::Book;
use atoms::AtomLevel;

mod bounding;
mod bounds;

/// The bound that a book gives for its level, with what is the same for all positions.
#[derive(Clone, Copy)]
pub struct BookBound<'a> {
    pub(crate) book: Book<'a>,
    place_length: usize,
    starts: [usize; AtomLevel::MOST_ATOMS],
    ghost whole: { place_length ≡ length_of_place (atoms book.layout.level.now) },
    ghost started: { (j : ℕ) → j < length (parts (atoms book.layout.level.now))
        → slice_index starts j ≡ first_blocks (atoms book.layout.level.now) j },
}
