ghost use Rattle.std.specs.Prelude.{◌≡◌, ◌≤◌, length};

use pictures::Picture;

mod finding;

/// The goal places of a molecule on a board: the cells on which its first cell may lie, from the topmost on, and in a
/// row from the leftmost on. They lie in fixed memory, since levels have no heap and are copied.
#[derive(Clone, Copy, Debug)]
pub struct GoalPlaces {
    cells: [u8; Picture::MOST_CELLS],
    count: usize,
    ghost counted: { count ≤ 256 },
    ghost full: { length cells ≡ 256 },
}
