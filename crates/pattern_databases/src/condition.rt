/// A condition that the test asks of a book.
#[derive(Clone, Copy)]
pub(crate) enum Condition {
    /// Every goal entry is 0.
    Goals,
    /// Every entry with two atoms on one cell is 255.
    Meetings,
    /// A part move lowers an entry by at most one, and leads from 255 to 255 only.
    Moves,
}
