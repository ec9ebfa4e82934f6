ghost use Rattle.std.specs.Prelude.{◌≡◌, ◌+◌, ◌*◌, ◌^◌, ◌<◌, ◌≤◌};

use grid::Grid;

/// The rows of a board that were read so far, where more are due.
#[derive(Clone, Copy)]
pub(crate) struct Rows {
    pub(crate) grid: Grid,
    /// Their tiles, four bits each, the first lowest.
    pub(crate) cells: u64,
    /// How many tiles they are.
    pub(crate) count: usize,
    /// How many rows are due.
    pub(crate) due: u8,
    ghost wide: { (2 ≤ grid.width) × (grid.width ≤ 4) },
    ghost high: { (2 ≤ grid.height) × (grid.height ≤ 4) },
    ghost some: { 0 < due },
    ghost counted: { count + due * grid.width ≡ grid.width * grid.height },
    ghost below: { cells < 16 ^ count },
}

/// A board whose rows were all read.
#[derive(Clone, Copy)]
pub(crate) struct Board {
    pub(crate) grid: Grid,
    /// Its tiles, four bits each, the first lowest.
    pub(crate) cells: u64,
    ghost wide: { (2 ≤ grid.width) × (grid.width ≤ 4) },
    ghost high: { (2 ≤ grid.height) × (grid.height ≤ 4) },
    ghost below: { cells < 16 ^ (grid.width * grid.height) },
}
