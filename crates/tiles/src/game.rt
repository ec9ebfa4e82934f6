//! A tile level as a puzzle: moves send the blank, and the bound is how far the tiles are from home.
ghost use Rattle.std.specs.Prelude.{◌≡◌, ◌<◌, refl};
ghost use Rattle.tiles.specs.Board.{home_tile};
ghost use Rattle.tiles.specs.Level.{tiles, IsBlankCell, PlaysMove, SendsBlank, finished};
ghost use Rattle.tiles.specs.Meaning.{meaning};
ghost use Rattle.tiles.specs.laws.Lawful;

use crate::level::TileLevel;
use crate::position::{UsedCells, first_empty, with_swapped};
use grid::Direction;
use puzzle::{Puzzle, key_of, mix};

/// A move sends the blank: 0 up, 1 down, 2 left and 3 right.
///
/// What is promised of the moves and of the finish holds of every position, not only of those that can be reached.
impl Puzzle for TileLevel {
    type Position = u64;

    /// The blank's cell.
    type Prepared = Option<usize>;

    ghost meaning = { λ z. meaning (tiles z) };

    ghost Prepares = { λ z. IsBlankCell (tiles z) };

    const MOVES: u32 = Direction::COUNT;

    ghost MOVES = { 4 };

    ghost counted = { λ _. refl };

    ghost lawful = { Lawful.lawful };

    fn start(&self) -> u64 {
        self.start
    }

    fn prepare(&self, at: &u64) -> Option<usize>
        ensures { IsBlankCell (tiles self.now) at.now result }
    {
        let cell = first_empty(*at);
        (cell < self.grid.cells()).then_some(cell)
    }

    fn play(&self, from: &u64, blank: &Option<usize>, number: u32, into: &mut u64) -> bool
        ensures { PlaysMove (tiles self.now) from.now blank.now number result into.old into.new }
    {
        match Direction::try_from(number) {
            Ok(direction) => self.send_blank(*from, *blank, direction, into),
            Err(_) => false,
        }
    }

    fn is_goal(&self, at: &u64) -> bool
        ensures { result ≡ finished (tiles self.now) at.now }
    {
        let count = self.grid.cells();
        UsedCells::new(*at, count)
            .enumerate()
            .all(|(cell, tile)| usize::from(tile) == home_tile(count, cell))
    }

    fn lower_bound(&self, at: &u64) -> Option<u16>
        ensures { result ≡ (meaning (tiles self.now)).lower_bound at.now }
    {
        Some(self.manhattan(*at))
    }

    fn key(&self, at: &u64) -> u32
        ensures { result ≡ (meaning (tiles self.now)).key at.now }
    {
        key_of(mix(0, *at))
    }

    fn is_same(&self, one: &u64, other: &u64) -> bool
        ensures { result ≡ (meaning (tiles self.now)).same one.now other.now }
    {
        one == other
    }
}

impl TileLevel {
    /// Sends the blank, which is on the cell `blank`, one cell in a direction: says whether that is open, and if so
    /// fills `into` with the position then.
    pub(crate) fn send_blank(
        &self,
        position: u64,
        blank: Option<usize>,
        direction: Direction,
        into: &mut u64,
    ) -> bool
        ensures { SendsBlank (tiles self.now) position blank direction result into.old into.new }
    {
        let Some(blank) = blank else {
            return false;
        };
        let Some(cell) = self.grid.neighbour(blank, direction) else {
            return false;
        };
        *into = with_swapped(position, blank, cell);
        true
    }
}

// The tile that belongs on `cell` of a board of `count` cells: they count up in reading order, and the blank is last.
fn home_tile(count: usize, cell: usize) -> usize
    requires { cell < count }
    ensures { result ≡ home_tile count cell }
{
    let next = cell + 1;
    if next == count { 0 } else { next }
}
