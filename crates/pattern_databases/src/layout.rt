//! Where each byte of a level's book lies.
ghost use Rattle.std.specs.Prelude.{◌≡◌, ℕ, ◌^◌, ◌<◌, ◌≤◌, length, take, slice_index};
ghost use Rattle.atoms.specs.Level.{atoms};
ghost use Rattle.pattern_databases.specs.Floor.{free_cells, free_count, free_number, IsFree};
ghost use Rattle.pattern_databases.specs.PartMoves.{Stands};
ghost use Rattle.pattern_databases.specs.Layout.{placement_number, place_length, book_length};
ghost use Rattle.pattern_databases.specs.inside.Blocks.{Small};

use crate::parts::Parts;
use crate::placement::Placement;
use atoms::AtomLevel;
use pictures::{Cell, Picture};

mod positions;

/// As many placements as a part of two atoms has on the largest board.
pub(crate) const MOST_PLACEMENTS: usize = Picture::MOST_CELLS * Picture::MOST_CELLS;

/// Where each byte of a level's book lies: the free cells of its board with their numbers, and its parts.
#[derive(Clone, Copy)]
pub(crate) struct Layout<'a> {
    pub(crate) level: &'a AtomLevel,
    pub(crate) parts: Parts,
    cells: [u8; Picture::MOST_CELLS],
    pub(crate) count: usize,
    numbers: [u8; Picture::MOST_CELLS],
    ghost parted: { parts.count ≡ Rattle.atoms.specs.Level.count (atoms level.now) },
    ghost few: { count ≤ 256 },
    ghost counted: { count ≡ free_count (atoms level.now).board },
    ghost listed: { take count cells ≡ free_cells (atoms level.now).board },
    ghost numbered: { (cell : ℕ) → IsFree (atoms level.now).board cell
        → slice_index numbers cell ≡ free_number (atoms level.now).board cell },
    ghost below: { (cell : ℕ) → slice_index numbers cell < count },
}

impl<'a> Layout<'a> {
    /// The layout of a level's book.
    pub(crate) fn new(level: &'a AtomLevel) -> Layout<'a>
        ensures { result.level.now ≡ level.now }
    {
        let mut cells = [0; Picture::MOST_CELLS];
        let mut numbers = [0; Picture::MOST_CELLS];
        let mut count = 0;
        for (cell, drawn) in level.board().cells().iter().enumerate() {
            if *drawn != Cell::Wall {
                cells[count] = cell as u8;
                numbers[cell] = count as u8;
                count += 1;
            }
        }
        Layout {
            level,
            parts: Parts::new(level),
            cells,
            count,
            numbers,
        }
    }

    /// The number of a free cell.
    pub(crate) fn cell_number(&self, cell: u8) -> usize
        requires { IsFree (atoms self.now.level.now).board cell }
        ensures { result ≡ free_number (atoms self.now.level.now).board cell }
    {
        usize::from(self.numbers[usize::from(cell)])
    }

    /// How many placements so many atoms have.
    pub(crate) fn placements(&self, size: usize) -> usize
        requires { Small (atoms self.now.level.now) size }
        ensures { result ≡ free_count (atoms self.now.level.now).board ^ size }
    {
        let mut placements = 1;
        for _ in 0..size {
            placements *= self.count;
        }
        placements
    }

    /// The placement of so many atoms that has a number.
    pub(crate) fn placement(&self, size: usize, number: usize) -> Placement
        requires few { size ≤ 16 }
        requires small { Small (atoms self.now.level.now) size }
        requires below { number < free_count (atoms self.now.level.now).board ^ size }
        ensures size { result.size ≡ size }
        ensures stands { Stands (atoms self.now.level.now).board size (take size result.cells) }
        ensures number { placement_number (atoms self.now.level.now).board (take size result.cells) ≡ number }
    {
        let mut cells = [0; AtomLevel::MOST_ATOMS];
        let mut rest = number;
        for atom in (0..size).rev() {
            cells[atom] = self.cells[rest % self.count];
            rest /= self.count;
        }
        Placement { cells, size }
    }

    /// How many bytes the book has for each goal place.
    pub(crate) fn place_length(&self) -> usize
        ensures { result ≡ place_length (atoms self.now.level.now) }
    {
        let mut length = 0;
        for number in 0..self.parts.len() {
            length += self.placements(self.parts.part(number).len());
        }
        length
    }

    /// How many bytes the book has.
    pub(crate) fn book_length(&self) -> usize
        ensures { result ≡ book_length (atoms self.now.level.now) }
    {
        self.level.goal_places().len() * self.place_length()
    }
}
