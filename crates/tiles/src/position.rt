//! Positions: one number with four bits a cell, the first cell lowest.
ghost use Rattle.std.specs.Prelude.{◌≡◌, ◌<◌, ◌≤◌, ◌↔◌, IsTrue, count_by, ◌≢◌, ◌==◌, nat_eq, slice_index};
ghost use Rattle.std.specs.List.{position_or_len};
ghost use Rattle.tiles.specs.Board.{first_cells, cells, SwapsBlank, Numbered};

/// How many bits of a position a cell takes.
pub(crate) const BITS_PER_CELL: usize = 4;

/// How many cells a position has, as many as the largest board.
pub(crate) const MOST_CELLS: usize = 16;

/// The bits of a position's lowest cell.
pub(crate) const CELL_MASK: u64 = 0xF;

/// The lowest bit of each cell.
const LOWEST_BITS: u64 = 0x1111_1111_1111_1111;

/// The used cells of a position in reading order: what lies on each.
#[derive(Debug, Drop)]
pub(crate) struct UsedCells {
    position: u64,
    left: usize,
}

impl Iterator for UsedCells {
    ghost use Rattle.tiles.specs.UsedCells.{cells_left};
    ghost use Rattle.std.specs.Iterator.{YieldsFirst, at_most};

    type Item = u8;

    ghost next_gives = { YieldsFirst cells_left };

    ghost remaining = { λ cells. at_most cells.left };

    fn next(&mut self) -> Option<u8> {
        self.left = self.left.checked_sub(1)?;
        let tile = (self.position & CELL_MASK) as u8;
        self.position >>= BITS_PER_CELL;
        Some(tile)
    }
}

impl UsedCells {
    ghost use Rattle.tiles.specs.UsedCells.{cells_left};

    /// The first `used` cells.
    pub(crate) fn new(position: u64, used: usize) -> UsedCells
        ensures { cells_left result ≡ first_cells used position }
    {
        UsedCells {
            position,
            left: used,
        }
    }
}

/// The first of all sixteen cells on which nothing lies, or 16 if something lies on each.
///
/// It looks at all cells at once, since a search asks this of each position that it leaves: the bits of each cell are
/// brought together in its lowest one.
#[tactic(auto, using(crate::proofs::Empty::first_empty))]
pub(crate) fn first_empty(position: u64) -> usize
    ensures { result ≡ position_or_len (λ t. t == 0) (cells position) }
{
    let taken = position | position >> 1 | position >> 2 | position >> 3;
    (!taken & LOWEST_BITS).trailing_zeros() as usize / BITS_PER_CELL
}

// What lies on a cell.
fn tile_at(position: u64, cell: usize) -> u8
    requires { cell < 16 }
    ensures { result ≡ slice_index (cells position) cell }
{
    (position >> (BITS_PER_CELL * cell) & CELL_MASK) as u8
}

/// The position after the blank and the tile on `cell` changed places, if `blank` is the blank's cell.
pub(crate) fn with_swapped(position: u64, blank: usize, cell: usize) -> u64
    requires source { cell < 16 }
    requires target { blank < 16 }
    requires apart { cell ≢ blank }
    ensures { SwapsBlank position blank cell result }
{
    let tile = u64::from(tile_at(position, cell));
    let taken_off = position - (tile << (BITS_PER_CELL * cell));
    // Nothing wraps where the blank's cell is empty.
    taken_off.wrapping_add(tile << (BITS_PER_CELL * blank))
}

// How many of the first `used` cells hold this tile.
fn count(position: u64, used: usize, tile: usize) -> usize
    ensures { result ≡ count_by (nat_eq tile) (first_cells used position) }
{
    UsedCells::new(position, used)
        .filter(|other| tile == usize::from(*other))
        .count()
}

/// Whether each number below `used` is on exactly one of the first `used` cells, and the other cells are 0.
pub(crate) fn is_numbered(position: u64, used: usize) -> bool
    requires { (0 < used) × (used ≤ 16) }
    ensures { IsTrue result ↔ Numbered used position }
{
    // With the last used cell at the bottom, what is left fits one cell if no cell past it is used.
    position >> (BITS_PER_CELL * (used - 1)) <= CELL_MASK
        && (0..used).all(|tile| count(position, used, tile) == 1)
}
