ghost use Rattle.std.specs.Prelude.{◌≡◌, vec_len};

use atoms::AtomLevel;
use pattern_databases::Scratch;
use puzzle::Puzzle;
use std::alloc::{AllocError, Global};
use tiles::TileLevel;

type TilePosition = <TileLevel as Puzzle>::Position;

type AtomPosition = <AtomLevel as Puzzle>::Position;

/// What a table for tile levels holds at first: nothing but blanks, which is no position.
const NO_TILES: TilePosition = 0;

/// What one for atom levels holds at first: all atoms on one cell.
const NO_ATOMS: AtomPosition = AtomPosition {
    cells: [u8::MAX; AtomLevel::MOST_ATOMS],
};

/// How many bytes the book of a level may have that is searched with it.
pub const BOOK_BYTES: usize = 32_768;

/// A table of so many positions.
#[derive(Drop)]
pub struct Table<P, const PLACES: usize> {
    pub positions: Vec<P>,
    ghost sized: { vec_len positions ≡ PLACES },
}

impl<P: Copy, const PLACES: usize> Table<P, PLACES> {
    fn new(heap: Global, filler: P) -> Result<Self, AllocError> {
        let positions = vec![in heap; filler; PLACES]?;
        Ok(Table { positions })
    }
}

/// What the search of a level needs, whatever its kind: a table for each kind, all of one size, room for a book, and what
/// filling it needs. It is there before it is known of which kind a level is.
#[derive(Drop)]
pub struct SearchMemory<const PLACES: usize> {
    pub(crate) tiles: Table<TilePosition, PLACES>,
    pub(crate) atoms: Table<AtomPosition, PLACES>,
    // An array, so that its length is known whatever is lent of it.
    pub(crate) book: Box<[u8; BOOK_BYTES]>,
    pub(crate) scratch: Scratch,
}

impl<const PLACES: usize> SearchMemory<PLACES> {
    /// Memory from the heap. What it holds at first is free.
    pub fn new(heap: Global) -> Result<Self, AllocError> {
        Ok(SearchMemory {
            tiles: Table::new(heap, NO_TILES)?,
            atoms: Table::new(heap, NO_ATOMS)?,
            book: Box::new(heap, [0; BOOK_BYTES])?,
            scratch: Scratch::new(heap)?,
        })
    }
}
