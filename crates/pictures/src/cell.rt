ghost use Rattle.std.specs.Prelude.{◌≡◌};
ghost use Rattle.pictures.specs.Cells.{label_in, symbol_of, Draws, DrawsOne, SymbolDrawsBack};
ghost use Rattle.pictures.specs.laws.Equal;

use equality::Exact;

/// What is drawn on a cell.
#[derive(Clone, Copy, Debug, PartialEq, Eq)]
pub enum Cell {
    Wall,
    /// Nothing; in a molecule the cell is indifferent.
    Free,
    /// An atom with its label, a letter A to Z.
    Atom(u8),
}

impl Exact for Cell {
    ghost exact = { Equal.same_cells };
}

impl Cell {
    /// The label of the atom on the cell; none on a wall or a free cell.
    pub fn label(self) -> Option<u8>
        ensures { result ≡ label_in self }
    {
        match self {
            Cell::Atom(label) => Some(label),
            Cell::Wall | Cell::Free => None,
        }
    }
}

/// A character that draws no cell.
#[derive(Clone, Copy, Debug)]
pub struct UnknownSymbol(pub char);

/// The cell that a character draws.
impl TryFrom<char> for Cell {
    type Error = UnknownSymbol;

    ghost try_from_gives = { Draws };

    fn try_from(symbol: char) -> Result<Cell, UnknownSymbol>
        ensures draws { Draws symbol result }
        ensures one { DrawsOne symbol }
    {
        match symbol {
            '#' => Ok(Cell::Wall),
            '.' => Ok(Cell::Free),
            'A'..='Z' => Ok(Cell::Atom(symbol as u8)),
            _ => Err(UnknownSymbol(symbol)),
        }
    }
}

/// The character that draws a cell.
impl From<Cell> for u8 {
    ghost from_gives = { λ cell symbol. symbol ≡ symbol_of cell };

    fn from(cell: Cell) -> u8
        ensures drawn { result ≡ symbol_of cell }
        ensures back { SymbolDrawsBack cell }
    {
        match cell {
            Cell::Wall => b'#',
            Cell::Free => b'.',
            Cell::Atom(label) => label,
        }
    }
}
