//! Rectangular boards: directions, cells in reading order, and the cell beside a cell.
#![tactic(auto)]

ghost use Rattle.std.specs.Prelude.{◌≡◌, ◌*◌};
ghost use Rattle.grid.specs.Grid.{word_of, coordinates_of, cell_at, neighbour};
ghost use Rattle.grid.specs.Grid.{SaysNumber, SaysWord, IsNumberOf, WordReadsBack, CoordinatesReadBack, CellReadsBack, StepsOn};

/// One of the four ways along a row or a column.
#[derive(Clone, Copy, Debug)]
pub enum Direction {
    Up = 0,
    Down = 1,
    Left = 2,
    Right = 3,
}

/// A number or a word that names no direction.
#[derive(Clone, Copy, Debug)]
pub struct UnknownDirection;

impl Direction {
    /// How many directions there are.
    pub const COUNT: u32 = 4;

    /// The directions in the order of their numbers.
    pub const ALL: [Direction; 4] = [
        Direction::Up,
        Direction::Down,
        Direction::Left,
        Direction::Right,
    ];

    /// The word that spells it.
    pub fn word(self) -> &'static [u8]
        ensures named { result.now ≡ word_of self }
        ensures back { WordReadsBack self }
    {
        match self {
            Direction::Up => b"up",
            Direction::Down => b"down",
            Direction::Left => b"left",
            Direction::Right => b"right",
        }
    }
}

/// A direction's number, as move numbers count directions: 0 up, 1 down, 2 left, 3 right.
impl From<Direction> for u32 {
    ghost from_gives = { IsNumberOf };

    fn from(direction: Direction) -> u32 {
        direction as u32
    }
}

/// The direction with a number.
impl TryFrom<u32> for Direction {
    type Error = UnknownDirection;

    ghost try_from_gives = { SaysNumber };

    fn try_from(number: u32) -> Result<Direction, UnknownDirection> {
        match number {
            0 => Ok(Direction::Up),
            1 => Ok(Direction::Down),
            2 => Ok(Direction::Left),
            3 => Ok(Direction::Right),
            _ => Err(UnknownDirection),
        }
    }
}

/// The direction that a word spells.
impl<'a> TryFrom<&'a [u8]> for Direction {
    type Error = UnknownDirection;

    ghost try_from_gives = { λ word result. SaysWord word.now result };

    fn try_from(word: &'a [u8]) -> Result<Direction, UnknownDirection> {
        Direction::ALL
            .into_iter()
            .find(|direction| word == direction.word())
            .ok_or(UnknownDirection)
    }
}

/// A board's size. Its cells are numbered from 0 in reading order: rows from the top, each from the left.
#[derive(Clone, Copy, Debug)]
pub struct Grid {
    pub width: u8,
    pub height: u8,
}

/// A row of a board and a column, both from 0.
#[derive(Clone, Copy, Debug)]
pub struct Coordinates {
    pub row: usize,
    pub column: usize,
}

impl Grid {
    /// How many cells the board has.
    pub fn cells(self) -> usize
        ensures { result ≡ self.width * self.height }
    {
        usize::from(self.width) * usize::from(self.height)
    }

    /// The row and the column of a cell; none if it is not on the board.
    pub fn coordinates(self, cell: usize) -> Option<Coordinates>
        ensures named { result ≡ coordinates_of self.width self.height cell }
        ensures back { CoordinatesReadBack self.width self.height cell }
    {
        if cell >= self.cells() {
            return None;
        }
        let width = usize::from(self.width);
        Some(Coordinates {
            row: cell / width,
            column: cell % width,
        })
    }

    /// The cell on a row and a column; none if they are not on the board.
    pub fn cell(self, at: Coordinates) -> Option<usize>
        ensures named { result ≡ cell_at self.width self.height at }
        ensures back { CellReadsBack self.width self.height at }
    {
        let width = usize::from(self.width);
        (at.row < usize::from(self.height) && at.column < width).then(|| at.row * width + at.column)
    }

    /// The cell one step on from `cell`; none past the edge, and none from a cell that is not on the board.
    pub fn neighbour(self, cell: usize, direction: Direction) -> Option<usize>
        ensures named { result ≡ neighbour self.width self.height cell direction }
        ensures onward { StepsOn self.width self.height cell direction }
    {
        let Coordinates { row, column } = self.coordinates(cell)?;
        let next = match direction {
            Direction::Up => Coordinates {
                row: row.checked_sub(1)?,
                column,
            },
            Direction::Down => Coordinates {
                row: row + 1,
                column,
            },
            Direction::Left => Coordinates {
                row,
                column: column.checked_sub(1)?,
            },
            Direction::Right => Coordinates {
                row,
                column: column + 1,
            },
        };
        self.cell(next)
    }
}
