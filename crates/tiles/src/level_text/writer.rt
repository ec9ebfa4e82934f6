ghost use Rattle.std.specs.Prelude.{◌≡◌, [], ◌∷◌, ◌++◌, Ok};
ghost use Rattle.text.specs.Pens.{Writes, buffer_after, length_or_no_room};
ghost use Rattle.tiles.specs.Board.{first_cells};
ghost use Rattle.tiles.specs.Level.{tiles};
ghost use Rattle.tiles.specs.LevelText.Reading.{read_level};
ghost use Rattle.tiles.specs.LevelText.Writing.{row_line, level_text, cells_after};

use crate::level::TileLevel;
use crate::level_text::KEYWORD;
use crate::position::BITS_PER_CELL;
use puzzle::Puzzle;
use refusals::{Fault, Refusal};
use text::pen::{Compose, Pen, write_text};

/// What a position is divided by to leave out its first cell.
const CELL: u64 = 1 << BITS_PER_CELL;

/// Writes the text of a level at the front of `out`, and answers its length. If it does not fit, `out` stays as it was.
pub fn write_level(level: &TileLevel, out: &mut [u8]) -> Result<usize, Refusal>
    ensures after { out.new ≡ buffer_after (level_text (tiles level.now)) out.old }
    ensures answers { result ≡ length_or_no_room (level_text (tiles level.now)) out.old }
    ensures reads { read_level (level_text (tiles level.now)) ≡ Ok (tiles level.now) }
{
    write_text(&LevelText(level), out).ok_or(Fault::NoRoom.at(0))
}

/// A level, as the text that says it.
#[derive(Clone, Copy)]
struct LevelText<'a>(&'a TileLevel);

impl<'a> Compose for LevelText<'a> {
    ghost text = { λ t. level_text (tiles t.0.now) };

    fn compose(&self, pen: &mut Pen) {
        let level = self.0;
        let grid = level.grid();
        pen.put(b"(");
        pen.put(KEYWORD);
        pen.put(b" ");
        pen.put_decimal(grid.width);
        pen.put(b" ");
        pen.put_decimal(grid.height);
        pen.put(b"\n");
        let mut cells = level.start();
        for _ in 0..grid.height {
            cells = compose_row(cells, grid.width, pen);
        }
        pen.put(b")\n");
    }
}

// A row of the first `width` of these cells. It answers the cells after them.
fn compose_row(cells: u64, width: u8, pen: &mut Pen) -> u64
    ensures wrote { Writes (row_line (first_cells width cells) ++ (10 ∷ [])) pen.old pen.new }
    ensures rest { result ≡ cells_after width cells }
{
    let mut rest = cells;
    pen.put(b"(row");
    // The next cell is always the lowest.
    for _ in 0..width {
        pen.put(b" ");
        pen.put_decimal(rest % CELL);
        rest /= CELL;
    }
    pen.put(b")\n");
    rest
}
