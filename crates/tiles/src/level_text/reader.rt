ghost use Rattle.std.specs.Prelude.{◌≡◌};
ghost use Rattle.std.specs.Option.{option_map};
ghost use Rattle.text.specs.Lines.{bytes};
ghost use Rattle.text.specs.Reading.{map_ok};
ghost use Rattle.tiles.specs.Level.{Tiles, tiles};
ghost use Rattle.tiles.specs.LevelText.Reading.{keyword_form, Expect, after_size, grammar, read_level, ReadsExactly};
ghost use Rattle.tiles.specs.LevelText.Reading as reading;
ghost use Rattle.tiles.specs.LevelText.Reader.{form_value, packed_row, after_next_row, view};

use crate::level::{TileLevel, is_side};
use crate::level_text::KEYWORD;
use crate::level_text::rows::{Board, Rows};
use crate::position::BITS_PER_CELL;
use grid::Grid;
use refusals::{Fault, Refusal};
use text::forms::{self, LineForm, form_of};
use text::{LevelReader, Line};

/// The keyword of a row.
const ROW: &[u8] = b"row";

/// The form of a line.
#[derive(Clone, Copy)]
enum Form<'a> {
    /// `(tiles W H`
    Size(u32, u32),
    /// `(row T T T)`, from the blank before the first T to the last T.
    Row(Line<'a>),
    /// `)`
    Close,
}

impl<'a> LineForm<'a> for Form<'a> {
    ghost Value = { reading.Form };

    ghost value = { form_value };

    ghost keyword_form = { keyword_form };

    ghost close = { reading.close };

    fn of_keyword(keyword: &[u8], rest: Line<'a>) -> Option<Form<'a>> {
        if keyword == KEYWORD {
            let (width, height) = forms::size_after(rest)?;
            Some(Form::Size(width, height))
        } else if keyword == ROW {
            Some(Form::Row(forms::arguments_after(rest)?))
        } else {
            None
        }
    }

    fn closing() -> Form<'a> {
        Form::Close
    }
}

/// A level that is being read: which line is due, and what the lines before it said.
#[derive(Clone, Copy)]
enum Reader {
    /// The line with the board's size.
    Head,
    /// A row.
    Rows(Rows),
    /// The closing bracket.
    Close(Board),
    /// No line.
    End(Board),
}

// No row yet of a board of this size, if a board may have it.
fn begin(width: u32, height: u32) -> Result<Reader, Fault>
    ensures { map_ok view result ≡ after_size width height }
{
    if !is_side(width) || !is_side(height) {
        return Err(Fault::BoardSize);
    }
    Ok(Reader::Rows(Rows {
        grid: Grid {
            width: width as u8,
            height: height as u8,
        },
        cells: 0,
        count: 0,
        due: height as u8,
    }))
}

impl Rows {
    // The tiles of a row, packed. There are none if one is missing or too large, or if something follows the last.
    fn read_row(self, row: Line) -> Option<u64>
        ensures { result ≡ packed_row self (bytes row.entry) }
    {
        let width = usize::from(self.grid.width);
        let mut tiles = 0;
        let mut rest = row;
        // The column says how far its tile is shifted.
        for column in 0..width {
            let (tile, after) = forms::number(rest)?;
            if tile as usize >= self.grid.cells() {
                return None;
            }
            tiles += u64::from(tile) << (BITS_PER_CELL * column);
            rest = after;
        }
        rest.is_empty().then_some(tiles)
    }

    // With one row more, and what is due then.
    fn with_row(self, row: Line) -> Result<Reader, Fault>
        ensures { map_ok view result ≡ after_next_row self (bytes row.entry) }
    {
        let tiles = self.read_row(row).ok_or(Fault::BadRow)?;
        let grid = self.grid;
        let cells = self.cells + (tiles << (BITS_PER_CELL * self.count));
        if self.due == 1 {
            return Ok(Reader::Close(Board { grid, cells }));
        }
        Ok(Reader::Rows(Rows {
            grid,
            cells,
            count: self.count + usize::from(grid.width),
            due: self.due - 1,
        }))
    }
}

impl LevelReader for Reader {
    type Level = TileLevel;

    ghost State = { Expect };

    ghost view = { view };

    ghost Value = { Tiles };

    ghost value = { tiles };

    ghost grammar = { grammar };

    fn start() -> Reader {
        Reader::Head
    }

    fn after(self, line: Line) -> Result<Reader, Fault> {
        match (self, form_of(line)) {
            (Reader::Head, Some(Form::Size(width, height))) => begin(width, height),
            (Reader::Rows(rows), Some(Form::Row(row))) => rows.with_row(row),
            (Reader::Close(board), Some(Form::Close)) => Ok(Reader::End(board)),
            _ => Err(Fault::LineForm),
        }
    }

    fn level(self) -> Option<Result<TileLevel, Fault>> {
        let Reader::End(board) = self else {
            return None;
        };
        Some(TileLevel::new(board.grid, board.cells).ok_or(Fault::TileNumbers))
    }
}

/// Reads the text of a level: the line `(tiles W H`, a line `(row T T T)` for each row of the board, and the line `)`.
pub fn read_level(text: &[u8]) -> Result<TileLevel, Refusal>
    ensures reads { map_ok tiles result ≡ read_level text.now }
    ensures exactly { ReadsExactly text.now }
{
    text::read_level::<Reader>(text)
}
