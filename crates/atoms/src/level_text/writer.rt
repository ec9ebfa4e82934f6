ghost use Rattle.std.specs.Prelude.{◌≡◌, [], ◌∷◌, ◌++◌, Ok};
ghost use Rattle.text.specs.Pens.{Writes, buffer_after, length_or_no_room};
ghost use Rattle.text.specs.Lines.{join_lines};
ghost use Rattle.pictures.specs.Pictures.{shape};
ghost use Rattle.atoms.specs.Level.{atoms};
ghost use Rattle.atoms.specs.LevelText.Reading.{read_level};
ghost use Rattle.atoms.specs.LevelText.Writing.{drawn_line, picture_lines, level_text};

use crate::level::AtomLevel;
use crate::level_text::KEYWORD;
use pictures::{Cell, Picture};
use refusals::{Fault, Refusal};
use text::pen::{Compose, Pen, write_text};

/// Writes the text of a level at the front of `out`, and answers its length. If it does not fit, `out` stays as it was.
pub fn write_level(level: &AtomLevel, out: &mut [u8]) -> Result<usize, Refusal>
    ensures after { out.new ≡ buffer_after (level_text (atoms level.now)) out.old }
    ensures answers { result ≡ length_or_no_room (level_text (atoms level.now)) out.old }
    ensures reads { read_level (level_text (atoms level.now)) ≡ Ok (atoms level.now) }
{
    write_text(&LevelText(level), out).ok_or(Fault::NoRoom.at(0))
}

/// A level, as the text that says it.
#[derive(Clone, Copy)]
struct LevelText<'a>(&'a AtomLevel);

impl<'a> Compose for LevelText<'a> {
    ghost text = { λ t. level_text (atoms t.0.now) };

    fn compose(&self, pen: &mut Pen) {
        let board = self.0.board();
        let molecule = self.0.molecule().picture();
        let size = board.grid();
        pen.put(b"(");
        pen.put(KEYWORD);
        pen.put(b" ");
        pen.put_decimal(size.width);
        pen.put(b" ");
        pen.put_decimal(size.height);
        pen.put(b"\n");
        compose_picture(b"row", board, pen);
        compose_picture(b"want", molecule, pen);
        pen.put(b")\n");
    }
}

// A line `(KEYWORD X)` for each row.
fn compose_picture(keyword: &[u8], picture: &Picture, pen: &mut Pen)
    ensures { Writes (join_lines (picture_lines keyword.now (shape picture.now))) pen.old pen.new }
{
    let width = usize::from(picture.grid().width);
    for row in picture.cells().chunks(width) {
        compose_row(keyword, row, pen);
    }
}

// The line `(KEYWORD X)` of a row of these cells.
fn compose_row(keyword: &[u8], row: &[Cell], pen: &mut Pen)
    ensures { Writes (drawn_line keyword.now row.now ++ (10 ∷ [])) pen.old pen.new }
{
    pen.put(b"(");
    pen.put(keyword);
    pen.put(b" ");
    for cell in row {
        pen.put(&[u8::from(*cell)]);
    }
    pen.put(b")\n");
}
