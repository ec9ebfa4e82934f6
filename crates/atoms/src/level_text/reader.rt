ghost use Rattle.std.specs.Prelude.{◌≡◌};
ghost use Rattle.std.specs.Option.{option_map};
ghost use Rattle.text.specs.Lines.{bytes};
ghost use Rattle.text.specs.Reading.{map_ok};
ghost use Rattle.pictures.specs.Pictures.{shape};
ghost use Rattle.molecules.specs.Molecules.{molecule_shape};
ghost use Rattle.atoms.specs.Level.{Atoms, atoms};
ghost use Rattle.atoms.specs.LevelText.Reading.{keyword_form, Expect, after_size, after_row, first_want, next_want, grammar, read_level, ReadsExactly};
ghost use Rattle.atoms.specs.LevelText.Reading as reading;
ghost use Rattle.atoms.specs.LevelText.Reader.{form_value, view};

use crate::level::AtomLevel;
use crate::level_text::KEYWORD;
use molecules::Molecule;
use pictures::Picture;
use refusals::{Fault, Refusal};
use text::forms::{self, LineForm, form_of};
use text::{LevelReader, Line};

/// The keyword of a row of the board.
const ROW: &[u8] = b"row";

/// The keyword of a row of the molecule.
const WANT: &[u8] = b"want";

/// The form of a line.
#[derive(Clone, Copy)]
enum Form<'a> {
    /// `(atomix W H`
    Size(u32, u32),
    /// `(row X)`, the X of it.
    Row(&'a [u8]),
    /// `(want X)`, the X of it.
    Want(&'a [u8]),
    /// `)`
    Close,
}

impl<'a> LineForm<'a> for Form<'a> {
    ghost Value = { reading.Form };

    ghost value = { form_value };

    ghost keyword_form = { keyword_form };

    ghost close = { reading.close };

    fn of_keyword(keyword: &[u8], rest: Line<'a>) -> Option<Form<'a>> {
        if keyword == KEYWORD {
            let (width, height) = forms::size_after(rest)?;
            Some(Form::Size(width, height))
        } else if keyword == ROW {
            Some(Form::Row(forms::content_after(rest)?))
        } else if keyword == WANT {
            Some(Form::Want(forms::content_after(rest)?))
        } else {
            None
        }
    }

    fn closing() -> Form<'a> {
        Form::Close
    }
}

/// A level that is being read: which line is due, and what the lines before it drew.
#[derive(Clone, Copy)]
enum Reader {
    /// The line with the board's size.
    Head,
    /// A row of the board, and this many after it.
    Rows(Picture, usize),
    /// The first row of the molecule.
    FirstWant(Picture),
    /// A further row of the molecule, or the closing bracket.
    Wants(Picture, Molecule),
    /// No line.
    End(Picture, Molecule),
}

// An empty board of this size, and how many rows follow its first.
fn begin(width: u32, height: u32) -> Result<Reader, Fault>
    ensures { map_ok view result ≡ after_size width height }
{
    let height = height as usize;
    if !(1..=Picture::LONGEST_SIDE).contains(&height) {
        return Err(Fault::BoardSize);
    }
    let board = Picture::new(width as usize).ok_or(Fault::BoardSize)?;
    Ok(Reader::Rows(board, height - 1))
}

// After a row of the board that this many follow.
fn after_row(board: Picture, more: usize) -> Reader
    ensures { view result ≡ after_row more (shape board) }
{
    if more == 0 {
        Reader::FirstWant(board)
    } else {
        Reader::Rows(board, more - 1)
    }
}

// The first row of a molecule, which settles its width.
fn first_row(row: &[u8]) -> Option<Molecule>
    ensures { option_map molecule_shape result ≡ first_want row.now }
{
    Molecule::new(row.len())?.with_row(row)
}

// A further row of a molecule, which has at most sixteen.
fn next_row(molecule: &Molecule, row: &[u8]) -> Result<Molecule, Fault>
    ensures { map_ok molecule_shape result ≡ next_want (molecule_shape molecule.now) row.now }
{
    if usize::from(molecule.picture().grid().height) >= Picture::LONGEST_SIDE {
        return Err(Fault::LineForm);
    }
    molecule.with_row(row).ok_or(Fault::BadWant)
}

impl LevelReader for Reader {
    type Level = AtomLevel;

    ghost State = { Expect };

    ghost view = { view };

    ghost Value = { Atoms };

    ghost value = { atoms };

    ghost grammar = { grammar };

    fn start() -> Reader {
        Reader::Head
    }

    fn after(self, line: Line) -> Result<Reader, Fault> {
        match (self, form_of(line)) {
            (Reader::Head, Some(Form::Size(width, height))) => begin(width, height),
            (Reader::Rows(board, more), Some(Form::Row(row))) => {
                let board = board.with_row(row).ok_or(Fault::BadRow)?;
                Ok(after_row(board, more))
            }
            (Reader::FirstWant(board), Some(Form::Want(row))) => {
                let molecule = first_row(row).ok_or(Fault::BadWant)?;
                Ok(Reader::Wants(board, molecule))
            }
            (Reader::Wants(board, molecule), Some(Form::Want(row))) => {
                let molecule = next_row(&molecule, row)?;
                Ok(Reader::Wants(board, molecule))
            }
            (Reader::Wants(board, molecule), Some(Form::Close)) => Ok(Reader::End(board, molecule)),
            _ => Err(Fault::LineForm),
        }
    }

    fn level(self) -> Option<Result<AtomLevel, Fault>> {
        let Reader::End(board, molecule) = self else {
            return None;
        };
        Some(AtomLevel::new(&board, &molecule))
    }
}

/// Reads the text of a level: the line `(atomix W H`, a line `(row X)` for each row of the board, one to sixteen lines
/// `(want X)` for the rows of the molecule, and the line `)`.
pub fn read_level(text: &[u8]) -> Result<AtomLevel, Refusal>
    ensures reads { map_ok atoms result ≡ read_level text.now }
    ensures exactly { ReadsExactly text.now }
{
    text::read_level::<Reader>(text)
}
