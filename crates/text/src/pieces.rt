ghost use Rattle.std.specs.Prelude.{◌≡◌, length, IfSome, ◌==◌};
ghost use Rattle.text.specs.Lines.{bytes};
ghost use Rattle.text.specs.Pieces.{token_value, plain, of_run, piece_in, piece_value, Within};

use super::line::Line;
use super::number::read_number;
use super::run::{ByteClass, bytes_from, run_end};

/// A piece of a line: a bracket, a number of one to seven digits without leading zero, or any other word.
#[derive(Clone, Copy, Debug)]
pub enum Token<'a> {
    Open,
    Close,
    Word(&'a [u8]),
    Number(u32),
}

/// A piece with its place in the text.
#[derive(Clone, Copy, Debug)]
pub struct Piece<'a> {
    pub token: Token<'a>,
    pub at: usize,
}

/// The bytes of words and numbers: neither blanks nor brackets.
pub(crate) struct Plain;

impl ByteClass for Plain {
    ghost has = { plain };

    fn has(b: u8) -> bool {
        !matches!(b, b' ' | b'(' | b')')
    }
}

fn token_of<'a>(run: &'a [u8]) -> Token<'a>
    ensures { token_value result ≡ of_run run.now }
{
    match read_number(run) {
        Some(n) => Token::Number(n),
        None => Token::Word(run),
    }
}

impl<'a> Line<'a> {
    /// The bytes that are left.
    pub fn as_bytes(self) -> &'a [u8]
        ensures { result.now ≡ bytes self.entry }
    {
        bytes_from(self.text, self.at)
    }

    /// Whether nothing is left.
    pub fn is_empty(self) -> bool
        ensures { result ≡ (length (bytes self.entry) == 0) }
    {
        self.as_bytes().is_empty()
    }

    /// The piece at the front, and what is left after it. There is none at the end and at a blank.
    pub fn piece(self) -> Option<(Piece<'a>, Line<'a>)>
        ensures says { piece_value result ≡ piece_in (bytes self.entry) }
        ensures lies { IfSome result (λ x. (x.0.at ≡ self.entry.at) × Within self.entry x.1) }
    {
        let Line { text, at } = self;
        let byte = *text.get(at)?;
        let (token, end) = match byte {
            b'(' => (Token::Open, at + 1),
            b')' => (Token::Close, at + 1),
            b' ' => return None,
            _ => {
                let end = run_end::<Plain>(text, at);
                (token_of(&text[at..end]), end)
            }
        };
        Some((Piece { token, at }, Line { text, at: end }))
    }
}
