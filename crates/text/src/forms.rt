//! The forms that lines of levels and ways have.
//!
//! Of the line that is left after a piece these functions say the bytes. Where it lies in the text is free.
ghost use Rattle.std.specs.Prelude.{◌≡◌, ℕ, List, Option};
ghost use Rattle.std.specs.Option.{option_map};
ghost use Rattle.std.specs.List.{prefix_len};
ghost use Rattle.text.specs.Lines.{bytes};
ghost use Rattle.text.specs.Pieces.{number_value, word_value, rest_value};
ghost use Rattle.text.specs.Forms.{open_in, after_blank, number_in, short_number_in, plain_word_in, word_in, keyword_in, after_keyword, count_after, count_of, size_after, inside, before_closing, arguments_after, arguments_of, content_after, bytes_value, is_closing, bracket_value, bracket_in, line_form, first_keyword, FormsHold, ContentHolds};

use crate::line::{Line, next_line};
use crate::pieces::Token;
use crate::run::{ByteClass, run_end};

/// Numbers from here on have more than two digits.
const THREE_DIGITS: u32 = 100;

/// The line that closes a level or a way.
const CLOSING: &[u8] = b")";

/// The bytes that may stand between brackets.
struct Inside;

impl ByteClass for Inside {
    ghost has = { inside };

    fn has(b: u8) -> bool {
        !matches!(b, b'(' | b')')
    }
}

fn after_blank<'a>(line: Line<'a>) -> Option<Line<'a>>
    ensures { rest_value result ≡ after_blank (bytes line.entry) }
{
    let [b' ', ..] = line.as_bytes() else {
        return None;
    };
    Some(Line {
        at: line.at + 1,
        ..line
    })
}

/// One blank and a number at the front, and what is left after them.
pub fn number<'a>(line: Line<'a>) -> Option<(u32, Line<'a>)>
    ensures { number_value result ≡ number_in (bytes line.entry) }
{
    let (piece, rest) = after_blank(line)?.piece()?;
    let Token::Number(n) = piece.token else {
        return None;
    };
    Some((n, rest))
}

/// One blank and a number of one or two digits at the front, and what is left after them.
pub fn short_number<'a>(line: Line<'a>) -> Option<(u32, Line<'a>)>
    ensures { number_value result ≡ short_number_in (bytes line.entry) }
{
    number(line).filter(|found| found.0 < THREE_DIGITS)
}

fn plain_word<'a>(line: Line<'a>) -> Option<(&'a [u8], Line<'a>)>
    ensures { word_value result ≡ plain_word_in (bytes line.entry) }
{
    let (piece, rest) = line.piece()?;
    let Token::Word(word) = piece.token else {
        return None;
    };
    Some((word, rest))
}

/// One blank and a word at the front, and what is left after them.
pub fn word<'a>(line: Line<'a>) -> Option<(&'a [u8], Line<'a>)>
    ensures { word_value result ≡ word_in (bytes line.entry) }
{
    plain_word(after_blank(line)?)
}

fn after_open<'a>(line: Line<'a>) -> Option<Line<'a>>
    ensures { rest_value result ≡ open_in (bytes line.entry) }
{
    let (piece, rest) = line.piece()?;
    let Token::Open = piece.token else {
        return None;
    };
    Some(rest)
}

/// The keyword of a line, which is the word behind its opening bracket, and what is left after it.
pub fn keyword<'a>(line: Line<'a>) -> Option<(&'a [u8], Line<'a>)>
    ensures { word_value result ≡ keyword_in (bytes line.entry) }
{
    plain_word(after_open(line)?)
}

/// The keyword of a text's first line.
pub fn first_keyword(text: &[u8]) -> Option<&[u8]>
    ensures { bytes_value result ≡ first_keyword text.now }
{
    let (word, _) = keyword(next_line(text, 0)?)?;
    Some(word)
}

// What is left after an opening bracket and this word.
fn after_keyword<'a>(line: Line<'a>, wanted: &[u8]) -> Option<Line<'a>>
    ensures { rest_value result ≡ after_keyword wanted.now (bytes line.entry) }
{
    let (word, rest) = keyword(line)?;
    (word == wanted).then_some(rest)
}

/// A line by its bracket.
#[derive(Clone, Copy)]
enum Bracket<'a> {
    /// An opening bracket and a keyword, and what is left after them.
    Open(&'a [u8], Line<'a>),
    /// A lone closing bracket.
    Close,
}

impl<'a> Bracket<'a> {
    /// The line by its bracket, if it has a keyword or is a lone closing bracket.
    fn of(line: Line<'a>) -> Option<Bracket<'a>>
        ensures { bracket_value result ≡ bracket_in (bytes line.entry) }
    {
        if is_closing(line) {
            return Some(Bracket::Close);
        }
        let (word, rest) = keyword(line)?;
        Some(Bracket::Open(word, rest))
    }
}

/// The form of a line of a kind of level or way: by its keyword and what follows it, or that of a lone closing bracket.
pub trait LineForm<'a>: Copy + Drop {
    ghost Value: { Type 0 };

    ghost value: { Self → Value };

    ghost keyword_form: { List ℕ → List ℕ → Option Value };

    ghost close: { Value };

    /// The form by the keyword and what follows it, if any.
    fn of_keyword(keyword: &[u8], rest: Line<'a>) -> Option<Self>
        ensures { option_map value result ≡ keyword_form keyword.now (bytes rest.entry) };

    /// The form of a lone closing bracket.
    fn closing() -> Self
        ensures { value result ≡ close };
}

/// The form that a line has, if any.
pub fn form_of<'a, F: LineForm<'a>>(line: Line<'a>) -> Option<F>
    ensures { option_map F.value result ≡ line_form F.keyword_form F.close (bytes line.entry) }
{
    match Bracket::of(line)? {
        Bracket::Open(keyword, rest) => F::of_keyword(keyword, rest),
        Bracket::Close => Some(F::closing()),
    }
}

// The number N after the keyword of a line `(KEYWORD N`.
fn count_after(rest: Line) -> Option<u32>
    ensures { result ≡ count_after (bytes rest.entry) }
{
    let (n, rest) = number(rest)?;
    rest.is_empty().then_some(n)
}

/// The number of a line `(KEYWORD N`.
pub fn count(line: Line, keyword: &[u8]) -> Option<u32>
    ensures { result ≡ count_of keyword.now (bytes line.entry) }
{
    count_after(after_keyword(line, keyword)?)
}

/// The two numbers, of one or two digits each, after the keyword of a line `(KEYWORD W H`.
pub fn size_after(rest: Line) -> Option<(u32, u32)>
    ensures { result ≡ size_after (bytes rest.entry) }
{
    let (width, rest) = short_number(rest)?;
    let (height, rest) = short_number(rest)?;
    rest.is_empty().then_some((width, height))
}

/// The X after the keyword of a line `(KEYWORD X)`, with the blank before it. X is one or more bytes, none of them a
/// bracket.
pub fn arguments_after<'a>(rest: Line<'a>) -> Option<Line<'a>>
    ensures { rest_value result ≡ arguments_after (bytes rest.entry) }
{
    before_closing(rest)
}

/// The X of a line `(KEYWORD X)`, with the blank before it.
#[tactic(auto, using(crate::proofs::FormLaws::forms_hold))]
pub fn arguments<'a>(line: Line<'a>, keyword: &[u8]) -> Option<Line<'a>>
    ensures says { rest_value result ≡ arguments_of keyword.now (bytes line.entry) }
    ensures forms { FormsHold }
{
    arguments_after(after_keyword(line, keyword)?)
}

/// The X after the keyword of a line `(KEYWORD X)`.
#[tactic(auto, using(crate::proofs::FormLaws::content_holds))]
pub fn content_after<'a>(rest: Line<'a>) -> Option<&'a [u8]>
    ensures says { bytes_value result ≡ content_after (bytes rest.entry) }
    ensures forms { ContentHolds }
{
    Some(after_blank(arguments_after(rest)?)?.as_bytes())
}

fn before_closing<'a>(line: Line<'a>) -> Option<Line<'a>>
    ensures { rest_value result ≡ before_closing (bytes line.entry) (prefix_len inside (bytes line.entry)) }
{
    let Line { text, at } = line;
    let end = run_end::<Inside>(text, at);
    match line.as_bytes() {
        [b' ', _, .., b')'] if end + 1 == text.len() => Some(Line {
            text: &text[..end],
            at,
        }),
        _ => None,
    }
}

/// Whether the line is a lone closing bracket.
pub fn is_closing(line: Line) -> bool
    ensures { result ≡ is_closing (bytes line.entry) }
{
    line.as_bytes() == CLOSING
}
