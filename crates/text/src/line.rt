ghost use Rattle.std.specs.Prelude.{◌≡◌};
ghost use Rattle.text.specs.Lines.{line_value, line_at, in_line, text_byte, all_text, is_text};

use super::run::{ByteClass, run_end};

/// The most bytes that the text of a level may have.
const MOST_BYTES: usize = 4096;

/// A line of a text, or what is left of one.
///
/// It goes from the place `at` to the end of `text`, which is the whole text up to the end of the line, so that
/// every place in it is a place in the text.
#[derive(Clone, Copy, Debug)]
pub struct Line<'a> {
    pub text: &'a [u8],
    pub at: usize,
}

fn is_text_byte(b: u8) -> bool
    ensures { result ≡ text_byte b }
{
    matches!(b, b'\n' | b' '..=b'~')
}

fn all_text(text: &[u8]) -> bool
    ensures { result ≡ all_text text.now }
{
    text.iter().all(|b| is_text_byte(*b))
}

/// Whether the bytes are the text of a level at all: 1 to 4,096 printable bytes and line ends, a line end last.
pub fn is_text(text: &[u8]) -> bool
    ensures { result ≡ is_text text.now }
{
    match text {
        [.., b'\n'] => text.len() <= MOST_BYTES && all_text(text),
        _ => false,
    }
}

/// The bytes of a line: all but the line end.
struct InLine;

impl ByteClass for InLine {
    ghost has = { in_line };

    fn has(b: u8) -> bool {
        b != b'\n'
    }
}

/// The line that begins at a place, if a line end follows there.
pub fn next_line<'a>(text: &'a [u8], from: usize) -> Option<Line<'a>>
    ensures { line_value result ≡ line_at text.now from }
{
    let end = run_end::<InLine>(text, from);
    (end < text.len()).then(|| Line {
        text: &text[..end],
        at: from,
    })
}
