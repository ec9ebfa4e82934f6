ghost use Rattle.std.specs.Prelude.{ℕ, ◌<◌, List, Result, IfOk};
ghost use Rattle.text.specs.Lines.{bytes, split};
ghost use Rattle.text.specs.Reading.{ReadsLines, state_after, as_reading};

use super::line::Line;
use super::numbered::Lines;
use super::read_text::ReadText;

/// What takes a text line by line.
pub trait LineReader: Drop {
    type Error;

    /// What a state makes of the line of a number: the next state or an error.
    ghost Takes: { Self → ℕ → List ℕ → Result Self Self.Error → Type 0 };

    /// Takes a line. After an error the state is free.
    fn take(&mut self, line: Line, number: usize) -> Result<(), Self::Error>
        ensures { Takes self.old number (bytes line.entry) (state_after result self.new) };
}

/// Takes the lines of a text one after the other, the first with number 1, and stops where one is refused.
pub fn read_lines<'a, R: LineReader>(start: R, text: &'a [u8]) -> Result<ReadText<'a, R>, R::Error>
    ensures { ReadsLines R.Takes start 1 (split text.now) (as_reading result) }
{
    let mut reader = start;
    let mut lines = Lines::of(text);
    // A `for` would take the lines with it, and with them the number and the rest.
    while let Some((number, line)) = lines.next() {
        reader.take(line, number)?;
    }
    Ok(ReadText {
        reader,
        number: lines.number,
        left: lines.left,
    })
}
