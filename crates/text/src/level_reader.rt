ghost use Rattle.std.specs.Prelude.{◌≡◌, ◌<◌, Result};
ghost use Rattle.std.specs.Option.{option_map};
ghost use Rattle.text.specs.Lines.{bytes};
ghost use Rattle.text.specs.Reading.{map_ok};
ghost use Rattle.text.specs.LevelReading.{Grammar, after_line, at_end, read_level};

use super::line::{Line, is_text};
use super::read_text::ReadText;
use super::reader::{LineReader, read_lines};
use refusals::{Fault, Refusal};

/// A reader of the levels of a kind. Its state is which line is due, and what the lines before it said.
pub trait LevelReader: Copy + Drop {
    type Level: Drop;

    ghost State: { Type 0 };

    ghost view: { Self → State };

    ghost Value: { Type 0 };

    ghost value: { Self.Level → Value };

    ghost grammar: { Grammar State Value };

    /// The state before the first line.
    fn start() -> Self
        ensures { view result ≡ grammar.start };

    /// The state after a line: what is due and the line's form, judged together.
    fn after(self, line: Line) -> Result<Self, Fault>
        ensures { map_ok view result ≡ grammar.after (view self) (bytes line.entry) };

    /// The level, or why its lines make none, once no line is due.
    fn level(self) -> Option<Result<Self::Level, Fault>>
        ensures { option_map (map_ok value) result ≡ grammar.level (view self) };
}

/// A level's reader as a reader of numbered lines.
#[derive(Drop)]
struct Numbered<R>(R);

impl<R: LevelReader> LineReader for Numbered<R> {
    type Error = Refusal;

    ghost Takes = { λ s n l r. map_ok (λ t. R.view t.0) r ≡ after_line R.grammar (R.view s.0) n l };

    fn take(&mut self, line: Line, number: usize) -> Result<(), Refusal> {
        self.0 = self.0.after(line).map_err(|fault| fault.at(number))?;
        Ok(())
    }
}

// The level once no line is left, where the next line would have this number.
fn finish<R: LevelReader>(reader: R, number: usize) -> Result<R::Level, Refusal>
    requires { 0 < number }
    ensures { map_ok R.value result ≡ at_end R.grammar number (R.view reader) }
{
    let level = reader.level().ok_or(Fault::LineForm.at(number))?;
    // A level that is refused as a whole is refused at its last line.
    level.map_err(|fault| fault.at(number - 1))
}

/// Reads the text of a level: its lines one after the other, as its reader says.
pub fn read_level<R: LevelReader>(text: &[u8]) -> Result<R::Level, Refusal>
    ensures { map_ok R.value result ≡ read_level R.grammar text.now }
{
    if !is_text(text) {
        return Err(Fault::NotText.at(0));
    }
    let ReadText { reader, number, .. } = read_lines(Numbered(R::start()), text)?;
    finish(reader.0, number)
}
