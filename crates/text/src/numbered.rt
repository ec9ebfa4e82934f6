ghost use Rattle.std.specs.Prelude.{ℕ, ◌+◌, ◌-◌, ◌<◌, ◌≤◌, length};
ghost use Rattle.std.specs.Iterator.{at_most};

use super::line::{Line, next_line};

/// What is left of a text, line by line, each line with its number. What no line end follows is no line.
#[derive(Clone, Copy)]
pub(crate) struct Lines<'a> {
    /// What is left of the text.
    pub left: Line<'a>,
    /// The number of the line that comes next.
    pub number: usize,
    ghost inside: { left.at ≤ length left.text.now },
    ghost positive: { 0 < number },
    ghost counted: { number ≤ left.at + 1 },
}

impl<'a> Lines<'a> {
    ghost use Rattle.std.specs.Prelude.{◌≡◌};

    /// All lines of a text, the first with number 1.
    pub fn of(text: &'a [u8]) -> Self
        ensures whole { result.left.text.now ≡ text.now }
        ensures front { result.left.at ≡ 0 }
        ensures first { result.number ≡ 1 }
    {
        Lines {
            left: Line { text, at: 0 },
            number: 1,
        }
    }
}

impl<'a> Iterator for Lines<'a> {
    ghost use Rattle.text.specs.Reading.{NextLine};

    type Item = (usize, Line<'a>);

    ghost next_gives = { NextLine };

    ghost remaining = { λ s. at_most (length s.left.text.now - s.left.at) };

    fn next(&mut self) -> Option<(usize, Line<'a>)> {
        let Line { text, at } = self.left;
        let line = next_line(text, at)?;
        let number = self.number;
        self.left = Line {
            text,
            at: line.text.len() + 1,
        };
        self.number = number + 1;
        Some((number, line))
    }
}
