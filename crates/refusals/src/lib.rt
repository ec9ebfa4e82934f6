//! Refusals: why, under which number, and the line they name.
#![tactic(auto)]

ghost use Rattle.std.specs.Prelude.{◌≡◌, Some};
ghost use Rattle.refusals.specs.Refusals.{Numbered, refusal, refusal_text};

use std::error::Error;
use std::fmt;

/// Why a text, a way or a call is refused, with the number under which the refusal is known. Its tens digit names the
/// layer.
#[derive(Clone, Copy, Debug)]
pub enum Fault {
    /// The bytes are no text: too many, none, a strange one, or the last line not ended.
    NotText = 11,
    /// A line has not the form that is due there.
    LineForm = 12,
    /// The board is too small or too large.
    BoardSize = 13,
    /// A row does not spell its cells.
    BadRow = 14,
    /// A row of the wanted molecule does not spell its cells.
    BadWant = 15,
    /// An edge row or an edge column of the wanted molecule holds no letter.
    BareEdge = 16,
    /// There is no atom or there are too many, or a label is not as often wanted as it is there.
    AtomLabels = 17,
    /// Not every tile number is there once.
    TileNumbers = 18,
    /// The text does not fit the buffer, or the way has too many moves to be written.
    NoRoom = 21,
    /// The bytes are not as many as the book of the level has.
    BookLength = 22,
    /// A goal entry of the book is not 0.
    BookGoal = 23,
    /// An entry of the book with two atoms on one cell is not 255.
    BookMeeting = 24,
    /// A part move lowers an entry of the book by more than one, or leads from 255 to less.
    BookMove = 25,
    /// The table of a search has no place, or more than 1,048,576.
    TableSize = 31,
    /// The number list of a search has not eight numbers for each place of the table.
    ListSize = 32,
    /// The search is open already.
    AlreadyOpen = 33,
    /// The search has not been opened.
    NotOpen = 34,
    /// The budget is no step.
    NoBudget = 35,
    /// The search has not found a shortest way.
    NotSolved = 36,
    /// The list has too few places for the moves.
    ShortList = 37,
    /// A line of a way is out of form, or the way's count is wrong.
    WayForm = 41,
    /// Nothing stands where the move is said to begin.
    NothingThere = 42,
    /// The move is closed.
    ClosedMove = 43,
    /// A move follows the finish.
    AfterFinish = 44,
    /// The way ends on a position that is not finished.
    NotFinished = 45,
}

/// The number under which the refusal is known.
impl From<Fault> for u32 {
    ghost from_gives = { λ fault number. Numbered fault number };

    fn from(fault: Fault) -> u32 {
        fault as u32
    }
}

impl Fault {
    /// The refusal for this reason that names a line.
    pub fn at(self, line: usize) -> Refusal
        ensures { result ≡ refusal self line }
    {
        Refusal { fault: self, line }
    }
}

/// A refusal: why, and the line it names, counted from 1; 0 where it names none.
#[derive(Clone, Copy, Debug)]
pub struct Refusal {
    pub fault: Fault,
    pub line: usize,
}

/// `(fault NUMBER LINE)`.
impl fmt::Display for Refusal {
    ghost output = { λ refusal. Some (refusal_text refusal) };

    fn fmt<W: fmt::Write>(&self, f: &mut fmt::Formatter<W>) -> fmt::Result {
        let number = u32::from(self.fault);
        let line = self.line;
        write!(f, "(fault {number} {line})")
    }
}

impl Error for Refusal {}
