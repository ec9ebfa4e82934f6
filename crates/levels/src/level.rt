ghost use Rattle.std.specs.Prelude.{◌≡◌};
ghost use Rattle.text.specs.Reading.{map_ok};
ghost use Rattle.levels.specs.Levels.{level_value, read_level, rules, searched, ReadsExactly};

use crate::memory::SearchMemory;
use crate::visitor::{LevelVisitor, TableVisitor};
use atoms::AtomLevel;
use pattern_databases::{Book, BookBound, BookedLevel};
use refusals::{Fault, Refusal};
use text::{forms, is_text};
use tiles::TileLevel;

/// A level of any kind.
#[derive(Clone, Copy, Debug)]
pub enum Level {
    Tiles(TileLevel),
    Atoms(AtomLevel),
}

// Nothing else tells kinds apart.
impl Level {
    /// Lets the visitor do its work with the level.
    pub fn accept<V: LevelVisitor>(&self, visitor: V) -> V::Output
        ensures { V.Gives visitor (rules (level_value self.now)) result }
    {
        match self {
            Level::Tiles(level) => visitor.visit(level),
            Level::Atoms(level) => visitor.visit(level),
        }
    }

    /// Lets the visitor do its work with the puzzle that is searched for the level, and the table for its kind: an atom
    /// level is searched with its book, filled, if that has at most 32,768 bytes, and any other level as it is.
    pub fn accept_for_search<const PLACES: usize, V: TableVisitor<PLACES>>(
        &self,
        memory: &mut SearchMemory<PLACES>,
        visitor: V,
    ) -> V::Output
        ensures { searched (level_value self.now) (λ rules. V.Gives visitor rules result) }
    {
        match self {
            Level::Tiles(level) => visitor.visit(level, &mut memory.tiles),
            Level::Atoms(level) => {
                let Some(bytes) = memory.book.get_mut(..Book::length(level)) else {
                    return visitor.visit(level, &mut memory.atoms);
                };
                let book = Book::fill(level, bytes, &mut memory.scratch).unwrap();
                visitor.visit(&BookedLevel::new(BookBound::new(book)), &mut memory.atoms)
            }
        }
    }
}

/// Reads a level: the keyword of its first line says of which kind. A text that begins with the keyword of no kind is
/// refused as any reader of levels would refuse it.
#[tactic(auto, using(crate::proofs::Reading::reads_exactly))]
pub fn read_level(text: &[u8]) -> Result<Level, Refusal>
    ensures reads { map_ok level_value result ≡ read_level text.now }
    ensures exactly { ReadsExactly text.now }
{
    // First, so that of bytes that are too many no line is looked for.
    if !is_text(text) {
        return Err(Fault::NotText.at(0));
    }
    let keyword = forms::first_keyword(text).unwrap_or(b"");
    if keyword == tiles::KEYWORD {
        tiles::read_level(text).map(Level::Tiles)
    } else if keyword == atoms::KEYWORD {
        atoms::read_level(text).map(Level::Atoms)
    } else {
        Err(Fault::LineForm.at(1))
    }
}
