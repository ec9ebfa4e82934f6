ghost use Rattle.std.specs.Prelude.{◌≡◌, length, IfOk, IfErr, IsOk, IsErr, Decides};
ghost use Rattle.refusals.specs.Refusals.{fault};
ghost use Rattle.atoms.specs.Level.{atoms};
ghost use Rattle.pattern_databases.specs.Layout.{book_length};
ghost use Rattle.pattern_databases.specs.Books.{Filled, Fails, HasLength, Passes};
ghost use Rattle.pattern_databases.specs.Views.{level_of, bytes_of};
ghost use Rattle.pattern_databases.specs.inside.Walking.{ShowsWalls};
ghost use Rattle.pattern_databases.specs.inside.Blocks.{MeetsAll};

use super::Book;
use crate::block::Block;
use crate::condition::Condition;
use crate::layout::Layout;
use crate::marked::Map;
use crate::neighbours::{Neighbours, draw_walls};
use crate::scratch::Scratch;
use atoms::AtomLevel;
use refusals::Fault;

impl<'a> Book<'a> {
    /// How many bytes the book of a level has.
    pub fn length(level: &AtomLevel) -> usize
        ensures { result ≡ book_length (atoms level.now) }
    {
        Layout::new(level).book_length()
    }

    /// Fills bytes as the book of a level, and lends them to it.
    ///
    /// Refused where they are not as many as the book has, by `fill_bytes`, which leaves them as they were. It does not
    /// matter what `scratch` was used for before.
    pub fn fill(
        level: &'a AtomLevel,
        bytes: &'a mut [u8],
        scratch: &mut Scratch,
    ) -> Result<Book<'a>, Fault>
        ensures filled { IfOk result (λ book. (level_of book ≡ level.now) × Filled (atoms level.now) (bytes_of book)) }
        ensures refused { IfErr result (λ why. (why ≡ fault 22) × ¬ (HasLength (atoms level.now) bytes.old)) }
        ensures walls { HasLength (atoms level.now) bytes.old → ShowsWalls (atoms level.now).board scratch.new.map }
    {
        Book::fill_bytes(level, bytes, scratch)?;
        Ok(Book::passed(level, bytes))
    }

    /// Fills bytes as the book of a level has them. Refused bytes are left as they were.
    pub fn fill_bytes(
        level: &AtomLevel,
        bytes: &mut [u8],
        scratch: &mut Scratch,
    ) -> Result<(), Fault>
        ensures filled { IsOk result → Filled (atoms level.now) bytes.new }
        ensures passes { IsOk result → Passes (atoms level.now) bytes.new }
        ensures refused { IfErr result (λ why. (why ≡ fault 22) × ¬ (HasLength (atoms level.now) bytes.old)) }
        ensures untouched { IsErr result → bytes.new ≡ bytes.old }
        ensures walls { HasLength (atoms level.now) bytes.old → ShowsWalls (atoms level.now).board scratch.new.map }
    {
        let layout = layout_for(level, bytes)?;
        layout.fill(bytes, scratch);
        Ok(())
    }

    // The book that bytes are which pass.
    fn passed(level: &'a AtomLevel, bytes: &'a [u8]) -> Book<'a>
        requires { Passes (atoms level.now) bytes.now }
        ensures level { level_of result ≡ level.now }
        ensures bytes { bytes_of result ≡ bytes.now }
    {
        let layout = Layout::new(level);
        Book { layout, bytes }
    }

    /// Tests bytes as the book of a level, by four conditions, each on the whole book before the next. It takes every
    /// book that meets all four. It does not matter what `scratch` was used for before.
    pub fn test(
        level: &'a AtomLevel,
        bytes: &'a [u8],
        scratch: &mut Scratch,
    ) -> Result<Book<'a>, Fault>
        ensures passed { IfOk result (λ book. (level_of book ≡ level.now) × (bytes_of book ≡ bytes.now)) }
        ensures passes { IsOk result → Passes (atoms level.now) bytes.now }
        ensures refused { IfErr result (λ why. Fails (atoms level.now) bytes.now why) }
        ensures walls { HasLength (atoms level.now) bytes.now → ShowsWalls (atoms level.now).board scratch.new.map }
    {
        let layout = layout_for(level, bytes)?;
        if !layout.meets(Condition::Goals, bytes, scratch) {
            return Err(Fault::BookGoal);
        }
        if !layout.meets(Condition::Meetings, bytes, scratch) {
            return Err(Fault::BookMeeting);
        }
        if !layout.meets(Condition::Moves, bytes, scratch) {
            return Err(Fault::BookMove);
        }
        Ok(Book { layout, bytes })
    }

    /// The level.
    pub fn level(&self) -> &'a AtomLevel
        ensures { result.now ≡ level_of self.now }
    {
        self.layout.level
    }

    /// The bytes.
    pub fn bytes(&self) -> &'a [u8]
        ensures { result.now ≡ bytes_of self.now }
    {
        self.bytes
    }
}

// The layout of a level's book, where the bytes are as many as it has.
fn layout_for<'a>(level: &'a AtomLevel, bytes: &[u8]) -> Result<Layout<'a>, Fault>
    ensures long { IfOk result (λ layout. (layout.level.now ≡ level.now) × HasLength (atoms level.now) bytes.now) }
    ensures refused { IfErr result (λ why. (why ≡ fault 22) × ¬ (HasLength (atoms level.now) bytes.now)) }
{
    let layout = Layout::new(level);
    if bytes.len() == layout.book_length() {
        Ok(layout)
    } else {
        Err(Fault::BookLength)
    }
}

impl Layout<'_> {
    // Fills each block.
    fn fill(&self, bytes: &mut [u8], scratch: &mut Scratch)
        requires { HasLength (atoms self.now.level.now) bytes.old }
        ensures filled { Filled (atoms self.now.level.now) bytes.new }
        ensures walls { ShowsWalls (atoms self.now.level.now).board scratch.new.map }
    {
        draw_walls(self.level.board(), &mut scratch.map);
        let neighbours = Neighbours::new(self.level.board());
        let mut start = 0;
        for goal_place in self.level.goal_places() {
            for number in 0..self.parts.len() {
                let block = Block::new(&*self, &neighbours, *goal_place, number);
                let end = start + self.placements(block.part.len());
                block.fill(&mut bytes[start..end], &mut scratch.map, &mut scratch.queue);
                start = end;
            }
        }
    }

    // Whether each block meets a condition of the test.
    fn meets(&self, condition: Condition, bytes: &[u8], scratch: &mut Scratch) -> bool
        requires { HasLength (atoms self.now.level.now) bytes.now }
        ensures decides { Decides result (MeetsAll (atoms self.now.level.now) bytes.now condition) }
        ensures walls { ShowsWalls (atoms self.now.level.now).board scratch.new.map }
    {
        draw_walls(self.level.board(), &mut scratch.map);
        let neighbours = Neighbours::new(self.level.board());
        let mut start = 0;
        for goal_place in self.level.goal_places() {
            for number in 0..self.parts.len() {
                let block = Block::new(&*self, &neighbours, *goal_place, number);
                let end = start + self.placements(block.part.len());
                if !block.meets(condition, &bytes[start..end], &mut scratch.map) {
                    return false;
                }
                start = end;
            }
        }
        true
    }
}
