//! The bound of a book: the least over the goal places of the sum over the parts.
ghost use Rattle.std.specs.Prelude.{◌≡◌, ◌<◌, ◌≤◌, length, map, take, slice_index, MatchOption, IfSome};
ghost use Rattle.std.specs.List.{All};
ghost use Rattle.atoms.specs.Level.{atoms};
ghost use Rattle.pattern_databases.specs.Layout.{parts as parts_of_level};
ghost use Rattle.pattern_databases.specs.Meaning.{sum_of, bound};
ghost use Rattle.pattern_databases.specs.inside.Bounds.{AtLeast, OnFree, locations, Inside, least_sum};

use super::BookBound;
use crate::block::NEVER;
use crate::book::Book;
use atoms::{AtomLevel, Position};

impl<'a> BookBound<'a> {
    /// The bound of a book.
    pub fn new(book: Book<'a>) -> BookBound<'a>
        ensures { result.book ≡ book.entry }
    {
        let layout = &book.layout;
        let mut starts = [0; AtomLevel::MOST_ATOMS];
        let mut place_length = 0;
        for part in 0..layout.parts.len() {
            starts[part] = place_length;
            place_length += layout.placements(layout.parts.part(part).len());
        }
        BookBound {
            book,
            place_length,
            starts,
        }
    }

    /// The bound of a position.
    pub(crate) fn bound(&self, at: &Position) -> Option<u16>
        ensures { let l = atoms self.now.book.layout.level.now in
            OnFree l at.now → result ≡ bound l self.now.book.bytes.now at.now }
    {
        let entries = self.entries(at);
        self.least_sum(&entries[..self.book.layout.parts.len()])
    }

    // Which bytes of each goal place are a position's: for each part the one for where its atoms stand.
    fn entries(&self, at: &Position) -> [usize; AtomLevel::MOST_ATOMS]
        ensures inside { let l = atoms self.now.book.layout.level.now in Inside l (take (length (parts_of_level l)) result) }
        ensures located { let l = atoms self.now.book.layout.level.now in
            OnFree l at.now → take (length (parts_of_level l)) result ≡ locations l at.now }
    {
        let layout = &self.book.layout;
        let mut entries = [0; AtomLevel::MOST_ATOMS];
        for part in 0..layout.parts.len() {
            entries[part] = self.starts[part] + layout.number_at(layout.parts.part(part), at);
        }
        entries
    }

    // The least over the goal places of the sum of these bytes of each.
    fn least_sum(&self, entries: &[usize]) -> Option<u16>
        requires some { 1 ≤ length entries.now }
        requires few { length entries.now ≤ 16 }
        requires inside { Inside (atoms self.now.book.layout.level.now) entries.now }
        ensures { result ≡ least_sum (atoms self.now.book.layout.level.now) self.now.book.bytes.now entries.now }
    {
        let mut least = None;
        for place in 0..self.book.layout.level.goal_places().len() {
            let start = place * self.place_length;
            let bytes = &self.book.bytes[start..start + self.place_length];
            if let Some(sum) = sum_below(bytes, entries, least.unwrap_or(u16::MAX)) {
                least = Some(sum);
            }
        }
        least
    }
}

// The sum of these bytes of a goal place, if none of them is 255 and it is less than a limit.
#[tactic(auto, using(crate::proofs::Summing::sum_small))]
fn sum_below(bytes: &[u8], entries: &[usize], limit: u16) -> Option<u16>
    requires some { 1 ≤ length entries.now }
    requires few { length entries.now ≤ 16 }
    requires inside { All (λ e. e < length bytes.now) entries.now }
    ensures says { let sum = sum_of (map (λ e. slice_index bytes.now e) entries.now) in
        MatchOption result (AtLeast limit sum) (λ less. (sum ≡ Some less) × (less < limit)) }
    ensures small { IfSome (sum_of (map (λ e. slice_index bytes.now e) entries.now)) (λ sum. sum < u16.MAX) }
{
    let mut sum = 0;
    for entry in entries {
        let moves = bytes[*entry];
        sum += u16::from(moves);
        if moves == NEVER || limit <= sum {
            return None;
        }
    }
    Some(sum)
}
