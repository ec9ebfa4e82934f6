//! The calls of a search.
ghost use Rattle.std.specs.Prelude.{◌≡◌, ◌↔◌, IsTrue, IfOk, length, OnErr};
ghost use Rattle.search_theory.specs.declared.Verdict.TheVariants.{Running};
ghost use Rattle.search.specs.Contents.{search_of, LiesIn};
ghost use Rattle.search.specs.Calls.{IsUncalled, AlwaysAdvances, AdvancesFor, RecitesFor};
ghost use Rattle.search_theory.specs.Calls.{new_search, opening, advance, recital, Opens, advance_refusal, Reports, IsSolved, recite_refusal, refusal_in};
ghost use Rattle.search_theory.specs.Promise.{Promise, StandsAfter};

use super::Search;
use crate::links::Links;
use crate::search::steps::Reach;
use crate::table::Table;
use hash_index::HashIndex;
use open_list::OpenList;
use puzzle::Puzzle;
use refusals::Fault;
use search_theory::{Advance, Report, Verdict};

/// The most places that a table may have.
const MOST_PLACES: usize = 1_048_576;

/// How many numbers the list has for each place of the table, and how many of them the open list and the index take; the
/// last one is for the links.
const NUMBERS: usize = 8;

const OPEN_LIST_NUMBERS: usize = 4;

const INDEX_NUMBERS: usize = 3;

impl<'a, P: Copy> Search<'a, P> {
    /// A new search over lent memory. Whether the table and the list go together is asked when it is opened.
    pub fn new(table: &'a mut [P], numbers: &'a mut [u32]) -> Self
        ensures empty { search_of result ≡ new_search (length table.old) (length numbers.old) }
        ensures lent { LiesIn result table.old numbers.old }
        ensures uncalled { IsUncalled result }
    {
        let places = table.len();
        let listed = numbers.len();
        let first = listed.min(places.saturating_mul(OPEN_LIST_NUMBERS));
        let (for_open_list, rest) = numbers.split_at_mut(first);
        let second = rest.len().min(places.saturating_mul(INDEX_NUMBERS));
        let (for_index, links) = rest.split_at_mut(second);
        Search {
            table: Table { places: table },
            open_list: OpenList::new(for_open_list),
            index: HashIndex::new(for_index),
            links: Links { numbers: links },
            numbers: listed,
            opened: false,
            verdict: Verdict::Running,
            steps: 0,
        }
    }

    /// Opens the search on a puzzle: the start is stored and open, or, if it is dead, there is no way.
    ///
    /// Refused where the table has no place or more than 1,048,576, where the list has not eight numbers for each place,
    /// or where the search is open already. What the search promises for the puzzle is the clause `promise`.
    pub fn open<Z: Puzzle<Position = P>>(&mut self, puzzle: &Z) -> Result<(), Fault>
        ensures opens { Opens (Z.Puzzle.meaning puzzle.now) (search_of self.old) result (search_of self.new) }
        ensures same { OnErr result (self.new ≡ self.old) }
        ensures promise { Promise (Z.Puzzle.meaning puzzle.now) Z.Puzzle.MOVES }
        ensures stands { StandsAfter (Z.Puzzle.meaning puzzle.now) Z.Puzzle.MOVES
            (search_of self.old) (opening result) (search_of self.new) }
    {
        self.begin(puzzle)
    }

    // The call `open` without its promise.
    fn begin<Z: Puzzle<Position = P>>(&mut self, puzzle: &Z) -> Result<(), Fault>
        ensures opens { Opens (Z.Puzzle.meaning puzzle.now) (search_of self.old) result (search_of self.new) }
        ensures same { OnErr result (self.new ≡ self.old) }
    {
        let places = self.table.places.len();
        if places == 0 || places > MOST_PLACES {
            return Err(Fault::TableSize);
        }
        if self.numbers != NUMBERS * places {
            return Err(Fault::ListSize);
        }
        if self.opened {
            return Err(Fault::AlreadyOpen);
        }
        // Both have as many numbers as they need, since the whole list has.
        self.open_list.start(places);
        self.index.start(places);
        self.opened = true;
        self.steps = 0;
        self.store_start(puzzle);
        Ok(())
    }

    /// Takes as many steps as the budget says, unless a final verdict ends them sooner.
    ///
    /// Refused where the search has not been opened, or the budget is 0. Handed another puzzle than the opened one, it
    /// ends safely, and its answer is free.
    pub fn advance<Z: Puzzle<Position = P>>(
        &mut self,
        puzzle: &Z,
        budget: u32,
    ) -> Result<Advance, Fault>
        ensures advances { AdvancesFor (Z.Puzzle.meaning puzzle.now) budget self.old result self.new }
        ensures always { AlwaysAdvances budget self.old result self.new }
        ensures stands { StandsAfter (Z.Puzzle.meaning puzzle.now) Z.Puzzle.MOVES
            (search_of self.old) (advance budget result) (search_of self.new) }
        ensures refused { refusal_in result ≡ advance_refusal (search_of self.old) budget }
        ensures same { OnErr result (self.new ≡ self.old) }
    {
        self.take_steps(puzzle, budget)
    }

    // The call `advance` without its promise.
    fn take_steps<Z: Puzzle<Position = P>>(
        &mut self,
        puzzle: &Z,
        budget: u32,
    ) -> Result<Advance, Fault>
        ensures advances { AdvancesFor (Z.Puzzle.meaning puzzle.now) budget self.old result self.new }
        ensures always { AlwaysAdvances budget self.old result self.new }
        ensures refused { refusal_in result ≡ advance_refusal (search_of self.old) budget }
        ensures same { OnErr result (self.new ≡ self.old) }
    {
        if !self.opened {
            return Err(Fault::NotOpen);
        }
        if budget == 0 {
            return Err(Fault::NoBudget);
        }
        let mut steps = 0;
        while steps < budget && self.is_running() {
            self.step(puzzle);
            steps += 1;
        }
        Ok(Advance {
            verdict: self.verdict,
            steps,
        })
    }

    // Whether no final verdict stands.
    fn is_running(&self) -> bool
        ensures { IsTrue result ↔ (self.now.verdict ≡ Running) }
    {
        matches!(self.verdict, Verdict::Running)
    }

    /// Where the search stands. Refused where it has not been opened.
    pub fn verdict(&self) -> Result<Report, Fault>
        ensures { Reports (search_of self.now) result }
    {
        if !self.opened {
            return Err(Fault::NotOpen);
        }
        Ok(Report {
            verdict: self.verdict,
            steps: self.steps,
            places: self.open_list.len(),
        })
    }

    /// Writes the moves of a shortest way to the front of a list, and answers how many they are. The search stays as it
    /// was.
    ///
    /// Refused where the search has not been opened, where it is not solved, or where the list is too short. Handed
    /// another puzzle than the opened one, it ends safely, and its answer is free. The puzzle is asked nothing: it is what
    /// the promise speaks of.
    pub fn solution<Z: Puzzle<Position = P>>(
        &mut self,
        puzzle: &Z,
        moves: &mut [u32],
    ) -> Result<usize, Fault>
        ensures recites { RecitesFor (Z.Puzzle.meaning puzzle.now) self.old moves.old result moves.new }
        ensures kept { self.new ≡ self.old }
        ensures solved { IfOk result (IsSolved (search_of self.old)) }
        ensures refused { refusal_in result ≡ recite_refusal (search_of self.old) (length moves.old) }
        ensures same { OnErr result (moves.new ≡ moves.old) }
        ensures stands { StandsAfter (Z.Puzzle.meaning puzzle.now) Z.Puzzle.MOVES
            (search_of self.old) (recital moves.old result moves.new) (search_of self.new) }
    {
        self.recite(puzzle, moves)
    }

    // The call `solution` without its promise.
    fn recite<Z: Puzzle<Position = P>>(&self, puzzle: &Z, moves: &mut [u32]) -> Result<usize, Fault>
        ensures recites { RecitesFor (Z.Puzzle.meaning puzzle.now) self.now moves.old result moves.new }
        ensures solved { IfOk result (IsSolved (search_of self.now)) }
        ensures refused { refusal_in result ≡ recite_refusal (search_of self.now) (length moves.old) }
        ensures same { OnErr result (moves.new ≡ moves.old) }
    {
        if !self.opened {
            return Err(Fault::NotOpen);
        }
        let Verdict::Solved(count) = self.verdict else {
            return Err(Fault::NotSolved);
        };
        let count = count as usize;
        if moves.len() < count {
            return Err(Fault::ShortList);
        }
        // The node that was finished is still the open one that comes first.
        let mut place = self.open_list.first().unwrap_or(0);
        let mut left = count;
        while left > 0 {
            left -= 1;
            let (parent, number) = self.links.get(place);
            moves[left] = number;
            place = parent;
        }
        Ok(count)
    }
}
