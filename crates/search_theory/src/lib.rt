//! The rules of the best-first search and its whole promise: what a step does, what each call does, and what holds of
//! every list of calls.
#![tactic(auto)]

ghost use Rattle.search_theory.specs.laws.Equal;

use equality::Exact;

/// What a search says.
#[derive(Clone, Copy, PartialEq, Eq, Debug)]
pub enum Verdict {
    /// Nothing is known yet.
    Running,
    /// The shortest way has so many moves.
    Solved(u32),
    /// No moves finish.
    Unsolvable,
    /// More positions can be reached than the table has places.
    TableFull,
}

impl Exact for Verdict {
    ghost exact = { Equal.same_verdicts };
}

/// What an advance answers: the verdict, and how many steps it took.
#[derive(Clone, Copy, Debug)]
pub struct Advance {
    pub verdict: Verdict,
    pub steps: u32,
}

/// Where a search stands: its verdict, all its steps, and how many places of the table are in use.
#[derive(Clone, Copy, Debug)]
pub struct Report {
    pub verdict: Verdict,
    pub steps: u64,
    pub places: usize,
}
