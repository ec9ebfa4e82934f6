//! Searches and their calls, and what they say.
use puzzle::Puzzle;
use refusals::Fault;
use search::Search;
use search_theory::{Report, Verdict};
use std::process::Abort;

/// The most places that a table here has, and the most moves that a list has.
pub(crate) const ROOM: usize = 64;

/// How many numbers are lent for each place of the table.
pub(crate) const NUMBERS: usize = 8;

/// What a list of moves holds before.
const UNTOUCHED: u32 = 77;

// Whether the moves stand at the front of a list and the rest of it is untouched.
fn holds(list: &[u32], moves: &[u32]) -> bool {
    list.strip_prefix(moves)
        .is_some_and(|rest| rest.iter().all(|number| *number == UNTOUCHED))
}

/// A call of a search. An advance has its budget, and a solution the room for its moves.
#[derive(Clone, Copy, Debug)]
pub(crate) enum Call {
    Open,
    Advance(u32),
    Verdict,
    Solution(usize),
}

/// What a call answers, if it is not refused. An advance answers the verdict and its steps, and a report the verdict, all
/// steps and the places in use.
#[derive(Clone, Copy, PartialEq, Eq, Debug)]
pub(crate) enum Answer {
    Opened,
    Took(Verdict, u32),
    Stands(Verdict, u64, usize),
    Wrote(usize),
}

/// An answer, or a refusal's number.
pub(crate) type Said = Result<Answer, u32>;

// What a call answers. A solution goes to the list.
fn respond<Z: Puzzle>(
    search: &mut Search<'_, Z::Position>,
    puzzle: &Z,
    call: Call,
    list: &mut [u32; ROOM],
) -> Result<Answer, Fault> {
    match call {
        Call::Open => {
            search.open(puzzle)?;
            Ok(Answer::Opened)
        }
        Call::Advance(budget) => {
            let advance = search.advance(puzzle, budget)?;
            Ok(Answer::Took(advance.verdict, advance.steps))
        }
        Call::Verdict => {
            let report = search.verdict()?;
            Ok(Answer::Stands(report.verdict, report.steps, report.places))
        }
        Call::Solution(room) => {
            let count = search.solution(puzzle, &mut list[..room.min(ROOM)])?;
            Ok(Answer::Wrote(count))
        }
    }
}

/// Each call, one after the other, answers as its row says. What a solution writes is these moves.
pub(crate) fn answers_so<Z: Puzzle>(
    rt: &impl Abort,
    puzzle: &Z,
    search: &mut Search<'_, Z::Position>,
    rows: &[(Call, Said)],
    moves: &[u32],
) {
    for (call, due) in rows {
        let mut list = [UNTOUCHED; ROOM];
        let said = respond(search, puzzle, *call, &mut list).map_err(u32::from);
        assert_eq!(rt; said, *due, "{call:?}");
        let written = if matches!(said, Ok(Answer::Wrote(_))) {
            moves
        } else {
            &[]
        };
        assert!(rt; holds(&list, written), "{call:?}");
    }
}

/// How a search ends: its verdict, its steps and the places in use.
pub(crate) type End = (Verdict, u64, usize);

// How a search ends whose advances have this budget, the steps that its advances answered together, and how many moves
// it wrote to the list.
fn searched<Z: Puzzle>(
    puzzle: &Z,
    table: &mut [Z::Position],
    budget: u32,
    list: &mut [u32; ROOM],
) -> Result<(End, u64, Option<usize>), Fault> {
    let places = table.len();
    let mut numbers = [0; NUMBERS * ROOM];
    let mut search = Search::new(table, &mut numbers[..NUMBERS * places.min(ROOM)]);
    search.open(puzzle)?;
    let mut answered: u64 = 0;
    // No search takes more steps than its places multiplied by themselves.
    for _ in 0..places.saturating_mul(places) {
        let advance = search.advance(puzzle, budget)?;
        answered = answered.saturating_add(u64::from(advance.steps));
    }
    let report = search.verdict()?;
    let end = (report.verdict, report.steps, report.places);
    Ok((end, answered, search.solution(puzzle, list).ok()))
}

/// The search of a puzzle ends so, whatever budgets its advances have. What it writes is these moves.
pub(crate) fn ends_so<Z: Puzzle>(
    rt: &impl Abort,
    puzzle: &Z,
    table: &mut [Z::Position],
    due: End,
    moves: &[u32],
    name: &str,
) {
    let (verdict, steps, _) = due;
    let written = matches!(verdict, Verdict::Solved(_)).then_some(moves.len());
    for budget in [1, 3, u32::MAX] {
        let mut list = [UNTOUCHED; ROOM];
        let said = searched(puzzle, table, budget, &mut list).map_err(u32::from);
        assert_eq!(rt; said, Ok((due, steps, written)), "{name} by {budget}");
        assert!(rt; holds(&list, moves), "{name} by {budget}");
    }
}

/// Whatever puzzle a search is handed after its opening, its calls return, and none is refused that would not be.
pub(crate) fn ends_safely<Z: Puzzle>(
    rt: &impl Abort,
    opened: &Z,
    handed: &Z,
    table: &mut [Z::Position],
    name: &str,
) {
    let places = table.len();
    let mut numbers = [0; NUMBERS * ROOM];
    let mut search = Search::new(table, &mut numbers[..NUMBERS * places.min(ROOM)]);
    assert!(rt; search.open(opened).is_ok(), "{name}");
    for budget in 0..ROOM as u32 {
        assert_eq!(rt;
            search.advance(handed, budget).is_ok(),
            budget > 0,
            "{name}"
        );
        assert!(rt; search.verdict().is_ok(), "{name}");
        let mut list = [UNTOUCHED; ROOM];
        let solved = matches!(
            search.verdict(),
            Ok(Report {
                verdict: Verdict::Solved(_),
                ..
            })
        );
        assert_eq!(rt;
            search.solution(handed, &mut list).is_ok(),
            solved,
            "{name}"
        );
    }
}
