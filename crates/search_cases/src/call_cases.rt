//! Calls in any order, and memory that does not go together.
use crate::graph::{Graph, NO_SPOT, Spot};
use crate::said::{Answer, Call, NUMBERS, ROOM, Said, answers_so};
use search::Search;
use search_theory::Verdict;
use std::process::Abort;

// Calls of a search that ends solved in 4.
static SOLVED: [(Call, Said); 33] = [
    (Call::Advance(1), Err(34)),
    (Call::Advance(0), Err(34)),
    (Call::Verdict, Err(34)),
    (Call::Solution(4), Err(34)),
    (Call::Open, Ok(Answer::Opened)),
    (Call::Verdict, Ok(Answer::Stands(Verdict::Running, 0, 1))),
    (Call::Open, Err(33)),
    (Call::Advance(0), Err(35)),
    (Call::Solution(4), Err(36)),
    (Call::Solution(0), Err(36)),
    (Call::Verdict, Ok(Answer::Stands(Verdict::Running, 0, 1))),
    (Call::Advance(2), Ok(Answer::Took(Verdict::Running, 2))),
    (Call::Verdict, Ok(Answer::Stands(Verdict::Running, 2, 3))),
    (Call::Open, Err(33)),
    (Call::Advance(0), Err(35)),
    (Call::Solution(4), Err(36)),
    (Call::Advance(2), Ok(Answer::Took(Verdict::Running, 2))),
    (Call::Verdict, Ok(Answer::Stands(Verdict::Running, 4, 5))),
    (Call::Advance(9), Ok(Answer::Took(Verdict::Solved(4), 1))),
    (Call::Verdict, Ok(Answer::Stands(Verdict::Solved(4), 5, 5))),
    (Call::Advance(9), Ok(Answer::Took(Verdict::Solved(4), 0))),
    (
        Call::Advance(u32::MAX),
        Ok(Answer::Took(Verdict::Solved(4), 0)),
    ),
    (Call::Advance(0), Err(35)),
    (Call::Open, Err(33)),
    (Call::Solution(0), Err(37)),
    (Call::Solution(3), Err(37)),
    (Call::Solution(4), Ok(Answer::Wrote(4))),
    (Call::Solution(5), Ok(Answer::Wrote(4))),
    (Call::Solution(64), Ok(Answer::Wrote(4))),
    (Call::Solution(3), Err(37)),
    (Call::Solution(4), Ok(Answer::Wrote(4))),
    (Call::Advance(1), Ok(Answer::Took(Verdict::Solved(4), 0))),
    (Call::Verdict, Ok(Answer::Stands(Verdict::Solved(4), 5, 5))),
];

// The room is stored after five moves, and the way of four is found.
static REOPENED: [(Call, Said); 13] = [
    (Call::Open, Ok(Answer::Opened)),
    (Call::Advance(1), Ok(Answer::Took(Verdict::Running, 1))),
    // The pit has no place.
    (Call::Verdict, Ok(Answer::Stands(Verdict::Running, 1, 3))),
    (Call::Advance(3), Ok(Answer::Took(Verdict::Running, 3))),
    (Call::Verdict, Ok(Answer::Stands(Verdict::Running, 4, 6))),
    // The door is taken before the hill, which has the same sum and fewer moves made.
    (Call::Advance(1), Ok(Answer::Took(Verdict::Running, 1))),
    (Call::Verdict, Ok(Answer::Stands(Verdict::Running, 5, 7))),
    (Call::Solution(5), Err(36)),
    // The hill, and hall and door once more.
    (Call::Advance(3), Ok(Answer::Took(Verdict::Running, 3))),
    (Call::Verdict, Ok(Answer::Stands(Verdict::Running, 8, 7))),
    (Call::Advance(3), Ok(Answer::Took(Verdict::Solved(4), 1))),
    (Call::Solution(3), Err(37)),
    (Call::Solution(4), Ok(Answer::Wrote(4))),
];

// Calls of a search that ends solved in 0.
static AT_ONCE: [(Call, Said); 8] = [
    (Call::Open, Ok(Answer::Opened)),
    (Call::Verdict, Ok(Answer::Stands(Verdict::Running, 0, 1))),
    (Call::Solution(0), Err(36)),
    (Call::Advance(9), Ok(Answer::Took(Verdict::Solved(0), 1))),
    (Call::Verdict, Ok(Answer::Stands(Verdict::Solved(0), 1, 1))),
    (Call::Advance(9), Ok(Answer::Took(Verdict::Solved(0), 0))),
    (Call::Solution(0), Ok(Answer::Wrote(0))),
    (Call::Solution(64), Ok(Answer::Wrote(0))),
];

// Calls of a search that ends unsolvable.
static UNSOLVABLE: [(Call, Said); 9] = [
    (Call::Open, Ok(Answer::Opened)),
    (Call::Verdict, Ok(Answer::Stands(Verdict::Running, 0, 1))),
    (Call::Advance(9), Ok(Answer::Took(Verdict::Unsolvable, 1))),
    (Call::Advance(9), Ok(Answer::Took(Verdict::Unsolvable, 0))),
    (Call::Advance(0), Err(35)),
    (Call::Open, Err(33)),
    (Call::Solution(0), Err(36)),
    (Call::Solution(64), Err(36)),
    (Call::Verdict, Ok(Answer::Stands(Verdict::Unsolvable, 1, 1))),
];

// Calls of a search whose start is dead.
static DEAD: [(Call, Said); 8] = [
    (Call::Open, Ok(Answer::Opened)),
    (Call::Verdict, Ok(Answer::Stands(Verdict::Unsolvable, 0, 0))),
    (Call::Advance(9), Ok(Answer::Took(Verdict::Unsolvable, 0))),
    (Call::Advance(0), Err(35)),
    (Call::Open, Err(33)),
    (Call::Solution(0), Err(36)),
    (Call::Solution(64), Err(36)),
    (Call::Verdict, Ok(Answer::Stands(Verdict::Unsolvable, 0, 0))),
];

// Calls of a search whose table gets full.
static FULL: [(Call, Said); 8] = [
    (Call::Open, Ok(Answer::Opened)),
    (Call::Advance(9), Ok(Answer::Took(Verdict::TableFull, 4))),
    (Call::Advance(9), Ok(Answer::Took(Verdict::TableFull, 0))),
    (Call::Advance(0), Err(35)),
    (Call::Open, Err(33)),
    (Call::Solution(0), Err(36)),
    (Call::Solution(64), Err(36)),
    (Call::Verdict, Ok(Answer::Stands(Verdict::TableFull, 4, 4))),
];

// A search of the graph over so many places answers each call as its row says.
fn answers_over(rt: &impl Abort, start: Spot, places: usize, rows: &[(Call, Said)], moves: &[u32]) {
    let places = places.min(ROOM);
    let mut table = [NO_SPOT; ROOM];
    let mut numbers = [0; NUMBERS * ROOM];
    let mut search = Search::new(&mut table[..places], &mut numbers[..NUMBERS * places]);
    answers_so(rt, &Graph { start }, &mut search, rows, moves);
}

#[test]
fn answers(rt: HostRuntime) {
    answers_over(&rt, Spot::Path, 5, &SOLVED, &[0, 0, 0, 0]);
    answers_over(&rt, Spot::Gate, 7, &REOPENED, &[2, 0, 0, 0]);
    answers_over(&rt, Spot::Room, 1, &AT_ONCE, &[]);
    answers_over(&rt, Spot::Trap, 1, &UNSOLVABLE, &[]);
    answers_over(&rt, Spot::Pit, 1, &DEAD, &[]);
    answers_over(&rt, Spot::Path, 4, &FULL, &[]);
}

// One place more than a table may have.
const TOO_MANY: usize = 1_048_577;

// How many places the table has and how many numbers the list, and what the opening answers.
static SIZES: [(usize, usize, Said); 14] = [
    (0, 0, Err(31)),
    (0, 8, Err(31)),
    (1, 0, Err(32)),
    (1, 7, Err(32)),
    (1, 8, Ok(Answer::Opened)),
    (1, 9, Err(32)),
    (7, 55, Err(32)),
    (7, 56, Ok(Answer::Opened)),
    (7, 57, Err(32)),
    (7, 64, Err(32)),
    (1_048_576, 0, Err(32)),
    (1_048_576, 512, Err(32)),
    (TOO_MANY, 0, Err(31)),
    (TOO_MANY, 512, Err(31)),
];

#[test]
fn sizes(rt: HostRuntime) {
    let mut table = [NO_SPOT; TOO_MANY];
    let mut numbers = [0; NUMBERS * ROOM];
    for (places, listed, due) in SIZES {
        let table = &mut table[..places.min(TOO_MANY)];
        let numbers = &mut numbers[..listed.min(NUMBERS * ROOM)];
        let mut search = Search::new(table, numbers);
        // What is refused stays unopened, and is refused again; what is not is open.
        let again = due.and(Err(33));
        let report = if due.is_ok() {
            Ok(Answer::Stands(Verdict::Running, 0, 1))
        } else {
            Err(34)
        };
        let calls = [
            (Call::Open, due),
            (Call::Open, again),
            (Call::Verdict, report),
        ];
        answers_so(&rt, &Graph { start: Spot::Gate }, &mut search, &calls, &[]);
    }
}
