ghost use Rattle.std.specs.Prelude.{◌≡◌, ◌*◌, length};
ghost use Rattle.answers.specs.Answers.{places};
ghost use Rattle.answers.specs.inside.Solving.{Finds};

use puzzle::Puzzle;
use search::Search;
use search_theory::Verdict;

/// The steps that a search may take: it has fewer than 2,048 × 2,048 before its final verdict.
const BUDGET: u32 = u32::MAX;

/// Searches a puzzle to the end, and writes the moves of a shortest way to the front of `moves`.
pub(crate) fn solve<P: Copy, Z: Puzzle<Position = P>>(
    puzzle: &Z,
    table: &mut [P],
    numbers: &mut [u32],
    moves: &mut [u32],
) -> Verdict
    requires table { length table.old ≡ places }
    requires numbers { length numbers.old ≡ 8 * places }
    requires moves { length moves.old ≡ places }
    ensures { Finds (Z.Puzzle.meaning puzzle.now) result moves.old moves.new }
{
    let mut search = Search::new(table, numbers);
    search.open(puzzle).unwrap();
    let advance = search.advance(puzzle, BUDGET).unwrap();
    if let Verdict::Solved(_) = advance.verdict {
        search.solution(puzzle, moves).unwrap();
    }
    advance.verdict
}
