//! Searches of the graph.
use crate::graph::{Graph, NO_SPOT, Spot};
use crate::said::{End, ROOM, ends_so};
use search_theory::Verdict;

// Where the search starts and with how many places, how it ends, and the moves.
static ENDS: [(Spot, usize, End, &[u32]); 12] = [
    // The hall is reached by the long way, closed, and reached again by the short one.
    (Spot::Gate, 7, (Verdict::Solved(4), 9, 7), &[2, 0, 0, 0]),
    (Spot::Gate, 64, (Verdict::Solved(4), 9, 7), &[2, 0, 0, 0]),
    (Spot::Gate, 6, (Verdict::TableFull, 5, 6), &[]),
    (Spot::Gate, 1, (Verdict::TableFull, 1, 1), &[]),
    (Spot::Path, 5, (Verdict::Solved(4), 5, 5), &[0, 0, 0, 0]),
    (Spot::Path, 4, (Verdict::TableFull, 4, 4), &[]),
    (Spot::Hill, 4, (Verdict::Solved(3), 4, 4), &[0, 0, 0]),
    (Spot::Room, 1, (Verdict::Solved(0), 1, 1), &[]),
    // What is dead needs no place.
    (Spot::Trap, 1, (Verdict::Unsolvable, 1, 1), &[]),
    (Spot::Trap, 64, (Verdict::Unsolvable, 1, 1), &[]),
    (Spot::Pit, 1, (Verdict::Unsolvable, 0, 0), &[]),
    (Spot::Pit, 64, (Verdict::Unsolvable, 0, 0), &[]),
];

#[test]
fn ends(rt: HostRuntime) {
    for (start, places, due, moves) in ENDS {
        let mut table = [NO_SPOT; ROOM];
        let puzzle = Graph { start };
        ends_so(
            &rt,
            &puzzle,
            &mut table[..places.min(ROOM)],
            due,
            moves,
            "graph",
        );
    }
}
