//! Searches of levels of both kinds.
use crate::said::{End, ROOM, ends_safely, ends_so};
use atoms::{AtomLevel, Position};
use levels::{Level, read_level};
use refusals::Refusal;
use search_theory::Verdict;

// What the tables hold before: no position of any level, so that a start that is not stored is noticed.
const NO_TILES: u64 = 0;

const NO_ATOMS: Position = Position {
    cells: [u8::MAX; AtomLevel::MOST_ATOMS],
};

// A level's text, the places of the table, how the search ends, and the moves.
static ENDS: [(&str, usize, End, &[u32]); 22] = [
    (
        "(tiles 2 2\n(row 0 3)\n(row 2 1)\n)\n",
        12,
        (Verdict::Solved(6), 7, 8),
        &[1, 3, 0, 2, 1, 3],
    ),
    (
        "(tiles 2 2\n(row 0 3)\n(row 2 1)\n)\n",
        8,
        (Verdict::Solved(6), 7, 8),
        &[1, 3, 0, 2, 1, 3],
    ),
    (
        "(tiles 2 2\n(row 0 3)\n(row 2 1)\n)\n",
        7,
        (Verdict::TableFull, 6, 7),
        &[],
    ),
    (
        "(tiles 2 2\n(row 0 3)\n(row 2 1)\n)\n",
        1,
        (Verdict::TableFull, 1, 1),
        &[],
    ),
    // Half of all positions can be reached, and the finished one is not among them.
    (
        "(tiles 2 2\n(row 2 1)\n(row 3 0)\n)\n",
        12,
        (Verdict::Unsolvable, 12, 12),
        &[],
    ),
    (
        "(tiles 2 2\n(row 2 1)\n(row 3 0)\n)\n",
        64,
        (Verdict::Unsolvable, 12, 12),
        &[],
    ),
    (
        "(tiles 2 2\n(row 2 1)\n(row 3 0)\n)\n",
        11,
        (Verdict::TableFull, 10, 11),
        &[],
    ),
    (
        "(tiles 2 2\n(row 1 2)\n(row 3 0)\n)\n",
        1,
        (Verdict::Solved(0), 1, 1),
        &[],
    ),
    (
        "(tiles 3 3\n(row 8 1 3)\n(row 4 0 2)\n(row 7 6 5)\n)\n",
        63,
        (Verdict::Solved(14), 37, 63),
        &[3, 1, 2, 2, 0, 0, 3, 1, 2, 1, 3, 0, 3, 1],
    ),
    (
        "(tiles 3 3\n(row 8 1 3)\n(row 4 0 2)\n(row 7 6 5)\n)\n",
        62,
        (Verdict::TableFull, 36, 62),
        &[],
    ),
    (
        "(atomix 3 2\n(row A..)\n(row #.B)\n(want A)\n(want B)\n)\n",
        4,
        (Verdict::Solved(1), 2, 4),
        &[3],
    ),
    (
        "(atomix 3 2\n(row A..)\n(row #.B)\n(want A)\n(want B)\n)\n",
        64,
        (Verdict::Solved(1), 2, 4),
        &[3],
    ),
    (
        "(atomix 3 2\n(row A..)\n(row #.B)\n(want A)\n(want B)\n)\n",
        3,
        (Verdict::TableFull, 1, 3),
        &[],
    ),
    (
        "(atomix 4 2\n(row A..#)\n(row ..B.)\n(want AB)\n)\n",
        64,
        (Verdict::Solved(2), 7, 14),
        &[1, 3],
    ),
    (
        "(atomix 4 2\n(row A..#)\n(row ..B.)\n(want AB)\n)\n",
        14,
        (Verdict::Solved(2), 7, 14),
        &[1, 3],
    ),
    (
        "(atomix 4 2\n(row A..#)\n(row ..B.)\n(want AB)\n)\n",
        13,
        (Verdict::TableFull, 4, 13),
        &[],
    ),
    (
        "(atomix 3 1\n(row A.B)\n(want BA)\n)\n",
        3,
        (Verdict::Unsolvable, 3, 3),
        &[],
    ),
    (
        "(atomix 3 1\n(row A.B)\n(want BA)\n)\n",
        64,
        (Verdict::Unsolvable, 3, 3),
        &[],
    ),
    (
        "(atomix 3 1\n(row A.B)\n(want BA)\n)\n",
        2,
        (Verdict::TableFull, 1, 2),
        &[],
    ),
    (
        "(atomix 3 1\n(row A.B)\n(want BA)\n)\n",
        1,
        (Verdict::TableFull, 1, 1),
        &[],
    ),
    (
        "(atomix 1 1\n(row A)\n(want A)\n)\n",
        1,
        (Verdict::Solved(0), 1, 1),
        &[],
    ),
    (
        "(atomix 1 1\n(row A)\n(want A)\n)\n",
        64,
        (Verdict::Solved(0), 1, 1),
        &[],
    ),
];

#[test]
fn ends(rt: HostRuntime) -> Result<(), Refusal> {
    for (text, places, due, moves) in ENDS {
        let places = places.min(ROOM);
        match read_level(text.as_bytes())? {
            Level::Tiles(level) => {
                let mut table = [NO_TILES; ROOM];
                ends_so(&rt, &level, &mut table[..places], due, moves, text);
            }
            Level::Atoms(level) => {
                let mut table = [NO_ATOMS; ROOM];
                ends_so(&rt, &level, &mut table[..places], due, moves, text);
            }
        }
    }
    Ok(())
}

// Levels of one kind: a search that was opened for the first is handed the second.
static OTHERS: [(&str, &str); 8] = [
    (
        "(tiles 2 2\n(row 0 3)\n(row 2 1)\n)\n",
        "(tiles 2 2\n(row 2 1)\n(row 3 0)\n)\n",
    ),
    (
        "(tiles 2 2\n(row 2 1)\n(row 3 0)\n)\n",
        "(tiles 2 2\n(row 0 3)\n(row 2 1)\n)\n",
    ),
    (
        "(tiles 2 2\n(row 0 3)\n(row 2 1)\n)\n",
        "(tiles 3 3\n(row 8 1 3)\n(row 4 0 2)\n(row 7 6 5)\n)\n",
    ),
    (
        "(tiles 3 3\n(row 8 1 3)\n(row 4 0 2)\n(row 7 6 5)\n)\n",
        "(tiles 2 2\n(row 0 3)\n(row 2 1)\n)\n",
    ),
    (
        "(atomix 1 1\n(row A)\n(want A)\n)\n",
        "(atomix 4 2\n(row A..#)\n(row ..B.)\n(want AB)\n)\n",
    ),
    (
        "(atomix 4 2\n(row A..#)\n(row ..B.)\n(want AB)\n)\n",
        "(atomix 1 1\n(row A)\n(want A)\n)\n",
    ),
    (
        "(atomix 4 2\n(row A..#)\n(row ..B.)\n(want AB)\n)\n",
        "(atomix 3 1\n(row A.B)\n(want BA)\n)\n",
    ),
    (
        "(atomix 3 1\n(row A.B)\n(want BA)\n)\n",
        "(atomix 3 2\n(row A..)\n(row #.B)\n(want A)\n(want B)\n)\n",
    ),
];

#[test]
fn ends_safely_on_other_levels(rt: HostRuntime) -> Result<(), Refusal> {
    for (text, other) in OTHERS {
        match (read_level(text.as_bytes())?, read_level(other.as_bytes())?) {
            (Level::Tiles(opened), Level::Tiles(handed)) => {
                let mut table = [NO_TILES; ROOM];
                ends_safely(&rt, &opened, &handed, &mut table, text);
            }
            (Level::Atoms(opened), Level::Atoms(handed)) => {
                let mut table = [NO_ATOMS; ROOM];
                ends_safely(&rt, &opened, &handed, &mut table, text);
            }
            _ => panic!(rt; "levels of two kinds"),
        }
    }
    Ok(())
}
