//! Each level with its answer.
use answers::Workspace;
use judgement::judge_texts;
use std::alloc::Global;
use std::process::Abort;

/// What is answered for a level.
#[derive(Clone, Copy, Debug)]
enum Answer {
    /// A way that the judge accepts, of so many moves.
    Way(u32),
    /// This text.
    Text(&'static str),
}

const NONE: Answer = Answer::Text("(none)\n");

const FULL: Answer = Answer::Text("(full)\n");

fn new_workspace(rt: &impl Abort, heap: Global) -> Workspace {
    Workspace::new(heap).expect(rt, "there is memory")
}

// Each level is answered as its row says, one after the other in one workspace.
fn answered_so(rt: &impl Abort, workspace: &mut Workspace, rows: &[(&str, Answer)]) {
    for (level, due) in rows {
        let answer = workspace.answer(level.as_bytes());
        match due {
            Answer::Way(moves) => assert_eq!(rt;
                judge_texts(level.as_bytes(), answer).ok(),
                Some(*moves),
                "{level}"
            ),
            Answer::Text(text) => assert!(rt; answer == text.as_bytes(), "{level}"),
        }
    }
}

static TILES: [(&str, Answer); 14] = [
    ("(tiles 2 2\n(row 1 2)\n(row 3 0)\n)\n", Answer::Way(0)),
    (
        "(tiles 2 2\n(row 1 2)\n(row 0 3)\n)\n",
        Answer::Text("(way 1\n(move right)\n)\n"),
    ),
    ("(tiles 2 2\n(row 0 3)\n(row 2 1)\n)\n", Answer::Way(6)),
    ("(tiles 2 2\n(row 2 1)\n(row 3 0)\n)\n", NONE),
    ("(tiles 3 2\n(row 1 2 3)\n(row 4 0 5)\n)\n", Answer::Way(1)),
    ("(tiles 3 2\n(row 2 1 3)\n(row 4 5 0)\n)\n", NONE),
    (
        "(tiles 3 3\n(row 1 2 3)\n(row 4 0 6)\n(row 7 5 8)\n)\n",
        Answer::Way(2),
    ),
    (
        "(tiles 3 3\n(row 1 2 3)\n(row 4 5 6)\n(row 0 7 8)\n)\n",
        Answer::Way(2),
    ),
    (
        "(tiles 3 3\n(row 2 1 3)\n(row 4 5 6)\n(row 7 8 0)\n)\n",
        FULL,
    ),
    (
        "(tiles 3 3\n(row 8 6 7)\n(row 2 5 4)\n(row 3 0 1)\n)\n",
        FULL,
    ),
    (
        "(tiles 4 4\n(row 1 2 3 4)\n(row 5 6 0 8)\n(row 9 10 7 12)\n(row 13 14 11 15)\n)\n",
        Answer::Way(3),
    ),
    (
        "(tiles 4 4\n(row 1 2 3 4)\n(row 5 6 7 8)\n(row 9 10 11 12)\n(row 13 15 14 0)\n)\n",
        FULL,
    ),
    // Long ways.
    (
        "(tiles 3 3\n(row 2 6 0)\n(row 5 3 1)\n(row 8 7 4)\n)\n",
        Answer::Way(20),
    ),
    (
        "(tiles 3 3\n(row 1 0 6)\n(row 7 8 3)\n(row 5 4 2)\n)\n",
        Answer::Way(23),
    ),
];

#[test]
fn answers_tiles(rt: HostRuntime) {
    answered_so(&rt, &mut new_workspace(&rt, rt.alloc()), &TILES);
}

static ATOMS: [(&str, Answer); 11] = [
    (
        "(atomix 3 2\n(row A..)\n(row #.B)\n(want A)\n(want B)\n)\n",
        Answer::Text("(way 1\n(move 0 0 right)\n)\n"),
    ),
    (
        "(atomix 4 2\n(row A..#)\n(row ..B.)\n(want AB)\n)\n",
        Answer::Way(2),
    ),
    ("(atomix 3 1\n(row A.B)\n(want BA)\n)\n", NONE),
    (
        "(atomix 1 1\n(row A)\n(want A)\n)\n",
        Answer::Text("(way 0\n)\n"),
    ),
    // No goal place: the molecule is larger than the board, or no cells are free for it.
    ("(atomix 2 1\n(row AB)\n(want A)\n(want B)\n)\n", NONE),
    ("(atomix 2 2\n(row A#)\n(row #B)\n(want AB)\n)\n", NONE),
    // Equal atoms may change places.
    ("(atomix 3 1\n(row A.A)\n(want AA)\n)\n", Answer::Way(1)),
    // More positions than the table has places.
    (
        "(atomix 8 8\n(row A.......)\n(row .B......)\n(row ..C.....)\n(row ...D....)\n(row ........)\n(row ........)\n(row ........)\n(row ........)\n(want A..B)\n(want C..D)\n)\n",
        FULL,
    ),
    (
        "(atomix 16 1\n(row A..............B)\n(want AB)\n)\n",
        Answer::Way(1),
    ),
    // A long way.
    (
        "(atomix 5 8\n(row .#...)\n(row ...#.)\n(row .###.)\n(row ..##.)\n(row ..#..)\n(row .#B..)\n(row ...#.)\n(row A#...)\n(want AB)\n)\n",
        Answer::Way(24),
    ),
    // The longest text of a level.
    (
        "(atomix 16 16\n(row ...............A)\n(row ................)\n(row ................)\n(row ................)\n(row ................)\n(row ................)\n(row ................)\n(row ................)\n(row ................)\n(row ................)\n(row ................)\n(row ................)\n(row ................)\n(row ................)\n(row ................)\n(row B...............)\n(want A...............)\n(want ................)\n(want ................)\n(want ................)\n(want ................)\n(want ................)\n(want ................)\n(want ................)\n(want ................)\n(want ................)\n(want ................)\n(want ................)\n(want ................)\n(want ................)\n(want ................)\n(want ...............B)\n)\n",
        Answer::Way(2),
    ),
];

#[test]
fn answers_atoms(rt: HostRuntime) {
    answered_so(&rt, &mut new_workspace(&rt, rt.alloc()), &ATOMS);
}

// Books of 32,258, 32,768 and 33,282 bytes: the last is too long, and its level is searched bare. Bare, none of the three
// is settled, and the last has no way either.
static BOOKS: [(&str, Answer); 5] = [
    (
        "(atomix 16 16\n(row .#####..##.#...#)\n(row #..######..####.)\n(row #.#####.##.####.)\n(row ...#..#....##...)\n(row ##.####......#.#)\n(row ..##......#....#)\n(row #....###A#####..)\n(row ..#....#.##..##.)\n(row .#..#.#.#.#.###.)\n(row ##..####.##...##)\n(row ...####.##......)\n(row ..#.##..####.###)\n(row ..####.###.#....)\n(row B.##.####..#..##)\n(row #.###.##..##..##)\n(row ...#.....###...#)\n(want ..........A)\n(want ...........)\n(want ...........)\n(want ...........)\n(want ...........)\n(want ...........)\n(want ...........)\n(want ...........)\n(want ...........)\n(want ...........)\n(want ...........)\n(want ...........)\n(want ...........)\n(want ...........)\n(want B..........)\n)\n",
        Answer::Way(30),
    ),
    (
        "(atomix 16 16\n(row ######..###.####)\n(row ..##.#.......##.)\n(row #.##.####.##.##.)\n(row ###.#.....#.#...)\n(row ######.###.#...#)\n(row ##...#..###..#..)\n(row ###..###......##)\n(row ..##.#...####.##)\n(row ###...#.##...###)\n(row ...#....#......#)\n(row ....#.#..##..#..)\n(row ##...###B.#..##.)\n(row .#.......A...#..)\n(row ##..##.####.##.#)\n(row .##.#.#..#.###.#)\n(row .#.###.#.#.#####)\n(want ...............A)\n(want ................)\n(want ................)\n(want ................)\n(want ................)\n(want ................)\n(want ................)\n(want ................)\n(want ................)\n(want ................)\n(want B...............)\n)\n",
        NONE,
    ),
    (
        "(atomix 16 16\n(row #.#..#..#.#...#.)\n(row #.##..####.#####)\n(row .##..#..####.###)\n(row ##.##..#.##..#..)\n(row ..##..A.#...#..#)\n(row #.....#...##.#..)\n(row ...##.####.####.)\n(row ####..##..#.##..)\n(row .##..###....#.#.)\n(row B.....#####.#.#.)\n(row ##.#..###.....#.)\n(row .#...#..##.##..#)\n(row #..###.#.#.##.#.)\n(row #.##.##..#.#####)\n(row #.....#####.#.#.)\n(row ..#...####....#.)\n(want A...............)\n(want ................)\n(want ................)\n(want ................)\n(want ................)\n(want ................)\n(want ................)\n(want ................)\n(want ................)\n(want ................)\n(want ...............B)\n)\n",
        FULL,
    ),
    // More positions than the table has places can be reached, but few are needed with a book.
    (
        "(atomix 9 4\n(row #.##.##..)\n(row #..##.O..)\n(row #H....C.#)\n(row ##.#...BO)\n(want .BH)\n(want OOC)\n)\n",
        Answer::Way(8),
    ),
    (
        "(atomix 4 7\n(row ...#)\n(row #...)\n(row ###D)\n(row .#.C)\n(row ..CC)\n(row BH..)\n(row #..#)\n(want .C..)\n(want BCCD)\n(want ..H.)\n)\n",
        Answer::Way(9),
    ),
];

#[test]
fn answers_with_books(rt: HostRuntime) {
    answered_so(&rt, &mut new_workspace(&rt, rt.alloc()), &BOOKS);
}

static FAULTS: [(&str, Answer); 11] = [
    // The first line has the keyword of no kind.
    ("(park\n)\n", Answer::Text("(fault 12 1)\n")),
    ("(atomix2 2 2\n", Answer::Text("(fault 12 1)\n")),
    ("tiles 2 2\n", Answer::Text("(fault 12 1)\n")),
    ("(park\n)", Answer::Text("(fault 11 0)\n")),
    ("", Answer::Text("(fault 11 0)\n")),
    ("\n", Answer::Text("(fault 12 1)\n")),
    ("(tiles 5 4\n", Answer::Text("(fault 13 1)\n")),
    ("(tiles 2 2\n(row 1 4)\n", Answer::Text("(fault 14 2)\n")),
    (
        "(atomix 1 1\n(row A)\n(want B)\n)\n",
        Answer::Text("(fault 17 4)\n"),
    ),
    (
        "(tiles 2 2\n(row 1 1)\n(row 2 3)\n)\n",
        Answer::Text("(fault 18 4)\n"),
    ),
    (
        "(tiles 2 2\n(row 1 2)\n(row 3 0)\n)\n\n",
        Answer::Text("(fault 12 5)\n"),
    ),
];

#[test]
fn answers_faults(rt: HostRuntime) {
    answered_so(&rt, &mut new_workspace(&rt, rt.alloc()), &FAULTS);
}

#[test]
fn answers_all_kinds_in_turn(rt: HostRuntime) {
    let mut workspace = new_workspace(&rt, rt.alloc());
    answered_so(&rt, &mut workspace, &ATOMS);
    answered_so(&rt, &mut workspace, &BOOKS);
    answered_so(&rt, &mut workspace, &FAULTS);
    answered_so(&rt, &mut workspace, &TILES);
}

// The most bytes that a text may have.
const MOST_BYTES: usize = 4_096;

const FINISHED: &str = "(tiles 2 2\n(row 1 2)\n(row 3 0)\n)\n";

// A level and one long line after it, which ends with the longest text; and one line end more, which is too much.
#[test]
fn answers_long_texts(rt: HostRuntime) {
    let mut text = [b'x'; MOST_BYTES + 1];
    text[..FINISHED.len()].copy_from_slice(FINISHED.as_bytes());
    text[MOST_BYTES - 1] = b'\n';
    text[MOST_BYTES] = b'\n';
    let mut workspace = new_workspace(&rt, rt.alloc());
    assert!(&rt; workspace.answer(&text[..MOST_BYTES]) == "(fault 12 5)\n".as_bytes());
    assert!(&rt; workspace.answer(&text) == "(fault 11 0)\n".as_bytes());
}
