//! Tile levels and their ways.
use crate::said::{Said, judge_level, judged_so, writes_back, written_so};
use judgement::judge_texts;
use refusals::Refusal;
use tiles::{read_level, write_level};

const RING: &str = "(tiles 2 2\n(row 0 3)\n(row 2 1)\n)\n";

const FINISHED: &str = "(tiles 2 2\n(row 1 2)\n(row 3 0)\n)\n";

// What is said of a way for the level RING.
fn judge_way(way: &str) -> Result<u32, Refusal> {
    judge_texts(RING.as_bytes(), way.as_bytes())
}

// What is said of a way for the level FINISHED.
fn judge_afterwards(way: &str) -> Result<u32, Refusal> {
    judge_texts(FINISHED.as_bytes(), way.as_bytes())
}

// Levels that are taken, and bytes that are no text.
static TEXTS: [(&str, Said<u32>); 12] = [
    ("(tiles 2 2\n(row 0 3)\n(row 2 1)\n)\n", Err((45, 2))),
    (
        "(tiles 3 3\n(row 1 2 3)\n(row 4 5 6)\n(row 7 0 8)\n)\n",
        Err((45, 2)),
    ),
    (
        "(tiles 4 4\n(row 1 2 3 4)\n(row 5 6 7 8)\n(row 9 10 11 12)\n(row 13 14 0 15)\n)\n",
        Err((45, 2)),
    ),
    (
        "(tiles 2 4\n(row 1 2)\n(row 3 4)\n(row 5 6)\n(row 7 0)\n)\n",
        Ok(0),
    ),
    ("(tiles 4 2\n(row 1 2 3 4)\n(row 5 6 7 0)\n)\n", Ok(0)),
    ("", Err((11, 0))),
    ("(tiles 2 2\n(row 0 3)\n(row 2 1)\n)", Err((11, 0))),
    ("(tiles 2 2\n(row 0\t3)\n(row 2 1)\n)\n", Err((11, 0))),
    ("(tiles 2 2\n(row 0 \u{7f})\n(row 2 1)\n)\n", Err((11, 0))),
    ("(tiles 2 2\n(row 0 é)\n(row 2 1)\n)\n", Err((11, 0))),
    ("(", Err((11, 0))),
    ("(tiles 2 2\r\n", Err((11, 0))),
];

#[test]
fn reads_texts(rt: HostRuntime) {
    judged_so(&rt, &TEXTS, judge_level);
}

// Levels out of form at the head or the first row.
static HEADS: [(&str, Said<u32>); 18] = [
    ("\n", Err((12, 1))),
    ("(tile 2 2\n", Err((12, 1))),
    ("(Tiles 2 2\n", Err((12, 1))),
    (" (tiles 2 2\n", Err((12, 1))),
    ("( tiles 2 2\n", Err((12, 1))),
    ("(tiles\n", Err((12, 1))),
    ("(tiles 2\n", Err((12, 1))),
    ("(tiles 2 2)\n", Err((12, 1))),
    ("(tiles  2 2\n", Err((12, 1))),
    ("(tiles 2  2\n", Err((12, 1))),
    ("(tiles 2 2 \n", Err((12, 1))),
    ("(tiles 2 2 2\n", Err((12, 1))),
    ("(tiles 02 2\n", Err((12, 1))),
    ("(tiles 2 00\n", Err((12, 1))),
    ("(tiles 100 2\n", Err((12, 1))),
    ("(tiles 2 -2\n", Err((12, 1))),
    ("(tiles 2 2\n", Err((12, 2))),
    ("(tiles 2 2\n)\n", Err((12, 2))),
];

#[test]
fn reads_heads(rt: HostRuntime) {
    judged_so(&rt, &HEADS, judge_level);
}

// Levels out of form further on.
static ROWS: [(&str, Said<u32>); 19] = [
    ("(tiles 2 2\n(row)\n", Err((12, 2))),
    ("(tiles 2 2\n(row )\n", Err((12, 2))),
    ("(tiles 2 2\n(rows 0 3)\n", Err((12, 2))),
    ("(tiles 2 2\n(row 0 3\n", Err((12, 2))),
    ("(tiles 2 2\n row 0 3)\n", Err((12, 2))),
    ("(tiles 2 2\n(row 0 (3)\n", Err((12, 2))),
    ("(tiles 2 2\n(row 0 3))\n", Err((12, 2))),
    ("(tiles 2 2\n(row 0 3) \n", Err((12, 2))),
    ("(tiles 2 2\n(row 0 3)\n", Err((12, 3))),
    ("(tiles 2 2\n(row 0 3)\n)\n", Err((12, 3))),
    ("(tiles 2 2\n(row 0 3)\n\n(row 2 1)\n)\n", Err((12, 3))),
    ("(tiles 2 2\n(row 0 3)\n(row 2 1)\n", Err((12, 4))),
    (
        "(tiles 2 2\n(row 0 3)\n(row 2 1)\n(row 2 1)\n)\n",
        Err((12, 4)),
    ),
    ("(tiles 2 2\n(row 0 3)\n(row 2 1)\n))\n", Err((12, 4))),
    ("(tiles 2 2\n(row 0 3)\n(row 2 1)\n )\n", Err((12, 4))),
    ("(tiles 2 2\n(row 0 3)\n(row 2 1)\n)\n\n", Err((12, 5))),
    ("(tiles 2 2\n(row 0 3)\n(row 2 1)\n)\n)\n", Err((12, 5))),
    (
        "(tiles 2 2\n(row 0 3)\n(row 2 1)\n)\n(tiles 2 2\n(row 0 3)\n(row 2 1)\n)\n",
        Err((12, 5)),
    ),
    ("(tiles 2 2\n(row 0 1)\n(row 1 2)\n)\n)\n", Err((12, 5))),
];

#[test]
fn reads_rows(rt: HostRuntime) {
    judged_so(&rt, &ROWS, judge_level);
}

// Levels in form with a wrong size, a wrong row or wrong numbers.
static BOARDS: [(&str, Said<u32>); 26] = [
    ("(tiles 1 2\n", Err((13, 1))),
    ("(tiles 2 1\n", Err((13, 1))),
    ("(tiles 0 0\n", Err((13, 1))),
    ("(tiles 5 4\n", Err((13, 1))),
    ("(tiles 4 5\n", Err((13, 1))),
    ("(tiles 99 2\n", Err((13, 1))),
    ("(tiles 1 2\n(row x)\n", Err((13, 1))),
    ("(tiles 2 2\n(row 0)\n", Err((14, 2))),
    ("(tiles 2 2\n(row 0 1 2)\n", Err((14, 2))),
    ("(tiles 2 2\n(row  0 3)\n", Err((14, 2))),
    ("(tiles 2 2\n(row 0  3)\n", Err((14, 2))),
    ("(tiles 2 2\n(row 0 3 )\n", Err((14, 2))),
    ("(tiles 2 2\n(row 00 3)\n", Err((14, 2))),
    ("(tiles 2 2\n(row 0 03)\n", Err((14, 2))),
    ("(tiles 2 2\n(row 0 4)\n", Err((14, 2))),
    ("(tiles 2 2\n(row A B)\n", Err((14, 2))),
    ("(tiles 2 2\n(row [ ])\n", Err((14, 2))),
    ("(tiles 2 2\n(row 0 10000000)\n", Err((14, 2))),
    ("(tiles 2 2\n(row 0 18446744073709551617)\n", Err((14, 2))),
    ("(tiles 2 2\n(row 0 3)\n(row 2 4)\n)\n", Err((14, 3))),
    (
        "(tiles 3 3\n(row 1 2 3)\n(row 4 5 9)\n(row 7 0 8)\n)\n",
        Err((14, 3)),
    ),
    (
        "(tiles 4 4\n(row 1 2 3 4)\n(row 5 6 7 8)\n(row 9 10 11 12)\n(row 13 14 0 16)\n)\n",
        Err((14, 5)),
    ),
    ("(tiles 2 2\n(row 0 1)\n(row 1 2)\n)\n", Err((18, 4))),
    ("(tiles 2 2\n(row 0 0)\n(row 0 0)\n)\n", Err((18, 4))),
    (
        "(tiles 3 3\n(row 1 2 3)\n(row 4 5 6)\n(row 7 7 8)\n)\n",
        Err((18, 5)),
    ),
    (
        "(tiles 4 4\n(row 1 2 3 4)\n(row 5 6 7 8)\n(row 9 10 11 12)\n(row 13 14 15 15)\n)\n",
        Err((18, 6)),
    ),
];

#[test]
fn reads_boards(rt: HostRuntime) {
    judged_so(&rt, &BOARDS, judge_level);
}

// Ways out of form.
static FORMS: [(&str, Said<u32>); 33] = [
    ("", Err((41, 1))),
    ("\n", Err((41, 1))),
    ("(way 6", Err((41, 1))),
    ("(way\n", Err((41, 1))),
    ("(way 06\n", Err((41, 1))),
    ("(way 6)\n", Err((41, 1))),
    ("(way  6\n", Err((41, 1))),
    ("(way 6 \n", Err((41, 1))),
    ("(way 10000000\n)\n", Err((41, 1))),
    ("(way 99999999\n)\n", Err((41, 1))),
    ("(Way 6\n", Err((41, 1))),
    (
        "(way 5\n(move right)\n(move down)\n(move left)\n(move up)\n(move right)\n(move down)\n)\n",
        Err((41, 1)),
    ),
    (
        "(way 7\n(move right)\n(move down)\n(move left)\n(move up)\n(move right)\n(move down)\n)\n",
        Err((41, 1)),
    ),
    (
        "(way 0\n(move right)\n(move down)\n(move left)\n(move up)\n(move right)\n(move down)\n)\n",
        Err((41, 1)),
    ),
    ("(way 0\n", Err((41, 2))),
    ("(way 0\n)", Err((41, 2))),
    ("(way 1\n)\n", Err((41, 1))),
    (
        "(way 6\n(move right)\n(move down)\n(move left)\n(move up)\n(move right)\n(move down)\n)",
        Err((41, 8)),
    ),
    (
        "(way 6\n(move right)\n(move down)\n(move left)\n(move up)\n(move right)\n(move down)\n",
        Err((41, 8)),
    ),
    (
        "(way 6\n(move right)\n(move down)\n(move left)\n(move up)\n(move right)\n(move down)\n)\n\n",
        Err((41, 9)),
    ),
    (
        "(way 6\n(move right)\n(move down)\n(move left)\n(move up)\n(move right)\n(move down)\n)\n ",
        Err((41, 9)),
    ),
    (
        "(way 6\n(move right)\n(move down)\n(move left)\n(move up)\n(move right)\n(move down)\n)\n)\n",
        Err((41, 9)),
    ),
    (
        "(way 6\n(move Right)\n(move down)\n(move left)\n(move up)\n(move right)\n(move down)\n)\n",
        Err((41, 2)),
    ),
    (
        "(way 6\n(move right)\n(move down)\n(move left )\n(move up)\n(move right)\n(move down)\n)\n",
        Err((41, 4)),
    ),
    (
        "(way 6\n(move right)\n(move down)\n(move  left)\n(move up)\n(move right)\n(move down)\n)\n",
        Err((41, 4)),
    ),
    (
        "(way 6\n(move right)\n(move down)\n(move)\n(move up)\n(move right)\n(move down)\n)\n",
        Err((41, 4)),
    ),
    (
        "(way 6\n(move right)\n(move down)\n(move left\n(move up)\n(move right)\n(move down)\n)\n",
        Err((41, 4)),
    ),
    (
        "(way 6\n(move right)\n(move down)\n(move left right)\n(move up)\n(move right)\n(move down)\n)\n",
        Err((41, 4)),
    ),
    (
        "(way 6\n(move right)\n(move down)\n(move 0 0 left)\n(move up)\n(move right)\n(move down)\n)\n",
        Err((41, 4)),
    ),
    (
        "(way 6\n(move right)\n(move down)\n(move léft)\n(move up)\n(move right)\n(move down)\n)\n",
        Err((41, 4)),
    ),
    (
        "(way 6\n(move right)\n(move down)\n(move left)\n(move up)\n(move right)\n(move down))\n)\n",
        Err((41, 7)),
    ),
    (
        "(way 6\r\n(move right)\r\n(move down)\r\n(move left)\r\n(move up)\r\n(move right)\r\n(move down)\r\n)\r\n",
        Err((41, 1)),
    ),
    (
        "(way 8\n(move right)\n(move down)\n(move left)\n(move up)\n(move right)\n(move down)\n(move left)\n(move bad)\n)\n",
        Err((41, 9)),
    ),
];

#[test]
fn judges_forms(rt: HostRuntime) {
    judged_so(&rt, &FORMS, judge_way);
}

// Ways in form.
static MOVES: [(&str, Said<u32>); 11] = [
    (
        "(way 6\n(move right)\n(move down)\n(move left)\n(move up)\n(move right)\n(move down)\n)\n",
        Ok(6),
    ),
    ("(way 0\n)\n", Err((45, 2))),
    (
        "(way 7\n(move up)\n(move right)\n(move down)\n(move left)\n(move up)\n(move right)\n(move down)\n)\n",
        Err((43, 2)),
    ),
    (
        "(way 7\n(move right)\n(move down)\n(move down)\n(move left)\n(move up)\n(move right)\n(move down)\n)\n",
        Err((43, 4)),
    ),
    (
        "(way 6\n(move right)\n(move down)\n(move left)\n(move up)\n(move right)\n(move up)\n)\n",
        Err((43, 7)),
    ),
    (
        "(way 7\n(move right)\n(move down)\n(move left)\n(move up)\n(move right)\n(move down)\n(move up)\n)\n",
        Err((44, 8)),
    ),
    (
        "(way 7\n(move right)\n(move down)\n(move left)\n(move up)\n(move right)\n(move down)\n(move down)\n)\n",
        Err((43, 8)),
    ),
    (
        "(way 5\n(move right)\n(move down)\n(move left)\n(move up)\n(move right)\n)\n",
        Err((45, 7)),
    ),
    ("(way 1\n(move right)\n)\n", Err((45, 3))),
    (
        "(way 14\n(move right)\n(move down)\n(move left)\n(move up)\n(move right)\n(move down)\n(move left)\n(move up)\n(move right)\n(move down)\n(move left)\n(move up)\n(move right)\n(move down)\n)\n",
        Err((44, 8)),
    ),
    (
        "(way 12\n(move down)\n(move right)\n(move up)\n(move left)\n(move down)\n(move right)\n(move up)\n(move left)\n(move down)\n(move right)\n(move up)\n(move left)\n)\n",
        Err((44, 8)),
    ),
];

#[test]
fn judges_moves(rt: HostRuntime) {
    judged_so(&rt, &MOVES, judge_way);
}

// Ways from a position that is finished.
static AFTERWARDS: [(&str, Said<u32>); 6] = [
    ("(way 0\n)\n", Ok(0)),
    ("(way 1\n(move up)\n)\n", Err((44, 2))),
    ("(way 1\n(move down)\n)\n", Err((43, 2))),
    ("(way 2\n(move up)\n(move down)\n)\n", Err((44, 2))),
    ("(way 1\n)\n", Err((41, 1))),
    ("(way 0\n)\n)\n", Err((41, 3))),
];

#[test]
fn judges_afterwards(rt: HostRuntime) {
    judged_so(&rt, &AFTERWARDS, judge_afterwards);
}

static GOOD: [&str; 5] = [
    "(tiles 2 2\n(row 0 3)\n(row 2 1)\n)\n",
    "(tiles 3 3\n(row 1 2 3)\n(row 4 5 6)\n(row 7 0 8)\n)\n",
    "(tiles 4 4\n(row 1 2 3 4)\n(row 5 6 7 8)\n(row 9 10 11 12)\n(row 13 14 0 15)\n)\n",
    "(tiles 2 4\n(row 1 2)\n(row 3 4)\n(row 5 6)\n(row 7 0)\n)\n",
    "(tiles 4 2\n(row 1 2 3 4)\n(row 5 6 7 0)\n)\n",
];

#[test]
fn writes_levels(rt: HostRuntime) {
    for text in &GOOD {
        writes_back(&rt, text, |text, out| write_level(&read_level(text)?, out));
    }
}

// Move numbers for the level RING, the room for their way, what is said, and the text.
static WRITTEN: [(&[u32], usize, Said<usize>, &str); 13] = [
    (&[], 9, Ok(9), "(way 0\n)\n"),
    (&[], 8, Err((21, 0)), ""),
    (&[3], 22, Ok(22), "(way 1\n(move right)\n)\n"),
    (&[3], 21, Err((21, 0)), ""),
    (
        &[3, 1, 2, 0],
        56,
        Ok(56),
        "(way 4\n(move right)\n(move down)\n(move left)\n(move up)\n)\n",
    ),
    (
        &[3, 1, 2, 0],
        128,
        Ok(56),
        "(way 4\n(move right)\n(move down)\n(move left)\n(move up)\n)\n",
    ),
    (&[3, 1, 2, 0], 55, Err((21, 0)), ""),
    (&[0], 128, Err((43, 2)), ""),
    (&[2, 3, 1, 2], 128, Err((43, 2)), ""),
    (&[3, 1, 1, 2], 128, Err((43, 4)), ""),
    (&[3, 1, 2, 2], 0, Err((43, 5)), ""),
    (&[4], 128, Err((43, 2)), ""),
    (&[3, 4294967295], 128, Err((43, 3)), ""),
];

#[test]
fn writes_ways(rt: HostRuntime) -> Result<(), Refusal> {
    let level = read_level(RING.as_bytes())?;
    for (moves, room, due, text) in &WRITTEN {
        written_so(&rt, &level, moves, *room, *due, text);
    }
    Ok(())
}
