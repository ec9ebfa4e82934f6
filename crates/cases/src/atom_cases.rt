//! Atom levels and their ways.
use crate::said::{Said, judge_level, judged_so, said, writes_back, written_so};
use atoms::{read_level, write_level};
use judgement::judge_texts;
use refusals::Refusal;

const SHELF: &str = "(atomix 3 2\n(row A..)\n(row #.B)\n(want A)\n(want B)\n)\n";

// What is said of a way for the level SHELF.
fn judge_way(way: &str) -> Result<u32, Refusal> {
    judge_texts(SHELF.as_bytes(), way.as_bytes())
}

// Levels that are taken, at their limits.
static LEVELS: [(&str, Said<u32>); 22] = [
    ("(atomix 1 1\n(row A)\n(want A)\n)\n", Ok(0)),
    ("(atomix 1 1\n(row Z)\n(want Z)\n)\n", Ok(0)),
    ("(atomix 2 1\n(row A.)\n(want A)\n)\n", Ok(0)),
    (
        "(atomix 1 16\n(row A)\n(row .)\n(row .)\n(row .)\n(row .)\n(row .)\n(row .)\n(row .)\n(row .)\n(row .)\n(row .)\n(row .)\n(row .)\n(row .)\n(row .)\n(row #)\n(want A)\n)\n",
        Ok(0),
    ),
    ("(atomix 16 1\n(row #..............A)\n(want A)\n)\n", Ok(0)),
    (
        "(atomix 16 16\n(row A...............)\n(row .B..............)\n(row ..C.............)\n(row ...D............)\n(row ....E...........)\n(row .....F..........)\n(row ......G.........)\n(row .......H........)\n(row ........I.......)\n(row .........J......)\n(row ..........K.....)\n(row ...........L....)\n(row ............M...)\n(row .............N..)\n(row ..............O.)\n(row ...............P)\n(want A...............)\n(want .B..............)\n(want ..C.............)\n(want ...D............)\n(want ....E...........)\n(want .....F..........)\n(want ......G.........)\n(want .......H........)\n(want ........I.......)\n(want .........J......)\n(want ..........K.....)\n(want ...........L....)\n(want ............M...)\n(want .............N..)\n(want ..............O.)\n(want ...............P)\n)\n",
        Ok(0),
    ),
    (
        "(atomix 16 16\n(row ABCDEFGHIJKLMNOP)\n(row ................)\n(row ................)\n(row ................)\n(row ................)\n(row ................)\n(row ................)\n(row ................)\n(row ................)\n(row ................)\n(row ................)\n(row ................)\n(row ................)\n(row ................)\n(row ................)\n(row ................)\n(want ABCDEFGHIJKLMNOP)\n)\n",
        Ok(0),
    ),
    (
        "(atomix 16 16\n(row ABCDEFGHIJKLMNOP)\n(row ................)\n(row ................)\n(row ................)\n(row ................)\n(row ................)\n(row ................)\n(row ................)\n(row ................)\n(row ................)\n(row ................)\n(row ................)\n(row ................)\n(row ................)\n(row ................)\n(row ................)\n(want ABCDEFGH)\n(want IJKLMNOP)\n)\n",
        Err((45, 2)),
    ),
    (
        "(atomix 4 4\n(row AAAA)\n(row AAAA)\n(row AAAA)\n(row AAAA)\n(want AAAA)\n(want AAAA)\n(want AAAA)\n(want AAAA)\n)\n",
        Ok(0),
    ),
    (
        "(atomix 4 4\n(row AAAA)\n(row AAAA)\n(row AAAA)\n(row AAAA)\n(want AAAAAAAAAAAAAAAA)\n)\n",
        Err((45, 2)),
    ),
    (
        "(atomix 4 4\n(row AAAA)\n(row AAAA)\n(row AAAA)\n(row AAAA)\n(want A)\n(want A)\n(want A)\n(want A)\n(want A)\n(want A)\n(want A)\n(want A)\n(want A)\n(want A)\n(want A)\n(want A)\n(want A)\n(want A)\n(want A)\n(want A)\n)\n",
        Err((45, 2)),
    ),
    (
        "(atomix 3 2\n(row A..)\n(row #.B)\n(want A)\n(want B)\n)\n",
        Err((45, 2)),
    ),
    (
        "(atomix 4 2\n(row A..#)\n(row ..B.)\n(want AB)\n)\n",
        Err((45, 2)),
    ),
    ("(atomix 3 1\n(row A.B)\n(want BA)\n)\n", Err((45, 2))),
    ("(atomix 3 1\n(row A.B)\n(want A..B)\n)\n", Err((45, 2))),
    (
        "(atomix 3 1\n(row A.B)\n(want A)\n(want B)\n)\n",
        Err((45, 2)),
    ),
    (
        "(atomix 2 2\n(row A#)\n(row #B)\n(want AB)\n)\n",
        Err((45, 2)),
    ),
    (
        "(atomix 2 2\n(row A.)\n(row .B)\n(want A.)\n(want .B)\n)\n",
        Ok(0),
    ),
    (
        "(atomix 2 2\n(row A.)\n(row .B)\n(want .A)\n(want B.)\n)\n",
        Err((45, 2)),
    ),
    (
        "(atomix 3 3\n(row ###)\n(row #X#)\n(row ###)\n(want X)\n)\n",
        Ok(0),
    ),
    (
        "(atomix 3 3\n(row A#B)\n(row ###)\n(row C#D)\n(want A.B)\n(want ...)\n(want C.D)\n)\n",
        Ok(0),
    ),
    (
        "(atomix 4 2\n(row ....)\n(row .A.B)\n(want A.B)\n)\n",
        Ok(0),
    ),
];

#[test]
fn takes_levels(rt: HostRuntime) {
    judged_so(&rt, &LEVELS, judge_level);
}

// Heads out of form or out of limits, and an early end.
static HEADS: [(&str, Said<u32>); 20] = [
    ("(atomix\n", Err((12, 1))),
    ("(atomix 3\n", Err((12, 1))),
    ("(atomix 3 2)\n", Err((12, 1))),
    ("(atomix  3 2\n", Err((12, 1))),
    ("(atomix 3 2 \n", Err((12, 1))),
    ("(atomix 03 2\n", Err((12, 1))),
    ("(atomix 3 00\n", Err((12, 1))),
    ("(atomix 100 2\n", Err((12, 1))),
    ("(Atomix 3 2\n", Err((12, 1))),
    ("(atomi 3 2\n", Err((12, 1))),
    ("(atomix3 2\n", Err((12, 1))),
    ("(atomix 0 2\n(row A)\n", Err((13, 1))),
    ("(atomix 3 0\n)\n", Err((13, 1))),
    ("(atomix 17 2\n", Err((13, 1))),
    ("(atomix 3 17\n", Err((13, 1))),
    ("(atomix 99 99\n", Err((13, 1))),
    ("(atomix 16 16\n", Err((12, 2))),
    ("(atomix 1 1\n", Err((12, 2))),
    ("(atomix 1 1\n)\n", Err((12, 2))),
    ("(atomix 1 1\n(want A)\n)\n", Err((12, 2))),
];

#[test]
fn reads_heads(rt: HostRuntime) {
    judged_so(&rt, &HEADS, judge_level);
}

// Rows of the board that are out of form or draw no cells.
static ROWS: [(&str, Said<u32>); 23] = [
    (
        "(atomix 3 2\n(row A.)\n(row #.B)\n(want A)\n(want B)\n)\n",
        Err((14, 2)),
    ),
    (
        "(atomix 3 2\n(row A...)\n(row #.B)\n(want A)\n(want B)\n)\n",
        Err((14, 2)),
    ),
    (
        "(atomix 3 2\n(row a..)\n(row #.B)\n(want A)\n(want B)\n)\n",
        Err((14, 2)),
    ),
    (
        "(atomix 3 2\n(row A 0)\n(row #.B)\n(want A)\n(want B)\n)\n",
        Err((14, 2)),
    ),
    (
        "(atomix 3 2\n(row  A..)\n(row #.B)\n(want A)\n(want B)\n)\n",
        Err((14, 2)),
    ),
    (
        "(atomix 3 2\n(row A.. )\n(row #.B)\n(want A)\n(want B)\n)\n",
        Err((14, 2)),
    ),
    (
        "(atomix 3 2\n(row A.[)\n(row #.B)\n(want A)\n(want B)\n)\n",
        Err((14, 2)),
    ),
    (
        "(atomix 3 2\n(row A.@)\n(row #.B)\n(want A)\n(want B)\n)\n",
        Err((14, 2)),
    ),
    (
        "(atomix 3 2\n(row A..)\n(row #.b)\n(want A)\n(want B)\n)\n",
        Err((14, 3)),
    ),
    (
        "(atomix 3 2\n(row A..)\n(row #.*)\n(want A)\n(want B)\n)\n",
        Err((14, 3)),
    ),
    (
        "(atomix 3 2\n(row A..)\n(row #.)\n(want A)\n(want B)\n)\n",
        Err((14, 3)),
    ),
    (
        "(atomix 3 2\n(row )\n(row #.B)\n(want A)\n(want B)\n)\n",
        Err((12, 2)),
    ),
    (
        "(atomix 3 2\n(row)\n(row #.B)\n(want A)\n(want B)\n)\n",
        Err((12, 2)),
    ),
    (
        "(atomix 3 2\n(row A..\n(row #.B)\n(want A)\n(want B)\n)\n",
        Err((12, 2)),
    ),
    (
        "(atomix 3 2\n(row A..))\n(row #.B)\n(want A)\n(want B)\n)\n",
        Err((12, 2)),
    ),
    (
        "(atomix 3 2\n(roW A..)\n(row #.B)\n(want A)\n(want B)\n)\n",
        Err((12, 2)),
    ),
    (
        "(atomix 3 2\n(want A..)\n(row #.B)\n(want A)\n(want B)\n)\n",
        Err((12, 2)),
    ),
    (
        "(atomix 3 2\n(row A..)\n(want #.B)\n(want A)\n(want B)\n)\n",
        Err((12, 3)),
    ),
    (
        "(atomix 3 2\n(row A..)\n(row #.B)\n(row ...)\n(want A)\n(want B)\n)\n",
        Err((12, 4)),
    ),
    (
        "(atomix 3 2\n(row A..)\n(want A)\n(want B)\n)\n",
        Err((12, 3)),
    ),
    (
        "(atomix 3 2\n(row A..)\n\n(row #.B)\n(want A)\n(want B)\n)\n",
        Err((12, 3)),
    ),
    (
        "(atomix 3 2\n(row A.é)\n(row #.B)\n(want A)\n(want B)\n)\n",
        Err((11, 0)),
    ),
    (
        "(atomix 3 2\n(row A.\t)\n(row #.B)\n(want A)\n(want B)\n)\n",
        Err((11, 0)),
    ),
];

#[test]
fn reads_rows(rt: HostRuntime) {
    judged_so(&rt, &ROWS, judge_level);
}

// Rows of the molecule that are out of form or draw none.
static WANTS: [(&str, Said<u32>); 27] = [
    (
        "(atomix 3 2\n(row A..)\n(row #.B)\n(want #)\n(want B)\n)\n",
        Err((15, 4)),
    ),
    (
        "(atomix 3 2\n(row A..)\n(row #.B)\n(want a)\n(want B)\n)\n",
        Err((15, 4)),
    ),
    (
        "(atomix 3 2\n(row A..)\n(row #.B)\n(want A )\n(want B)\n)\n",
        Err((15, 4)),
    ),
    (
        "(atomix 3 2\n(row A..)\n(row #.B)\n(want  A)\n(want B)\n)\n",
        Err((15, 4)),
    ),
    (
        "(atomix 3 2\n(row A..)\n(row #.B)\n(want AAAAAAAAAAAAAAAAA)\n(want B)\n)\n",
        Err((15, 4)),
    ),
    (
        "(atomix 3 2\n(row A..)\n(row #.B)\n(want AAAAAAAAAAAAAAAA)\n(want B)\n)\n",
        Err((15, 5)),
    ),
    (
        "(atomix 3 2\n(row A..)\n(row #.B)\n(want A)\n(want BB)\n)\n",
        Err((15, 5)),
    ),
    (
        "(atomix 3 2\n(row A..)\n(row #.B)\n(want A)\n(want 1)\n)\n",
        Err((15, 5)),
    ),
    (
        "(atomix 3 2\n(row A..)\n(row #.B)\n(want A)\n(want #)\n)\n",
        Err((15, 5)),
    ),
    (
        "(atomix 3 2\n(row A..)\n(row #.B)\n(want A)\n(want )\n)\n",
        Err((12, 5)),
    ),
    (
        "(atomix 3 2\n(row A..)\n(row #.B)\n(want A)\n(want B\n)\n",
        Err((12, 5)),
    ),
    (
        "(atomix 3 2\n(row A..)\n(row #.B)\n(want A)\n(row B)\n)\n",
        Err((12, 5)),
    ),
    (
        "(atomix 3 2\n(row A..)\n(row #.B)\n(wants A)\n(want B)\n)\n",
        Err((12, 4)),
    ),
    ("(atomix 3 2\n(row A..)\n(row #.B)\n)\n", Err((12, 4))),
    ("(atomix 3 2\n(row A..)\n(row #.B)\n", Err((12, 4))),
    (
        "(atomix 3 2\n(row A..)\n(row #.B)\n(want A)\n(want B)\n",
        Err((12, 6)),
    ),
    (
        "(atomix 4 5\n(row AAAA)\n(row AAAA)\n(row AAAA)\n(row AAAA)\n(row A...)\n(want A)\n(want A)\n(want A)\n(want A)\n(want A)\n(want A)\n(want A)\n(want A)\n(want A)\n(want A)\n(want A)\n(want A)\n(want A)\n(want A)\n(want A)\n(want A)\n(want A)\n)\n",
        Err((12, 23)),
    ),
    (
        "(atomix 4 4\n(row AAAA)\n(row AAAA)\n(row AAAA)\n(row AAAA)\n(want A)\n(want A)\n(want A)\n(want A)\n(want A)\n(want A)\n(want A)\n(want A)\n(want A)\n(want A)\n(want A)\n(want A)\n(want A)\n(want A)\n(want A)\n(want A)\n(want #)\n)\n",
        Err((12, 22)),
    ),
    (
        "(atomix 4 4\n(row AAAA)\n(row AAAA)\n(row AAAA)\n(row AAAA)\n(want A)\n(want A)\n(want A)\n(want A)\n(want A)\n(want A)\n(want A)\n(want A)\n(want A)\n(want A)\n(want A)\n(want A)\n(want A)\n(want A)\n(want A)\n(want b)\n)\n",
        Err((15, 21)),
    ),
    (
        "(atomix 3 2\n(row A..)\n(row #.B)\n(want A)\n(want B)\n(row ...)\n)\n",
        Err((12, 6)),
    ),
    (
        "(atomix 3 2\n(row A..)\n(row #.B)\n(want A)\n(want B)\n)\n)\n",
        Err((12, 7)),
    ),
    (
        "(atomix 3 2\n(row A..)\n(row #.B)\n(want A)\n(want B)\n)\n\n",
        Err((12, 7)),
    ),
    (
        "(atomix 3 2\n(row A..)\n(row #.B)\n(want A)\n(want B)\n)\n(atomix 3 2\n(row A..)\n(row #.B)\n(want A)\n(want B)\n)\n",
        Err((12, 7)),
    ),
    (
        "(atomix 3 2\n(row A..)\n(row #.B)\n(want A)\n(want B)\n)",
        Err((11, 0)),
    ),
    (
        "(atomix 3 2\n(row A..)\n(row #.B)\n(want A)\n(want B)\n))\n",
        Err((12, 6)),
    ),
    (
        "(atomix 3 2\n(row A..)\n(row #.B)\n(want A)\n(want B)\n )\n",
        Err((12, 6)),
    ),
    (
        "(atomix 3 2\n(row A..)\n(row #.B)\n(want A)\n(want B)\n(want C\n",
        Err((12, 6)),
    ),
];

#[test]
fn reads_wants(rt: HostRuntime) {
    judged_so(&rt, &WANTS, judge_level);
}

// Levels in form whose molecule has a bare edge or other atoms.
static WHOLES: [(&str, Said<u32>); 18] = [
    (
        "(atomix 3 2\n(row A..)\n(row #.B)\n(want A.)\n(want B.)\n)\n",
        Err((16, 6)),
    ),
    (
        "(atomix 3 2\n(row A..)\n(row #.B)\n(want .A)\n(want .B)\n)\n",
        Err((16, 6)),
    ),
    (
        "(atomix 3 2\n(row A..)\n(row #.B)\n(want A)\n(want B)\n(want .)\n)\n",
        Err((16, 7)),
    ),
    (
        "(atomix 3 2\n(row A..)\n(row #.B)\n(want .)\n(want A)\n(want B)\n)\n",
        Err((16, 7)),
    ),
    ("(atomix 1 1\n(row A)\n(want .)\n)\n", Err((16, 4))),
    (
        "(atomix 3 2\n(row ...)\n(row #.B)\n(want .)\n)\n",
        Err((16, 5)),
    ),
    (
        "(atomix 3 2\n(row A..)\n(row #.B)\n(want A)\n)\n",
        Err((17, 5)),
    ),
    (
        "(atomix 3 2\n(row A..)\n(row #.B)\n(want A)\n(want A)\n)\n",
        Err((17, 6)),
    ),
    (
        "(atomix 3 2\n(row A..)\n(row #.B)\n(want A)\n(want B)\n(want B)\n)\n",
        Err((17, 7)),
    ),
    (
        "(atomix 3 2\n(row A.A)\n(row #.B)\n(want AB)\n)\n",
        Err((17, 5)),
    ),
    (
        "(atomix 3 2\n(row ...)\n(row #..)\n(want A)\n)\n",
        Err((17, 5)),
    ),
    (
        "(atomix 3 2\n(row ...)\n(row #..)\n(want ..)\n)\n",
        Err((16, 5)),
    ),
    (
        "(atomix 4 5\n(row AAAA)\n(row AAAA)\n(row AAAA)\n(row AAAA)\n(row A...)\n(want AAAA)\n(want AAAA)\n(want AAAA)\n(want AAAA)\n)\n",
        Err((17, 11)),
    ),
    (
        "(atomix 4 5\n(row AAAA)\n(row AAAA)\n(row AAAA)\n(row AAAA)\n(row A...)\n(want AAAAAAAAAAAAAAAA)\n(want A...............)\n)\n",
        Err((17, 9)),
    ),
    ("(atomix 2 1\n(row AZ)\n(want ZA)\n)\n", Err((45, 2))),
    ("(atomix 2 1\n(row AZ)\n(want AY)\n)\n", Err((17, 4))),
    (
        "(atomix 3 1\n(row A.B)\n(want A.)\n(want .B)\n)\n\n",
        Err((12, 6)),
    ),
    ("(atomix 3 1\n(row A.B)\n(want C.D.)\n)\n)\n", Err((12, 5))),
];

#[test]
fn reads_wholes(rt: HostRuntime) {
    judged_so(&rt, &WHOLES, judge_level);
}

// Ways for the level SHELF that are out of form.
static FORMS: [(&str, Said<u32>); 24] = [
    ("(way 2\n(move 0 0 right)\n)\n", Err((41, 1))),
    ("(way 0\n(move 0 0 right)\n)\n", Err((41, 1))),
    ("(way 1\n(move 0 0 right)\n", Err((41, 3))),
    ("(way 1\n(move 0 0 right)\n)", Err((41, 3))),
    ("(way 1\n(move 0 0 right)\n)\n\n", Err((41, 4))),
    ("(way 1\n(move 0 0 right)\n)\n ", Err((41, 4))),
    ("(way 1\n(move right)\n)\n", Err((41, 2))),
    ("(way 1\n(move 0 right)\n)\n", Err((41, 2))),
    ("(way 1\n(move 0 0)\n)\n", Err((41, 2))),
    ("(way 1\n(move 0 0 0 right)\n)\n", Err((41, 2))),
    ("(way 1\n(move 00 0 right)\n)\n", Err((41, 2))),
    ("(way 1\n(move 0 01 right)\n)\n", Err((41, 2))),
    ("(way 1\n(move 100 0 right)\n)\n", Err((41, 2))),
    ("(way 1\n(move 0 100 right)\n)\n", Err((41, 2))),
    ("(way 1\n(move 0 0 Right)\n)\n", Err((41, 2))),
    ("(way 1\n(move 0 0  right)\n)\n", Err((41, 2))),
    ("(way 1\n(move 0  0 right)\n)\n", Err((41, 2))),
    ("(way 1\n(move  0 0 right)\n)\n", Err((41, 2))),
    ("(way 1\n(move 0 0 right )\n)\n", Err((41, 2))),
    ("(way 1\n(move 0 0 right 2)\n)\n", Err((41, 2))),
    ("(way 1\n(move 0 -1 right)\n)\n", Err((41, 2))),
    ("(way 1\n(move a 0 right)\n)\n", Err((41, 2))),
    (
        "(way 3\n(move 9 9 up)\n(move 0 0 right)\n(move 0 0 east)\n)\n",
        Err((41, 4)),
    ),
    ("(way 1\n(move 0 0 right\n)\n", Err((41, 2))),
];

#[test]
fn judges_forms(rt: HostRuntime) {
    judged_so(&rt, &FORMS, judge_way);
}

// Ways for the level SHELF in form.
static MOVES: [(&str, Said<u32>); 21] = [
    ("(way 1\n(move 0 0 right)\n)\n", Ok(1)),
    ("(way 0\n)\n", Err((45, 2))),
    ("(way 1\n(move 1 2 left)\n)\n", Err((45, 3))),
    ("(way 1\n(move 0 1 right)\n)\n", Err((42, 2))),
    ("(way 1\n(move 1 0 right)\n)\n", Err((42, 2))),
    ("(way 1\n(move 2 0 up)\n)\n", Err((42, 2))),
    ("(way 1\n(move 0 3 up)\n)\n", Err((42, 2))),
    ("(way 1\n(move 16 0 up)\n)\n", Err((42, 2))),
    ("(way 1\n(move 99 99 up)\n)\n", Err((42, 2))),
    ("(way 1\n(move 0 0 up)\n)\n", Err((43, 2))),
    ("(way 1\n(move 0 0 left)\n)\n", Err((43, 2))),
    ("(way 1\n(move 0 0 down)\n)\n", Err((43, 2))),
    ("(way 1\n(move 1 2 right)\n)\n", Err((43, 2))),
    (
        "(way 2\n(move 0 0 right)\n(move 0 2 left)\n)\n",
        Err((44, 3)),
    ),
    ("(way 2\n(move 0 0 right)\n(move 0 2 up)\n)\n", Err((43, 3))),
    (
        "(way 2\n(move 0 0 right)\n(move 0 0 right)\n)\n",
        Err((42, 3)),
    ),
    (
        "(way 2\n(move 1 2 left)\n(move 0 0 down)\n)\n",
        Err((43, 3)),
    ),
    (
        "(way 2\n(move 1 2 left)\n(move 0 0 right)\n)\n",
        Err((45, 4)),
    ),
    (
        "(way 3\n(move 1 2 up)\n(move 0 2 left)\n(move 0 1 down)\n)\n",
        Err((45, 5)),
    ),
    ("(way 2\n(move 1 2 up)\n(move 0 2 down)\n)\n", Err((45, 4))),
    (
        "(way 3\n(move 1 2 up)\n(move 0 2 down)\n(move 0 0 right)\n)\n",
        Ok(3),
    ),
];

#[test]
fn judges_moves(rt: HostRuntime) {
    judged_so(&rt, &MOVES, judge_way);
}

// Levels with ways.
static OTHERS: [(&str, &str, Said<u32>); 17] = [
    (
        "(tiles 2 2\n(row 0 3)\n(row 2 1)\n)\n",
        "(way 6\n(move right)\n(move down)\n(move left)\n(move up)\n(move right)\n(move down)\n)\n",
        Ok(6),
    ),
    (
        "(atomix 4 2\n(row A..#)\n(row ..B.)\n(want AB)\n)\n",
        "(way 2\n(move 0 0 down)\n(move 1 0 right)\n)\n",
        Ok(2),
    ),
    (
        "(atomix 4 2\n(row A..#)\n(row ..B.)\n(want AB)\n)\n",
        "(way 2\n(move 0 0 right)\n(move 1 2 left)\n)\n",
        Err((45, 4)),
    ),
    ("(atomix 1 1\n(row A)\n(want A)\n)\n", "(way 0\n)\n", Ok(0)),
    (
        "(atomix 1 1\n(row A)\n(want A)\n)\n",
        "(way 1\n(move 0 0 up)\n)\n",
        Err((43, 2)),
    ),
    ("(atomix 2 1\n(row A.)\n(want A)\n)\n", "(way 0\n)\n", Ok(0)),
    (
        "(atomix 2 1\n(row A.)\n(want A)\n)\n",
        "(way 1\n(move 0 0 right)\n)\n",
        Err((44, 2)),
    ),
    (
        "(atomix 3 1\n(row A.B)\n(want BA)\n)\n",
        "(way 1\n(move 0 0 right)\n)\n",
        Err((45, 3)),
    ),
    (
        "(atomix 3 1\n(row A.B)\n(want BA)\n)\n",
        "(way 2\n(move 0 0 right)\n(move 0 1 right)\n)\n",
        Err((43, 3)),
    ),
    (
        "(atomix 16 16\n(row ABCDEFGHIJKLMNOP)\n(row ................)\n(row ................)\n(row ................)\n(row ................)\n(row ................)\n(row ................)\n(row ................)\n(row ................)\n(row ................)\n(row ................)\n(row ................)\n(row ................)\n(row ................)\n(row ................)\n(row ................)\n(want ABCDEFGHIJKLMNOP)\n)\n",
        "(way 0\n)\n",
        Ok(0),
    ),
    (
        "(atomix 16 16\n(row ...............A)\n(row ................)\n(row ................)\n(row ................)\n(row ................)\n(row ................)\n(row ................)\n(row ................)\n(row ................)\n(row ................)\n(row ................)\n(row ................)\n(row ................)\n(row ................)\n(row ................)\n(row B...............)\n(want AB)\n)\n",
        "(way 2\n(move 15 0 right)\n(move 0 15 left)\n)\n",
        Err((45, 4)),
    ),
    (
        "(atomix 16 16\n(row ...............A)\n(row ................)\n(row ................)\n(row ................)\n(row ................)\n(row ................)\n(row ................)\n(row ................)\n(row ................)\n(row ................)\n(row ................)\n(row ................)\n(row ................)\n(row ................)\n(row ................)\n(row B...............)\n(want AB)\n)\n",
        "(way 3\n(move 15 0 right)\n(move 15 15 up)\n(move 1 15 left)\n)\n",
        Err((45, 5)),
    ),
    (
        "(atomix 3 3\n(row A#B)\n(row ###)\n(row C#D)\n(want A.B)\n(want ...)\n(want C.D)\n)\n",
        "(way 0\n)\n",
        Ok(0),
    ),
    (
        "(atomix 2 2\n(row A#)\n(row #B)\n(want AB)\n)\n",
        "(way 0\n)\n",
        Err((45, 2)),
    ),
    (
        "(atomix 4 2\n(row ....)\n(row .A.B)\n(want A.B)\n)\n",
        "(way 0\n)\n",
        Ok(0),
    ),
    (
        "(atomix 3 2\n(row AA.)\n(row ..A)\n(want AAA)\n)\n",
        "(way 1\n(move 1 2 up)\n)\n",
        Ok(1),
    ),
    (
        "(atomix 3 2\n(row AA.)\n(row ..A)\n(want AAA)\n)\n",
        "(way 1\n(move 0 1 right)\n)\n",
        Err((45, 3)),
    ),
];

#[test]
fn judges_others(rt: HostRuntime) {
    for (level, way, due) in &OTHERS {
        let answer = judge_texts(level.as_bytes(), way.as_bytes());
        assert_eq!(rt; said(answer), *due, "{level}; {way}");
    }
}

static GOOD: [&str; 11] = [
    "(atomix 1 1\n(row A)\n(want A)\n)\n",
    "(atomix 1 16\n(row A)\n(row .)\n(row .)\n(row .)\n(row .)\n(row .)\n(row .)\n(row .)\n(row .)\n(row .)\n(row .)\n(row .)\n(row .)\n(row .)\n(row .)\n(row #)\n(want A)\n)\n",
    "(atomix 16 1\n(row #..............A)\n(want A)\n)\n",
    "(atomix 16 16\n(row A...............)\n(row .B..............)\n(row ..C.............)\n(row ...D............)\n(row ....E...........)\n(row .....F..........)\n(row ......G.........)\n(row .......H........)\n(row ........I.......)\n(row .........J......)\n(row ..........K.....)\n(row ...........L....)\n(row ............M...)\n(row .............N..)\n(row ..............O.)\n(row ...............P)\n(want A...............)\n(want .B..............)\n(want ..C.............)\n(want ...D............)\n(want ....E...........)\n(want .....F..........)\n(want ......G.........)\n(want .......H........)\n(want ........I.......)\n(want .........J......)\n(want ..........K.....)\n(want ...........L....)\n(want ............M...)\n(want .............N..)\n(want ..............O.)\n(want ...............P)\n)\n",
    "(atomix 16 16\n(row ABCDEFGHIJKLMNOP)\n(row ................)\n(row ................)\n(row ................)\n(row ................)\n(row ................)\n(row ................)\n(row ................)\n(row ................)\n(row ................)\n(row ................)\n(row ................)\n(row ................)\n(row ................)\n(row ................)\n(row ................)\n(want ABCDEFGH)\n(want IJKLMNOP)\n)\n",
    "(atomix 4 4\n(row AAAA)\n(row AAAA)\n(row AAAA)\n(row AAAA)\n(want AAAA)\n(want AAAA)\n(want AAAA)\n(want AAAA)\n)\n",
    "(atomix 4 4\n(row AAAA)\n(row AAAA)\n(row AAAA)\n(row AAAA)\n(want AAAAAAAAAAAAAAAA)\n)\n",
    "(atomix 4 4\n(row AAAA)\n(row AAAA)\n(row AAAA)\n(row AAAA)\n(want A)\n(want A)\n(want A)\n(want A)\n(want A)\n(want A)\n(want A)\n(want A)\n(want A)\n(want A)\n(want A)\n(want A)\n(want A)\n(want A)\n(want A)\n(want A)\n)\n",
    "(atomix 3 2\n(row A..)\n(row #.B)\n(want A)\n(want B)\n)\n",
    "(atomix 4 2\n(row A..#)\n(row ..B.)\n(want AB)\n)\n",
    "(atomix 3 3\n(row A#B)\n(row ###)\n(row C#D)\n(want A.B)\n(want ...)\n(want C.D)\n)\n",
];

#[test]
fn writes_levels(rt: HostRuntime) {
    for text in &GOOD {
        writes_back(&rt, text, |text, out| write_level(&read_level(text)?, out));
    }
}

// Move numbers for the level SHELF, the room for their way, what is said, and the text.
static WRITTEN: [(&[u32], usize, Said<usize>, &str); 22] = [
    (&[], 9, Ok(9), "(way 0\n)\n"),
    (&[], 8, Err((21, 0)), ""),
    (&[3], 26, Ok(26), "(way 1\n(move 0 0 right)\n)\n"),
    (&[3], 25, Err((21, 0)), ""),
    (&[3], 1024, Ok(26), "(way 1\n(move 0 0 right)\n)\n"),
    (&[6], 1024, Ok(25), "(way 1\n(move 1 2 left)\n)\n"),
    (&[6, 1, 3], 1024, Err((43, 3)), ""),
    (
        &[4, 6, 5],
        200,
        Ok(55),
        "(way 3\n(move 1 2 up)\n(move 0 2 left)\n(move 0 1 down)\n)\n",
    ),
    (
        &[4, 6, 5],
        1024,
        Ok(55),
        "(way 3\n(move 1 2 up)\n(move 0 2 left)\n(move 0 1 down)\n)\n",
    ),
    (&[0], 1024, Err((43, 2)), ""),
    (&[1], 1024, Err((43, 2)), ""),
    (&[2], 0, Err((43, 2)), ""),
    (
        &[3, 2],
        1024,
        Ok(42),
        "(way 2\n(move 0 0 right)\n(move 0 2 left)\n)\n",
    ),
    (&[3, 3], 1024, Err((43, 3)), ""),
    (&[3, 0], 1024, Err((43, 3)), ""),
    (&[7], 1024, Err((43, 2)), ""),
    (&[8], 1024, Err((43, 2)), ""),
    (&[63], 1024, Err((43, 2)), ""),
    (&[64], 1024, Err((43, 2)), ""),
    (&[3, 64], 1024, Err((43, 3)), ""),
    (&[4294967295], 1024, Err((43, 2)), ""),
    (&[67], 1024, Err((43, 2)), ""),
];

#[test]
fn writes_ways(rt: HostRuntime) -> Result<(), Refusal> {
    let level = read_level(SHELF.as_bytes())?;
    for (moves, room, due, text) in &WRITTEN {
        written_so(&rt, &level, moves, *room, *due, text);
    }
    Ok(())
}
