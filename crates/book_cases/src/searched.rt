//! Levels searched bare and with their books.
use atoms::{AtomLevel, Position, read_level};
use pattern_databases::{Book, BookBound, BookedLevel, Scratch};
use puzzle::Puzzle;
use search::Search;
use search_theory::Verdict::{self, Solved, TableFull, Unsolvable};
use std::alloc::{AllocError, Global};

/// How a search ends: its verdict, its steps and the places in use.
type End = (Verdict, u64, usize);

/// How many places the tables have.
const PLACES: usize = 2_048;

/// How many numbers are lent for each place.
const NUMBERS: usize = 8;

// How the search of a puzzle ends.
fn end<Z: Puzzle<Position = Position>>(
    heap: Global,
    puzzle: &Z,
) -> Result<Option<End>, AllocError> {
    let mut table = vec![in heap; puzzle.start(); PLACES]?;
    let mut numbers = vec![in heap; 0u32; NUMBERS * PLACES]?;
    let mut search = Search::new(&mut table, &mut numbers);
    let _ = search.open(puzzle);
    let _ = search.advance(puzzle, u32::MAX);
    let report = search.verdict();
    Ok(
        report
            .ok()
            .map(|report| (report.verdict, report.steps, report.places)),
    )
}

// The same with the book of a level behind it.
fn end_with_book(heap: Global, level: &AtomLevel) -> Result<Option<End>, AllocError> {
    let mut bytes = vec![in heap; 0u8; Book::length(level)]?;
    let mut scratch = Scratch::new(heap)?;
    let Ok(book) = Book::fill(level, &mut bytes, &mut scratch) else {
        return Ok(None);
    };
    let booked = BookedLevel::new(BookBound::new(book));
    end(heap, &booked)
}

// A level, and how its search ends bare and with its book.
static SEARCHES: [(&str, End, End); 10] = [
    (
        "(atomix 9 4\n(row #.##.##..)\n(row #..##.O..)\n(row #H....C.#)\n(row ##.#...BO)\n(want .BH)\n(want OOC)\n)\n",
        (TableFull, 567, 2048),
        (Solved(8), 109, 666),
    ),
    (
        "(atomix 4 7\n(row ...#)\n(row #...)\n(row ###D)\n(row .#.C)\n(row ..CC)\n(row BH..)\n(row #..#)\n(want .C..)\n(want BCCD)\n(want ..H.)\n)\n",
        (TableFull, 551, 2048),
        (Solved(9), 170, 1133),
    ),
    (
        "(atomix 7 5\n(row ..#..#.)\n(row ##N....)\n(row ..#....)\n(row C..#..#)\n(row .#.....)\n(want NC)\n)\n",
        (Solved(10), 96, 110),
        (Solved(10), 42, 58),
    ),
    (
        "(atomix 8 4\n(row .#...#.#)\n(row #.#.##H#)\n(row ...C.O..)\n(row .....#..)\n(want C)\n(want H)\n(want O)\n)\n",
        (Solved(8), 1248, 1754),
        (Solved(8), 68, 205),
    ),
    (
        "(atomix 9 4\n(row ##.......)\n(row ...O#...O)\n(row #.#......)\n(row .#...O..#)\n(want OO)\n(want O.)\n)\n",
        (Solved(5), 542, 1256),
        (Solved(5), 29, 139),
    ),
    (
        "(atomix 6 8\n(row ...#..)\n(row ..###.)\n(row ##....)\n(row ..#C..)\n(row #..#.H)\n(row ....##)\n(row C..##.)\n(row #....#)\n(want .C)\n(want HC)\n)\n",
        (Unsolvable, 1232, 1232),
        (Unsolvable, 0, 0),
    ),
    (
        "(atomix 6 8\n(row ....OA)\n(row .#..#.)\n(row ..#..H)\n(row ..#C.#)\n(row ....#.)\n(row ......)\n(row ###...)\n(row ..CC..)\n(want AC.)\n(want OH.)\n(want .CC)\n)\n",
        (TableFull, 507, 2048),
        (TableFull, 335, 2048),
    ),
    (
        "(atomix 6 6\n(row ......)\n(row #...#O)\n(row .##C..)\n(row ...#..)\n(row ..B###)\n(row ..H..H)\n(want H.)\n(want HC)\n(want BO)\n)\n",
        (TableFull, 778, 2048),
        (Unsolvable, 0, 0),
    ),
    (
        "(atomix 5 3\n(row ..H..)\n(row .#O.H)\n(row #H#..)\n(want H)\n(want O)\n(want H)\n(want H)\n)\n",
        (Unsolvable, 970, 970),
        (Unsolvable, 0, 0),
    ),
    (
        "(atomix 16 16\n(row .....#.....#A.##)\n(row #..#..#..#..#..#)\n(row .#..#..#..#..#..)\n(row ..#..#..#..#..#.)\n(row ...#..#..#..#...)\n(row .#..#..#..#..#..)\n(row ..#..#..#..#..#.)\n(row #..#..#..#..#..#)\n(row .#..#..#..#..#..)\n(row ..#..#..#..#..#.)\n(row ...#..#..#..#...)\n(row .#..#..#..#..#..)\n(row ..#..#..#..#..#.)\n(row #..#..#..#..#..#)\n(row ##..#..#..#..#..)\n(row ###.B#.....#....)\n(want ........B)\n(want .........)\n(want .........)\n(want .........)\n(want .........)\n(want .........)\n(want .........)\n(want .........)\n(want .........)\n(want .........)\n(want .........)\n(want .........)\n(want .........)\n(want .........)\n(want .........)\n(want A........)\n)\n",
        (Unsolvable, 63, 63),
        (Unsolvable, 63, 63),
    ),
];

#[test]
fn searches_with_books(rt: HostRuntime) {
    for (text, bare, booked) in SEARCHES {
        let level = read_level(text.as_bytes()).expect(&rt, text);
        let heap = rt.alloc();
        assert_eq!(&rt;
            end(heap, &level).expect(&rt, "there is memory"),
            Some(bare),
            "{text}"
        );
        assert_eq!(&rt;
            end_with_book(heap, &level).expect(&rt, "there is memory"),
            Some(booked),
            "{text}"
        );
    }
}
