//! Levels and their books, byte for byte; of long ones a checksum.
use atoms::{AtomLevel, read_level};
use pattern_databases::{Book, Scratch};
use std::alloc::{AllocError, Global};

fn filled(heap: Global, level: &AtomLevel) -> Result<Vec<u8>, AllocError> {
    let mut bytes = vec![in heap; 7u8; Book::length(level)]?;
    let _ = Book::fill(level, &mut bytes, &mut Scratch::new(heap)?);
    Ok(bytes)
}

static BOOKS: [(&str, &[u8]); 11] = [
    // One atom that is home.
    ("(atomix 1 1\n(row A)\n(want A)\n)\n", &[0]),
    // One atom in a line: a goal place for each cell.
    (
        "(atomix 3 1\n(row A..)\n(want A)\n)\n",
        &[0, 1, 1, 1, 0, 1, 1, 1, 0],
    ),
    // A partner in the way, on both sides.
    (
        "(atomix 3 1\n(row A.B)\n(want BA)\n)\n",
        &[
            255, 255, 255, 0, 255, 255, 1, 2, 255, 255, 255, 255, 2, 255, 255, 1, 0, 255,
        ],
    ),
    // Two like atoms: either may stand on either cell.
    (
        "(atomix 3 1\n(row A.A)\n(want AA)\n)\n",
        &[
            255, 0, 1, 0, 255, 2, 1, 2, 255, 255, 2, 1, 2, 255, 0, 1, 0, 255,
        ],
    ),
    // An odd count, and a wall.
    (
        "(atomix 3 2\n(row A.B)\n(row C#.)\n(want AB)\n(want C.)\n)\n",
        &[
            255, 0, 1, 255, 2, 255, 255, 2, 255, 3, 255, 255, 255, 255, 3, 2, 1, 2, 255, 3, 255,
            255, 255, 255, 255, 1, 2, 2, 0, 3,
        ],
    ),
    // A label that stands often in the molecule.
    (
        "(atomix 2 2\n(row A.)\n(row AA)\n(want A.)\n(want AA)\n)\n",
        &[
            255, 1, 0, 0, 1, 255, 1, 1, 0, 1, 255, 0, 0, 1, 0, 255, 0, 1, 0, 0,
        ],
    ),
    // No goal place: the molecule is larger than the board.
    ("(atomix 2 1\n(row AB)\n(want A)\n(want B)\n)\n", &[]),
    // No goal place: no cells are free for it.
    ("(atomix 2 2\n(row A#)\n(row #B)\n(want AB)\n)\n", &[]),
    // Two rooms: from the one no moves lead to the other.
    (
        "(atomix 5 1\n(row AB#..)\n(want AB)\n)\n",
        &[
            255, 0, 255, 255, 255, 255, 255, 255, 255, 255, 255, 255, 255, 255, 255, 255, 255, 255,
            255, 255, 255, 255, 255, 255, 255, 255, 255, 0, 255, 255, 255, 255,
        ],
    ),
    // A corner to go round.
    (
        "(atomix 2 2\n(row A.)\n(row #.)\n(want A)\n)\n",
        &[0, 1, 2, 1, 0, 1, 2, 1, 0],
    ),
    // A corner, in which a pair changes places.
    (
        "(atomix 3 2\n(row A.B)\n(row #.#)\n(want BA)\n)\n",
        &[
            255, 5, 4, 4, 0, 255, 3, 4, 1, 2, 255, 3, 1, 2, 2, 255, 255, 3, 4, 2, 2, 255, 5, 2, 1,
            0, 255, 1, 3, 4, 4, 255,
        ],
    ),
];

#[test]
fn fills_books(rt: HostRuntime) {
    for (text, due) in BOOKS {
        let level = read_level(text.as_bytes()).expect(&rt, text);
        let bytes = filled(rt.alloc(), &level).expect(&rt, "there is memory");
        assert!(&rt; bytes.as_slice() == due, "{text}");
    }
}

/// FNV-1a of 32 bits.
fn checksum(bytes: &[u8]) -> u32 {
    bytes.iter().fold(
        0x811c_9dc5,
        |sum: u32, byte| (sum ^ u32::from(*byte)).wrapping_mul(0x0100_0193),
    )
}

static LONG_BOOKS: [(&str, usize, u32); 10] = [
    (
        "(atomix 16 16\n(row .....#.....#A.##)\n(row #..#..#..#..#..#)\n(row .#..#..#..#..#..)\n(row ..#..#..#..#..#.)\n(row ...#..#..#..#...)\n(row .#..#..#..#..#..)\n(row ..#..#..#..#..#.)\n(row #..#..#..#..#..#)\n(row .#..#..#..#..#..)\n(row ..#..#..#..#..#.)\n(row ...#..#..#..#...)\n(row .#..#..#..#..#..)\n(row ..#..#..#..#..#.)\n(row #..#..#..#..#..#)\n(row ##..#..#..#..#..)\n(row ###.B#.....#....)\n(want ........B)\n(want .........)\n(want .........)\n(want .........)\n(want .........)\n(want .........)\n(want .........)\n(want .........)\n(want .........)\n(want .........)\n(want .........)\n(want .........)\n(want .........)\n(want .........)\n(want .........)\n(want A........)\n)\n",
        30625,
        0x596c3c72,
    ),
    (
        "(atomix 16 16\n(row .#####..##.#...#)\n(row #..######..####.)\n(row #.#####.##.####.)\n(row ...#..#....##...)\n(row ##.####......#.#)\n(row ..##......#....#)\n(row #....###A#####..)\n(row ..#....#.##..##.)\n(row .#..#.#.#.#.###.)\n(row ##..####.##...##)\n(row ...####.##......)\n(row ..#.##..####.###)\n(row ..####.###.#....)\n(row B.##.####..#..##)\n(row #.###.##..##..##)\n(row ...#.....###...#)\n(want ..........A)\n(want ...........)\n(want ...........)\n(want ...........)\n(want ...........)\n(want ...........)\n(want ...........)\n(want ...........)\n(want ...........)\n(want ...........)\n(want ...........)\n(want ...........)\n(want ...........)\n(want ...........)\n(want B..........)\n)\n",
        32258,
        0x737da6f7,
    ),
    (
        "(atomix 16 16\n(row ######..###.####)\n(row ..##.#.......##.)\n(row #.##.####.##.##.)\n(row ###.#.....#.#...)\n(row ######.###.#...#)\n(row ##...#..###..#..)\n(row ###..###......##)\n(row ..##.#...####.##)\n(row ###...#.##...###)\n(row ...#....#......#)\n(row ....#.#..##..#..)\n(row ##...###B.#..##.)\n(row .#.......A...#..)\n(row ##..##.####.##.#)\n(row .##.#.#..#.###.#)\n(row .#.###.#.#.#####)\n(want ...............A)\n(want ................)\n(want ................)\n(want ................)\n(want ................)\n(want ................)\n(want ................)\n(want ................)\n(want ................)\n(want ................)\n(want B...............)\n)\n",
        32768,
        0xed6c49df,
    ),
    (
        "(atomix 16 16\n(row #.#..#..#.#...#.)\n(row #.##..####.#####)\n(row .##..#..####.###)\n(row ##.##..#.##..#..)\n(row ..##..A.#...#..#)\n(row #.....#...##.#..)\n(row ...##.####.####.)\n(row ####..##..#.##..)\n(row .##..###....#.#.)\n(row B.....#####.#.#.)\n(row ##.#..###.....#.)\n(row .#...#..##.##..#)\n(row #..###.#.#.##.#.)\n(row #.##.##..#.#####)\n(row #.....#####.#.#.)\n(row ..#...####....#.)\n(want A...............)\n(want ................)\n(want ................)\n(want ................)\n(want ................)\n(want ................)\n(want ................)\n(want ................)\n(want ................)\n(want ................)\n(want ...............B)\n)\n",
        33282,
        0xefbae981,
    ),
    (
        "(atomix 4 7\n(row .C.#)\n(row ....)\n(row ..#.)\n(row ....)\n(row ....)\n(row N#..)\n(row ...#)\n(want N)\n(want C)\n)\n",
        10368,
        0x25dfabfe,
    ),
    (
        "(atomix 6 4\n(row ......)\n(row .#O.O.)\n(row ..#...)\n(row ..C##.)\n(want OO)\n(want C.)\n)\n",
        2940,
        0xbc7afab4,
    ),
    (
        "(atomix 9 4\n(row #.##.##..)\n(row #..##.O..)\n(row #H....C.#)\n(row ##.#...BO)\n(want .BH)\n(want OOC)\n)\n",
        5405,
        0x30a408aa,
    ),
    (
        "(atomix 7 3\n(row ..##...)\n(row ....#..)\n(row ..O...O)\n(want OO)\n)\n",
        4212,
        0x7099740d,
    ),
    (
        "(atomix 4 6\n(row #N#.)\n(row .H..)\n(row C.N.)\n(row ..O.)\n(row ##..)\n(row #.N.)\n(want .N.)\n(want .HN)\n(want NOC)\n)\n",
        4332,
        0x321bf9af,
    ),
    (
        "(atomix 6 8\n(row ...#..)\n(row ..###.)\n(row ##....)\n(row ..#C..)\n(row #..#.H)\n(row ....##)\n(row C..##.)\n(row #....#)\n(want .C)\n(want HC)\n)\n",
        11220,
        0x6b8a050e,
    ),
];

#[test]
fn fills_long_books(rt: HostRuntime) {
    for (text, length, due) in LONG_BOOKS {
        let level = read_level(text.as_bytes()).expect(&rt, text);
        let bytes = filled(rt.alloc(), &level).expect(&rt, "there is memory");
        assert_eq!(&rt; bytes.len(), length, "{text}");
        assert_eq!(&rt; checksum(&bytes), due, "{text}");
    }
}
