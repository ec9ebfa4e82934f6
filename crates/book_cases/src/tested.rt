//! Books that were altered, and what the test says of them.
use atoms::{AtomLevel, read_level};
use pattern_databases::{Book, Scratch};
use std::alloc::{AllocError, Global};

/// A pair in one row: of 18 bytes, for two goal places.
const ROW: &str = "(atomix 3 1\n(row A.B)\n(want BA)\n)\n";

/// A pair and an atom alone, for one goal place: of 16 bytes and 4.
const BEND: &str = "(atomix 2 2\n(row A.)\n(row BC)\n(want AB)\n(want C.)\n)\n";

// The number by which bytes are refused as the book of a level, if they are.
fn refused(heap: Global, level: &AtomLevel, bytes: &[u8]) -> Result<Option<u32>, AllocError> {
    Ok(
        Book::test(level, bytes, &mut Scratch::new(heap)?)
            .err()
            .map(u32::from),
    )
}

// The book of a level, filled, with some bytes exchanged for others.
fn altered(
    heap: Global,
    level: &AtomLevel,
    changes: &[(usize, u8)],
) -> Result<Vec<u8>, AllocError> {
    let mut bytes = vec![in heap; 0u8; Book::length(level)]?;
    let _ = Book::fill(level, &mut bytes, &mut Scratch::new(heap)?);
    for (index, byte) in changes {
        if let Some(place) = bytes.get_mut(*index) {
            *place = *byte;
        }
    }
    Ok(bytes)
}

static ALTERED: [(&str, &[(usize, u8)], Option<u32>); 25] = [
    // As filled.
    (ROW, &[], None),
    // Two above the byte after a move.
    (ROW, &[(7, 3)], Some(25)),
    // One less than it could be.
    (ROW, &[(7, 1)], None),
    // The first goal entry.
    (ROW, &[(3, 1)], Some(23)),
    // The last goal entry.
    (ROW, &[(16, 255)], Some(23)),
    // The first byte of two atoms on one cell, and the last.
    (ROW, &[(0, 254)], Some(24)),
    (ROW, &[(17, 0)], Some(24)),
    // 255 only where the byte after a move is: the first and the last such byte.
    (ROW, &[(1, 254)], Some(25)),
    (ROW, &[(11, 7)], Some(25)),
    // All that lead to each other made 254: as weak as can be, and it passes.
    (ROW, &[(1, 254), (2, 254), (5, 254)], None),
    // 255 beside 2.
    (ROW, &[(6, 255)], Some(25)),
    // Two conditions fail: the first decides.
    (ROW, &[(3, 1), (0, 0)], Some(23)),
    (ROW, &[(0, 0), (7, 3)], Some(24)),
    (ROW, &[(16, 9), (7, 9)], Some(23)),
    (ROW, &[(16, 9), (17, 9), (7, 9)], Some(23)),
    // As filled.
    (BEND, &[], None),
    (BEND, &[(1, 1)], Some(23)),
    (BEND, &[(18, 255)], Some(23)),
    (BEND, &[(0, 0)], Some(24)),
    (BEND, &[(15, 254)], Some(24)),
    (BEND, &[(2, 0)], Some(25)),
    // The lone atom's bytes are the last.
    (BEND, &[(19, 254)], Some(25)),
    (BEND, &[(19, 0)], Some(25)),
    (BEND, &[(16, 0), (17, 0), (18, 0), (19, 0)], None),
    // 0 wherever 255 is not due.
    (
        BEND,
        &[
            (1, 0),
            (2, 0),
            (3, 0),
            (4, 0),
            (6, 0),
            (7, 0),
            (8, 0),
            (9, 0),
            (11, 0),
            (12, 0),
            (13, 0),
            (14, 0),
            (16, 0),
            (17, 0),
            (18, 0),
            (19, 0),
        ],
        None,
    ),
];

#[test]
fn tests_altered_books(rt: HostRuntime) {
    for (text, changes, due) in ALTERED {
        let level = read_level(text.as_bytes()).expect(&rt, text);
        let bytes = altered(rt.alloc(), &level, changes).expect(&rt, "there is memory");
        let said = refused(rt.alloc(), &level, &bytes).expect(&rt, "there is memory");
        assert_eq!(&rt; said, due, "{text} {changes:?}");
    }
}

// A byte short and a byte long, and none: the length comes before all else.
#[test]
fn tests_the_length(rt: HostRuntime) {
    let level = read_level(ROW.as_bytes()).expect(&rt, ROW);
    let mut bytes = [0; 19];
    for length in [0, 1, 17, 19] {
        let said = refused(rt.alloc(), &level, &bytes[..length]).expect(&rt, "there is memory");
        assert_eq!(&rt; said, Some(22), "{length}");
        let mut scratch = Scratch::new(rt.alloc()).expect(&rt, "there is memory");
        let filled = Book::fill(&level, &mut bytes[..length], &mut scratch);
        assert_eq!(&rt; filled.err().map(u32::from), Some(22), "{length}");
        assert!(&rt; bytes == [0; 19], "{length}");
    }
}
