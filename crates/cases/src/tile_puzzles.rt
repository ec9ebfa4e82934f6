//! Tile levels as puzzles: bounds, moves and keys.
use grid::{Direction, Grid};
use puzzle::Puzzle;
use std::process::Abort;
use tiles::TileLevel;
use ways::{IllegalMove, Notation};

// Boards by width, height and tiles, the last cell's first, and how far their tiles are from home, counted by hand.
static BOARDS: [(u8, u8, u64, u16); 13] = [
    (2, 2, 0x0321, 0),
    (2, 2, 0x2301, 1),
    (2, 2, 0x0123, 2),
    (3, 2, 0x054321, 0),
    (3, 2, 0x504321, 1),
    (3, 2, 0x021354, 4),
    (2, 3, 0x021354, 10),
    (3, 3, 0x087654321, 0),
    (3, 3, 0x687054321, 1),
    (3, 3, 0x012345678, 16),
    (3, 3, 0x103452768, 21),
    (4, 4, 0x0FEDCBA987654321, 0),
    (4, 4, 0x0123456789ABCDEF, 44),
];

// The level of a board.
fn level_at(rt: &impl Abort, width: u8, height: u8, start: u64) -> TileLevel {
    TileLevel::new(Grid { width, height }, start).expect(rt, "each tile once")
}

#[test]
fn bounds_are_distances(rt: HostRuntime) {
    for (width, height, start, distance) in BOARDS {
        let level = level_at(&rt, width, height, start);
        assert_eq!(rt; level.lower_bound(&start), Some(distance), "at {start}");
    }
}

#[test]
fn plays_the_game(rt: HostRuntime) {
    let level = level_at(&rt, 3, 3, 0x687054321);
    let start = level.start();
    let blank = level.prepare(&start);
    assert_eq!(rt; blank, Some(5));
    let mut next = start;
    assert!(rt; !level.play(&start, &blank, u32::from(Direction::Right), &mut next));
    assert!(rt; level.is_same(&start, &next) && !level.is_goal(&next));
    assert!(rt; level.play(&start, &blank, u32::from(Direction::Down), &mut next));
    assert!(rt; level.is_goal(&next) && !level.is_same(&start, &next));
}

#[test]
fn follows_written_moves(rt: HostRuntime) {
    let level = level_at(&rt, 3, 3, 0x687054321);
    let start = level.start();
    let mut next = start;
    assert!(rt;
        matches!(
            level.follow(&start, &Direction::Right, &mut next),
            Err(IllegalMove::Closed)
        )
    );
    assert_eq!(rt; next, start);
    assert!(rt; level.follow(&start, &Direction::Down, &mut next).is_ok());
    assert_eq!(rt; next, 0x087654321);
}

#[test]
fn keys_are_spread(rt: HostRuntime) {
    let level = level_at(&rt, 3, 3, 0x087654321);
    assert_eq!(rt; level.key(&0x087654321), 0xC251BD0B);
    assert_eq!(rt; level.key(&0x687054321), 0x1880E99B);
}
