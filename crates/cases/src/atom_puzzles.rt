//! Atom levels as puzzles: moves and keys.
use atoms::AtomLevel;
use grid::Direction;
use molecules::Molecule;
use pictures::Picture;
use puzzle::Puzzle;

// An atom that has to go to the right, above another.
fn pair() -> Option<AtomLevel> {
    let board = Picture::new(3)?.with_row(b"A..")?.with_row(b"#.B")?;
    let molecule = Molecule::new(1)?.with_row(b"A")?.with_row(b"B")?;
    AtomLevel::new(&board, &molecule).ok()
}

#[test]
fn plays_the_game(rt: HostRuntime) {
    let level = pair().expect(&rt, "a level");
    let start = level.start();
    let blocked = level.prepare(&start);
    let mut next = start;
    assert!(rt; !level.play(&start, &blocked, u32::from(Direction::Left), &mut next));
    assert!(rt; level.is_same(&start, &next) && !level.is_goal(&next));
    assert!(rt; level.play(&start, &blocked, u32::from(Direction::Right), &mut next));
    assert!(rt; level.is_goal(&next) && !level.is_same(&start, &next));
    assert_eq!(rt; level.lower_bound(&start), Some(0));
}

#[test]
fn keys_are_mixed(rt: HostRuntime) {
    let level = pair().expect(&rt, "a level");
    assert_eq!(rt; level.key(&level.start()), 0x8EF8_5D8B);
}
