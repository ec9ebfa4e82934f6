use crate::OpenList;

/// The lower bounds of seven places to which no moves were made.
static FLOORS: [u16; 7] = [9, 3, 7, 1, 5, 2, 8];

/// Those places, by which comes first.
static IN_ORDER: [usize; 7] = [3, 5, 1, 4, 2, 6, 0];

#[test]
fn closes_in_order(rt: HostRuntime) {
    let mut numbers = [0; 28];
    let mut list = OpenList::new(&mut numbers);
    assert!(rt; list.start(7));
    for &floor in FLOORS.iter() {
        assert!(rt; list.push(0, floor));
    }
    for &place in IN_ORDER.iter() {
        assert_eq!(rt; list.first(), Some(place));
        assert_eq!(rt; list.close_first(), Some(place));
    }
    assert_eq!(rt; list.close_first(), None);
}

// Of equal sums the one with more moves made comes first, then the earlier place.
#[test]
fn breaks_ties(rt: HostRuntime) {
    let mut numbers = [0; 16];
    let mut list = OpenList::new(&mut numbers);
    assert!(rt; list.start(4));
    assert!(rt; list.push(0, 5));
    assert_eq!(rt; list.first(), Some(0));
    assert!(rt; list.push(3, 2));
    assert!(rt; list.push(3, 2));
    assert_eq!(rt; list.first(), Some(1));
    assert!(rt; list.push(1, 1));
    assert!(rt; !list.push(0, 0));
    assert_eq!(rt; list.len(), 4);
    for &place in [3, 1, 2, 0].iter() {
        assert_eq!(rt; list.close_first(), Some(place));
    }
    assert_eq!(rt; list.first(), None);
}

#[test]
fn opens_again_with_fewer_moves(rt: HostRuntime) {
    let mut numbers = [0; 12];
    let mut list = OpenList::new(&mut numbers);
    assert!(rt; list.start(3));
    assert!(rt; list.push(4, 0));
    assert!(rt; list.push(5, 0));
    assert_eq!(rt; list.close_first(), Some(0));
    assert!(rt; !list.reach(0, 4));
    assert!(rt; list.reach(0, 3));
    assert_eq!(rt; list.depth(0), Some(3));
    assert_eq!(rt; list.first(), Some(0));
    assert!(rt; list.reach(1, 2));
    assert_eq!(rt; list.first(), Some(1));
    assert!(rt; !list.reach(2, 0));
    assert_eq!(rt; list.depth(2), None);
}

#[test]
fn starts_where_the_numbers_fit(rt: HostRuntime) {
    let mut numbers = [0; 4];
    let mut list = OpenList::new(&mut numbers);
    assert!(rt; !list.push(0, 0));
    assert_eq!(rt; list.first(), None);
    assert!(rt; !list.start(0));
    assert!(rt; !list.start(2));
    assert!(rt; list.start(1));
    assert!(rt; list.push(7, 1));
    assert!(rt; !list.push(7, 1));
    assert_eq!(rt; list.close_first(), Some(0));
    assert!(rt; list.start(1));
    assert_eq!(rt; list.len(), 0);
}
