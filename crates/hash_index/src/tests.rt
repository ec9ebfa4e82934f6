//! What an index answers of a few keys.
use crate::HashIndex;

// Of four buckets, these keys but the last are all in one.
const KEYS: [u32; 4] = [1, 5, 1, 1 << 31];

#[test]
fn has_the_places_of_each_key(rt: HostRuntime) {
    let mut numbers = [0; 12];
    let mut index = HashIndex::new(&mut numbers);
    assert_eq!(rt; index.last(1), None);
    assert!(rt; !index.push(1), "before the start");
    assert!(rt; !index.start(3), "numbers for four places");
    assert!(rt; index.start(4));
    assert_eq!(rt; index.last(1), None);
    for key in KEYS {
        assert!(rt; index.push(key), "{key}");
    }
    assert!(rt; !index.push(3), "all places are in use");
    for (key, due) in [
        (1, Some(2)),
        (5, Some(1)),
        (1 << 31, Some(3)),
        (9, None),
        (0, None),
    ] {
        assert_eq!(rt; index.last(key), due, "{key}");
    }
    for (place, due) in [(0, None), (1, None), (2, Some(0)), (3, None), (4, None)] {
        assert_eq!(rt; index.earlier(place), due, "{place}");
    }
    assert!(rt; index.start(4), "again");
    assert_eq!(rt; index.last(1), None);
    assert_eq!(rt; index.earlier(2), None);
}

#[test]
fn has_one_place(rt: HostRuntime) {
    let mut numbers = [0; 3];
    let mut index = HashIndex::new(&mut numbers);
    assert!(rt; index.start(1));
    assert!(rt; index.push(u32::MAX));
    assert!(rt; !index.push(0));
    assert_eq!(rt; index.last(u32::MAX), Some(0));
    assert_eq!(rt; index.last(0), None);
}
