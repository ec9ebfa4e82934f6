ghost use Rattle.std.specs.Prelude.{◌≡◌, ℕ, [], ◌<◌, nat_lt, length, slice_get, MatchOption, ⊤};
ghost use Rattle.hash_index.specs.Index.{fits, Starts, Pushes, IsLast, IsEarlier};
ghost use Rattle.hash_index.specs.inside.Chains.{FindsLast};

use super::HashIndex;
use crate::chains::{Chains, bucket_of};

/// The most places that an index has.
const MOST_PLACES: usize = 1_048_576;

/// How many numbers an index wants for each place.
const NUMBERS_FOR_EACH_PLACE: usize = 3;

impl<'a> HashIndex<'a> {
    /// The index of a search that has not started: it has no place.
    pub fn new(numbers: &'a mut [u32]) -> Self
        ensures { result ≡ record { numbers = numbers.old; capacity = 0; keys = [] } }
    {
        HashIndex {
            chains: Chains { numbers },
            capacity: 0,
            used: 0,
        }
    }

    /// Makes room for so many places, none of them in use. Refuses, and changes nothing, where the numbers are not three
    /// for each place, or the places are too many.
    pub fn start(&mut self, capacity: usize) -> bool
        ensures fits { result ≡ fits capacity self.old.numbers }
        ensures after { Starts capacity self.old result self.new }
    {
        if capacity > MOST_PLACES
            || self.chains.numbers.len() != NUMBERS_FOR_EACH_PLACE * capacity
        {
            return false;
        }
        self.chains.clear(capacity);
        self.capacity = capacity;
        self.used = 0;
        true
    }

    /// Adds a key at the next place, if there is one.
    pub fn push(&mut self, key: u32) -> bool
        ensures room { result ≡ nat_lt (length self.old.keys) self.old.capacity }
        ensures after { Pushes key self.old result self.new }
    {
        let place = self.used;
        if place >= self.capacity {
            return false;
        }
        self.chains.add(self.capacity, place, key);
        self.used = place + 1;
        true
    }

    /// The last place that has the key.
    pub fn last(&self, key: u32) -> Option<usize>
        ensures { IsLast self.now.keys (length self.now.keys) key result }
    {
        if self.capacity == 0 {
            return None;
        }
        let head = self
            .chains
            .head(self.capacity, bucket_of(self.capacity, key));
        self.along(head, key)
    }

    /// The last place before one that is in use, with the same key.
    pub fn earlier(&self, place: usize) -> Option<usize>
        ensures { IsEarlier self.now.keys place (slice_get self.now.keys place) result }
    {
        if place >= self.used {
            return None;
        }
        self.along(self.chains.link(place), self.chains.key(place))
    }

    /// The first place that has the key, along the chain that begins at `from`.
    fn along(&self, from: Option<usize>, key: u32) -> Option<usize>
        requires { MatchOption from ⊤ (λ place. place < length self.now.keys) }
        ensures { FindsLast self.now key from result }
    {
        let mut next = from;
        while let Some(place) = next {
            if self.chains.key(place) == key {
                return Some(place);
            }
            next = self.chains.link(place);
        }
        None
    }
}
