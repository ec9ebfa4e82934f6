ghost use Rattle.std.specs.Prelude.{◌≡◌, [], Some, None, nat_lt, length, slice_get};
ghost use Rattle.std.specs.Option.{option_map};
ghost use Rattle.open_list.specs.Entries.{IsFirst};
ghost use Rattle.open_list.specs.OpenList.{fits, Starts, Pushes, is_nearer, Reaches, Closes};

use super::OpenList;
use crate::heap::{Heap, Sizes};

/// The most places that there may be.
const MOST_PLACES: usize = 1 << 20;

/// How many numbers a place takes.
const NUMBERS: usize = 4;

impl<'a> OpenList<'a> {
    /// The open list of a search that has not started: it has no place.
    pub fn new(numbers: &'a mut [u32]) -> Self
        ensures { result ≡ record { numbers = numbers.old; capacity = 0; entries = [] } }
    {
        OpenList {
            heap: Heap { numbers },
            sizes: Sizes {
                capacity: 0,
                used: 0,
                queued: 0,
            },
        }
    }

    /// Makes room for so many places, none of them in use. Refuses, and changes nothing, where the numbers are not four
    /// for each place, or the places are too many.
    pub fn start(&mut self, capacity: usize) -> bool
        ensures fits { result ≡ fits capacity self.old.numbers }
        ensures after { Starts capacity self.old result self.new }
    {
        if capacity > MOST_PLACES || self.heap.numbers.len() != NUMBERS * capacity {
            return false;
        }
        self.sizes = Sizes {
            capacity,
            used: 0,
            queued: 0,
        };
        true
    }

    /// How many places are in use.
    #[tactic(auto, using(crate::proofs::Lists::length_entries))]
    pub fn len(&self) -> usize
        ensures { result ≡ length self.now.entries }
    {
        self.sizes.used
    }

    /// The moves made to a place that is in use.
    #[tactic(auto, using(crate::proofs::Lists::entry_there, crate::proofs::Lists::entry_past))]
    pub fn depth(&self, place: usize) -> Option<u32>
        ensures { result ≡ option_map (λ e. e.depth) (slice_get self.now.entries place) }
    {
        if place >= self.sizes.used {
            return None;
        }
        Some(self.heap.depth(place))
    }

    /// Adds an open entry at the next place, if there is one.
    #[tactic(auto, using(crate::proofs::Lists::length_entries))]
    pub fn push(&mut self, depth: u32, floor: u16) -> bool
        ensures room { result ≡ nat_lt (length self.old.entries) self.old.capacity }
        ensures after { Pushes depth floor self.old result self.new }
    {
        if self.sizes.used >= self.sizes.capacity {
            return false;
        }
        self.sizes = self.heap.add(self.sizes, depth, floor);
        true
    }

    /// A place was reached with so many moves: if it is in use and was reached with more before, it takes the smaller
    /// number and is open.
    #[tactic(auto, using(crate::proofs::Lists::entry_there, crate::proofs::Lists::entry_past))]
    pub fn reach(&mut self, place: usize, depth: u32) -> bool
        ensures nearer { result ≡ is_nearer depth (slice_get self.old.entries place) }
        ensures after { Reaches place depth self.old result self.new }
    {
        if place >= self.sizes.used || self.heap.depth(place) <= depth {
            return false;
        }
        self.sizes = self.heap.lower(self.sizes, place, depth);
        true
    }

    /// The open place that comes first: with the least sum of moves made and lower bound; of equals the one with more
    /// moves made, then the earlier place.
    #[tactic(auto, using(crate::proofs::Firsts::none_open, crate::proofs::Firsts::foremost))]
    pub fn first(&self) -> Option<usize>
        ensures { IsFirst self.now.entries result }
    {
        if self.sizes.queued == 0 {
            return None;
        }
        Some(self.heap.first(self.sizes))
    }

    /// Closes the open place that comes first, and answers it.
    #[tactic(auto, using(crate::proofs::Firsts::none_open, crate::proofs::Firsts::foremost))]
    pub fn close_first(&mut self) -> Option<usize>
        ensures first { IsFirst self.old.entries result }
        ensures after { Closes self.old result self.new }
    {
        if self.sizes.queued == 0 {
            return None;
        }
        let place = self.heap.first(self.sizes);
        self.sizes = self.heap.close_first(self.sizes);
        Some(place)
    }
}
