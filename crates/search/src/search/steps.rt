//! A step and its parts.
ghost use Rattle.std.specs.Prelude.{◌≡◌, ◌<◌, length, nat_lt, IfSome};
ghost use Rattle.search.specs.Contents.{nodes_of, numbers_of};
ghost use Rattle.search.specs.inside.Memory.{ChangesNodesOnly};
ghost use Rattle.search.specs.inside.Parts.{FindsByKey, open_node, Stores, StoresStart, Relaxes, IsPrepared, PlaysMove, PlaysMoves, TakesStep};

use super::Search;
use puzzle::Puzzle;
use search_theory::Verdict;

/// How a node was reached: with how many moves, from which place, and by which move.
#[derive(Clone, Copy)]
pub(crate) struct Reach {
    pub(crate) depth: u32,
    pub(crate) parent: u32,
    pub(crate) number: u32,
}

impl Reach {
    /// How the start is reached: with no moves. Its link is never followed.
    pub(crate) const AT_START: Reach = Reach {
        depth: 0,
        parent: 0,
        number: 0,
    };
}

/// The node that a step takes: its place, with how many moves it was reached, and its position.
#[derive(Clone, Copy)]
pub(crate) struct TakenNode<P> {
    pub(crate) place: usize,
    pub(crate) depth: u32,
    pub(crate) position: P,
}

impl<'a, P: Copy> Search<'a, P> {
    // The place of the node that holds a position.
    fn find<Z: Puzzle<Position = P>>(&self, puzzle: &Z, position: &P, key: u32) -> Option<usize>
        ensures inside { IfSome result (λ place. place < length self.now.open_list.entries) }
        ensures finds { FindsByKey (Z.Puzzle.meaning puzzle.now) (nodes_of self.now) position.now key result }
    {
        let mut candidate = self.index.last(key);
        while let Some(place) = candidate {
            if self.table.holds(puzzle, place, position) {
                return Some(place);
            }
            candidate = self.index.earlier(place);
        }
        None
    }

    /// Stores an open node at the next place, if one is free.
    pub(crate) fn store(&mut self, position: P, key: u32, floor: u16, reach: Reach) -> bool
        requires parent { reach.parent < 1048576 }
        requires number { reach.number < 256 }
        ensures room { result ≡ nat_lt (length (nodes_of self.old)) self.old.open_list.capacity }
        ensures after { Stores (open_node position key floor reach) self.old result self.new }
    {
        let place = self.open_list.len();
        if !self.open_list.push(reach.depth, floor) {
            return false;
        }
        // The index has room where the open list has.
        self.index.push(key);
        self.table.put(place, position);
        self.links.put(place, reach.parent, reach.number);
        true
    }

    /// Stores the start with no moves made, open; or, if it is dead, nothing, and there is no way.
    pub(crate) fn store_start<Z: Puzzle<Position = P>>(&mut self, puzzle: &Z)
        ensures begins { StoresStart (Z.Puzzle.meaning puzzle.now) self.old self.new }
        ensures table { length self.new.table ≡ length self.old.table }
        ensures numbers { numbers_of self.new ≡ numbers_of self.old }
        ensures opened { self.new.opened ≡ self.old.opened }
    {
        let start = puzzle.start();
        let Some(floor) = puzzle.lower_bound(&start) else {
            self.verdict = Verdict::Unsolvable;
            return;
        };
        self.verdict = Verdict::Running;
        // The first place is free.
        self.store(start, puzzle.key(&start), floor, Reach::AT_START);
    }

    // A stored node was reached again: with fewer moves, it takes them and is open.
    fn relax(&mut self, place: usize, reach: Reach)
        requires parent { reach.parent < 1048576 }
        requires number { reach.number < 256 }
        ensures after { Relaxes place reach (nodes_of self.old) (nodes_of self.new) }
        ensures frame { ChangesNodesOnly self.old self.new }
    {
        if self.open_list.reach(place, reach.depth) {
            self.links.put(place, reach.parent, reach.number);
        }
    }

    // Plays a move from the taken node, into a lent position, and answers whether there was room for where it leads.
    fn play_move<Z: Puzzle<Position = P>>(
        &mut self,
        puzzle: &Z,
        from: &TakenNode<P>,
        prepared: &Z::Prepared,
        number: u32,
        to: &mut P,
    ) -> bool
        requires place { from.now.place < length self.old.open_list.entries }
        requires few { from.now.place < 1048576 }
        requires ready { IsPrepared (Z.Puzzle.meaning puzzle.now) (Z.Puzzle.Prepares puzzle.now) from.now prepared.now }
        requires number { number < Z.Puzzle.MOVES }
        ensures moves { PlaysMove (Z.Puzzle.meaning puzzle.now) from.now number self.old result self.new }
        ensures frame { ChangesNodesOnly self.old self.new }
    {
        if !puzzle.play(&from.position, prepared, number, to) {
            return true;
        }
        let reach = Reach {
            depth: from.depth.saturating_add(1),
            parent: from.place as u32,
            number,
        };
        let key = puzzle.key(to);
        if let Some(known) = self.find(puzzle, to, key) {
            self.relax(known, reach);
            return true;
        }
        let Some(floor) = puzzle.lower_bound(to) else {
            return true;
        };
        self.store(*to, key, floor, reach)
    }

    // Plays every move from the taken node, and answers whether there was room.
    fn expand<Z: Puzzle<Position = P>>(&mut self, puzzle: &Z, from: &TakenNode<P>) -> bool
        requires place { from.now.place < length self.old.open_list.entries }
        requires few { from.now.place < 1048576 }
        ensures moves { PlaysMoves (Z.Puzzle.meaning puzzle.now) from.now self.old result self.new }
        ensures frame { ChangesNodesOnly self.old self.new }
    {
        let prepared = puzzle.prepare(&from.position);
        // One position is lent for all moves.
        let mut to = from.position;
        for number in 0..Z::MOVES {
            if !self.play_move(puzzle, from, &prepared, number, &mut to) {
                return false;
            }
        }
        true
    }

    /// One step: the open node that comes first is finished, or every move is played from it.
    pub(crate) fn step<Z: Puzzle<Position = P>>(&mut self, puzzle: &Z)
        ensures steps { TakesStep (Z.Puzzle.meaning puzzle.now) self.old self.new }
        ensures table { length self.new.table ≡ length self.old.table }
        ensures numbers { numbers_of self.new ≡ numbers_of self.old }
        ensures opened { self.new.opened ≡ self.old.opened }
    {
        // A running search has an open node.
        let Some(place) = self.open_list.first() else {
            return;
        };
        self.steps = self.steps.saturating_add(1);
        let taken = TakenNode {
            place,
            depth: self.open_list.depth(place).unwrap_or(0),
            position: self.table.get(place),
        };
        if puzzle.is_goal(&taken.position) {
            self.verdict = Verdict::Solved(taken.depth);
            return;
        }
        self.open_list.close_first();
        self.verdict = if !self.expand(puzzle, &taken) {
            Verdict::TableFull
        } else if self.open_list.first().is_none() {
            Verdict::Unsolvable
        } else {
            Verdict::Running
        };
    }
}
