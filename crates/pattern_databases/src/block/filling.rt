ghost use Rattle.std.specs.Prelude.{◌≡◌, ◌^◌, ◌<◌, ◌≤◌, length};
ghost use Rattle.pictures.specs.Pictures.{shape};
ghost use Rattle.atoms.specs.Level.{atoms};
ghost use Rattle.pattern_databases.specs.Floor.{free_count};
ghost use Rattle.pattern_databases.specs.inside.Walking.{ShowsWalls};
ghost use Rattle.pattern_databases.specs.inside.Blocks.{FilledBlock};
ghost use Rattle.pattern_databases.specs.inside.Filling.{front, HasRoom, IsFresh, after_reach, Keeps, Takes, SearchedBlock, TakenLast};

use super::{Block, MOST_MOVES, NEVER};
use crate::marked::Map;

/// The placements that are reached, in the order in which they were: those before `taken` have been taken.
#[derive(Drop)]
struct Frontier<'a> {
    entries: &'a mut [u8],
    queue: &'a mut [u32],
    taken: usize,
    reached: usize,
}

impl Frontier<'_> {
    // Gives a placement its byte and puts it into the queue, unless it was reached before.
    fn reach(&mut self, number: usize, moves: u8)
        requires there { number < length self.old.entries.now }
        requires room { HasRoom (front self.old) }
        ensures reached { front self.new ≡ after_reach number moves (front self.old) }
        ensures kept { Keeps self.old self.new }
    {
        if self.entries[number] == NEVER {
            self.entries[number] = moves;
            self.queue[self.reached] = number as u32;
            self.reached += 1;
        }
    }

    // The next placement that was not taken yet.
    fn take(&mut self) -> Option<usize>
        requires room { HasRoom (front self.old) }
        requires few { self.old.taken ≤ self.old.reached }
        ensures { Takes self.old result self.new }
    {
        if self.taken == self.reached {
            return None;
        }
        let number = self.queue[self.taken];
        self.taken += 1;
        Some(number as usize)
    }
}

impl Block<'_> {
    /// Fills the block: breadth first from the goal entries on, each placement being taken once.
    pub(crate) fn fill(&self, entries: &mut [u8], map: &mut Map, queue: &mut [u32])
        requires whole { length entries.old
            ≡ free_count (atoms self.now.layout.now.level.now).board ^ length self.now.part.now }
        requires room { length entries.old ≤ length queue.old }
        requires walls { ShowsWalls (atoms self.now.layout.now.level.now).board map.old }
        ensures filled { FilledBlock (atoms self.now.layout.now.level.now) self.now.goal_place self.now.part.now
            entries.new }
        ensures whole { length entries.new ≡ length entries.old }
        ensures room { length queue.new ≡ length queue.old }
        ensures kept { map.new ≡ map.old }
    {
        entries.fill(NEVER);
        let mut frontier = Frontier {
            entries,
            queue,
            taken: 0,
            reached: 0,
        };
        self.reach_goals(&mut frontier);
        while let Some(number) = frontier.take() {
            self.reach_from(number, &mut frontier, map);
        }
    }

    // Reaches the goal entries.
    fn reach_goals(&self, frontier: &mut Frontier)
        requires whole { length frontier.old.entries.now
            ≡ free_count (atoms self.now.layout.now.level.now).board ^ length self.now.part.now }
        requires fresh { IsFresh (front frontier.old) }
        ensures searched { SearchedBlock (atoms self.now.layout.now.level.now) self.now.goal_place self.now.part.now
            (front frontier.new) (length frontier.new.entries.now) 0 }
        ensures kept { Keeps frontier.old frontier.new }
    {
        let size = self.part.len();
        for number in 0..frontier.entries.len() {
            if self.is_goal(self.layout.placement(size, number).as_slice()) {
                frontier.reach(number, 0);
            }
        }
    }

    // Reaches the placements from which one part move leads to a placement.
    fn reach_from(&self, number: usize, frontier: &mut Frontier, map: &mut Map)
        requires whole { length frontier.old.entries.now
            ≡ free_count (atoms self.now.layout.now.level.now).board ^ length self.now.part.now }
        requires walls { ShowsWalls (atoms self.now.layout.now.level.now).board map.old }
        requires taken { TakenLast (atoms self.now.layout.now.level.now) self.now.goal_place self.now.part.now
            frontier.old number }
        ensures searched { SearchedBlock (atoms self.now.layout.now.level.now) self.now.goal_place self.now.part.now
            (front frontier.new) (length frontier.new.entries.now) frontier.new.taken }
        ensures kept { Keeps frontier.old frontier.new }
        ensures map { map.new ≡ map.old }
    {
        let moves = (frontier.entries[number] + 1).min(MOST_MOVES);
        let placement = self.layout.placement(self.part.len(), number);
        let cells = placement.as_slice();
        for atom in 0..cells.len() {
            let landings = self.neighbours.landings(map, cells, atom);
            let weight = self.layout.placements(cells.len() - 1 - atom);
            let others = number - self.layout.cell_number(cells[atom]) * weight;
            for cell in landings.as_slice() {
                frontier.reach(others + self.layout.cell_number(*cell) * weight, moves);
            }
        }
    }
}
