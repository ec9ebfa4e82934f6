ghost use Rattle.std.specs.Prelude.{◌≡◌, ℕ, ◌^◌, ◌+◌, ◌<◌, ◌≤◌, List, length, slice_index, slice_set, Decides};
ghost use Rattle.atoms.specs.Level.{atoms};
ghost use Rattle.pattern_databases.specs.Floor.{free_count};
ghost use Rattle.pattern_databases.specs.PartMoves.{Meet, Goes, PartMove};
ghost use Rattle.pattern_databases.specs.inside.Walking.{ShowsWalls};
ghost use Rattle.pattern_databases.specs.inside.Blocks.{ByteFor, IsConsistent, MeetsAt, Meets};

use super::goals::meet;
use super::{Block, NEVER};
use crate::condition::Condition;
use crate::marked::Map;

impl Block<'_> {
    /// Whether the block meets a condition of the test.
    pub(crate) fn meets(&self, condition: Condition, entries: &[u8], map: &mut Map) -> bool
        requires whole { length entries.now
            ≡ free_count (atoms self.now.layout.now.level.now).board ^ length self.now.part.now }
        requires walls { ShowsWalls (atoms self.now.layout.now.level.now).board map.old }
        ensures decides { Decides result (Meets (atoms self.now.layout.now.level.now) self.now.goal_place
            self.now.part.now entries.now condition) }
        ensures kept { map.new ≡ map.old }
    {
        for number in 0..entries.len() {
            let placement = self.layout.placement(self.part.len(), number);
            if !self.meets_at(condition, entries, placement.as_slice(), number, map) {
                return false;
            }
        }
        true
    }

    // Whether the block meets the condition at the placement with a number.
    fn meets_at(
        &self,
        condition: Condition,
        entries: &[u8],
        cells: &[u8],
        number: usize,
        map: &mut Map,
    ) -> bool
        requires byte { ByteFor (atoms self.now.layout.now.level.now) self.now.part.now entries.now cells.now number }
        requires walls { ShowsWalls (atoms self.now.layout.now.level.now).board map.old }
        ensures decides { Decides result (MeetsAt (atoms self.now.layout.now.level.now) self.now.goal_place
            self.now.part.now entries.now condition cells.now) }
        ensures kept { map.new ≡ map.old }
    {
        match condition {
            Condition::Goals => entries[number] == 0 || !self.is_goal(cells),
            Condition::Meetings => entries[number] == NEVER || !meet(cells),
            Condition::Moves => meet(cells) || self.moves_at(entries, cells, number, map),
        }
    }

    // Whether every part move from a placement lowers its byte by at most one, and leads from 255 to 255 only.
    fn moves_at(&self, entries: &[u8], cells: &[u8], number: usize, map: &mut Map) -> bool
        requires apart { Meet cells.now → ⊥ }
        requires byte { ByteFor (atoms self.now.layout.now.level.now) self.now.part.now entries.now cells.now number }
        requires walls { ShowsWalls (atoms self.now.layout.now.level.now).board map.old }
        ensures decides { Decides result ((after : List ℕ)
            → PartMove (atoms self.now.layout.now.level.now).board cells.now after
            → IsConsistent (atoms self.now.layout.now.level.now) self.now.goal_place self.now.part.now
            entries.now cells.now after) }
        ensures kept { map.new ≡ map.old }
    {
        for atom in 0..cells.len() {
            if !self.moves_of(atom, entries, cells, number, map) {
                return false;
            }
        }
        true
    }

    // Whether the moves of one atom do.
    fn moves_of(
        &self,
        atom: usize,
        entries: &[u8],
        cells: &[u8],
        number: usize,
        map: &mut Map,
    ) -> bool
        requires there { atom < length self.now.part.now }
        requires apart { Meet cells.now → ⊥ }
        requires byte { ByteFor (atoms self.now.layout.now.level.now) self.now.part.now entries.now cells.now number }
        requires walls { ShowsWalls (atoms self.now.layout.now.level.now).board map.old }
        ensures decides { Decides result ((to : ℕ) → Goes (atoms self.now.layout.now.level.now).board cells.now atom to
            → IsConsistent (atoms self.now.layout.now.level.now) self.now.goal_place self.now.part.now
            entries.now cells.now (slice_set cells.now atom to)) }
        ensures kept { map.new ≡ map.old }
    {
        let landings = self.neighbours.landings(map, cells, atom);
        let weight = self.layout.placements(cells.len() - 1 - atom);
        let others = number - self.layout.cell_number(cells[atom]) * weight;
        let entry = entries[number];
        for cell in landings.as_slice() {
            let after = entries[others + self.layout.cell_number(*cell) * weight];
            if !may_lead(entry, after) {
                return false;
            }
        }
        true
    }
}

// Whether a part move may lead from a placement with one byte to one with another.
fn may_lead(before: u8, after: u8) -> bool
    ensures { Decides result ((before ≤ after + 1) × (before ≡ 255 → after ≡ 255)) }
{
    u16::from(before) <= u16::from(after) + 1 && (before != NEVER || after == NEVER)
}
