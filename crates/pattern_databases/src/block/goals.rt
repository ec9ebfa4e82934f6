ghost use Rattle.std.specs.Prelude.{length, Decides};
ghost use Rattle.atoms.specs.Level.{atoms};
ghost use Rattle.pattern_databases.specs.PartMoves.{Meet, Stands};
ghost use Rattle.pattern_databases.specs.Books.{GoalEntry};

use super::Block;

impl Block<'_> {
    /// Whether a placement is a goal entry: each atom on a cell of its label, no two on one.
    pub(crate) fn is_goal(&self, cells: &[u8]) -> bool
        requires { Stands (atoms self.now.layout.now.level.now).board (length self.now.part.now) cells.now }
        ensures { Decides result (GoalEntry (atoms self.now.layout.now.level.now) self.now.goal_place self.now.part.now
            cells.now) }
    {
        let level = self.layout.level;
        let labels = level.labels();
        !meet(cells)
            && cells.iter().zip(self.part).all(|(cell, atom)| {
                let label = labels[usize::from(*atom)];
                level
                    .molecule()
                    .wants(level.board(), self.goal_place, *cell, label)
            })
    }
}

/// Whether two atoms stand on one cell.
pub(crate) fn meet(cells: &[u8]) -> bool
    ensures { Decides result (Meet cells.now) }
{
    cells
        .iter()
        .enumerate()
        .any(|(atom, cell)| cells[..atom].contains(cell))
}
