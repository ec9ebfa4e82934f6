//! Numbers of placements on a position of the level.
ghost use Rattle.std.specs.Prelude.{◌≡◌, ◌^◌, ◌<◌, length};
ghost use Rattle.std.specs.List.{All};
ghost use Rattle.atoms.specs.Level.{atoms};
ghost use Rattle.pattern_databases.specs.Floor.{free_count};
ghost use Rattle.pattern_databases.specs.PartMoves.{Stands};
ghost use Rattle.pattern_databases.specs.Layout.{placement_number};
ghost use Rattle.pattern_databases.specs.Meaning.{cells_of};
ghost use Rattle.pattern_databases.specs.inside.Blocks.{Small};

use super::Layout;
use atoms::Position;

impl Layout<'_> {
    /// The number of where the atoms of a part stand. Where one of them is on no free cell, it is a placement's too.
    pub(crate) fn number_at(&self, part: &[u8], at: &Position) -> usize
        requires small { Small (atoms self.now.level.now) (length part.now) }
        requires there { All (λ atom. atom < 16) part.now }
        ensures number { let l = atoms self.now.level.now in
            Stands l.board (length part.now) (cells_of at.now part.now)
            → result ≡ placement_number l.board (cells_of at.now part.now) }
        ensures below { result < free_count (atoms self.now.level.now).board ^ length part.now }
    {
        let mut number = 0;
        for atom in part {
            let cell = at.cells[usize::from(*atom)];
            number = number * self.count + usize::from(self.numbers[usize::from(cell)]);
        }
        number
    }
}
