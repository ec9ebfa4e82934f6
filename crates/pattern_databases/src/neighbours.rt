//! Walks over a board: which cells an atom can be taken to in one move while its partners stand where they are.
ghost use Rattle.std.specs.Prelude.{◌≡◌, ℕ, ◌+◌, ◌*◌, ◌<◌, ◌≤◌, ◌++◌, length, take, slice_index};
ghost use Rattle.grid.specs.declared.Direction.{Direction as Ways};
ghost use Rattle.grid.specs.Grid.{number_of};
ghost use Rattle.pictures.specs.Pictures.{shape};
ghost use Rattle.pattern_databases.specs.inside.Walking.{step, ShowsWalls, marked, Inside, WalksExactly, LandsExactly};

use crate::landings::Landings;
use crate::marked::{FREE, Map, Marked, WALL};
use grid::{Direction, Grid};
use pictures::{Cell, Picture};

/// The cell one step on from each cell of a board, in each direction: the cell itself where the board ends. So no step
/// of a walk divides.
#[derive(Clone, Copy)]
pub(crate) struct Neighbours {
    grid: Grid,
    steps: [u8; Picture::MOST_CELLS * Direction::ALL.len()],
    ghost wide: { grid.width ≤ 16 },
    ghost high: { grid.height ≤ 16 },
    ghost stepped: { (d : Ways) → (cell : ℕ) → cell < grid.width * grid.height
        → slice_index steps (number_of d * 256 + cell) ≡ step grid.width grid.height cell d },
}

impl Neighbours {
    /// The neighbours on a board.
    pub(crate) fn new(board: &Picture) -> Neighbours
        ensures { result.grid ≡ board.now.grid }
    {
        let grid = board.grid();
        let mut steps = [0; 1024];
        for direction in Direction::ALL {
            let first = u32::from(direction) as usize * Picture::MOST_CELLS;
            for cell in 0..grid.cells() {
                let next = grid.neighbour(cell, direction).unwrap_or(cell);
                steps[first + cell] = next as u8;
            }
        }
        Neighbours { grid, steps }
    }

    /// The cells that an atom of a placement can be taken to in one move. The map shows the walls of the board, and its
    /// partners as walls too while the atom is walked.
    pub(crate) fn landings(&self, map: &mut Map, cells: &[u8], atom: usize) -> Landings
        requires there { atom < length cells.now }
        requires inside { Inside self.now.grid.width self.now.grid.height cells.now }
        ensures kept { map.new ≡ map.old }
        ensures exactly { LandsExactly self.now.grid.width self.now.grid.height map.old cells.now atom
            (take result.count result.cells) }
    {
        let mut landings = Landings::new();
        self.walk(
            map,
            &cells[..atom],
            &cells[atom + 1..],
            cells[atom],
            &mut landings,
        );
        landings
    }

    // Walks from a cell in each direction, with the partners marked.
    fn walk(&self, map: &mut Map, before: &[u8], after: &[u8], from: u8, landings: &mut Landings)
        requires on_board { from < self.now.grid.width * self.now.grid.height }
        requires first { landings.old.count ≡ 0 }
        ensures kept { map.new ≡ map.old }
        ensures exactly { WalksExactly self.now.grid.width self.now.grid.height
            (marked map.old (before.now ++ after.now)) from (take landings.new.count landings.new.cells) }
    {
        match before.split_first() {
            Some((&partner, others)) => {
                let guard = Marked::new(map, partner);
                self.walk(guard.map, others, after, from, landings);
            }
            None if after.is_empty() => self.walk_free(map, from, landings),
            None => self.walk(map, after, &[], from, landings),
        }
    }

    // Walks from a cell in each direction, over cells that are free on the map.
    fn walk_free(&self, map: &Map, from: u8, landings: &mut Landings)
        requires on_board { from < self.now.grid.width * self.now.grid.height }
        requires first { landings.old.count ≡ 0 }
        ensures { WalksExactly self.now.grid.width self.now.grid.height map.now from
            (take landings.new.count landings.new.cells) }
    {
        for direction in Direction::ALL {
            let first = u32::from(direction) as usize * Picture::MOST_CELLS;
            let mut at = from;
            loop {
                let next = self.steps[first + usize::from(at)];
                if next == at || map[usize::from(next)] != FREE {
                    break;
                }
                landings.push(next);
                at = next;
            }
        }
    }
}

/// Draws the walls of a board on a map.
pub(crate) fn draw_walls(board: &Picture, map: &mut Map)
    ensures { ShowsWalls (shape board.now) map.new }
{
    for cell in 0..Picture::MOST_CELLS {
        map[cell] = if board.cell(cell) == Cell::Wall {
            WALL
        } else {
            FREE
        };
    }
}
