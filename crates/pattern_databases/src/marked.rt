//! A guard that marks a cell of a lent map as a wall, and puts the byte back.
ghost use Rattle.std.specs.Prelude.{◌≡◌, ◌<◌, length, slice_set};

use pictures::Picture;

/// A map of walls: a byte for each cell of a board, by its number.
pub(crate) type Map = [u8; Picture::MOST_CELLS];

/// On a map, a cell that is no wall.
pub(crate) const FREE: u8 = 0;

/// On a map, a wall.
pub(crate) const WALL: u8 = 1;

/// A cell that is marked as a wall on a lent map, as long as this lives.
pub(crate) struct Marked<'a> {
    pub(crate) map: &'a mut Map,
    cell: u8,
    was: u8,
}

impl<'a> Marked<'a> {
    pub(crate) fn new(map: &'a mut Map, cell: u8) -> Marked<'a>
        ensures marked { result.map.now ≡ slice_set map.old cell 1 }
        ensures same { result.map.ghost_name ≡ map.entry.ghost_name }
        ensures back { slice_set result.map.now result.cell result.was ≡ map.old }
    {
        let was = map[usize::from(cell)];
        map[usize::from(cell)] = WALL;
        Marked { map, cell, was }
    }
}

impl Drop for Marked<'_> {
    fn drop(self)
        ensures { self.exit.0.now ≡ slice_set self.entry.map.now self.entry.cell self.entry.was }
    {
        self.map[usize::from(self.cell)] = self.was;
        let Marked {
            map: _,
            cell: _,
            was: _,
        } = self;
    }
}
