ghost use Rattle.std.specs.Prelude.{◌≡◌, ◌≤◌, take};

use atoms::AtomLevel;

/// Where the atoms of a part stand: a cell for each of them, in the order of the part.
#[derive(Clone, Copy)]
pub(crate) struct Placement {
    pub(crate) cells: [u8; AtomLevel::MOST_ATOMS],
    pub(crate) size: usize,
    ghost few: { size ≤ 16 },
}

impl Placement {
    pub(crate) fn as_slice(&self) -> &[u8]
        ensures { result.now ≡ take self.now.size self.now.cells }
    {
        &self.cells[..self.size]
    }
}
