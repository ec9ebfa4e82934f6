ghost use Rattle.std.specs.Prelude.{◌≡◌, ◌+◌, ◌<◌, ◌≤◌, take, length, [], ◌∷◌, ◌++◌};

/// As many cells as an atom can be taken to in one move: no line of a board has more than 16.
const MOST_LANDINGS: usize = 64;

/// The cells that an atom can be taken to in one move.
#[derive(Clone, Copy)]
pub(crate) struct Landings {
    pub(crate) cells: [u8; MOST_LANDINGS],
    pub(crate) count: usize,
    ghost few: { count ≤ 64 },
    ghost full: { length cells ≡ 64 },
}

impl Landings {
    pub(crate) fn new() -> Landings
        ensures { take result.count result.cells ≡ [] }
    {
        Landings {
            cells: [0; MOST_LANDINGS],
            count: 0,
        }
    }

    pub(crate) fn push(&mut self, cell: u8)
        requires { self.old.count < 64 }
        ensures { take self.new.count self.new.cells ≡ take self.old.count self.old.cells ++ cell ∷ [] }
    {
        self.cells[self.count] = cell;
        self.count += 1;
    }

    pub(crate) fn as_slice(&self) -> &[u8]
        ensures { result.now ≡ take self.now.count self.now.cells }
    {
        &self.cells[..self.count]
    }
}
