ghost use Rattle.std.specs.Prelude.{◌≡◌, ℕ, ◌<◌, ◌≤◌, length, slice_index};
ghost use Rattle.atoms.specs.Level.{atoms, count as atom_count};
ghost use Rattle.pattern_databases.specs.Parts.{part_of, part_count};

use atoms::AtomLevel;

/// How many atoms a part has, but for the last one, which may have fewer.
const PART_SIZE: usize = 2;

/// The parts of a level's atoms: each has the next atoms by number, and the last one those that are left.
#[derive(Clone, Copy)]
pub(crate) struct Parts {
    atoms: [u8; AtomLevel::MOST_ATOMS],
    pub(crate) count: usize,
    ghost few: { count ≤ 16 },
    ghost full: { length atoms ≡ 16 },
    ghost numbered: { (a : ℕ) → a < 16 → slice_index atoms a ≡ a },
}

impl Parts {
    /// The parts of a level.
    pub(crate) fn new(level: &AtomLevel) -> Parts
        ensures { result.count ≡ atom_count (atoms level.now) }
    {
        Parts {
            atoms: [0, 1, 2, 3, 4, 5, 6, 7, 8, 9, 10, 11, 12, 13, 14, 15],
            count: level.labels().len(),
        }
    }

    /// How many parts there are.
    pub(crate) fn len(&self) -> usize
        ensures { result ≡ part_count self.now.count }
    {
        self.count.div_ceil(PART_SIZE)
    }

    /// The atoms of the part with a number.
    pub(crate) fn part(&self, number: usize) -> &[u8]
        requires { number < part_count self.now.count }
        ensures { result.now ≡ part_of self.now.count number }
    {
        let first = number * PART_SIZE;
        &self.atoms[first..(first + PART_SIZE).min(self.count)]
    }
}
