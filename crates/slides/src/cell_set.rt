ghost use Rattle.std.specs.Prelude.{◌≡◌};
ghost use Rattle.slides.specs.Sets.{has, IsEmpty, Inserts};

/// The bits of a word.
const WORD_BITS: usize = 64;

/// The words of a set.
const WORDS: usize = 4;

/// A set of cells with numbers from 0 to 255, a bit for each.
#[derive(Clone, Copy, Debug)]
pub struct CellSet {
    words: [u64; WORDS],
}

/// The set without cells.
impl Default for CellSet {
    ghost is_default = { IsEmpty };

    fn default() -> CellSet {
        CellSet { words: [0; WORDS] }
    }
}

impl CellSet {
    /// Puts a cell into the set.
    pub fn insert(&mut self, cell: u8)
        ensures { Inserts cell self.old self.new }
    {
        let cell = usize::from(cell);
        self.words[cell / WORD_BITS] |= 1 << (cell % WORD_BITS);
    }

    /// Whether a cell is in the set. No cell past 255 is in one.
    pub fn contains(&self, cell: usize) -> bool
        ensures { result ≡ has self.now cell }
    {
        cell < WORDS * WORD_BITS && self.words[cell / WORD_BITS] >> (cell % WORD_BITS) & 1 == 1
    }
}
