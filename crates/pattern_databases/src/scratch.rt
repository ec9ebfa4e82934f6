ghost use Rattle.std.specs.Prelude.{◌≡◌, vec_len};

use crate::layout::MOST_PLACEMENTS;
use crate::marked::{FREE, Map};
use pictures::Picture;
use std::alloc::{AllocError, Global};

/// Memory for filling and testing books: the map of a board's walls, and a queue of the placements of one part.
#[derive(Drop)]
pub struct Scratch {
    pub(crate) map: Map,
    pub(crate) queue: Vec<u32>,
    ghost queued: { vec_len queue ≡ 65536 },
}

impl Scratch {
    /// Memory from the heap. It is good for any number of books.
    pub fn new(heap: Global) -> Result<Scratch, AllocError> {
        Ok(Scratch {
            map: [FREE; Picture::MOST_CELLS],
            queue: vec![in heap; 0u32; MOST_PLACEMENTS]?,
        })
    }
}
