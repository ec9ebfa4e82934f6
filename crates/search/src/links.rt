ghost use Rattle.std.specs.Prelude.{◌≡◌, ◌<◌, ◌*◌, ◌+◌, ◌/◌, ◌%◌, length, slice_index, slice_set};
ghost use Rattle.search.specs.inside.Memory.{link_of};

/// How many move numbers a link has room for.
const MOVES_PER_LINK: u32 = 256;

/// The links of the nodes, in lent numbers: from which place a node was last reached, and by which move.
#[derive(Drop)]
pub(crate) struct Links<'a> {
    pub(crate) numbers: &'a mut [u32],
}

fn put_in(numbers: &mut [u32], place: usize, link: u32)
    requires { place < length numbers.old }
    ensures { numbers.new ≡ slice_set numbers.old place link }
{
    numbers[place] = link;
}

impl<'a> Links<'a> {
    /// Writes the link of a place.
    pub(crate) fn put(&mut self, place: usize, parent: u32, number: u32)
        requires inside { place < length self.old.numbers.now }
        requires few { parent < 1048576 }
        requires small { number < 256 }
        ensures { self.new.numbers.now ≡ slice_set self.old.numbers.now place (link_of parent number) }
    {
        put_in(self.numbers, place, MOVES_PER_LINK * parent + number);
    }

    /// The place that a node was last reached from, and by which move; 0 and 0 past the last place.
    pub(crate) fn get(&self, place: usize) -> (usize, u32)
        ensures parent { result.0 ≡ slice_index self.now.numbers.now place / 256 }
        ensures number { result.1 ≡ slice_index self.now.numbers.now place % 256 }
    {
        let link = self.numbers.get(place).copied().unwrap_or(0);
        ((link / MOVES_PER_LINK) as usize, link % MOVES_PER_LINK)
    }
}
