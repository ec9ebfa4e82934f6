ghost use Rattle.std.specs.Prelude.{◌≡◌, ◌+◌, ◌*◌, ◌<◌, length};
ghost use Rattle.open_list.specs.inside.Layout.{depth_of, place_in};
ghost use Rattle.open_list.specs.inside.Sifting.{IsArranged};
ghost use Rattle.open_list.specs.inside.Changing.{Adds, Lowers, ClosesFirst};

mod changing;
mod layout;
mod sifting;

/// How many places there are, how many of them are in use, and how many of those are open, in the heap.
#[derive(Clone, Copy)]
pub(crate) struct Sizes {
    pub(crate) capacity: usize,
    pub(crate) used: usize,
    pub(crate) queued: usize,
}

/// The numbers of an open list.
#[derive(Drop)]
pub(crate) struct Heap<'a> {
    pub(crate) numbers: &'a mut [u32],
}

impl<'a> Heap<'a> {
    /// The moves made to a place.
    pub(crate) fn depth(&self, place: usize) -> u32
        requires { 3 * place + 2 < length self.now.numbers.now }
        ensures { result ≡ depth_of self.now.numbers.now place }
    {
        layout::depth_of(self.numbers, place)
    }

    /// The place that comes first.
    pub(crate) fn first(&self, sizes: Sizes) -> usize
        requires arranged { IsArranged self.now.numbers.now sizes }
        requires some { 0 < sizes.queued }
        ensures { result ≡ place_in self.now.numbers.now sizes.capacity 0 }
    {
        layout::place_in(self.numbers, sizes.capacity, 0)
    }

    /// Adds an open place behind those in use.
    pub(crate) fn add(&mut self, sizes: Sizes, depth: u32, floor: u16) -> Sizes
        requires arranged { IsArranged self.old.numbers.now sizes }
        requires room { sizes.used < sizes.capacity }
        ensures { Adds depth floor self.old.numbers.now self.new.numbers.now sizes result }
    {
        changing::add(self.numbers, sizes, depth, floor)
    }

    /// Opens a place with fewer moves.
    pub(crate) fn lower(&mut self, sizes: Sizes, place: usize, depth: u32) -> Sizes
        requires arranged { IsArranged self.old.numbers.now sizes }
        requires in_use { place < sizes.used }
        requires fewer { depth < depth_of self.old.numbers.now place }
        ensures { Lowers place depth self.old.numbers.now self.new.numbers.now sizes result }
    {
        changing::lower(self.numbers, sizes, place, depth)
    }

    /// Closes the place that comes first.
    pub(crate) fn close_first(&mut self, sizes: Sizes) -> Sizes
        requires arranged { IsArranged self.old.numbers.now sizes }
        requires some { 0 < sizes.queued }
        ensures { ClosesFirst self.old.numbers.now self.new.numbers.now sizes result }
    {
        changing::close_first(self.numbers, sizes)
    }
}
