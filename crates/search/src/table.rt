ghost use Rattle.std.specs.Prelude.{◌≡◌, ◌<◌, length, slice_get, slice_set, Some};
ghost use Rattle.search.specs.inside.Parts.{SameAt};

use puzzle::Puzzle;

/// The caller's table of positions.
#[derive(Drop)]
pub(crate) struct Table<'a, P> {
    pub(crate) places: &'a mut [P],
}

fn put_in<P: Copy>(places: &mut [P], place: usize, position: P)
    requires { place < length places.old }
    ensures { places.new ≡ slice_set places.old place position }
{
    places[place] = position;
}

fn is_at<P: Copy, Z: Puzzle<Position = P>>(
    puzzle: &Z,
    places: &[P],
    place: usize,
    position: &P,
) -> bool
    requires { place < length places.now }
    ensures { SameAt (Z.Puzzle.meaning puzzle.now) places.now place position.now result }
{
    puzzle.is_same(&places[place], position)
}

impl<'a, P: Copy> Table<'a, P> {
    /// The position at a place.
    pub(crate) fn get(&self, place: usize) -> P
        requires { place < length self.now.places.now }
        ensures { slice_get self.now.places.now place ≡ Some result }
    {
        self.places[place]
    }

    /// Writes the position at a place.
    pub(crate) fn put(&mut self, place: usize, position: P)
        requires { place < length self.old.places.now }
        ensures { self.new.places.now ≡ slice_set self.old.places.now place position }
    {
        put_in(self.places, place, position);
    }

    /// Whether a place holds a position.
    pub(crate) fn holds<Z: Puzzle<Position = P>>(
        &self,
        puzzle: &Z,
        place: usize,
        position: &P,
    ) -> bool
        requires { place < length self.now.places.now }
        ensures { SameAt (Z.Puzzle.meaning puzzle.now) self.now.places.now place position.now result }
    {
        is_at(puzzle, self.places, place, position)
    }
}
