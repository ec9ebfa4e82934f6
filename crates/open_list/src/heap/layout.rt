ghost use Rattle.std.specs.Prelude.{◌≡◌, ◌+◌, ◌*◌, ◌<◌, ◌≤◌, length, slice_set};
ghost use Rattle.open_list.specs.inside.Layout.{depth_of, floor_of, slot_of, place_in, no_slot, rank};
ghost use Rattle.open_list.specs.inside.Sifting.{Puts};

/// How many numbers a place has, besides one in the heap.
const FIELDS: usize = 3;

// Which of the numbers of a place is which.
const DEPTH: usize = 0;

const FLOOR: usize = 1;

const SLOT: usize = 2;

/// The slot of a place that is closed.
pub(crate) const NO_SLOT: u32 = u32::MAX;

/// More than any lower bound.
const FLOORS: u64 = 1 << 16;

/// More than any place: a rank has its place in a word of its own.
const PLACES: u128 = 1 << 64;

/// The moves made to a place.
#[tactic(auto, unfolding(crate::specs::inside::Layout::depth_of))]
pub(crate) fn depth_of(numbers: &[u32], place: usize) -> u32
    requires { 3 * place + 2 < length numbers.now }
    ensures { result ≡ depth_of numbers.now place }
{
    numbers[FIELDS * place + DEPTH]
}

/// The slot of a place.
#[tactic(auto, unfolding(crate::specs::inside::Layout::slot_of))]
pub(crate) fn slot_of(numbers: &[u32], place: usize) -> u32
    requires { 3 * place + 2 < length numbers.now }
    ensures { result ≡ slot_of numbers.now place }
{
    numbers[FIELDS * place + SLOT]
}

/// The place in a slot of the heap.
#[tactic(auto, unfolding(crate::specs::inside::Layout::place_in))]
pub(crate) fn place_in(numbers: &[u32], capacity: usize, slot: usize) -> usize
    requires few { capacity ≤ 1048576 }
    requires inside { 3 * capacity + slot < length numbers.now }
    ensures { result ≡ place_in numbers.now capacity slot }
{
    numbers[FIELDS * capacity + slot] as usize
}

/// What places are ordered by: the lower rank comes first.
#[tactic(auto, unfolding(crate::specs::inside::Layout::depth_of, crate::specs::inside::Layout::floor_of, crate::specs::inside::Layout::rank))]
pub(crate) fn rank(numbers: &[u32], place: usize) -> u128
    requires { 3 * place + 2 < length numbers.now }
    ensures { result ≡ rank numbers.now place }
{
    let depth = u64::from(numbers[FIELDS * place + DEPTH]);
    let floor = u64::from(numbers[FIELDS * place + FLOOR]);
    u128::from((depth + floor) * FLOORS + floor) * PLACES + place as u128
}

/// Puts a place into a slot of the heap.
pub(crate) fn put(numbers: &mut [u32], capacity: usize, slot: usize, place: usize)
    requires few { capacity ≤ 1048576 }
    requires room { 4 * capacity ≤ length numbers.old }
    requires slot { slot < capacity }
    requires place { place < capacity }
    ensures { Puts capacity slot place numbers.old numbers.new }
{
    numbers[FIELDS * capacity + slot] = place as u32;
    numbers[FIELDS * place + SLOT] = slot as u32;
}

/// Notes the moves made to a place.
pub(crate) fn set_depth(numbers: &mut [u32], place: usize, depth: u32)
    requires { 3 * place + 2 < length numbers.old }
    ensures { numbers.new ≡ slice_set numbers.old (3 * place) depth }
{
    numbers[FIELDS * place + DEPTH] = depth;
}

/// Notes the lower bound of a place.
pub(crate) fn set_floor(numbers: &mut [u32], place: usize, floor: u16)
    requires { 3 * place + 2 < length numbers.old }
    ensures { numbers.new ≡ slice_set numbers.old (3 * place + 1) floor }
{
    numbers[FIELDS * place + FLOOR] = u32::from(floor);
}

/// Notes that a place is closed.
pub(crate) fn close(numbers: &mut [u32], place: usize)
    requires { 3 * place + 2 < length numbers.old }
    ensures { numbers.new ≡ slice_set numbers.old (3 * place + 2) no_slot }
{
    numbers[FIELDS * place + SLOT] = NO_SLOT;
}
