ghost use Rattle.std.specs.Prelude.{◌≡◌, ◌+◌, ◌<◌};
ghost use Rattle.open_list.specs.inside.Layout.{place_in, above, rank};
ghost use Rattle.open_list.specs.inside.Sifting.{HasRoom, PlacesFrom, MayRise, MaySink, SiftsIn, IsLaterAbove, IsEarliest, IsEarlierBelow};

use super::Sizes;
use super::layout::{place_in, put, rank};

/// How many slots of the heap lie below a slot. Four lie side by side, and make the heap half as high as two would.
const SLOTS_BELOW: usize = 4;

/// Puts a place into the heap, in a slot or one above it.
pub(crate) fn sift_up(numbers: &mut [u32], sizes: Sizes, from: usize, place: usize)
    requires { MayRise (rank numbers.old) numbers.old sizes from place }
    ensures { SiftsIn place numbers.old numbers.new sizes }
{
    let own = rank(numbers, place);
    let mut slot = from;
    while let Some(later) = later_above(numbers, sizes, slot, own) {
        put(numbers, sizes.capacity, slot, later);
        slot = (slot - 1) / SLOTS_BELOW;
    }
    put(numbers, sizes.capacity, slot, place);
}

/// Puts a place into the heap, in a slot or one below it.
pub(crate) fn sift_down(numbers: &mut [u32], sizes: Sizes, from: usize, place: usize)
    requires { MaySink (rank numbers.old) numbers.old sizes from place }
    ensures { SiftsIn place numbers.old numbers.new sizes }
{
    let own = rank(numbers, place);
    let mut slot = from;
    while let Some(below) = earlier_below(numbers, sizes, slot, own) {
        let earlier = place_in(numbers, sizes.capacity, below);
        put(numbers, sizes.capacity, slot, earlier);
        slot = below;
    }
    put(numbers, sizes.capacity, slot, place);
}

// The place above a slot, if it comes after a rank.
fn later_above(numbers: &[u32], sizes: Sizes, slot: usize, bound: u128) -> Option<usize>
    requires has_room { HasRoom numbers.now sizes }
    requires slot_in { slot < sizes.queued }
    requires above_in { 0 < slot → place_in numbers.now sizes.capacity (above slot) < sizes.capacity }
    ensures { IsLaterAbove numbers.now sizes.capacity slot bound result }
{
    if slot == 0 {
        return None;
    }
    let place = place_in(numbers, sizes.capacity, (slot - 1) / SLOTS_BELOW);
    (bound < rank(numbers, place)).then_some(place)
}

// Of the slots below a slot the one whose place comes first, if that comes before a rank.
fn earlier_below(numbers: &[u32], sizes: Sizes, slot: usize, bound: u128) -> Option<usize>
    requires has_room { HasRoom numbers.now sizes }
    requires slot_in { slot < sizes.queued }
    requires places { PlacesFrom (slot + 1) numbers.now sizes }
    ensures { IsEarlierBelow numbers.now sizes slot bound result }
{
    let left = SLOTS_BELOW * slot + 1;
    if left >= sizes.queued {
        return None;
    }
    let first = earliest(numbers, sizes, left);
    (rank_in(numbers, sizes, first) < bound).then_some(first)
}

// Of a slot and the three beside it in the heap the one whose place comes first.
fn earliest(numbers: &[u32], sizes: Sizes, from: usize) -> usize
    requires has_room { HasRoom numbers.now sizes }
    requires from_in { from < sizes.queued }
    requires places { PlacesFrom from numbers.now sizes }
    ensures { IsEarliest numbers.now sizes from (from + 4) result }
{
    let end = sizes.queued.min(from + SLOTS_BELOW);
    let mut first = from;
    let mut least = rank_in(numbers, sizes, from);
    for slot in from + 1..end {
        let own = rank_in(numbers, sizes, slot);
        if own < least {
            first = slot;
            least = own;
        }
    }
    first
}

// The rank of the place in a slot.
fn rank_in(numbers: &[u32], sizes: Sizes, slot: usize) -> u128
    requires has_room { HasRoom numbers.now sizes }
    requires slot_in { slot < sizes.queued }
    requires place_small { place_in numbers.now sizes.capacity slot < sizes.capacity }
    ensures { result ≡ rank numbers.now (place_in numbers.now sizes.capacity slot) }
{
    rank(numbers, place_in(numbers, sizes.capacity, slot))
}
