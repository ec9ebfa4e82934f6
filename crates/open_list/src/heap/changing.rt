ghost use Rattle.std.specs.Prelude.{◌<◌};
ghost use Rattle.open_list.specs.inside.Layout.{depth_of};
ghost use Rattle.open_list.specs.inside.Sifting.{IsArranged};
ghost use Rattle.open_list.specs.inside.Changing.{Adds, Lowers, ClosesFirst};

use super::Sizes;
use super::layout::{NO_SLOT, close, place_in, set_depth, set_floor, slot_of};
use super::sifting::{sift_down, sift_up};

/// Adds an open place behind those in use.
pub(crate) fn add(numbers: &mut [u32], sizes: Sizes, depth: u32, floor: u16) -> Sizes
    requires arranged { IsArranged numbers.old sizes }
    requires room { sizes.used < sizes.capacity }
    ensures { Adds depth floor numbers.old numbers.new sizes result }
{
    let place = sizes.used;
    let more = Sizes {
        capacity: sizes.capacity,
        used: sizes.used + 1,
        queued: sizes.queued + 1,
    };
    set_depth(numbers, place, depth);
    set_floor(numbers, place, floor);
    sift_up(numbers, more, sizes.queued, place);
    more
}

/// Opens a place with fewer moves.
pub(crate) fn lower(numbers: &mut [u32], sizes: Sizes, place: usize, depth: u32) -> Sizes
    requires arranged { IsArranged numbers.old sizes }
    requires in_use { place < sizes.used }
    requires fewer { depth < depth_of numbers.old place }
    ensures { Lowers place depth numbers.old numbers.new sizes result }
{
    let slot = slot_of(numbers, place);
    set_depth(numbers, place, depth);
    if slot != NO_SLOT {
        sift_up(numbers, sizes, slot as usize, place);
        return sizes;
    }
    let more = Sizes {
        capacity: sizes.capacity,
        used: sizes.used,
        queued: sizes.queued + 1,
    };
    sift_up(numbers, more, sizes.queued, place);
    more
}

/// Closes the place that comes first.
pub(crate) fn close_first(numbers: &mut [u32], sizes: Sizes) -> Sizes
    requires arranged { IsArranged numbers.old sizes }
    requires some { 0 < sizes.queued }
    ensures { ClosesFirst numbers.old numbers.new sizes result }
{
    let fewer = Sizes {
        capacity: sizes.capacity,
        used: sizes.used,
        queued: sizes.queued - 1,
    };
    let first = place_in(numbers, sizes.capacity, 0);
    let last = place_in(numbers, sizes.capacity, fewer.queued);
    close(numbers, first);
    if fewer.queued > 0 {
        sift_down(numbers, fewer, 0, last);
    }
    fewer
}
