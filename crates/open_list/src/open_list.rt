use crate::heap::{Heap, Sizes};
use std::marker::Model;

mod calls;

/// The open list of a search over lent numbers, four for each place. What stands in them is free.
#[derive(Drop)]
pub struct OpenList<'a> {
    heap: Heap<'a>,
    sizes: Sizes,
}

impl<'a> Model for OpenList<'a> {
    ghost use Rattle.open_list.specs.OpenList.{Queue};

    ghost Value = { Queue };

    ghost use Rattle.open_list.specs.View.{queue_of, IsHeap};

    ghost view = { queue_of };

    ghost invariant = { IsHeap };
}
