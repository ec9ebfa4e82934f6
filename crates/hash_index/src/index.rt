use crate::chains::Chains;
use std::marker::Model;

mod calls;

/// The keys of the places of a search, over lent numbers, three for each place. What stands in them is free.
#[derive(Drop)]
pub struct HashIndex<'a> {
    chains: Chains<'a>,
    capacity: usize,
    used: usize,
}

impl<'a> Model for HashIndex<'a> {
    ghost use Rattle.hash_index.specs.Index.{Index};

    ghost Value = { Index };

    ghost use Rattle.hash_index.specs.inside.Chains.{index_of, IsIndex};

    ghost view = { index_of };

    ghost invariant = { IsIndex };
}
