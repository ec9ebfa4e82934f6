use crate::links::Links;
use crate::table::Table;
use hash_index::HashIndex;
use open_list::OpenList;
use search_theory::Verdict;
use std::marker::Model;

mod calls;
mod steps;

/// A best-first search over memory that the caller lends: a table of positions and a list of numbers, eight for each
/// place of the table.
#[derive(Drop)]
pub struct Search<'a, P> {
    table: Table<'a, P>,
    open_list: OpenList<'a>,
    index: HashIndex<'a>,
    links: Links<'a>,
    // How many numbers were lent.
    numbers: usize,
    opened: bool,
    verdict: Verdict,
    steps: u64,
}

impl<'a, P> Model for Search<'a, P> {
    ghost use Rattle.search.specs.Contents.{Contents};

    ghost Value = { Contents P };

    ghost use Rattle.search.specs.View.{contents, StructInvariant};

    ghost view = { contents };

    ghost invariant = { StructInvariant };
}
