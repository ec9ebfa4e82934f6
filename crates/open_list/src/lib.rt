//! The open list of a search: which place is taken next, by moves made and lower bound.
//!
//! It is a heap with the place of each entry in it, four below each, over lent numbers: nothing is allocated, and a call
//! costs O(log n) at most.
#![tactic(auto)]

mod heap;
mod open_list;

pub use open_list::OpenList;

#[cfg(test)]
mod tests;
