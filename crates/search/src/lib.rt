//! The search: a best-first search for every puzzle, over memory that the caller lends.
#![tactic(auto)]

mod links;
mod search;
mod table;

pub use search::Search;
