//! The words that every other crate speaks of a puzzle: its game, lists of legal moves, what can be reached; and what a
//! puzzle has to show before it is searched.
#![tactic(auto)]

mod keys;
mod puzzle;

pub use keys::{key_of, mix};
pub use puzzle::Puzzle;
