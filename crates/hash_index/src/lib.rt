//! The hash index of a search: which places have a key.
//!
//! Each bucket is a chain of places from the last to the first, over lent numbers: nothing is allocated, and a look-up
//! goes along one chain.
#![tactic(auto)]

mod chains;
mod index;
#[cfg(test)]
mod tests;

pub use index::HashIndex;
