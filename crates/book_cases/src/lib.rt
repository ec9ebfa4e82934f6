//! Books of levels, altered ones, and searches with them, with what is due. The crate is there for its tests.
#![tactic(auto)]

#[cfg(test)]
mod filled;
#[cfg(test)]
mod searched;
#[cfg(test)]
mod tested;
