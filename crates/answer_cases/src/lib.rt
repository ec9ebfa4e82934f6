//! Levels and what is answered for each. The crate is there for its tests.
#![tactic(auto)]

#[cfg(test)]
mod answered;
#[cfg(test)]
mod streamed;
