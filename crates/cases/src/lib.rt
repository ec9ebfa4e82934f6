//! Levels and ways, good and damaged, with what is said of each; and levels as puzzles. The crate is there for its tests.
#![tactic(auto)]

#[cfg(test)]
mod atom_cases;
#[cfg(test)]
mod atom_puzzles;
#[cfg(test)]
mod reports;
#[cfg(test)]
mod said;
#[cfg(test)]
mod tile_cases;
#[cfg(test)]
mod tile_puzzles;
