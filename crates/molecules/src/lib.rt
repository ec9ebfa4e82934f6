//! Wanted molecules: how one is drawn, where it can lie on a board, and which atom it wants on which cell.
#![tactic(auto)]

mod goal_places;
mod labels;
mod molecule;
mod overlay;

pub use goal_places::GoalPlaces;
pub use labels::count_atoms;
pub use molecule::Molecule;
