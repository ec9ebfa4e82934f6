//! Slides over a board: sets of cells, and where one comes to rest who slides over free cells.
#![tactic(auto)]

mod cell_set;
mod sliding;

pub use cell_set::CellSet;
pub use sliding::slide;
