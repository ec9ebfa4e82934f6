//! Pictures: rectangles of cells, as boards and molecules are drawn.
#![tactic(auto)]

mod cell;
mod picture;

pub use cell::{Cell, UnknownSymbol};
pub use picture::Picture;
