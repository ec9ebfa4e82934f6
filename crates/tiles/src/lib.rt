//! Tile levels: the board and its positions, a level as a puzzle, how its moves are written, and its text.
#![tactic(auto)]

mod distances;
mod game;
mod level;
mod level_text;
mod notation;
mod position;

pub use level::{TileLevel, is_side};
pub use level_text::{KEYWORD, read_level, write_level};
