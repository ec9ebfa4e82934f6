//! Atom levels: the board and its positions, a level as a puzzle, how its moves are written, and its text.
#![tactic(auto)]

mod game;
mod level;
mod level_text;
mod notation;
mod position;

pub use level::AtomLevel;
pub use level_text::{KEYWORD, read_level, write_level};
pub use notation::AtomMove;
pub use position::Position;
