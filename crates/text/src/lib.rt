//! Texts: their lines and the pieces of a line, each with its place; the forms that lines have; reading the levels of a
//! kind line by line; and writing a text where it fits.
#![tactic(auto)]

pub mod forms;
mod level_reader;
mod line;
mod number;
mod numbered;
pub mod pen;
mod pieces;
mod read_text;
mod reader;
mod refusal;
mod run;

pub use level_reader::{LevelReader, read_level};
pub use line::{Line, is_text, next_line};
pub use pieces::{Piece, Token};
pub use read_text::ReadText;
pub use reader::{LineReader, read_lines};
pub use run::{ByteClass, run_end};
