//! Atom levels as text: reading one, with a refusal by number and line, and writing one.
mod reader;
mod writer;

pub use reader::read_level;
pub use writer::write_level;

/// The keyword of a level's first line, which has the board's size.
pub const KEYWORD: &[u8] = b"atomix";
