//! The books of atom levels from text to text: filled, tested, and how long they are.
#![tactic(auto)]

mod commands;
mod reply;
mod streaming;

pub use commands::{fill, size, test};
pub use streaming::{fill_stream, size_stream, test_streams};
