//! Levels of every kind: the one place that knows which kinds there are.
#![tactic(auto)]

mod level;
mod memory;
mod visitor;

pub use level::{Level, read_level};
pub use memory::{BOOK_BYTES, SearchMemory, Table};
pub use visitor::{LevelVisitor, TableVisitor};
