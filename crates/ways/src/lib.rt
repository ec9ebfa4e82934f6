//! Ways: how the moves of a puzzle are written (`Notation`), the judge of written ways, and the writer of ways.
#![tactic(auto)]

mod judging;
mod notation;
mod progress;
mod walk;
mod writing;

pub use judging::judge;
pub use notation::{IllegalMove, LONGEST_LINE, Notation};
pub use writing::write_way;
