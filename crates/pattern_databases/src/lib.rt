//! Books: lower bounds for parts of an atom level's atoms, filled, tested, and a level as a puzzle with them.
#![tactic(auto)]

mod block;
mod book;
mod book_bound;
mod booked_level;
mod condition;
mod landings;
mod layout;
mod level_bound;
mod marked;
mod neighbours;
mod parts;
mod placement;
mod scratch;

pub use book::Book;
pub use book_bound::BookBound;
pub use booked_level::BookedLevel;
pub use level_bound::LevelBound;
pub use scratch::Scratch;
