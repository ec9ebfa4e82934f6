//! The answer to a level, from text to text: a shortest way, that there is none, that the table was too small, or why
//! the text is no level. All memory is taken first, so that no answer fails for want of it.
#![tactic(auto)]

mod reply;
mod solving;
mod streaming;
mod workspace;

pub use streaming::answer_stream;
pub use workspace::Workspace;
