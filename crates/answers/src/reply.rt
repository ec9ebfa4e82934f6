ghost use Rattle.answers.specs.inside.Replies.{reply_text};

use refusals::Refusal;
use text::pen::{Compose, Pen};

/// An answer that is no way.
#[derive(Clone, Copy)]
pub(crate) enum Reply {
    /// There is no way.
    NoWay,
    /// More positions can be reached than the table has places.
    TooMany,
    /// The text is no level.
    Refused(Refusal),
}

impl Compose for Reply {
    ghost text = { reply_text };

    fn compose(&self, pen: &mut Pen) {
        match self {
            Reply::NoWay => pen.put(b"(none)\n"),
            Reply::TooMany => pen.put(b"(full)\n"),
            Reply::Refused(refusal) => {
                refusal.compose(pen);
                pen.put(b"\n");
            }
        }
    }
}
