ghost use Rattle.std.specs.Prelude.{◌≡◌, IfOk};
ghost use Rattle.bookkeeping.specs.inside.Replies.{reply_text};

use judgement::REPORT_ROOM;
use refusals::Refusal;
use std::alloc::{AllocError, Global};
use text::pen::{Compose, Pen, write_text};

/// A line that is answered.
#[derive(Clone, Copy)]
pub(crate) enum Reply {
    /// The book passes the test.
    Passed,
    /// The book has so many bytes.
    Bytes(usize),
    /// The level, or the book, is refused.
    Refused(Refusal),
}

impl Compose for Reply {
    ghost text = { reply_text };

    fn compose(&self, pen: &mut Pen) {
        match self {
            Reply::Passed => pen.put(b"(passed)\n"),
            Reply::Bytes(count) => {
                pen.put_decimal(*count);
                pen.put(b"\n");
            }
            Reply::Refused(refusal) => {
                refusal.compose(pen);
                pen.put(b"\n");
            }
        }
    }
}

impl Reply {
    /// The line as a text of its own.
    pub(crate) fn into_text(self, heap: Global) -> Result<Vec<u8>, AllocError>
        ensures { IfOk result (λ text. text.items ≡ reply_text self) }
    {
        let mut buffer = [0; REPORT_ROOM];
        let length = write_text(&self, &mut buffer).unwrap();
        Vec::from_slice(heap, &buffer[..length])
    }
}
