//! Writing text at the front of a lent buffer, where it fits.
//!
//! A type that can be written implements `Compose`. `write_text` composes it twice: first with a measuring pen,
//! which has no buffer, and then, if the text fits, with a pen over the buffer. So a text that does not
//! fit leaves the buffer as it was.
ghost use Rattle.std.specs.Prelude.{◌≡◌, ℕ, List};
ghost use Rattle.text.specs.Pens.{pen_state, state_at_front, measuring_state, after_put, Writes, buffer_after, length_if_fits};

use itoa::{Buffer, Integer};

/// A place in a buffer to write on from, with the room that is left.
///
/// A measuring pen has the room but no buffer: what is written with it is only measured.
#[derive(Drop)]
pub struct Pen<'a> {
    out: &'a mut [u8],
    room: usize,
    /// Beside the room, which a pen that has overflowed still tells.
    overflowed: bool,
}

impl<'a> Pen<'a> {
    /// A pen at the front of `out`.
    pub fn new(out: &'a mut [u8]) -> Pen<'a>
        ensures fresh { pen_state result ≡ state_at_front out.old }
        ensures same { result.out.ghost_name ≡ out.entry.ghost_name }
    {
        let room = out.len();
        Pen {
            out,
            room,
            overflowed: false,
        }
    }

    /// A pen without a buffer, to measure whether a text fits into `room`.
    pub fn measuring(room: usize) -> Pen<'static>
        ensures { pen_state result ≡ measuring_state room }
    {
        let mut pen = Pen::new(&mut []);
        pen.room = room;
        pen
    }

    /// Whether some text did not fit.
    pub fn has_overflowed(&self) -> bool
        ensures { result ≡ (pen_state self.now).overflowed }
    {
        self.overflowed
    }

    /// How much more fits.
    pub fn room(&self) -> usize
        ensures { result ≡ (pen_state self.now).room }
    {
        self.room
    }

    /// Writes `text` if it fits. If not, the pen has overflowed, and writes nothing from then on.
    pub fn put(&mut self, text: &[u8])
        ensures exactly { pen_state self.new ≡ after_put text.now (pen_state self.old) }
        ensures wrote { Writes text.now self.old self.new }
    {
        if self.overflowed || text.len() > self.room {
            self.overflowed = true;
            return;
        }
        // A measuring pen has more room than buffer, and nowhere to write.
        if let Some(at) = self.out.len().checked_sub(self.room) {
            self.out[at..at + text.len()].copy_from_slice(text);
        }
        self.room -= text.len();
    }

    /// Writes `n` in decimal, as `put` writes a text.
    pub fn put_decimal<I: Integer>(&mut self, n: I)
        ensures exactly { pen_state self.new ≡ after_put (I.text n) (pen_state self.old) }
        ensures wrote { Writes (I.text n) self.old self.new }
    {
        let mut digits = Buffer::new();
        self.put(digits.format(n).as_bytes());
    }
}

/// A value that a pen can write as text.
///
/// Unlike a `Display`, whose `fmt` may fail for reasons of its own, it always writes its text: the room alone decides.
pub trait Compose {
    ghost text: { Self → List ℕ };

    /// Writes the text, in any pieces. If it does not fit, the pen has overflowed, and a front of the text was written.
    /// How long a front is free: it is the pieces before the one that did not fit.
    fn compose(&self, pen: &mut Pen)
        ensures { Writes (text self.now) pen.old pen.new };
}

/// Writes a text at the front of `out`, and answers its length. If it does not fit, `out` stays as it was.
pub fn write_text<T: Compose>(text: &T, out: &mut [u8]) -> Option<usize>
    ensures after { out.new ≡ buffer_after (T.text text.now) out.old }
    ensures answers { result ≡ length_if_fits (T.text text.now) out.old }
{
    let long = out.len();
    let mut measure = Pen::measuring(long);
    text.compose(&mut measure);
    if measure.has_overflowed() {
        return None;
    }
    let mut pen = Pen::new(out);
    text.compose(&mut pen);
    Some(long - pen.room())
}
