//! What is said of a level and a way, and what a buffer holds.
use judgement::judge_texts;
use refusals::Refusal;
use std::process::Abort;
use ways::{Notation, write_way};

// An answer: a count, or a refusal's number and its line.
pub(crate) type Said<T> = Result<T, (u32, usize)>;

pub(crate) fn said<T>(answer: Result<T, Refusal>) -> Said<T> {
    answer.map_err(|refusal| (refusal.fault.into(), refusal.line))
}

const NO_MOVES: &str = "(way 0\n)\n";

// What is said of a level by the way of no moves.
pub(crate) fn judge_level(level: &str) -> Result<u32, Refusal> {
    judge_texts(level.as_bytes(), NO_MOVES.as_bytes())
}

// Each text is judged as its row says.
pub(crate) fn judged_so<F: Fn(&str) -> Result<u32, Refusal>>(
    rt: &impl Abort,
    rows: &[(&str, Said<u32>)],
    judge: F,
)
    requires { F.IsAlwaysCallable judge }
{
    for (text, due) in rows {
        assert_eq!(rt; said(judge(text)), *due, "{text}");
    }
}

// How long a buffer the texts below are written to, and what it holds before.
const ROOM: usize = 1024;

const UNTOUCHED: u8 = 7;

// Whether the front of a buffer is this text and the rest is untouched.
fn holds(buffer: &[u8], text: &str) -> bool {
    buffer
        .strip_prefix(text.as_bytes())
        .is_some_and(|rest| rest.iter().all(|b| *b == UNTOUCHED))
}

// A level that is read is written as it was into just enough room, and not at all into less.
pub(crate) fn writes_back<F: Fn(&[u8], &mut [u8]) -> Result<usize, Refusal>>(
    rt: &impl Abort,
    text: &str,
    write: F,
)
    requires { F.IsAlwaysCallable write }
{
    let long = text.len();
    for (room, due, front) in [
        (long, Ok(long), text),
        (long.saturating_sub(1), Err((21, 0)), ""),
    ] {
        let mut buffer = [UNTOUCHED; ROOM];
        let answer = write(text.as_bytes(), &mut buffer[..room.min(ROOM)]);
        assert_eq!(rt; said(answer), due, "{text}");
        assert!(rt; holds(&buffer, front), "{text}");
    }
}

// A way is written as its row says.
pub(crate) fn written_so<L: Notation>(
    rt: &impl Abort,
    level: &L,
    moves: &[u32],
    room: usize,
    due: Said<usize>,
    text: &str,
) {
    let mut buffer = [UNTOUCHED; ROOM];
    let answer = write_way(level, moves, &mut buffer[..room.min(ROOM)]);
    assert_eq!(rt; said(answer), due, "{text}");
    assert!(rt; holds(&buffer, text), "{text}");
}
