//! What is answered to a level's text, and to bytes as its book. A text that spells no atom level is refused, with its
//! line, as the reader of atom levels refuses it.
ghost use Rattle.std.specs.Prelude.{IfOk};
ghost use Rattle.atoms.specs.Level.{atoms};
ghost use Rattle.pattern_databases.specs.Books.{Filled};
ghost use Rattle.bookkeeping.specs.Answers.{AnswersFill, AnswersTest, AnswersSize, SaysTest};
ghost use Rattle.bookkeeping.specs.inside.Replies.{reply_text};

use crate::reply::Reply;
use atoms::{AtomLevel, read_level};
use pattern_databases::{Book, Scratch};
use refusals::Refusal;
use std::alloc::{AllocError, Global};

/// The line of a refused book: none.
const NO_LINE: usize = 0;

/// The bytes of the level's book, filled. Fails for want of memory.
pub fn fill(heap: Global, level_text: &[u8]) -> Result<Vec<u8>, AllocError>
    ensures { IfOk result (λ answer. AnswersFill level_text.now answer.items) }
{
    match read_level(level_text) {
        Ok(level) => filled(heap, &level),
        Err(refusal) => Reply::Refused(refusal).into_text(heap),
    }
}

fn filled(heap: Global, level: &AtomLevel) -> Result<Vec<u8>, AllocError>
    ensures { IfOk result (λ bytes. Filled (atoms level.now) bytes.items) }
{
    let mut bytes = vec![in heap; 0u8; Book::length(level)]?;
    let mut scratch = Scratch::new(heap)?;
    Book::fill_bytes(level, &mut bytes, &mut scratch).unwrap();
    Ok(bytes)
}

/// `(passed)` where the bytes pass the test as the level's book, else `(fault NUMBER 0)`. Fails for want of memory.
pub fn test(heap: Global, level_text: &[u8], bytes: &[u8]) -> Result<Vec<u8>, AllocError>
    ensures { IfOk result (λ answer. AnswersTest level_text.now bytes.now answer.items) }
{
    let reply = match read_level(level_text) {
        Ok(level) => tested(heap, &level, bytes)?,
        Err(refusal) => Reply::Refused(refusal),
    };
    reply.into_text(heap)
}

fn tested(heap: Global, level: &AtomLevel, bytes: &[u8]) -> Result<Reply, AllocError>
    ensures { IfOk result (λ reply. SaysTest (atoms level.now) bytes.now (reply_text reply)) }
{
    let mut scratch = Scratch::new(heap)?;
    Ok(match Book::test(level, bytes, &mut scratch) {
        Ok(_) => Reply::Passed,
        Err(fault) => Reply::Refused(fault.at(NO_LINE)),
    })
}

/// How many bytes the level's book has. Fails for want of memory.
pub fn size(heap: Global, level_text: &[u8]) -> Result<Vec<u8>, AllocError>
    ensures { IfOk result (λ answer. AnswersSize level_text.now answer.items) }
{
    let reply = match read_level(level_text) {
        Ok(level) => Reply::Bytes(Book::length(&level)),
        Err(refusal) => Reply::Refused(refusal),
    };
    reply.into_text(heap)
}
