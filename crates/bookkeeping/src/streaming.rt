//! The same from stream to stream.
ghost use Rattle.std.specs.Prelude.{OnOk, IfErr, [], ◌∷◌};
ghost use Rattle.streams.specs.Failing.{Fails, memory_name};
ghost use Rattle.bookkeeping.specs.Streaming.{FillsAll, SizesAll, TestsAll};

use crate::commands::{fill, size, test};
use std::alloc::Global;
use std::io::Write;
use streams::{Failure, Named, Source, read_source};

/// Reads a level to its end and writes the bytes of its book.
///
/// Fails where a stream does, and where memory is wanting. Nothing is written then, unless it is the output that failed.
pub fn fill_stream<'a, L: Source<'a>, W: Write>(
    heap: Global,
    level: L,
    output: &mut Named<'a, W>,
) -> Result<(), Failure<'a>>
    ensures answers { OnOk result (FillsAll (L.given level) (W.contents output.old.stream) (W.contents output.new.stream)) }
    ensures fails { IfErr result (λ failure. Fails (memory_name ∷ L.name level ∷ []) output.old.name.now
        (W.contents output.old.stream) (W.contents output.new.stream) failure.name.now) }
{
    let level_text = read_source(heap, level)?;
    output.write_answer(&fill(heap, &level_text)?)
}

/// Reads a level to its end and writes how many bytes its book has. Fails as `fill_stream` does.
pub fn size_stream<'a, L: Source<'a>, W: Write>(
    heap: Global,
    level: L,
    output: &mut Named<'a, W>,
) -> Result<(), Failure<'a>>
    ensures answers { OnOk result (SizesAll (L.given level) (W.contents output.old.stream) (W.contents output.new.stream)) }
    ensures fails { IfErr result (λ failure. Fails (memory_name ∷ L.name level ∷ []) output.old.name.now
        (W.contents output.old.stream) (W.contents output.new.stream) failure.name.now) }
{
    let level_text = read_source(heap, level)?;
    output.write_answer(&size(heap, &level_text)?)
}

/// Reads a level to its end and then a book, and writes whether the book passes. Fails as `fill_stream` does.
pub fn test_streams<'a, L: Source<'a>, B: Source<'a>, W: Write>(
    heap: Global,
    level: L,
    book: B,
    output: &mut Named<'a, W>,
) -> Result<(), Failure<'a>>
    ensures answers { OnOk result (TestsAll (L.given level) (B.given book)
        (W.contents output.old.stream) (W.contents output.new.stream)) }
    ensures fails { IfErr result (λ failure. Fails (memory_name ∷ L.name level ∷ B.name book ∷ []) output.old.name.now
        (W.contents output.old.stream) (W.contents output.new.stream) failure.name.now) }
{
    let level_text = read_source(heap, level)?;
    let bytes = read_source(heap, book)?;
    output.write_answer(&test(heap, &level_text, &bytes)?)
}
