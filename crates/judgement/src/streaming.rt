ghost use Rattle.std.specs.Prelude.{OnOk, IfErr, [], ◌∷◌};
ghost use Rattle.streams.specs.Failing.{Fails};
ghost use Rattle.judgement.specs.Streaming.{ReportsAll};

use crate::{REPORT_ROOM, judge_texts, report};
use std::alloc::Global;
use std::io::Write;
use streams::{Failure, Named, Source, read_source};

/// Reads a level to its end and then a way, and writes the report of the judgement.
///
/// The way is read whatever the level is. Fails where a stream does, and where memory is wanting for what it gives.
/// Nothing is written then, unless it is the output that failed.
pub fn judge_streams<'a, L: Source<'a>, V: Source<'a>, W: Write>(
    heap: Global,
    level: L,
    way: V,
    output: &mut Named<'a, W>,
) -> Result<(), Failure<'a>>
    ensures reports { OnOk result (ReportsAll (L.given level) (V.given way)
        (W.contents output.old.stream) (W.contents output.new.stream)) }
    ensures fails { IfErr result (λ failure. Fails (L.name level ∷ V.name way ∷ []) output.old.name.now
        (W.contents output.old.stream) (W.contents output.new.stream) failure.name.now) }
{
    let level_text = read_source(heap, level)?;
    let way_text = read_source(heap, way)?;
    let mut buffer = [0; REPORT_ROOM];
    output.write_answer(report(judge_texts(&level_text, &way_text), &mut buffer))
}
