ghost use Rattle.std.specs.Prelude.{OnOk, IfErr, [], ◌∷◌};
ghost use Rattle.streams.specs.Failing.{Fails};
ghost use Rattle.answers.specs.Streaming.{AnswersAll};

use crate::Workspace;
use std::alloc::Global;
use std::io::{Read, Write};
use streams::{Failure, Named};

/// Reads a level's text to its end and writes the answer to it.
///
/// Fails where a stream does, and where memory is wanting for what it gives. Nothing is written then, unless it is the
/// output that failed.
pub fn answer_stream<'a, R: Read + Drop, W: Write>(
    heap: Global,
    workspace: &mut Workspace,
    input: Named<'a, R>,
    output: &mut Named<'a, W>,
) -> Result<(), Failure<'a>>
    ensures answers { OnOk result (AnswersAll (R.remaining input.entry.stream)
        (W.contents output.old.stream) (W.contents output.new.stream)) }
    ensures fails { IfErr result (λ failure. Fails (input.entry.name.now ∷ []) output.old.name.now
        (W.contents output.old.stream) (W.contents output.new.stream) failure.name.now) }
{
    let text = input.read_all(heap)?;
    output.write_answer(workspace.answer(&text))
}
