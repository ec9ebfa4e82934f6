ghost use Rattle.std.specs.Prelude.{◌≡◌};
ghost use Rattle.text.specs.Lines.{bytes};
ghost use Rattle.ways.specs.Judging.{judgement, AcceptsExactly, AcceptsSolutions};
ghost use Rattle.ways.specs.inside.Passing.{pass, conclusion, TakesLine};

use crate::notation::Notation;
use crate::progress::{Moves, Progress};
use crate::walk::Walk;
use refusals::{Fault, Refusal};
use text::{Line, LineReader, ReadText, forms, read_lines};

/// The word that opens a way.
const WAY: &[u8] = b"way";

/// The lines of a way that are no moves: the head and the closing bracket.
const FRAME_LINES: usize = 2;

/// A reader of a way on a level, and how far it has come.
#[derive(Drop)]
struct WayReader<'a, L: Notation> {
    walk: Walk<'a, L>,
    progress: Progress,
}

impl<'a, L: Notation> LineReader for WayReader<'a, L> {
    type Error = Refusal;

    ghost Takes = { TakesLine (λ level. (L.meaning level.now).game) (λ level. L.spelling level.now)
        (λ s. s.walk.level) (λ s. pass s.progress s.walk.position) };

    // The form is judged at once; of the moves only the first refusal is kept, since a line out of form comes before
    // all else.
    fn take(&mut self, line: Line, number: usize) -> Result<(), Refusal> {
        let out_of_form = Fault::WayForm.at(number);
        match &mut self.progress {
            Progress::Head => {
                let announced = forms::count(line, WAY).ok_or(out_of_form)?;
                self.progress = Progress::Moves(Moves {
                    announced,
                    refusal: None,
                });
            }
            Progress::Moves(moves) if forms::is_closing(line) => {
                self.progress = Progress::Closed(*moves);
            }
            Progress::Moves(moves) => {
                let written = self.walk.level.read_move(line).ok_or(out_of_form)?;
                moves.follow(&mut self.walk, &written, number);
            }
            Progress::Closed(_) => return Err(out_of_form),
        }
        Ok(())
    }
}

/// The judgement at the end of a text.
fn conclude<L: Notation>(read: ReadText<WayReader<L>>) -> Result<u32, Refusal>
    ensures { let r = read.entry.reader in let z = r.walk.level.now in
        result ≡ conclusion (L.meaning z).game (L.spelling z) (pass r.progress r.walk.position)
        read.entry.number (bytes read.entry.left) }
{
    let ReadText {
        reader,
        number,
        left,
    } = read;
    let WayReader { walk, progress } = reader;
    let moves = match progress {
        Progress::Closed(moves) if left.is_empty() => moves,
        _ => return Err(Fault::WayForm.at(number)),
    };
    let lines = number - 1;
    if moves.announced as usize + FRAME_LINES != lines {
        return Err(Fault::WayForm.at(1));
    }
    if let Some(refusal) = moves.refusal {
        return Err(refusal);
    }
    walk.end(lines)?;
    Ok(moves.announced)
}

/// Judges a written way: the number of its moves if it is accepted, or why it is not.
///
/// The form of all lines comes first, then the moves one by one, and at the end the finish. It is one pass over the
/// text, and nothing is allocated.
pub fn judge<L: Notation>(level: &L, text: &[u8]) -> Result<u32, Refusal>
    ensures answers { result ≡ judgement (L.meaning level.now).game (L.spelling level.now) text.now }
    ensures exactly { AcceptsExactly (L.meaning level.now).game (L.spelling level.now) text.now }
    ensures solves { AcceptsSolutions (L.meaning level.now).game (L.spelling level.now) text.now }
{
    let start = WayReader {
        walk: Walk::start(level),
        progress: Progress::Head,
    };
    conclude(read_lines(start, text)?)
}
