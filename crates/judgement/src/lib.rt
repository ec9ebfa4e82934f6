//! The judgement of a written way for a level of any kind, from text to text.
#![tactic(auto)]

ghost use Rattle.std.specs.Prelude.{◌≡◌};
ghost use Rattle.judgement.specs.Judgement.{judgement_of_texts, JudgesWay, JudgesExactly, AcceptsSolutions, report_text};

use levels::{LevelVisitor, read_level};
use refusals::Refusal;
use text::pen::{Compose, Pen, write_text};
use ways::{Notation, judge};

mod streaming;

pub use crate::streaming::judge_streams;

/// Judges a way, as a text, for the level that it visits.
#[derive(Drop)]
struct WayJudge<'a> {
    way_text: &'a [u8],
}

impl<'a> LevelVisitor for WayJudge<'a> {
    type Output = Result<u32, Refusal>;

    ghost Gives = { λ judge rules judgement. JudgesWay rules judge.way_text.now judgement };

    fn visit<L: Notation>(self, level: &L) -> Result<u32, Refusal> {
        judge(level, self.way_text)
    }
}

/// Judges a way for a level of any kind, both as texts: the number of moves of an accepted way, the refusal of the
/// level, or the refusal of the way.
pub fn judge_texts(level_text: &[u8], way_text: &[u8]) -> Result<u32, Refusal>
    ensures answers { result ≡ judgement_of_texts level_text.now way_text.now }
    ensures exactly { JudgesExactly level_text.now way_text.now }
    ensures solves { AcceptsSolutions level_text.now way_text.now }
{
    read_level(level_text)?.accept(WayJudge { way_text })
}

/// Room for every report: that of a refusal with a number of two digits and a line of twenty is the longest.
pub const REPORT_ROOM: usize = 32;

/// A judgement, as the line that reports it.
#[derive(Clone, Copy)]
struct ReportLine(Result<u32, Refusal>);

impl Compose for ReportLine {
    ghost text = { λ line. report_text line.0 };

    fn compose(&self, pen: &mut Pen) {
        match self.0 {
            Ok(moves) => {
                pen.put(b"(accepted ");
                pen.put_decimal(moves);
                pen.put(b")\n");
            }
            Err(refusal) => {
                refusal.compose(pen);
                pen.put(b"\n");
            }
        }
    }
}

/// The line that reports a judgement, `(accepted N)` or `(fault NUMBER LINE)`, at the front of a buffer.
pub fn report(judgement: Result<u32, Refusal>, buffer: &mut [u8; REPORT_ROOM]) -> &[u8]
    ensures { result.now ≡ report_text judgement }
{
    let length = write_text(&ReportLine(judgement), buffer).unwrap();
    &buffer[..length]
}
