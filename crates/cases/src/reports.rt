//! Judgements and the lines that report them.
use judgement::{REPORT_ROOM, report};
use refusals::{Fault, Refusal};
use std::process::Abort;

// A judgement is reported so.
fn reported_so(rt: &impl Abort, judgement: Result<u32, Refusal>, due: &str) {
    let mut buffer = [b'?'; REPORT_ROOM];
    assert!(rt; report(judgement, &mut buffer) == due.as_bytes(), "{due}");
}

static ACCEPTED: [(u32, &str); 4] = [
    (0, "(accepted 0)\n"),
    (12, "(accepted 12)\n"),
    (9_999_999, "(accepted 9999999)\n"),
    (u32::MAX, "(accepted 4294967295)\n"),
];

#[test]
fn reports_accepted_ways(rt: HostRuntime) {
    for (moves, due) in &ACCEPTED {
        reported_so(&rt, Ok(*moves), due);
    }
}

// Every reason, and the longest line.
static REFUSED: [(Fault, usize, &str); 25] = [
    (Fault::NotText, 0, "(fault 11 0)\n"),
    (Fault::LineForm, 1, "(fault 12 1)\n"),
    (Fault::BoardSize, 1, "(fault 13 1)\n"),
    (Fault::BadRow, 2, "(fault 14 2)\n"),
    (Fault::BadWant, 18, "(fault 15 18)\n"),
    (Fault::BareEdge, 34, "(fault 16 34)\n"),
    (Fault::AtomLabels, 35, "(fault 17 35)\n"),
    (Fault::TileNumbers, 6, "(fault 18 6)\n"),
    (Fault::NoRoom, 0, "(fault 21 0)\n"),
    (Fault::BookLength, 0, "(fault 22 0)\n"),
    (Fault::BookGoal, 0, "(fault 23 0)\n"),
    (Fault::BookMeeting, 0, "(fault 24 0)\n"),
    (Fault::BookMove, 0, "(fault 25 0)\n"),
    (Fault::TableSize, 0, "(fault 31 0)\n"),
    (Fault::ListSize, 0, "(fault 32 0)\n"),
    (Fault::AlreadyOpen, 0, "(fault 33 0)\n"),
    (Fault::NotOpen, 0, "(fault 34 0)\n"),
    (Fault::NoBudget, 0, "(fault 35 0)\n"),
    (Fault::NotSolved, 0, "(fault 36 0)\n"),
    (Fault::ShortList, 0, "(fault 37 0)\n"),
    (Fault::WayForm, 10_000_002, "(fault 41 10000002)\n"),
    (Fault::NothingThere, 2, "(fault 42 2)\n"),
    (Fault::ClosedMove, 4_095, "(fault 43 4095)\n"),
    (Fault::AfterFinish, 3, "(fault 44 3)\n"),
    (
        Fault::NotFinished,
        usize::MAX,
        "(fault 45 18446744073709551615)\n",
    ),
];

#[test]
fn reports_refusals(rt: HostRuntime) {
    for (fault, line, due) in &REFUSED {
        reported_so(&rt, Err(fault.at(*line)), due);
    }
}
