//! The bodies of the programs over streams that take or give little at a time, and that fail.
use answers::{Workspace, answer_stream};
use judgement::judge_streams;
use std::io;
use std::io::{ErrorKind, Read, Write};
use streams::{Failure, Named, Renamed};

const LEVEL: &str = "(atomix 3 2\n(row A..)\n(row #.B)\n(want A)\n(want B)\n)\n";

const WAY: &str = "(way 1\n(move 0 0 right)\n)\n";

const ACCEPTED: &str = "(accepted 1)\n";

/// How many bytes a stream below gives or takes at most at a time.
const FEW: usize = 3;

/// Gives a text, a few bytes at a time, and then ends or fails.
#[derive(Drop)]
struct Dribble<'a> {
    left: &'a [u8],
    fails: bool,
}

impl Read for Dribble<'_> {
    fn read(&mut self, buf: &mut [u8]) -> io::Result<usize> {
        if self.left.is_empty() && self.fails {
            return Err(ErrorKind::ConnectionReset.into());
        }
        let count = self.left.len().min(buf.len()).min(FEW);
        let (given, left) = self.left.split_at(count);
        buf[..count].copy_from_slice(given);
        self.left = left;
        Ok(count)
    }
}

/// Takes bytes, a few at a time, while there is room; and is flushed or fails.
#[derive(Drop)]
struct Narrow {
    taken: Vec<u8>,
    room: usize,
    flushes: bool,
}

impl Write for Narrow {
    fn write(&mut self, buf: &[u8]) -> io::Result<usize> {
        let count = buf.len().min(self.room).min(FEW);
        if count == 0 {
            return Err(ErrorKind::StorageFull.into());
        }
        self.taken.extend_from_slice(&buf[..count])?;
        self.room -= count;
        Ok(count)
    }

    fn flush(&mut self) -> io::Result<()> {
        if self.flushes {
            Ok(())
        } else {
            Err(ErrorKind::BrokenPipe.into())
        }
    }
}

const LEVEL_NAME: &str = "the level";

const WAY_NAME: &str = "the way";

const OUTPUT_NAME: &str = "the output";

// A text under a name, of which the first bytes are given before the end or the failure.
fn dribbled<'a>(
    name: &'a str,
    text: &'a str,
    length: usize,
    fails: bool,
) -> Named<'a, Dribble<'a>> {
    let bytes = text.as_bytes();
    Named {
        name,
        stream: Dribble {
            left: &bytes[..length.min(bytes.len())],
            fails,
        },
    }
}

// An output of that room.
fn output_of(rt: &HostRuntime, room: usize, flushes: bool) -> Named<'static, Narrow> {
    Named {
        name: OUTPUT_NAME,
        stream: Narrow {
            taken: Vec::new(rt.alloc()),
            room,
            flushes,
        },
    }
}

// Answers with memory of its own.
fn answered<'a, R: Read + Drop, W: Write>(
    rt: &HostRuntime,
    input: Named<'a, R>,
    output: &mut Named<'a, W>,
) -> Result<(), Failure<'a>> {
    let mut workspace = Workspace::new(rt.alloc())?;
    answer_stream(rt.alloc(), &mut workspace, input, output)
}

// What failed.
fn failed<'a>(outcome: Result<(), Failure<'a>>) -> Option<&'a str> {
    outcome.err().map(|failure| failure.name)
}

#[test]
fn answers_over_slow_streams(rt: HostRuntime) {
    let mut output = output_of(&rt, WAY.len(), true);
    let input = dribbled(LEVEL_NAME, LEVEL, LEVEL.len(), false);
    let outcome = answered(&rt, input, &mut output);
    assert_eq!(rt; failed(outcome), None);
    assert!(rt; output.stream.taken.as_slice() == WAY.as_bytes());
}

#[test]
fn answers_over_memory(rt: HostRuntime) {
    let input = Named {
        name: LEVEL_NAME,
        stream: LEVEL.as_bytes(),
    };
    let mut output = Named {
        name: OUTPUT_NAME,
        stream: Vec::new(rt.alloc()),
    };
    let outcome = answered(&rt, input, &mut output);
    assert_eq!(rt; failed(outcome), None);
    assert!(rt; output.stream.as_slice() == WAY.as_bytes());
}

#[test]
fn input_that_fails_is_no_answer(rt: HostRuntime) {
    for given in 0..LEVEL.len() + 1 {
        let mut output = output_of(&rt, WAY.len(), true);
        let input = dribbled(LEVEL_NAME, LEVEL, given, true);
        let outcome = answered(&rt, input, &mut output);
        assert_eq!(rt; failed(outcome), Some(LEVEL_NAME), "after {given}");
        assert!(rt; output.stream.taken.is_empty(), "after {given}");
    }
}

#[test]
fn output_that_fails_is_no_answer(rt: HostRuntime) {
    for (room, flushes) in [
        (0, true),
        (1, true),
        (10, true),
        (WAY.len() - 1, true),
        (WAY.len(), false),
    ] {
        let mut output = output_of(&rt, room, flushes);
        let input = dribbled(LEVEL_NAME, LEVEL, LEVEL.len(), false);
        let outcome = answered(&rt, input, &mut output);
        assert_eq!(rt; failed(outcome), Some(OUTPUT_NAME), "at {room}");
        assert!(rt;
            output.stream.taken.as_slice() == &WAY.as_bytes()[..room],
            "at {room}"
        );
    }
}

#[test]
fn judges_over_streams(rt: HostRuntime) {
    let long = ACCEPTED.len();
    let rows = [
        (false, false, long, true, None, ACCEPTED),
        (true, false, long, true, Some(LEVEL_NAME), ""),
        (false, true, long, true, Some(WAY_NAME), ""),
        (true, true, long, true, Some(LEVEL_NAME), ""),
        (false, false, 5, true, Some(OUTPUT_NAME), "(acce"),
        (false, false, long, false, Some(OUTPUT_NAME), ACCEPTED),
    ];
    for (level_fails, way_fails, room, flushes, due, written) in rows {
        let mut output = output_of(&rt, room, flushes);
        let level = dribbled(LEVEL_NAME, LEVEL, LEVEL.len(), level_fails);
        let way = dribbled(WAY_NAME, WAY, WAY.len(), way_fails);
        let outcome = judge_streams(rt.alloc(), level, way, &mut output);
        assert_eq!(rt; failed(outcome), due);
        assert!(rt; output.stream.taken.as_slice() == written.as_bytes());
    }
}

#[test]
fn judges_under_other_names(rt: HostRuntime) {
    let rows = [(false, None, ACCEPTED), (true, Some("-"), "")];
    for (fails, due, written) in rows {
        let mut output = output_of(&rt, ACCEPTED.len(), true);
        let level = Renamed {
            name: "-",
            source: dribbled(LEVEL_NAME, LEVEL, LEVEL.len(), fails),
        };
        let way = dribbled(WAY_NAME, WAY, WAY.len(), false);
        let outcome = judge_streams(rt.alloc(), level, way, &mut output);
        assert_eq!(rt; failed(outcome), due);
        assert!(rt; output.stream.taken.as_slice() == written.as_bytes());
    }
}
