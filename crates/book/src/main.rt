//! `book` fills and tests the books of atom levels.
//!
//! `book fill LEVEL` writes the bytes of a level's book, `book test LEVEL BOOK` prints `(passed)` or `(fault NUMBER 0)`,
//! and `book size LEVEL` prints how many bytes the book has. A level that is refused prints `(fault NUMBER LINE)`.
//!
//! LEVEL and BOOK are paths, or `-` for standard input. Each of these is an answer, with status 0. Only a file or a
//! stream that fails, want of memory, or a wrong call ends with status 1, and standard error says why.
#![tactic(auto)]

use bookkeeping::{fill_stream, size_stream, test_streams};
use std::process::ExitCode;
use streams::{Failure, PathSource, arguments, end, end_with_usage, standard_output};

/// The program's name, under which it says what failed.
const NAME: &str = "book";

/// How it is called.
const USAGE: &str = "book fill LEVEL | book test LEVEL BOOK | book size LEVEL";

/// What is asked of the book of a level.
#[derive(Drop)]
enum Command<'a> {
    Fill { level: &'a str },
    Test { level: &'a str, book: &'a str },
    Size { level: &'a str },
}

impl<'a> Command<'a> {
    fn of(word: &str, level: &'a str, book: Option<&'a str>) -> Option<Command<'a>> {
        match (word, book) {
            ("fill", None) => Some(Command::Fill { level }),
            ("test", Some(book)) => Some(Command::Test { level, book }),
            ("size", None) => Some(Command::Size { level }),
            _ => None,
        }
    }

    fn answer(self, rt: &HostRuntime) -> Result<(), Failure<'a>> {
        let heap = rt.alloc();
        let mut output = standard_output(rt);
        match self {
            Command::Fill { level } => fill_stream(heap, PathSource::new(rt, level), &mut output),
            Command::Test { level, book } => test_streams(
                heap,
                PathSource::new(rt, level),
                PathSource::new(rt, book),
                &mut output,
            ),
            Command::Size { level } => size_stream(heap, PathSource::new(rt, level), &mut output),
        }
    }
}

fn main(rt: HostRuntime) -> ExitCode {
    let mut args = match arguments(&rt) {
        Ok(args) => args.skip(1),
        Err(failure) => return end(&rt, NAME, Err(failure)),
    };
    let (Some(word), Some(level), book, None) = (args.next(), args.next(), args.next(), args.next())
    else {
        return end_with_usage(&rt, USAGE);
    };
    let Some(command) = Command::of(&word, &level, book.as_deref()) else {
        return end_with_usage(&rt, USAGE);
    };
    let outcome = command.answer(&rt);
    end(&rt, NAME, outcome)
}
