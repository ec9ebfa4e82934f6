//! `judge LEVEL WAY` judges a written way for a level and prints `(accepted N)` or `(fault NUMBER LINE)`.
//!
//! LEVEL and WAY are paths, or `-` for standard input. A refusal is an ordinary answer, with status 0. Only a file or
//! a stream that fails, want of memory, or a wrong call ends with status 1, and standard error says why; its last
//! line is the one that the runtime writes where `main` ends with an error.
#![tactic(auto)]

use judgement::judge_streams;
use std::io::ErrorKind;
use std::process::ExitCode;
use streams::{
    Failure, PathSource, Renamed, arguments, end_in_full, end_with_error, standard_output,
};

/// The program's name, under which it says what failed.
const NAME: &str = "judge";

/// The source that a path names, whose failures give the path as it was called, `-` too.
fn called<'a>(rt: &HostRuntime, path: &'a str) -> Renamed<'a, PathSource<'a>> {
    Renamed {
        name: path,
        source: PathSource::new(rt, path),
    }
}

fn judge_paths<'a>(rt: &HostRuntime, level: &'a str, way: &'a str) -> Result<(), Failure<'a>> {
    judge_streams(
        rt.alloc(),
        called(rt, level),
        called(rt, way),
        &mut standard_output(rt),
    )
}

fn main(rt: HostRuntime) -> ExitCode {
    let mut args = match arguments(&rt) {
        Ok(args) => args.skip(1),
        Err(failure) => return end_with_error(&rt, &failure.error),
    };
    let (Some(level), Some(way), None) = (args.next(), args.next(), args.next()) else {
        let said = eprintln!(rt; "usage: judge LEVEL WAY");
        return end_with_error(&rt, &said.err().unwrap_or(ErrorKind::InvalidInput.into()));
    };
    let outcome = judge_paths(&rt, &level, &way);
    end_in_full(&rt, NAME, outcome)
}
