//! `slide` reads a level from standard input and prints a shortest way, `(none)`, `(full)` or `(fault NUMBER LINE)`.
//!
//! Each of these is an answer, with status 0. Only a stream that fails, want of memory, or a wrong call ends with
//! status 1, and standard error says why.
#![tactic(auto)]

use answers::{Workspace, answer_stream};
use std::process::ExitCode;
use streams::{Failure, arguments, end, end_with_usage, standard_input, standard_output};

/// The program's name, under which it says what failed.
const NAME: &str = "slide";

fn answer_input(rt: &HostRuntime) -> Result<(), Failure<'static>> {
    let mut workspace = Workspace::new(rt.alloc())?;
    answer_stream(
        rt.alloc(),
        &mut workspace,
        standard_input(rt),
        &mut standard_output(rt),
    )
}

fn main(rt: HostRuntime) -> ExitCode {
    let count = match arguments(&rt) {
        Ok(args) => args.count(),
        Err(failure) => return end(&rt, NAME, Err(failure)),
    };
    if count > 1 {
        return end_with_usage(&rt, "slide < LEVEL");
    }
    let outcome = answer_input(&rt);
    end(&rt, NAME, outcome)
}
