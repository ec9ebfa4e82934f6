//! What the programs share: named streams that are read whole and that an answer is written to, and how a program ends.
//!
//! What is read and written is said for every reader and every writer. The real streams are made here from the runtime,
//! and no clause can say what those give or take.
#![tactic(auto)]

ghost use Rattle.std.specs.Prelude.{◌≡◌, ℕ, List, Option, None, IfOk, IfErr, OnOk, IfSome, MatchResult};
ghost use Rattle.std.specs.Process.{exit_status};
ghost use Rattle.std.specs.Io.KnownBytes.{Appends};
ghost use Rattle.streams.specs.Failing.{memory_name, standard_input_name, standard_output_name, name_of};

use either::{Either, Left, Right};
use std::alloc::{AllocError, Global};
use std::env::Args;
use std::fs::File;
use std::io::{Read, Write};
use std::process::ExitCode;
use std::rt::{Stdin, Stdout};
use std::{env, fmt, io};

/// The path that stands for standard input.
const STANDARD_INPUT: &str = "-";

/// What failed, by its name, and why.
#[derive(Drop)]
pub struct Failure<'a> {
    pub name: &'a str,
    pub error: io::Error,
}

/// `NAME: ERROR`.
impl fmt::Display for Failure<'_> {
    fn fmt<W: fmt::Write>(&self, f: &mut fmt::Formatter<W>) -> fmt::Result {
        let Failure { name, error } = self;
        write!(f, "{name}: {error}")
    }
}

/// Memory is wanted for what the program answers.
impl From<AllocError> for Failure<'_> {
    ghost from_gives = { λ _ failure. failure.name.now ≡ memory_name };

    fn from(error: AllocError) -> Self {
        Failure {
            name: "the answer",
            error: error.into(),
        }
    }
}

/// A stream, and the name that a failure of it gives.
#[derive(Drop)]
pub struct Named<'a, S> {
    pub name: &'a str,
    pub stream: S,
}

impl<'a, R: Read + Drop> Named<'a, R> {
    /// All bytes that the stream gives, up to its end, after which it is let go.
    ///
    /// Fails where the stream does, in mid-stream too, and for want of memory. What was read till then is lost.
    pub fn read_all(self, heap: Global) -> Result<Vec<u8>, Failure<'a>>
        ensures all { IfOk result (λ bytes. IfSome (R.remaining self.entry.stream) (λ given. bytes.items ≡ given)) }
        ensures named { IfErr result (λ failure. failure.name.now ≡ self.entry.name.now) }
    {
        let Named { name, mut stream } = self;
        let mut bytes = Vec::new(heap);
        match stream.read_to_end(&mut bytes) {
            Ok(_) => Ok(bytes),
            Err(error) => Err(Failure { name, error }),
        }
    }
}

impl<'a, W: Write> Named<'a, W> {
    /// Writes a whole answer and flushes it.
    ///
    /// Fails where the stream does. It may then have taken any part of the answer.
    pub fn write_answer(&mut self, answer: &[u8]) -> Result<(), Failure<'a>>
        ensures written { OnOk result (Appends (W.contents self.old.stream) (W.contents self.new.stream) answer.now) }
        ensures named { IfErr result (λ failure. failure.name.now ≡ self.old.name.now) }
    {
        match write_and_flush(&mut self.stream, answer) {
            Ok(()) => Ok(()),
            Err(error) => Err(Failure {
                name: self.name,
                error,
            }),
        }
    }
}

fn write_and_flush<W: Write>(out: &mut W, bytes: &[u8]) -> io::Result<()>
    ensures { OnOk result (Appends (W.contents out.old) (W.contents out.new) bytes.now) }
{
    out.write_all(bytes)?;
    out.flush()
}

/// An input that is opened when its turn comes.
///
/// Where standard input is closed, a file that is opened before its turn would take its place.
pub trait Source<'a>: Drop {
    type Stream: Read + Drop;

    /// The name that its failure gives.
    ghost name: { Self → List ℕ };

    /// The bytes that it gives, where they are known.
    ghost given: { Self → Option (List ℕ) };

    /// Opens it.
    fn open(self) -> Result<Named<'a, Self::Stream>, Failure<'a>>
        ensures opened { IfOk result (λ opened. (opened.name.now ≡ name self)
            × (Self.Stream.remaining opened.stream ≡ given self)) }
        ensures named { IfErr result (λ failure. failure.name.now ≡ name self) };
}

/// A stream that is open already.
impl<'a, R: Read + Drop> Source<'a> for Named<'a, R> {
    type Stream = R;

    ghost name = { λ source. source.name.now };

    ghost given = { λ source. R.remaining source.stream };

    fn open(self) -> Result<Named<'a, R>, Failure<'a>> {
        Ok(self)
    }
}

/// The file of a path, or standard input for `-`.
#[derive(Drop)]
pub struct PathSource<'a> {
    rt: HostRuntime,
    path: &'a str,
}

impl<'a> PathSource<'a> {
    /// The source that a path names.
    pub fn new(rt: &HostRuntime, path: &'a str) -> PathSource<'a>
        ensures { result.path.now ≡ path.now }
    {
        PathSource { rt: *rt, path }
    }
}

impl<'a> Source<'a> for PathSource<'a> {
    type Stream = Either<File, Stdin>;

    ghost name = { λ source. name_of source.path.now };

    ghost given = { λ _. None };

    fn open(self) -> Result<Named<'a, Either<File, Stdin>>, Failure<'a>> {
        let PathSource { rt, path } = self;
        if path == STANDARD_INPUT {
            let Named { name, stream } = standard_input(&rt);
            return Ok(Named {
                name,
                stream: Right(stream),
            });
        }
        match File::open(&rt, path) {
            Ok(file) => Ok(Named {
                name: path,
                stream: Left(file),
            }),
            Err(error) => Err(Failure { name: path, error }),
        }
    }
}

/// A source whose failures, and those of its stream, give another name.
#[derive(Drop)]
pub struct Renamed<'a, S> {
    pub name: &'a str,
    pub source: S,
}

impl<'a, S: Source<'a>> Source<'a> for Renamed<'a, S> {
    type Stream = S::Stream;

    ghost name = { λ renamed. renamed.name.now };

    ghost given = { λ renamed. S.given renamed.source };

    fn open(self) -> Result<Named<'a, S::Stream>, Failure<'a>> {
        let Renamed { name, source } = self;
        match source.open() {
            Ok(Named { stream, .. }) => Ok(Named { name, stream }),
            Err(Failure { error, .. }) => Err(Failure { name, error }),
        }
    }
}

/// All bytes of a source, from its opening to its end, after which it is let go.
pub fn read_source<'a, S: Source<'a>>(heap: Global, source: S) -> Result<Vec<u8>, Failure<'a>>
    ensures all { IfOk result (λ bytes. IfSome (S.given source) (λ given. bytes.items ≡ given)) }
    ensures named { IfErr result (λ failure. failure.name.now ≡ S.name source) }
{
    source.open()?.read_all(heap)
}

/// The arguments of the program, its own name first.
pub fn arguments(rt: &HostRuntime) -> Result<Args, Failure<'static>> {
    env::args(rt).map_err(|error| Failure {
        name: "arguments",
        error,
    })
}

/// Standard input.
pub fn standard_input<'a>(rt: &HostRuntime) -> Named<'a, Stdin>
    ensures { result.name.now ≡ standard_input_name }
{
    Named {
        name: "standard input",
        stream: rt.stdin(),
    }
}

/// Standard output.
pub fn standard_output<'a>(rt: &HostRuntime) -> Named<'a, Stdout>
    ensures { result.name.now ≡ standard_output_name }
{
    Named {
        name: "standard output",
        stream: rt.stdout(),
    }
}

/// How a program ends that was called wrongly: with status 1, and standard error says how it is called.
pub fn end_with_usage(rt: &HostRuntime, usage: &str) -> ExitCode
    ensures { exit_status result ≡ 1 }
{
    let _ = eprintln!(rt; "usage: {usage}");
    ExitCode::FAILURE
}

/// How a program ends with an error, as the runtime does where `main` ends with it: with status 1, and standard error
/// has the error in full.
pub fn end_with_error(rt: &HostRuntime, error: &io::Error) -> ExitCode
    ensures { exit_status result ≡ 1 }
{
    let _ = eprintln!(rt; "Error: {error:?}");
    ExitCode::FAILURE
}

/// How a program of that name ends: with status 0, or with status 1 where standard error says what failed.
pub fn end(rt: &HostRuntime, program: &str, outcome: Result<(), Failure>) -> ExitCode
    ensures { MatchResult outcome.entry (λ _. exit_status result ≡ 0) (λ _. exit_status result ≡ 1) }
{
    match outcome {
        Ok(()) => ExitCode::SUCCESS,
        Err(failure) => {
            let _ = eprintln!(rt; "{program}: {failure}");
            ExitCode::FAILURE
        }
    }
}

/// How a program of that name ends: as by `end`, with the error of a failure once more in full; or with the error of
/// standard error, where it does not take the first line.
pub fn end_in_full(rt: &HostRuntime, program: &str, outcome: Result<(), Failure>) -> ExitCode
    ensures { MatchResult outcome.entry (λ _. exit_status result ≡ 0) (λ _. exit_status result ≡ 1) }
{
    let Err(failure) = outcome else {
        return ExitCode::SUCCESS;
    };
    let said = eprintln!(rt; "{program}: {failure}");
    end_with_error(rt, &said.err().unwrap_or(failure.error))
}
