//! What the program exits with, by its arguments: all of `main` but the real streams.

ghost use Rattle.std.specs.Prelude.{◌≡◌, map, drop, string_bytes, IfOk, OnErr, MatchResult};
ghost use Rattle.std.specs.Vec.Iter.{into_iter_items};
ghost use Rattle.std.specs.IoError.{error_kind};
ghost use Rattle.std.specs.Process.{exit_status};
ghost use Rattle.wast_prog.specs.Ends.{change, Ends};
ghost use Rattle.wast_prog.specs.ExitCode.{exit_code_of, status_without, Exits};

use crate::run::{Status, run};
use byte_streams::{Sink, Source};
use std::alloc::{AllocError, Global};
use std::env::Args;
use std::io::{self, ErrorKind};
use std::process::ExitCode;

/// The exit code of a status.
fn exit_code_of(status: Status) -> ExitCode
    ensures { exit_status result ≡ exit_code_of status }
{
    ExitCode::from(match status {
        Status::Done => 0,
        Status::Refused => 1,
        Status::Usage => 2,
        Status::ReadFault => 3,
        Status::WriteFault => 4,
        Status::NoMemory => 5,
    })
}

/// The status of a program whose arguments could not be had: `NoMemory` for want of memory, and
/// `Usage` where one isn't UTF-8.
fn status_without(error: io::Error) -> Status
    ensures { result ≡ status_without (error_kind error) }
{
    match error.kind() {
        ErrorKind::OutOfMemory => Status::NoMemory,
        _ => Status::Usage,
    }
}

/// The words that the program is to do: its arguments behind its own name.
fn words_of(alloc: Global, mut arguments: Args) -> Result<Vec<String>, AllocError>
    ensures { IfOk result (λ words. words.items ≡ drop 1 (into_iter_items arguments)) }
{
    let mut words = Vec::new(alloc);
    let _name = arguments.next();
    while let Some(word) = arguments.next() {
        words.push(word)?;
    }
    Ok(words)
}

/// How a program with these arguments ends.
fn status_of<S: Source, O: Sink, E: Sink>(
    alloc: Global,
    arguments: Args,
    input: &mut S,
    output: &mut O,
    faults: &mut E,
) -> Status
    ensures { Ends (drop 1 (map string_bytes (into_iter_items arguments))) (change S.left S.faults input.old input.new)
        (change O.taken O.faults output.old output.new) (change E.taken E.faults faults.old faults.new)
        result }
{
    match words_of(alloc, arguments) {
        Ok(words) => run(alloc, &words, input, output, faults),
        Err(_) => Status::NoMemory,
    }
}

/// Does what the arguments ask for, by [`run`], and answers what the program exits with.
///
/// `arguments` are the program's, its own name first, or why they could not be had: then nothing is
/// read and nothing is written, and the exit code is 5 for want of memory, and else 2.
pub fn exit_of<S: Source, O: Sink, E: Sink>(
    alloc: Global,
    arguments: io::Result<Args>,
    input: &mut S,
    output: &mut O,
    faults: &mut E,
) -> ExitCode
    ensures code { MatchResult arguments
        (λ list. Exits (drop 1 (map string_bytes (into_iter_items list))) (change S.left S.faults input.old input.new)
        (change O.taken O.faults output.old output.new) (change E.taken E.faults faults.old faults.new)
        (exit_status result))
        (λ error. exit_status result ≡ exit_code_of (status_without (error_kind error))) }
    ensures unread { OnErr arguments (input.new ≡ input.old) }
    ensures output_kept { OnErr arguments (output.new ≡ output.old) }
    ensures faults_kept { OnErr arguments (faults.new ≡ faults.old) }
{
    match arguments {
        Ok(arguments) => exit_code_of(status_of(alloc, arguments, input, output, faults)),
        Err(error) => exit_code_of(status_without(error)),
    }
}
