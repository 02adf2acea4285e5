//! The program: reads the text of a component on its standard input, and writes its binary in
//! hexadecimal or the origins of its definitions on its standard output, or why it has none on its
//! standard error; or encodes a sample of any length, and writes how long it is.
//!
//! `run` does the work, over any source and sinks, and `exit_of` answers with its exit code; `main`
//! hands it the arguments and the real streams.
#![tactic(auto)]

mod command;
mod exit;
mod reply;
mod run;

pub use byte_streams::{
    Failed, MAX_READ, MemSink, MemSource, ReaderSource, Sink, SinkError, Source, SureSink,
    SureSource, WriterSink,
};
pub use command::{Command, Print};
pub use exit::exit_of;
pub use print_again::{AgainError, again};
pub use reply::Reply;
pub use run::{Status, USAGE, run};
use std::env;
use std::process::ExitCode;
pub use wast_tokens::MAX_TEXT;

/// Runs the program on its arguments and the standard streams.
fn program(rt: &HostRuntime) -> ExitCode {
    exit_of(
        rt.alloc(),
        env::args(rt),
        &mut ReaderSource::new(rt.stdin()),
        &mut WriterSink::new(rt.stdout()),
        &mut WriterSink::new(rt.stderr()),
    )
}

fn main(rt: HostRuntime) -> ExitCode {
    program(&rt)
}
