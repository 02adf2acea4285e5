//! Prints and encodes a list of component binaries again: reads one a line on standard input, in hexadecimal, and writes each with the
//! binary that its text encodes to under it, in hexadecimal, or with why there is none. A line that begins with `;;` is a heading.
#![tactic(auto)]

use print_again::{AgainError, again};
use std::io;
use tree_print::PrintKind;

/// The name of a refusal to print.
fn print_name(kind: PrintKind) -> &'static str {
    match kind {
        PrintKind::CoreModule => "Print-CoreModule",
        PrintKind::NoText => "Print-NoText",
        PrintKind::TooBig { .. } => "Print-TooBig",
        PrintKind::TooDeep => "Print-TooDeep",
        PrintKind::NoMemory => "NoMemory",
    }
}

/// The name of a refusal.
fn refusal_name(error: &AgainError) -> &'static str {
    match error {
        AgainError::Read(_) => "Read",
        AgainError::Print(error) => print_name(error.kind),
        AgainError::NoMemory => "NoMemory",
    }
}

/// Writes the answer for a binary.
fn print_answer(rt: &HostRuntime, bytes: &[u8]) -> Result<(), io::Error> {
    match again(rt.alloc(), bytes) {
        Ok(new) => match hex::encode(rt.alloc(), new.as_slice()) {
            Ok(digits) => println!(rt; "{}", digits.as_str()),
            Err(_) => println!(rt; "NoMemory"),
        },
        Err(error) => println!(rt; "{}", refusal_name(&error)),
    }
}

/// Whether a line is a binary: neither empty nor a heading.
fn is_binary(line: &str) -> bool {
    !line.is_empty() && !line.starts_with(";;")
}

fn main(rt: HostRuntime) -> Result<(), io::Error> {
    for line in rt.lines(rt.alloc()) {
        let line = line?;
        println!(rt; "{}", line.as_str())?;
        if is_binary(line.as_str()) {
            match hex::decode(rt.alloc(), line.as_str()) {
                Ok(bytes) => print_answer(&rt, bytes.as_slice())?,
                Err(_) => println!(rt; "no digits")?,
            }
        }
    }
    Ok(())
}
