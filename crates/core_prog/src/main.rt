//! Encodes core modules, whose texts it reads on standard input, without the parentheses around them.
//!
//! With no word behind its name it reads one text and writes its binary on standard output; a text that is refused ends it with status
//! 1, and its refusal on standard error. `bench/modules` runs it so, to compare bytes and times with those of other tools. With the
//! word `rows` it reads a table of texts, and writes each answer under its text.
#![tactic(auto)]

mod encode;
mod refusal;
mod rows;
#[cfg(test)]
mod tests;

use encode::encode;
use refusal::refusal_of;
use rows::answered;
use std::io::Write;
use std::process::ExitCode;
use std::{env, io};

/// Writes the binary of the module that a text spells, or why it has none.
fn write_module(rt: &HostRuntime) -> Result<ExitCode, io::Error> {
    let text = io::read_to_string(rt.alloc(), rt.stdin())?;
    match encode(rt.alloc(), text.as_str()) {
        Ok(bytes) => {
            rt.stdout().write_all(&bytes)?;
            Ok(ExitCode::SUCCESS)
        }
        Err(refusal) => {
            let line = refusal_of(rt.alloc(), refusal)?;
            eprint!(rt; "{}", line.as_str())?;
            Ok(ExitCode::FAILURE)
        }
    }
}

/// Writes a table of texts with their answers.
fn write_rows(rt: &HostRuntime) -> Result<ExitCode, io::Error> {
    let table = io::read_to_string(rt.alloc(), rt.stdin())?;
    let answers = answered(rt.alloc(), table.as_str())?;
    rt.stdout().write_all(answers.as_bytes())?;
    Ok(ExitCode::SUCCESS)
}

fn main(rt: HostRuntime) -> Result<ExitCode, io::Error> {
    let mut words = env::args(&rt)?;
    let _program = words.next();
    match words.next() {
        None => write_module(&rt),
        Some(word) if word.as_str() == "rows" => write_rows(&rt),
        Some(_) => {
            eprintln!(&rt; "usage: core_prog [rows]")?;
            Ok(ExitCode::FAILURE)
        }
    }
}
