//! Reads binaries of components, and writes each with what it is read as, or why it isn't; each is read as rows and with its fields.
//!
//! Each line of standard input is one of these: bytes in hexadecimal; `each` and such bytes, of which every shorter front is read, and every
//! list that differs in one bit; `components N` or `types N`, a component in which the innermost of N scopes is inside N - 1 others;
//! `custom N`, a component of N bytes with one custom section; empty, or a heading, which begins with `;;`.
//!
//! With the words `raw N` standard input is one binary, which is read N times and answered once: `bench/run` measures that.
#![tactic(auto)]

mod answer;
mod made;

use answer::{answer, print_answer, print_each};
use made::{nested_components, nested_types, one_custom};
use std::io::Read;
use std::{env, io};

/// Writes what the bytes of one line are read as.
fn print_line(rt: &HostRuntime, line: &str) -> Result<(), io::Error> {
    if let Some(digits) = line.strip_prefix("each ") {
        return print_each(rt, digits);
    }
    if let Some(word) = line.strip_prefix("components ") {
        return print_answer(rt, &nested_components(rt.alloc(), number_of(word))?);
    }
    if let Some(word) = line.strip_prefix("types ") {
        return print_answer(rt, &nested_types(rt.alloc(), number_of(word))?);
    }
    if let Some(word) = line.strip_prefix("custom ") {
        return print_answer(rt, &one_custom(rt.alloc(), number_of(word))?);
    }
    match hex::decode(rt.alloc(), line) {
        Ok(bytes) => print_answer(rt, &bytes),
        Err(_) => println!(rt; "  not hexadecimal"),
    }
}

/// The number that a word says, 0 of any other word.
fn number_of(word: &str) -> u32 {
    word.parse::<u32>().unwrap_or(0)
}

/// Writes each line of a table with what its bytes are read as.
fn print_table(rt: &HostRuntime) -> Result<(), io::Error> {
    for line in rt.lines(rt.alloc()) {
        let line = line?;
        println!(rt; "{}", line.as_str())?;
        if !line.is_empty() && !line.starts_with(";;") {
            print_line(rt, line.as_str())?;
        }
    }
    Ok(())
}

/// Reads one binary so many times, and writes what it is read as.
fn print_raw(rt: &HostRuntime, times: u32) -> Result<(), io::Error> {
    let mut bytes = Vec::new(rt.alloc());
    rt.stdin().read_to_end(&mut bytes)?;
    for _ in 1..times {
        answer(rt.alloc(), &bytes).is_ok();
    }
    print_answer(rt, &bytes)
}

fn main(rt: HostRuntime) -> Result<(), io::Error> {
    let mut words = env::args(&rt)?;
    let _program = words.next();
    match words.next() {
        None => print_table(&rt),
        Some(_) => match words.next() {
            None => print_raw(&rt, 1),
            Some(times) => print_raw(&rt, number_of(times.as_str())),
        },
    }
}
