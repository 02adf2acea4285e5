//! Prints a list of component binaries as text: reads one a line on standard input, in hexadecimal, and writes each with its text under it,
//! or with the line that says why it has none. Each is read as definitions with their fields as well, and where these have another text or
//! another refusal, a line says so.
#![tactic(auto)]

use binary_inputs::Told;
use comp_print::{PrintError, print};
use item_read::read;
use print_replies::{print_kind_name, reply_to_print};
use std::alloc::{AllocError, Global};
use std::io;
use wast_refusals::refusal_line;

/// The text of a binary with a line feed, or the line that says why it has none.
fn answer(rt: &HostRuntime, line: &str) -> Result<String, AllocError> {
    match reply_to_print(rt.alloc(), line.as_bytes(), false)? {
        Told::Output(text) => Ok(text),
        Told::Refusal(line) => Ok(line),
    }
}

/// Whether a text and a line feed are this line.
fn is_line(text: String, told: &str) -> bool {
    let mut line = text;
    match line.push_str("\n") {
        Ok(()) => line.as_str() == told,
        Err(_) => false,
    }
}

/// Whether this line says a refusal.
fn is_refusal(alloc: Global, error: PrintError, told: &str) -> bool {
    let Some(name) = print_kind_name(error.kind) else {
        return false;
    };
    match refusal_line(alloc, name, 0) {
        Ok(line) => line.as_str() == told,
        Err(_) => false,
    }
}

/// Whether the definitions of a binary with their fields, if it is read, have this answer.
fn answers_alike(alloc: Global, line: &str, told: &str) -> bool {
    let Ok(decoded) = hex::decode(alloc, line) else {
        return true;
    };
    let Ok(tree) = read(alloc, decoded.as_slice()) else {
        return true;
    };
    match print(alloc, &tree) {
        Ok(text) => is_line(text, told),
        Err(error) => is_refusal(alloc, error, told),
    }
}

/// Writes the answer for a binary.
fn print_answer(rt: &HostRuntime, line: &str) -> Result<(), io::Error> {
    match answer(rt, line) {
        Ok(text) => {
            print!(rt; "{}", text.as_str())?;
            if !answers_alike(rt.alloc(), line, text.as_str()) {
                println!(rt; "by fields another")?;
            }
            Ok(())
        }
        Err(_) => println!(rt; "NoMemory"),
    }
}

/// Whether a line is a binary: neither empty nor a heading, which begins with `;;`.
fn is_binary(line: &str) -> bool {
    !line.is_empty() && !line.starts_with(";;")
}

fn main(rt: HostRuntime) -> Result<(), io::Error> {
    for line in rt.lines(rt.alloc()) {
        let line = line?;
        println!(rt; "{}", line.as_str())?;
        if is_binary(line.as_str()) {
            print_answer(&rt, line.as_str())?;
        }
    }
    Ok(())
}
