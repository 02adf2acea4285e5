//! What is answered to a text.

use crate::builtins::{print_built_in, print_canon};
use crate::leaves::print_leaves;
use crate::references::{print_core_reference, print_peek, print_reference};
use bumpalo::Bump;
use std::alloc::AllocError;
use std::io;
use typed_parts::OfLeaves;
use wast_parser::{Error, Parse, ParseBuffer, Parser, parse};

/// Prints what a line's text is read as, by the type whose name stands in front of it, or where it is refused.
///
/// In a text behind the word `legacy` older forms are read too.
pub fn print_answer(rt: &HostRuntime, line: &str) -> Result<(), io::Error> {
    let (named, legacy) = match line.strip_prefix("legacy ") {
        Some(named) => (named, true),
        None => (line, false),
    };
    let (row, text) = match named.split_once(' ') {
        Some((row, text)) => (row, text),
        None => (named, ""),
    };
    print_text(rt, row, text, legacy)
}

/// Prints what a text is read as by the type of this name, or where it is refused.
fn print_text(rt: &HostRuntime, row: &str, text: &str, legacy: bool) -> Result<(), io::Error> {
    let arena = Bump::new(rt.alloc());
    match ParseBuffer::new(rt.alloc(), text, &arena, legacy) {
        Ok(buffer) => print_row(rt, row, &buffer),
        Err(refusal) => print_refusal(rt, refusal),
    }
}

/// Prints what a text is read as by the type of this name, or where it is refused.
fn print_row<'a>(
    rt: &HostRuntime,
    row: &str,
    buffer: &'a ParseBuffer<'a>,
) -> Result<(), io::Error> {
    match row.split_once(':') {
        Some(("item", kind)) => print_reference(rt, kind, buffer),
        Some(("core", kind)) => print_core_reference(rt, kind, buffer),
        Some(("peek", kind)) => print_peek(rt, kind, buffer),
        Some(("canon", name)) => print_canon(rt, name, buffer),
        Some(("built-in", name)) => print_built_in(rt, name, buffer),
        _ => println!(rt; "  no type"),
    }
}

/// Prints what a text is read as, or where it is refused.
pub fn print_read<'a, T: Parse<'a> + OfLeaves<'a>>(
    rt: &HostRuntime,
    buffer: &'a ParseBuffer<'a>,
) -> Result<(), io::Error> {
    match parse::<T>(rt.alloc(), buffer) {
        Ok(value) => print_value(rt, Parser::at_start(buffer).arena(), &value),
        Err(refusal) => print_refusal(rt, refusal),
    }
}

/// Prints the leaves that a value stands for.
fn print_value<'a, T: OfLeaves<'a>>(
    rt: &HostRuntime,
    arena: &'a Bump,
    value: &T,
) -> Result<(), io::Error> {
    match value.into_tree(rt.alloc(), arena) {
        Ok(leaves) => print_leaves(rt, leaves),
        Err(AllocError) => println!(rt; "  no memory"),
    }
}

/// Prints where a text is refused.
pub fn print_refusal(rt: &HostRuntime, refusal: Error) -> Result<(), io::Error> {
    println!(rt; "  refused at {}", refusal.offset)
}
