//! What is answered to a text.

use crate::any_order::Attributes;
use crate::by_second::Part;
use crate::extra::Extra;
use crate::older::Limit;
use crate::several::Setting;
use bumpalo::Bump;
use std::fmt::Debug;
use std::io;
use wast_parser::{Error, Parse, ParseBuffer, parse};

/// Prints what a line's text is read as, by the row whose name stands in front of it, or where it is refused.
///
/// In a text behind the word `legacy` older forms are read too.
pub fn print_answer(rt: &HostRuntime, line: &str) -> Result<(), io::Error> {
    let (named, legacy) = match line.strip_prefix("legacy ") {
        Some(named) => (named, true),
        None => (line, false),
    };
    let (row, text) = match named.split_once(' ') {
        Some((row, text)) => (row, text),
        None => (named, ""),
    };
    print_text(rt, row, text, legacy)
}

/// Prints what a text is read as by the row of this name, or where it is refused.
fn print_text(rt: &HostRuntime, row: &str, text: &str, legacy: bool) -> Result<(), io::Error> {
    let arena = Bump::new(rt.alloc());
    match ParseBuffer::new(rt.alloc(), text, &arena, legacy) {
        Ok(buffer) => print_row(rt, row, &buffer),
        Err(refusal) => print_refusal(rt, refusal),
    }
}

/// Prints what a text is read as by the row of this name, or where it is refused.
fn print_row<'a>(
    rt: &HostRuntime,
    row: &str,
    buffer: &'a ParseBuffer<'a>,
) -> Result<(), io::Error> {
    match row {
        "attributes" => print_read::<Attributes>(rt, buffer),
        "part" => print_read::<Part>(rt, buffer),
        "setting" => print_read::<Setting<'a>>(rt, buffer),
        "extra" => print_read::<Extra>(rt, buffer),
        "limit" => print_read::<Limit>(rt, buffer),
        _ => println!(rt; "  no row"),
    }
}

/// Prints what a text is read as, or where it is refused.
fn print_read<'a, T: Parse<'a> + Debug>(
    rt: &HostRuntime,
    buffer: &'a ParseBuffer<'a>,
) -> Result<(), io::Error> {
    match parse::<T>(rt.alloc(), buffer) {
        Ok(value) => println!(rt; "  {value:?}"),
        Err(refusal) => print_refusal(rt, refusal),
    }
}

/// Prints where a text is refused.
fn print_refusal(rt: &HostRuntime, refusal: Error) -> Result<(), io::Error> {
    println!(rt; "  refused at {}", refusal.offset)
}
