//! Readers of small rows, each of a kind of form that a grammar has, written over what `wast_parser` makes public: each is proved
//! against the equation of its row.
//!
//! They show how a reader of such a form is written. The program reads a table on standard input, each line the name of a row and a
//! text, and writes under each what the text is read as, or where it is refused.
#![tactic(auto)]

mod answer;
mod any_order;
mod by_second;
mod extra;
mod older;
mod several;
mod words;

use answer::print_answer;
use std::io;

fn main(rt: HostRuntime) -> Result<(), io::Error> {
    for line in rt.lines(rt.alloc()) {
        let line = line?;
        println!(rt; "{}", line.as_str())?;
        if is_text(line.as_str()) {
            print_answer(&rt, line.as_str())?;
        }
    }
    Ok(())
}

/// Whether a line has a text: it is neither empty nor a heading, which begins with `;;`.
fn is_text(line: &str) -> bool {
    !line.is_empty() && !line.starts_with(";;")
}
