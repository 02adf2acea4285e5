//! Reads texts by the types of references, options and built-ins, and prints what each stands for.
//!
//! The program reads a table on standard input, each line the name of a type and a text, and writes under each the leaves that the value stands for, or
//! where the text is refused. Behind the name `peek` it tells whether the next tokens are those of the type.
#![tactic(auto)]

mod answer;
mod builtins;
mod leaves;
mod references;

use answer::print_answer;
use std::io;

fn main(rt: HostRuntime) -> Result<(), io::Error> {
    for line in rt.lines(rt.alloc()) {
        let line = line?;
        println!(rt; "{}", line.as_str())?;
        if is_text(line.as_str()) {
            print_answer(&rt, line.as_str())?;
        }
    }
    Ok(())
}

/// Whether a line has a text: it is neither empty nor a heading, which begins with `;;`.
fn is_text(line: &str) -> bool {
    !line.is_empty() && !line.starts_with(";;")
}
