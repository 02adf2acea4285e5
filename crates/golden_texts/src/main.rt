//! Encodes a list of texts of components: reads one a line on standard input, and writes each with its answer under it.
#![tactic(auto)]

mod answer;

use answer::print_answer;
use std::io;

fn main(rt: HostRuntime) -> Result<(), io::Error> {
    for line in rt.lines(rt.alloc()) {
        let line = line?;
        println!(rt; "{}", line.as_str())?;
        if is_text(line.as_str()) {
            print_answer(&rt, line.as_str())?;
        }
    }
    Ok(())
}

/// Whether a line is a text of a component: neither empty nor a heading, which begins with `;;`.
fn is_text(line: &str) -> bool {
    !line.is_empty() && !line.starts_with(";;")
}
