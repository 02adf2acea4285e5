//! What is answered to a text.

use origin_lines::push_lines;
use std::io;
use wast_component::encode_component_text;
use wast_refusals::{kind_name, refusal_line};
use wast_tokens::Error;

/// Prints the bytes of a text's encoding in hexadecimal and under them its origins, or its refusal.
///
/// In a text behind the word `legacy` references are read in their older forms too.
pub fn print_answer(rt: &HostRuntime, line: &str) -> Result<(), io::Error> {
    let (text, legacy) = match line.strip_prefix("legacy ") {
        Some(text) => (text, true),
        None => (line, false),
    };
    match encode_component_text(rt.alloc(), text, legacy) {
        Ok(encoded) => {
            let bytes = hex::encode(rt.alloc(), encoded.bytes)?;
            println!(rt; "{}", bytes.as_str())?;
            let mut lines = String::new(rt.alloc());
            push_lines(rt.alloc(), &mut lines, "  ", &encoded.origins)?;
            print!(rt; "{}", lines.as_str())
        }
        Err(refusal) => print_refusal(rt, refusal),
    }
}

/// Prints why a text is refused, and where.
fn print_refusal(rt: &HostRuntime, refusal: Error) -> Result<(), io::Error> {
    let name = kind_name(refusal.kind).unwrap_or("NoMemory");
    let line = refusal_line(rt.alloc(), name, refusal.offset as usize)?;
    print!(rt; "{}", line.as_str())
}
