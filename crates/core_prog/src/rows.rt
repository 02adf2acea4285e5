//! A table of core modules: each line is the text of one, and its answer stands under it.

use crate::encode::encode;
use crate::refusal::refusal_of;
use std::alloc::{AllocError, Global};

/// The line that answers the text of a module: its bytes in hexadecimal, or why it has none.
fn answer_of(alloc: Global, text: &str) -> Result<String, AllocError> {
    match encode(alloc, text) {
        Ok(bytes) => {
            let mut line = hex::encode(alloc, &bytes)?;
            line.push_str("\n")?;
            Ok(line)
        }
        Err(refusal) => refusal_of(alloc, refusal),
    }
}

/// The lines of a table, with the answer to each text under it, indented. An empty line holds no text, and one that begins with `;;` is
/// a heading.
pub fn answered(alloc: Global, table: &str) -> Result<String, AllocError> {
    let mut out = String::new(alloc);
    for line in table.lines() {
        out.push_str(line)?;
        out.push_str("\n")?;
        if line.is_empty() || line.starts_with(";;") {
            continue;
        }
        let answer = answer_of(alloc, line)?;
        out.push_str("  ")?;
        out.push_str(answer.as_str())?;
    }
    Ok(out)
}
