//! The line that says why a text is refused, and where.

ghost use Rattle.std.specs.Prelude.{◌≡◌, string_bytes, IfOk};
ghost use Rattle.wast_refusals.specs.Line.{refusal_line};

use std::alloc::{AllocError, Global};

/// The line that says the name of a refusal's kind and its offset, in bytes from the beginning of
/// the input.
pub fn refusal_line(alloc: Global, name: &str, offset: usize) -> Result<String, AllocError>
    ensures { IfOk result (λ line. string_bytes line ≡ refusal_line name.now offset) }
{
    let mut line = String::from_str(alloc, "error: ")?;
    line.push_str(name)?;
    line.push_str(" at ")?;
    line.push_str(offset.to_string(alloc)?.as_str())?;
    line.push_str("\n")?;
    Ok(line)
}
