//! What is to be written for an input that has the binary of a component, and for one that has none.

ghost use Rattle.std.specs.Prelude.{codes, IfOk, string_bytes};
ghost use Rattle.binary_inputs.specs.Input.{IsReadLine, IsRefusal, IsReadRefusal};

use crate::kinds::read_kind_name;
use std::alloc::{AllocError, Global};
use wast_refusals::refusal_line;
use wire_read::ReadError;

/// What is to be written.
#[derive(Drop)]
pub enum Told {
    /// What was asked for.
    Output(String),
    /// The line that says why the input is refused.
    Refusal(String),
}

/// The line that says why bytes aren't read; want of memory has none.
fn line_of(alloc: Global, error: ReadError) -> Result<String, AllocError>
    ensures { IfOk result (λ line. IsReadLine error (string_bytes line)) }
{
    match read_kind_name(error.kind) {
        Some(name) => refusal_line(alloc, name, error.offset as usize),
        None => Err(AllocError),
    }
}

/// The line `error: KIND at OFFSET` that says why bytes aren't read as a component, to be written. It is refused where memory ran out, here
/// or in reading.
pub fn told_error(alloc: Global, error: ReadError) -> Result<Told, AllocError>
    ensures { IfOk result (IsReadRefusal error) }
{
    Ok(Told::Refusal(line_of(alloc, error)?))
}

/// The line `error: hex at OFFSET` that says where an input isn't hexadecimal, to be written. It is refused where memory ran out.
pub fn told_digits(alloc: Global, offset: usize) -> Result<Told, AllocError>
    ensures { IfOk result (IsRefusal (codes "hex") offset) }
{
    Ok(Told::Refusal(refusal_line(alloc, "hex", offset)?))
}
