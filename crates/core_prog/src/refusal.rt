//! The line that says why a text has no bytes.

use std::alloc::{AllocError, Global};
use wast_parser::Error;
use wast_refusals::{kind_name, refusal_line};

/// The line that says why a text has no bytes, and where.
pub fn refusal_of(alloc: Global, refusal: Error) -> Result<String, AllocError> {
    let name = kind_name(refusal.kind).unwrap_or("NoMemory");
    refusal_line(alloc, name, refusal.offset as usize)
}
