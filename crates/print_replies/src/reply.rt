//! What is to be written for an input.

ghost use Rattle.std.specs.Prelude.{◌≡◌, IfOk, string_bytes, false};
ghost use Rattle.comp_wire.specs.Read.{FitsComponent};
ghost use Rattle.wire_tree.specs.Model.{scope_of};
ghost use Rattle.binary_inputs.specs.Input.{IsOutput};
ghost use Rattle.print_replies.specs.Answer.{IsPrintRefusal, Tells, TellsOfBytes, TellsOfScope, line_of_text, print_kind_name};
ghost use Rattle.wast_refusals.specs.Line.{refusal_line};

use crate::kinds::print_kind_name;
use binary_inputs::{HexRefusal, Told, bytes_of, digits_of, told_digits, told_error};
use bumpalo::Bump;
use std::alloc::{AllocError, Global};
use tree_print::{PrintKind, print_scope};
use wast_refusals::refusal_line;
use wire_read::read_tree;
use wire_tree::Scope;

/// A text with a line feed, to be written.
fn told_text(text: String) -> Result<Told, AllocError>
    ensures { IfOk result (IsOutput (line_of_text (string_bytes text))) }
{
    let mut line = text;
    line.push_str("\n")?;
    Ok(Told::Output(line))
}

/// The line that says why a component isn't printed, to be written; want of memory has none.
fn told_refusal(alloc: Global, kind: PrintKind) -> Result<Told, AllocError>
    ensures { IfOk result (IsPrintRefusal kind) }
{
    match print_kind_name(kind) {
        Some(name) => Ok(Told::Refusal(refusal_line(alloc, name, 0)?)),
        None => Err(AllocError),
    }
}

/// What is to be written for a component.
fn reply_to_scope(alloc: Global, scope: &Scope<'_, '_>) -> Result<Told, AllocError>
    ensures { FitsComponent (scope_of scope.now) → IfOk result (TellsOfScope (scope_of scope.now)) }
{
    match print_scope(alloc, scope) {
        Ok(text) => told_text(text),
        Err(error) => told_refusal(alloc, error.kind),
    }
}

/// What is to be written for the bytes of a binary.
fn reply_to_bytes(alloc: Global, bytes: &[u8]) -> Result<Told, AllocError>
    ensures { IfOk result (TellsOfBytes bytes.now) }
{
    let bump = Bump::new(alloc);
    match read_tree(alloc, &bump, bytes) {
        Ok(scope) => reply_to_scope(alloc, &scope),
        Err(error) => told_error(alloc, error),
    }
}

/// What is to be written for an input that is a binary in hexadecimal, one line feed at its end aside.
fn reply_to_digits(alloc: Global, input: &[u8]) -> Result<Told, AllocError>
    ensures { IfOk result (Tells input.now false) }
{
    match bytes_of(alloc, digits_of(input)) {
        Ok(bytes) => reply_to_bytes(alloc, bytes.as_slice()),
        Err(HexRefusal::At(offset)) => told_digits(alloc, offset),
        Err(HexRefusal::NoMemory) => Err(AllocError),
    }
}

/// What is to be written for an input: the text of the component that its bytes are read as (`print_scope` of `tree_print`), with a line
/// feed, or the line `error: KIND at OFFSET` that says why there is none. By `raw` the bytes are the input's, else they stand in it in
/// hexadecimal, one line feed at its end aside. Where they are read and not printed, the offset is 0.
///
/// It is refused where memory ran out.
pub fn reply_to_print(alloc: Global, input: &[u8], raw: bool) -> Result<Told, AllocError>
    ensures { IfOk result (Tells input.now raw) }
{
    if raw {
        return reply_to_bytes(alloc, input);
    }
    reply_to_digits(alloc, input)
}
