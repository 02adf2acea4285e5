//! What is to be written for an input.

ghost use Rattle.std.specs.Prelude.{◌≡◌, ◌<◌, ◌^◌, string_bytes, IfOk, List, length, ℕ, false};
ghost use Rattle.comp_wire.specs.Read.{Reads};
ghost use Rattle.wire_tree.specs.Model.{scope_of};
ghost use Rattle.binary_inputs.specs.Input.{IsOutput};
ghost use Rattle.list_replies.specs.Answer.{Tells, TellsOfBytes, lines_of};

use binary_inputs::{HexRefusal, Told, bytes_of, digits_of, told_digits, told_error};
use bumpalo::Bump;
use comp_list::list_scope;
use comp_order::order_scope;
use list_lines::{list_lines, order_line};
use std::alloc::{AllocError, Global};
use wire_read::read_tree;
use wire_tree::Scope;

/// What is asked of a binary.
#[derive(Clone, Copy, PartialEq, Eq, Debug)]
pub enum Ask {
    /// A line for each of its references.
    List,
    /// Whether each is to something that stands before it.
    Order,
}

/// The lines that are asked for of a component that bytes are read as.
fn lines_of(alloc: Global, scope: &Scope<'_, '_>, ask: Ask) -> Result<String, AllocError>
    requires read { (bytes : List ℕ) × (length bytes < 2 ^ 32) × Reads bytes (scope_of scope.now) }
    ensures { IfOk result (λ lines. string_bytes lines ≡ lines_of (scope_of scope.now) ask) }
{
    match ask {
        Ask::List => {
            let lines = list_scope(alloc, scope)?;
            list_lines(alloc, lines.as_slice())
        }
        Ask::Order => order_line(alloc, order_scope(scope)),
    }
}

/// The lines that are asked for, to be written.
fn told_lines(alloc: Global, scope: &Scope<'_, '_>, ask: Ask) -> Result<Told, AllocError>
    requires read { (bytes : List ℕ) × (length bytes < 2 ^ 32) × Reads bytes (scope_of scope.now) }
    ensures { IfOk result (IsOutput (lines_of (scope_of scope.now) ask)) }
{
    Ok(Told::Output(lines_of(alloc, scope, ask)?))
}

/// What is to be written for the bytes of a binary.
fn reply_to_bytes(alloc: Global, bytes: &[u8], ask: Ask) -> Result<Told, AllocError>
    ensures { IfOk result (TellsOfBytes bytes.now ask) }
{
    let bump = Bump::new(alloc);
    match read_tree(alloc, &bump, bytes) {
        Ok(scope) => told_lines(alloc, &scope, ask),
        Err(error) => told_error(alloc, error),
    }
}

/// What is to be written for an input that is a binary in hexadecimal, one line feed at its end aside.
fn reply_to_digits(alloc: Global, input: &[u8], ask: Ask) -> Result<Told, AllocError>
    ensures { IfOk result (Tells input.now false ask) }
{
    match bytes_of(alloc, digits_of(input)) {
        Ok(bytes) => reply_to_bytes(alloc, bytes.as_slice(), ask),
        Err(HexRefusal::At(offset)) => told_digits(alloc, offset),
        Err(HexRefusal::NoMemory) => Err(AllocError),
    }
}

/// What is to be written for an input: what is asked of the component that its bytes are read as, or why there is none. By `raw` the
/// bytes are the input's, else they stand in it in hexadecimal, one line feed at its end aside.
///
/// It is refused where memory ran out.
pub fn reply_to_binary(alloc: Global, input: &[u8], raw: bool, ask: Ask) -> Result<Told, AllocError>
    ensures { IfOk result (Tells input.now raw ask) }
{
    if raw {
        return reply_to_bytes(alloc, input, ask);
    }
    reply_to_digits(alloc, input, ask)
}
