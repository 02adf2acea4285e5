//! From a component binary to its text, and from that to a binary again.

ghost use Rattle.std.specs.Prelude.{◌≡◌, MatchResult};
ghost use Rattle.comp_model.specs.Model.{Scope};
ghost use Rattle.comp_wire.specs.Read.{Reads};
ghost use Rattle.print_table.specs.TextOf.{unnamed, text_of};
ghost use Rattle.print_again.specs.Again.{IsPrinted};
ghost use Rattle.print_again.specs.Answer.{IsAgain, RefusesAgain};

use crate::laws::{printed_text_is_read_back, printed_text_is_valid};
use bumpalo::Bump;
use std::alloc::Global;
use tree_print::{PrintError, print_scope};
use wast_component::component_binary;
use wast_parser::ErrorKind;
use wire_read::{ReadError, read_tree};

/// Why a component binary isn't printed and encoded again.
#[derive(Clone, Copy)]
pub enum AgainError {
    /// The bytes aren't read as a component, or memory ran out while they were.
    Read(ReadError),
    /// The component isn't printed, or memory ran out while it was.
    Print(PrintError),
    /// Memory ran out while the text was encoded.
    NoMemory,
}

/// The encoding of the text of a component that is printed; none where memory ran out.
fn encode_printed(alloc: Global, text: &str) -> Result<Vec<u8>, AgainError>
    requires printed { (b : Scope) × IsPrinted b × (text.now ≡ text_of b) }
    ensures { (b : Scope) → IsPrinted b → text.now ≡ text_of b → MatchResult result (λ new. Reads new.items (unnamed b)) (λ e. e ≡ AgainError.NoMemory) }
{
    printed_text_is_valid();
    printed_text_is_read_back();
    match component_binary(alloc, text, false) {
        Ok(bytes) => Ok(bytes),
        Err(error) => match error.kind {
            ErrorKind::NoMemory => Err(AgainError::NoMemory),
            _ => unreachable!(),
        },
    }
}

/// The binary that the text of a component binary encodes to.
///
/// `bytes` are read as a component (Component Model, binary format), it is printed with numerals in place of names, and the text is encoded.
/// What comes back is read as the same component, without the custom sections of the name `component-name` in it and in its components.
///
/// Refused are, in this order: bytes that aren't read as a component, with the refusal of `read_tree`; and a component that isn't printed,
/// with that of `print_scope`. The encoder has nothing against the text, so `NoMemory` comes only where memory ran out while it was encoded.
pub fn again(alloc: Global, bytes: &[u8]) -> Result<Vec<u8>, AgainError>
    ensures { MatchResult result (λ new. IsAgain bytes.now new.items) (RefusesAgain bytes.now) }
{
    let arena = Bump::new(alloc);
    let scope = match read_tree(alloc, &arena, bytes) {
        Ok(scope) => scope,
        Err(error) => return Err(AgainError::Read(error)),
    };
    let text = match print_scope(alloc, &scope) {
        Ok(text) => text,
        Err(error) => return Err(AgainError::Print(error)),
    };
    match encode_printed(alloc, text.as_str()) {
        Ok(bytes) => Ok(bytes),
        Err(error) => Err(error),
    }
}
