//! The laws of printing and encoding again. Each function does nothing; its contract is the law.

ghost use Rattle.std.specs.Prelude.{ℕ, List, false};
ghost use Rattle.comp_model.specs.Model.{Scope};
ghost use Rattle.comp_wire.specs.Read.{Reads};
ghost use Rattle.print_table.specs.TextOf.{unnamed, text_of};
ghost use Rattle.wast_component.specs.Answer.{Encodes};
ghost use Rattle.print_again.specs.Again.{IsPrinted, IsValidPrint};

use printed_text::laws::{printed_text_is_deep, printed_text_spells, unnamed_is_covered};
use wast_component::spelled_once;

/// The text of a component that is printed is valid, so that the encoder refuses it for want of memory alone, and its encoding is the
/// component without its custom sections of names.
pub fn printed_text_is_valid()
    ensures { (b : Scope) → IsPrinted b → IsValidPrint b }
{
    printed_text_spells();
    printed_text_is_deep();
    unnamed_is_covered();
}

/// Whatever bytes are an encoding of it, they are read as that component.
pub fn printed_text_is_read_back()
    ensures { (b : Scope) → IsPrinted b → (bytes : List ℕ) → Encodes (text_of b) false bytes → Reads bytes (unnamed b) }
{
    printed_text_is_valid();
    spelled_once();
}
