//! The text of a whole component: how long it is, and the text itself.

ghost use Rattle.std.specs.Prelude.{◌≡◌, OnOk, IfOk, length, string_bytes};
ghost use Rattle.wire_tree.specs.Model.{scope_of};
ghost use Rattle.print_table.specs.TextOf.{component_tokens, unnamed, text_of};
ghost use Rattle.tree_print.specs.Taken.{taken, put, capped};

use crate::leaf::put_word;
use crate::printer::Printer;
use crate::token::Token;
use crate::walk::put_definitions;
use crate::word::Word;
use std::alloc::{AllocError, Global};
use wire_tree::Scope;

/// Prints a component, its custom sections of names left out.
fn put_component(printer: &mut Printer, scope: &Scope<'_, '_>) -> Result<(), AllocError>
    ensures { OnOk result (taken printer.new ≡ put (component_tokens (unnamed (scope_of scope.now))) (taken printer.old)) }
{
    printer.put(Token::Opening)?;
    put_word(printer, Word::Component)?;
    put_definitions(printer, scope.kind, scope.defs)?;
    printer.put(Token::Closing)
}

/// How many bytes the text of a component has; `u64::MAX` stands for every greater number. It takes no memory, and isn't refused in fact.
pub fn text_length(scope: &Scope<'_, '_>) -> Result<u64, AllocError>
    ensures { IfOk result (λ n. n ≡ capped (length (text_of (scope_of scope.now)))) }
{
    let mut printer = Printer::counting();
    put_component(&mut printer, scope)?;
    Ok(printer.length())
}

/// The text of a component, with room for so many bytes from the first on. It is refused where memory ran out.
pub fn text_of(alloc: Global, scope: &Scope<'_, '_>, room: usize) -> Result<String, AllocError>
    ensures { IfOk result (λ text. string_bytes text ≡ text_of (scope_of scope.now)) }
{
    let mut printer = Printer::keeping(alloc, room)?;
    put_component(&mut printer, scope)?;
    Ok(printer.into_text(alloc))
}
