//! A tree as text, or why it isn't printed.

ghost use Rattle.std.specs.Prelude.{◌≡◌, IfOk, IfErr, None, string_bytes};
ghost use Rattle.comp_wire.specs.Read.{FitsComponent};
ghost use Rattle.item_tree.specs.Model.{component_of};
ghost use Rattle.print_table.specs.Printable.{IsPrintable};
ghost use Rattle.print_table.specs.TextOf.{unnamed, text_of};
ghost use Rattle.tree_print.specs.Cause.{cause, Refuses};

use bumpalo::Bump;
use item_rows::rows_of_tree;
use item_tree::Tree;
use std::alloc::Global;
use tree_print::{PrintError, PrintKind, print_scope};

/// The text of the component that a tree stands for (Component Model, text format), its custom sections of names left out: numerals stand
/// in place of names, and the encoding of the text is that component.
///
/// It is refused, in this order, with `CoreModule` where a core module is defined in the component or in one in it; with `NoText` where a
/// part of it has no text; with `TooBig` where its text has more than 67,108,864 bytes, or else the component that it spells weighs more;
/// with `TooDeep` where a part of the text that is checked for its depth stands below more than 100 open parentheses; and with `NoMemory`
/// where memory ran out.
pub fn print(alloc: Global, tree: &Tree<'_>) -> Result<String, PrintError>
    ensures printed { IfOk result (λ text. string_bytes text ≡ text_of (component_of tree.now)) }
    ensures admitted { IfOk result (λ _. cause (component_of tree.now) ≡ None) }
    ensures refused { IfErr result (λ e. Refuses (component_of tree.now) e.kind) }
    ensures printable { FitsComponent (component_of tree.now) → IfOk result (λ _. IsPrintable (unnamed (component_of tree.now))) }
{
    let bump = Bump::new(alloc);
    match rows_of_tree(alloc, &bump, tree) {
        Ok(scope) => print_scope(alloc, &scope),
        Err(_) => Err(PrintError {
            kind: PrintKind::NoMemory,
        }),
    }
}
