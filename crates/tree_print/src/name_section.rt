//! Custom sections of names (Component Model, binary format, Name Section), which are printed nowhere.

ghost use Rattle.std.specs.Prelude.{◌≡◌, bytes_eq, codes};
ghost use Rattle.comp_model.specs.declared.row.Row.TheVariants as rows;
ghost use Rattle.wire_tree.specs.Lists.{listed};
ghost use Rattle.print_table.specs.TextOf.{is_name_section};

use comp_model::Row;
use wire_tree::{Leaf, Node};

/// Whether a text is the name of custom sections of names.
fn is_names(text: &[u8]) -> bool
    ensures { result ≡ bytes_eq text.now (codes "component-name") }
{
    text == "component-name".as_bytes()
}

/// Whether the first leaf is the name of custom sections of names.
fn names_first(leaves: &[Leaf<'_, '_>]) -> bool
    ensures { result ≡ is_name_section rows.Custom (listed leaves.now) }
{
    if leaves.is_empty() {
        return false;
    }
    match &leaves[0] {
        Leaf::Text(text) => is_names(text),
        _ => false,
    }
}

/// Whether a definition is a custom section of names.
pub fn is_name_section(node: &Node<'_, '_>) -> bool
    ensures { result ≡ is_name_section node.now.row (listed node.now.leaves.now) }
{
    match node.row {
        Row::Custom => names_first(node.leaves),
        _ => false,
    }
}
