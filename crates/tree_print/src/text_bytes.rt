//! The texts of definitions are of bytes, as those of a tree are by their type: the walk reads each of them, and does nothing else.

ghost use Rattle.std.specs.Prelude.{◌≡◌, nat_lt, true};
ghost use Rattle.std.specs.List.{list_all};
ghost use Rattle.wire_tree.specs.Lists.{listed, defs_listed};
ghost use Rattle.wire_tree.specs.Model.{leaf_of, scope_of};
ghost use Rattle.print_table.specs.HasText.{leaf_has_bytes, leaves_have_bytes, definitions_have_bytes, has_bytes};

use wire_tree::{Leaf, Node, Scope};

/// A text is of bytes.
fn text_is_bytes(text: &[u8])
    ensures { list_all (λ b. nat_lt b 256) text.now ≡ true }
{}

/// A leaf that is a text is of bytes, and so are the texts of a scope.
#[cycle(texts)]
fn leaf_is_bytes(leaf: &Leaf<'_, '_>)
    ensures { leaf_has_bytes (leaf_of leaf.now) ≡ true }
{
    match leaf {
        Leaf::Text(text) => text_is_bytes(text),
        Leaf::Scope(scope) => definitions_are_bytes(scope.defs),
        Leaf::Number(_) => (),
        Leaf::Kind(_) => (),
        Leaf::CoreValue(_) => (),
        Leaf::Index(_, _) => (),
        Leaf::Outward(_) => (),
        Leaf::Absent => (),
        Leaf::Present(_) => (),
        Leaf::Node(_) => (),
        Leaf::Nodes(_) => (),
        Leaf::NoId => (),
        Leaf::Results(_) => (),
        Leaf::Module(_) => (),
    }
}

/// The texts among these leaves are of bytes.
#[cycle(texts)]
fn leaves_are_bytes(leaves: &[Leaf<'_, '_>])
    ensures { leaves_have_bytes (listed leaves.now) ≡ true }
{
    for leaf in leaves {
        leaf_is_bytes(leaf);
    }
}

/// The texts of these definitions are of bytes.
#[cycle(texts)]
fn definitions_are_bytes(defs: &[Node<'_, '_>])
    ensures { definitions_have_bytes (defs_listed defs.now) ≡ true }
{
    for node in defs {
        leaves_are_bytes(node.leaves);
    }
}

/// The texts of a component's definitions are of bytes.
pub fn texts_are_bytes(scope: &Scope<'_, '_>)
    ensures { has_bytes (scope_of scope.now) ≡ true }
{
    definitions_are_bytes(scope.defs)
}
