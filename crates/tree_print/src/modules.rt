//! Whether a core module is defined in a component.

ghost use Rattle.std.specs.Prelude.{◌≡◌};
ghost use Rattle.wire_tree.specs.Lists.{listed, node_of, defs_listed};
ghost use Rattle.wire_tree.specs.Model.{leaf_of, scope_of};
ghost use Rattle.print_table.specs.HasText.{is_core_module, leaf_holds_module, leaves_hold_module, definition_holds_module, definitions_hold_module, holds_module};

use comp_model::Row;
use wire_tree::{Leaf, Node, Scope};

/// Whether a row is a core module.
fn is_core_module(row: Row) -> bool
    ensures { result ≡ is_core_module row }
{
    match row {
        Row::CoreModule => true,
        _ => false,
    }
}

/// Whether a core module is defined in the scope that a leaf is.
#[cycle(holding)]
fn leaf_holds(leaf: &Leaf<'_, '_>) -> bool
    ensures { result ≡ leaf_holds_module (leaf_of leaf.now) }
{
    match leaf {
        Leaf::Scope(scope) => holds_module(scope),
        Leaf::Text(_) => false,
        Leaf::Number(_) => false,
        Leaf::Kind(_) => false,
        Leaf::CoreValue(_) => false,
        Leaf::Index(_, _) => false,
        Leaf::Outward(_) => false,
        Leaf::Absent => false,
        Leaf::Present(_) => false,
        Leaf::Node(_) => false,
        Leaf::Nodes(_) => false,
        Leaf::NoId => false,
        Leaf::Results(_) => false,
        Leaf::Module(_) => false,
    }
}

/// Whether a core module is defined in a scope that is one of these leaves.
#[cycle(holding)]
fn leaves_hold(leaves: &[Leaf<'_, '_>]) -> bool
    ensures { result ≡ leaves_hold_module (listed leaves.now) }
{
    for leaf in leaves {
        if leaf_holds(leaf) {
            return true;
        }
    }
    false
}

/// Whether a definition is a core module, or holds one.
#[cycle(holding)]
fn definition_holds(node: &Node<'_, '_>) -> bool
    ensures { result ≡ definition_holds_module (node_of node.now) }
{
    if is_core_module(node.row) {
        return true;
    }
    leaves_hold(node.leaves)
}

/// Whether one of these definitions is a core module, or holds one.
#[cycle(holding)]
fn definitions_hold(defs: &[Node<'_, '_>]) -> bool
    ensures { result ≡ definitions_hold_module (defs_listed defs.now) }
{
    for node in defs {
        if definition_holds(node) {
            return true;
        }
    }
    false
}

/// Whether a core module is defined in a component or a type, or in one that stands in it.
#[cycle(holding)]
pub fn holds_module(scope: &Scope<'_, '_>) -> bool
    ensures { result ≡ holds_module (scope_of scope.now) }
{
    definitions_hold(scope.defs)
}
