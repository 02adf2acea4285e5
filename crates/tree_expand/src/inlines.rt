//! Whether types stand inline in a scope.

ghost use Rattle.std.specs.Prelude.{◌≡◌, List};
ghost use Rattle.comp_model.specs.CoreModules.{CoreModule};
ghost use Rattle.comp_tree.specs.Lists.{listed, nodes_listed};
ghost use Rattle.comp_tree.specs.Model.{leaf_of, scope_of};
ghost use Rattle.tree_expand.specs.Numbering.{inlines, inlines_leaf, inlines_nodes, inlines_scope};

use crate::key::is_shared;
use comp_tree::{Leaf, Node, Scope};

/// Whether a type that may be shared stands inline in a leaf.
#[cycle(inlining)]
fn leaf_inlines(leaf: &Leaf<'_, '_>) -> bool
    ensures { (C : List CoreModule) → result ≡ inlines_leaf (leaf_of C leaf.now) }
{
    match leaf {
        Leaf::Present(inner) => leaf_inlines(inner),
        Leaf::Node(node) => leaves_inline(node.leaves),
        Leaf::Nodes(nodes) => nodes_inline(nodes),
        Leaf::Inline(_, node) => {
            if is_shared(node.row) {
                return true;
            }
            leaves_inline(node.leaves)
        }
        Leaf::Bundle(_, node) => leaves_inline(node.leaves),
        Leaf::Scope(_) => false,
        Leaf::Text(_) => false,
        Leaf::Pieces(_) => false,
        Leaf::Number(_) => false,
        Leaf::Kind(_) => false,
        Leaf::CoreValue(_) => false,
        Leaf::Numeral(_, _, _) => false,
        Leaf::Name(_, _, _) => false,
        Leaf::Path(_, _) => false,
        Leaf::Place(_) => false,
        Leaf::Absent => false,
        Leaf::CaseId(_) => false,
        Leaf::Results(_) => false,
        Leaf::Core(_) => false,
    }
}

/// Whether one stands in leaves.
#[cycle(inlining)]
fn leaves_inline(leaves: &[Leaf<'_, '_>]) -> bool
    ensures { (C : List CoreModule) → result ≡ inlines (listed C leaves.now) }
{
    for leaf in leaves {
        if leaf_inlines(leaf) {
            return true;
        }
    }
    false
}

/// Whether one stands in nodes.
#[cycle(inlining)]
fn nodes_inline(nodes: &[Node<'_, '_>]) -> bool
    ensures { (C : List CoreModule) → result ≡ inlines_nodes (nodes_listed C nodes.now) }
{
    for node in nodes {
        if leaves_inline(node.leaves) {
            return true;
        }
    }
    false
}

/// Whether a type that may be shared stands inline in a definition of a scope, those of inner scopes aside. That is told at the first one.
pub(crate) fn scope_inlines(scope: &Scope<'_, '_>) -> bool
    ensures { (C : List CoreModule) → result ≡ inlines_scope (scope_of C scope.now) }
{
    for def in scope.defs {
        if leaves_inline(def.node.leaves) {
            return true;
        }
    }
    false
}
