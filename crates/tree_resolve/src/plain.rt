//! Definitions that stay as they are.

ghost use Rattle.std.specs.Prelude.{◌≡◌, List, true, option_map};
ghost use Rattle.comp_model.specs.CoreModules.{CoreModule};
ghost use Rattle.comp_model.specs.Model.{case_id, core_value};
ghost use Rattle.comp_tree.specs.Lists.{listed, nodes_listed};
ghost use Rattle.comp_tree.specs.Model.{core_value_of, id_of, leaf_of};
ghost use Rattle.tree_resolve.specs.Plain.{DefsPlain, Plain, PlainLeaf, PlainNodes};

use comp_tree::{CoreValue, Def, Leaf, Node};
use wast_parser::Id;

/// Whether a core value type is no reference to a core type.
fn is_plain_value(value: &CoreValue<'_, '_>) -> bool
    ensures { result ≡ true → PlainLeaf (core_value (core_value_of value.now)) }
{
    match value {
        CoreValue::RefConcrete(_, _) => false,
        _ => true,
    }
}

/// Whether a case has no id.
fn is_plain_case(id: &Option<Id<'_>>) -> bool
    ensures { result ≡ true → PlainLeaf (case_id (option_map id_of id.now)) }
{
    match id {
        Some(_) => false,
        None => true,
    }
}

/// Whether nothing in a leaf is resolved.
#[cycle(plain)]
fn is_plain_leaf(leaf: &Leaf<'_, '_>) -> bool
    ensures { result ≡ true → (C : List CoreModule) → PlainLeaf (leaf_of C leaf.now) }
{
    match leaf {
        Leaf::Text(_) => true,
        Leaf::Pieces(_) => true,
        Leaf::Number(_) => true,
        Leaf::Kind(_) => true,
        Leaf::CoreValue(value) => is_plain_value(value),
        Leaf::Numeral(_, _, _) => true,
        Leaf::Absent => true,
        Leaf::Present(part) => is_plain_leaf(part),
        Leaf::Node(node) => is_plain(node.leaves),
        Leaf::Nodes(nodes) => are_plain(nodes),
        Leaf::CaseId(id) => is_plain_case(id),
        _ => false,
    }
}

/// Whether nothing in leaves is resolved: there are no names and no paths in them, no ids of cases, no core modules and no scopes.
#[cycle(plain)]
pub(crate) fn is_plain(leaves: &[Leaf<'_, '_>]) -> bool
    ensures { result ≡ true → (C : List CoreModule) → Plain (listed C leaves.now) }
{
    for leaf in leaves {
        if !is_plain_leaf(leaf) {
            return false;
        }
    }
    true
}

/// Whether nothing in nodes is resolved.
#[cycle(plain)]
fn are_plain(nodes: &[Node<'_, '_>]) -> bool
    ensures { result ≡ true → (C : List CoreModule) → PlainNodes (nodes_listed C nodes.now) }
{
    for node in nodes {
        if !is_plain(node.leaves) {
            return false;
        }
    }
    true
}

/// Whether definitions all stay as they are.
pub(crate) fn all_plain(defs: &[Def<'_, '_>]) -> bool
    ensures { result ≡ true → DefsPlain defs.now }
{
    for def in defs {
        if !is_plain(def.node.leaves) {
            return false;
        }
    }
    true
}
