//! The weight of a component, its custom sections of names left out: what its text weighs when it is read. `u64::MAX` stands for every
//! greater number.

ghost use Rattle.std.specs.Prelude.{◌≡◌, ◌+◌, ◌<◌, ◌^◌, ℕ};
ghost use Rattle.comp_model.specs.CoreModules.{CoreModule};
ghost use Rattle.comp_model.specs.Model as m;
ghost use Rattle.comp_model.specs.Weight.{weight_of_leaf, weight_of_leaves, weight_of_nodes, weight_of_defs, weight};
ghost use Rattle.wire_tree.specs.Lists.{listed, nodes_listed, defs_listed};
ghost use Rattle.wire_tree.specs.Model.{leaf_of, scope_of};
ghost use Rattle.print_table.specs.TextOf.{unnamed_leaf, unnamed_leaves, unnamed_defs, unnamed};
ghost use Rattle.tree_print.specs.Taken.{capped};
ghost use Rattle.tree_print.specs.Weights.{is_node as is_node_leaf, row_weight, definition_weight};

use crate::name_section::is_name_section;
use wire_tree::{Leaf, Node, Scope};

/// The sum of two weights.
fn both(one: u64, other: u64) -> u64
    ensures sum { result ≡ capped (one + other) }
    ensures small { result < 2 ^ 64 }
{
    one.saturating_add(other)
}

/// Whether a leaf is a node.
fn is_node(leaf: &Leaf<'_, '_>) -> bool
    ensures { result ≡ is_node_leaf (leaf_of leaf.now) }
{
    match leaf {
        Leaf::Node(_) => true,
        Leaf::Text(_) => false,
        Leaf::Number(_) => false,
        Leaf::Kind(_) => false,
        Leaf::CoreValue(_) => false,
        Leaf::Index(_, _) => false,
        Leaf::Outward(_) => false,
        Leaf::Absent => false,
        Leaf::Present(_) => false,
        Leaf::Nodes(_) => false,
        Leaf::NoId => false,
        Leaf::Results(_) => false,
        Leaf::Module(_) => false,
        Leaf::Scope(_) => false,
    }
}

/// What a leaf weighs; a scope in it with its custom sections of names.
#[cycle(weighing)]
fn leaf_weight(leaf: &Leaf<'_, '_>) -> u64
    ensures { (f : CoreModule → ℕ) → result ≡ capped (weight_of_leaf f (leaf_of leaf.now)) }
{
    match leaf {
        Leaf::Text(text) => both(32, text.len() as u64),
        Leaf::Results(count) => 32 + 32 * *count as u64,
        Leaf::Present(part) => present_weight(part),
        Leaf::Node(node) => both(32, row_weight(node)),
        Leaf::Nodes(nodes) => both(32, nodes_weight(nodes)),
        Leaf::Scope(scope) => both(64, defs_weight(scope.defs)),
        Leaf::Number(_) => 32,
        Leaf::Kind(_) => 32,
        Leaf::CoreValue(_) => 32,
        Leaf::Index(_, _) => 32,
        Leaf::Outward(_) => 32,
        Leaf::Absent => 32,
        Leaf::NoId => 32,
        Leaf::Module(_) => 32,
    }
}

/// What an optional part weighs that is there: a row in it is no further leaf.
#[cycle(weighing)]
fn present_weight(part: &Leaf<'_, '_>) -> u64
    ensures { (f : CoreModule → ℕ) → result ≡ capped (weight_of_leaf f (m.present (leaf_of part.now))) }
{
    if is_node(part) {
        return leaf_weight(part);
    }
    both(32, leaf_weight(part))
}

/// What leaves weigh.
#[cycle(weighing)]
fn leaves_weight(leaves: &[Leaf<'_, '_>]) -> u64
    ensures { (f : CoreModule → ℕ) → result ≡ capped (weight_of_leaves f (listed leaves.now)) }
{
    let mut weight = 0;
    for leaf in leaves {
        weight = both(weight, leaf_weight(leaf));
    }
    weight
}

/// What a row weighs.
#[cycle(weighing)]
fn row_weight(node: &Node<'_, '_>) -> u64
    ensures { (f : CoreModule → ℕ) → result ≡ capped (row_weight f (listed node.now.leaves.now)) }
{
    both(32, leaves_weight(node.leaves))
}

/// What rows weigh.
#[cycle(weighing)]
fn nodes_weight(nodes: &[Node<'_, '_>]) -> u64
    ensures { (f : CoreModule → ℕ) → result ≡ capped (weight_of_nodes f (nodes_listed nodes.now)) }
{
    let mut weight = 0;
    for node in nodes {
        weight = both(weight, row_weight(node));
    }
    weight
}

/// What definitions weigh.
#[cycle(weighing)]
fn defs_weight(defs: &[Node<'_, '_>]) -> u64
    ensures { (f : CoreModule → ℕ) → result ≡ capped (weight_of_defs f (defs_listed defs.now)) }
{
    let mut weight = 0;
    for node in defs {
        weight = both(weight, both(32, row_weight(node)));
    }
    weight
}

/// What a leaf of a definition weighs.
#[cycle(printed)]
fn printed_leaf(leaf: &Leaf<'_, '_>) -> u64
    ensures { (f : CoreModule → ℕ) → result ≡ capped (weight_of_leaf f (unnamed_leaf (leaf_of leaf.now))) }
{
    match leaf {
        Leaf::Scope(scope) => both(64, printed_defs(scope.defs)),
        Leaf::Text(_) => leaf_weight(leaf),
        Leaf::Number(_) => leaf_weight(leaf),
        Leaf::Kind(_) => leaf_weight(leaf),
        Leaf::CoreValue(_) => leaf_weight(leaf),
        Leaf::Index(_, _) => leaf_weight(leaf),
        Leaf::Outward(_) => leaf_weight(leaf),
        Leaf::Absent => leaf_weight(leaf),
        Leaf::Present(_) => leaf_weight(leaf),
        Leaf::Node(_) => leaf_weight(leaf),
        Leaf::Nodes(_) => leaf_weight(leaf),
        Leaf::NoId => leaf_weight(leaf),
        Leaf::Results(_) => leaf_weight(leaf),
        Leaf::Module(_) => leaf_weight(leaf),
    }
}

/// What the leaves of a definition weigh.
#[cycle(printed)]
fn printed_leaves(leaves: &[Leaf<'_, '_>]) -> u64
    ensures { (f : CoreModule → ℕ) → result ≡ capped (weight_of_leaves f (unnamed_leaves (listed leaves.now))) }
{
    let mut weight = 0;
    for leaf in leaves {
        weight = both(weight, printed_leaf(leaf));
    }
    weight
}

/// What a definition weighs; a custom section of names nothing.
#[cycle(printed)]
fn printed_def(node: &Node<'_, '_>) -> u64
    ensures { (f : CoreModule → ℕ) → result ≡ capped (definition_weight f node.now.row (listed node.now.leaves.now)) }
{
    if is_name_section(node) {
        return 0;
    }
    both(64, printed_leaves(node.leaves))
}

/// What definitions weigh, custom sections of names left out.
#[cycle(printed)]
fn printed_defs(defs: &[Node<'_, '_>]) -> u64
    ensures { (f : CoreModule → ℕ) → result ≡ capped (weight_of_defs f (unnamed_defs (defs_listed defs.now))) }
{
    let mut weight = 0;
    for node in defs {
        weight = both(weight, printed_def(node));
    }
    weight
}

/// What a component weighs, its custom sections of names left out.
pub fn printed_weight(scope: &Scope<'_, '_>) -> u64
    ensures { (f : CoreModule → ℕ) → result ≡ capped (weight f (unnamed (scope_of scope.now))) }
{
    both(32, printed_defs(scope.defs))
}
