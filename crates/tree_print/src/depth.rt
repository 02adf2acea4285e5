//! Whether a part of a printed text that is checked for its depth stands below more than 100 open parentheses.

ghost use Rattle.std.specs.Prelude.{◌≡◌, ◌<◌, true, false};
ghost use Rattle.wire_tree.specs.Lists.{listed, defs_listed};
ghost use Rattle.wire_tree.specs.Model.{leaf_of, scope_of};
ghost use Rattle.print_table.specs.TextOf.{unnamed_leaf, unnamed_leaves, unnamed_defs};
ghost use Rattle.print_table.specs.Depths.{deeper, some_deep, leaf_depths, leaves_depths, depths, definition_deep, is_deep};

use crate::name_section::is_name_section;
use comp_model::Row;
use wire_tree::{Leaf, Node, Scope};

/// How many parentheses of a definition are open in front of the part of it that is checked; 0 where none is.
fn deeper(row: Row) -> u32
    ensures depth { result ≡ deeper row }
    ensures few { result < 3 }
{
    match row {
        Row::Component => 1,
        Row::ModuleType => 2,
        Row::ComponentType => 2,
        Row::InstanceType => 2,
        Row::RecordType => 2,
        Row::VariantType => 2,
        Row::ListType => 2,
        Row::FixedLengthListType => 2,
        Row::TupleType => 2,
        Row::FlagsType => 2,
        Row::EnumType => 2,
        Row::OptionType => 2,
        Row::ResultType => 2,
        Row::OwnType => 2,
        Row::BorrowType => 2,
        Row::StreamType => 2,
        Row::FutureType => 2,
        _ => 0,
    }
}

/// Whether a part of a leaf is too deep, below so many parentheses.
#[cycle(deep)]
fn leaf_is_deep(depth: u32, leaf: &Leaf<'_, '_>) -> bool
    ensures { depth < 101 → result ≡ some_deep (leaf_depths depth (unnamed_leaf (leaf_of leaf.now))) }
{
    match leaf {
        Leaf::Scope(scope) => definitions_are_deep(depth, scope.defs),
        Leaf::Text(_) => false,
        Leaf::Number(_) => false,
        Leaf::Kind(_) => false,
        Leaf::CoreValue(_) => false,
        Leaf::Index(_, _) => false,
        Leaf::Outward(_) => false,
        Leaf::Absent => false,
        Leaf::Present(_) => false,
        Leaf::Node(_) => false,
        Leaf::Nodes(_) => false,
        Leaf::NoId => false,
        Leaf::Results(_) => false,
        Leaf::Module(_) => false,
    }
}

/// Whether a part of these leaves is too deep, below so many parentheses.
#[cycle(deep)]
fn leaves_are_deep(depth: u32, leaves: &[Leaf<'_, '_>]) -> bool
    ensures { depth < 101 → result ≡ some_deep (leaves_depths depth (unnamed_leaves (listed leaves.now))) }
{
    for leaf in leaves {
        if leaf_is_deep(depth, leaf) {
            return true;
        }
    }
    false
}

/// Whether a definition or a part of it is too deep, below so many parentheses.
#[cycle(deep)]
fn definition_is_deep(depth: u32, node: &Node<'_, '_>) -> bool
    ensures { depth < 101 → result ≡ definition_deep depth node.now.row (listed node.now.leaves.now) }
{
    if is_name_section(node) {
        return false;
    }
    let inner = depth.saturating_add(deeper(node.row));
    if inner > 100 {
        return true;
    }
    leaves_are_deep(inner, node.leaves)
}

/// Whether one of these definitions or a part of it is too deep, below so many parentheses.
#[cycle(deep)]
fn definitions_are_deep(depth: u32, defs: &[Node<'_, '_>]) -> bool
    ensures { depth < 101 → result ≡ some_deep (depths depth (unnamed_defs (defs_listed defs.now))) }
{
    for node in defs {
        if definition_is_deep(depth, node) {
            return true;
        }
    }
    false
}

/// Whether a part of the text of a component that is checked for its depth stands below more than 100 open parentheses.
pub fn is_deep(scope: &Scope<'_, '_>) -> bool
    ensures { result ≡ is_deep (scope_of scope.now) }
{
    definitions_are_deep(1, scope.defs)
}
