//! The walk that looks for the first reference to something that doesn't stand before it.

ghost use Rattle.std.specs.Prelude.{◌≡◌, ◌<◌, ◌^◌, ◌∷◌, [], ℕ, List, map, length};
ghost use Rattle.comp_model.specs.Model.{Defs, Leaves, no_def};
ghost use Rattle.comp_model.specs.declared.row.Row.{Row};
ghost use Rattle.comp_wire.specs.Read.{Reads};
ghost use Rattle.wire_tree.specs.Lists.{listed, nodes_listed, defs_listed};
ghost use Rattle.wire_tree.specs.Model.{leaf_of, scope_of};
ghost use Rattle.comp_list.specs.References.{references, leaf_references, node_references, maybe_reference, outer_count};
ghost use Rattle.comp_order.specs.Counts.{HasCounts};
ghost use Rattle.comp_order.specs.Before.{AllCounted, HasOwn};
ghost use Rattle.comp_order.specs.Order.{verdict_of, def_verdicts, leaf_verdicts, leaves_verdicts, nodes_verdicts, defs_verdicts, order};
ghost use Rattle.comp_order.specs.Pass.{pass, capped_order};

use crate::before::{Around, Before, Judge, own_counts};
use crate::counts::Counts;
use crate::steps::pass_some;
use crate::verdict::Order;
use comp_list::{Reference, outer_count, value_reference};
use wire_tree::{Leaf, Node, Scope};

/// Passes the lines of the references of a leaf.
#[cycle(references)]
fn pass_leaf(judge: &Judge<'_>, line: u64, leaf: &Leaf<'_, '_>) -> Result<u64, Order>
    ensures { (before : Defs) (befores : List Defs) (t : Row) (ls : Leaves) → HasCounts judge.now.before.now before → HasOwn judge.now.own.now t ls → AllCounted judge.now.outer befores → result ≡ pass line (map (verdict_of befores before t ls judge.now.up) (leaf_references (leaf_of leaf.now))) }
{
    match leaf {
        Leaf::Index(space, index) => {
            let reference = Reference {
                space: *space,
                index: *index,
            };
            pass_some(judge, line, Some(reference))
        }
        Leaf::CoreValue(value) => pass_some(judge, line, value_reference(*value)),
        Leaf::Present(part) => pass_leaf(judge, line, part),
        Leaf::Node(node) => pass_leaves(judge, line, node.leaves),
        Leaf::Nodes(nodes) => pass_nodes(judge, line, nodes),
        Leaf::Text(_) => Ok(line),
        Leaf::Number(_) => Ok(line),
        Leaf::Kind(_) => Ok(line),
        Leaf::Outward(_) => Ok(line),
        Leaf::Absent => Ok(line),
        Leaf::NoId => Ok(line),
        Leaf::Results(_) => Ok(line),
        Leaf::Module(_) => Ok(line),
        Leaf::Scope(_) => Ok(line),
    }
}

/// Passes the lines of the references of leaves.
#[cycle(references)]
fn pass_leaves(judge: &Judge<'_>, line: u64, leaves: &[Leaf<'_, '_>]) -> Result<u64, Order>
    ensures { (before : Defs) (befores : List Defs) (t : Row) (ls : Leaves) → HasCounts judge.now.before.now before → HasOwn judge.now.own.now t ls → AllCounted judge.now.outer befores → result ≡ pass line (map (verdict_of befores before t ls judge.now.up) (references (listed leaves.now))) }
{
    let mut next = line;
    for leaf in leaves {
        next = match pass_leaf(judge, next, leaf) {
            Ok(line) => line,
            Err(order) => return Err(order),
        };
    }
    Ok(next)
}

/// Passes the lines of the references of nodes.
#[cycle(references)]
fn pass_nodes(judge: &Judge<'_>, line: u64, nodes: &[Node<'_, '_>]) -> Result<u64, Order>
    ensures { (before : Defs) (befores : List Defs) (t : Row) (ls : Leaves) → HasCounts judge.now.before.now before → HasOwn judge.now.own.now t ls → AllCounted judge.now.outer befores → result ≡ pass line (map (verdict_of befores before t ls judge.now.up) (node_references (nodes_listed nodes.now))) }
{
    let mut next = line;
    for node in nodes {
        next = match pass_leaves(judge, next, node.leaves) {
            Ok(line) => line,
            Err(order) => return Err(order),
        };
    }
    Ok(next)
}

/// Passes the lines of a definition's own references.
fn pass_own(
    counts: &Counts,
    outer: Around<'_>,
    line: u64,
    node: &Node<'_, '_>,
) -> Result<u64, Order>
    ensures { (before : Defs) (befores : List Defs) → HasCounts counts.now before → AllCounted outer.entry befores
        → result ≡ pass line (map (verdict_of befores before node.now.row (listed node.now.leaves.now) (outer_count node.now.row (listed node.now.leaves.now))) (references (listed node.now.leaves.now))) }
{
    let own = own_counts(node);
    let judge = Judge {
        before: counts,
        own: &own,
        up: outer_count(node),
        outer,
    };
    pass_leaves(&judge, line, node.leaves)
}

/// Passes the lines of the scopes in a leaf.
#[cycle(ordering)]
fn pass_held(around: Around<'_>, line: u64, leaf: &Leaf<'_, '_>) -> Result<u64, Order>
    ensures { (befores : List Defs) → AllCounted around.entry befores → result ≡ pass line (leaf_verdicts (leaf_of leaf.now) befores) }
{
    match leaf {
        Leaf::Scope(scope) => pass_defs(around, line, scope.defs),
        Leaf::Present(part) => pass_held(around, line, part),
        Leaf::Node(node) => pass_held_in(around, line, node.leaves),
        Leaf::Nodes(nodes) => pass_held_in_nodes(around, line, nodes),
        Leaf::Index(_, _) => Ok(line),
        Leaf::CoreValue(_) => Ok(line),
        Leaf::Text(_) => Ok(line),
        Leaf::Number(_) => Ok(line),
        Leaf::Kind(_) => Ok(line),
        Leaf::Outward(_) => Ok(line),
        Leaf::Absent => Ok(line),
        Leaf::NoId => Ok(line),
        Leaf::Results(_) => Ok(line),
        Leaf::Module(_) => Ok(line),
    }
}

/// Passes the lines of the scopes in leaves.
#[cycle(ordering)]
fn pass_held_in(around: Around<'_>, line: u64, leaves: &[Leaf<'_, '_>]) -> Result<u64, Order>
    ensures { (befores : List Defs) → AllCounted around.entry befores → result ≡ pass line (leaves_verdicts (listed leaves.now) befores) }
{
    let mut next = line;
    for leaf in leaves {
        next = match pass_held(around, next, leaf) {
            Ok(line) => line,
            Err(order) => return Err(order),
        };
    }
    Ok(next)
}

/// Passes the lines of the scopes in nodes.
#[cycle(ordering)]
fn pass_held_in_nodes(around: Around<'_>, line: u64, nodes: &[Node<'_, '_>]) -> Result<u64, Order>
    ensures { (befores : List Defs) → AllCounted around.entry befores → result ≡ pass line (nodes_verdicts (nodes_listed nodes.now) befores) }
{
    let mut next = line;
    for node in nodes {
        next = match pass_held_in(around, next, node.leaves) {
            Ok(line) => line,
            Err(order) => return Err(order),
        };
    }
    Ok(next)
}

/// Passes the lines of a definition: those of its own references, then those of the scope that it holds.
#[cycle(ordering)]
fn pass_def(
    counts: &Counts,
    outer: Around<'_>,
    line: u64,
    node: &Node<'_, '_>,
) -> Result<u64, Order>
    ensures { (before : Defs) (befores : List Defs) → HasCounts counts.now before → AllCounted outer.entry befores
        → result ≡ pass line (def_verdicts befores before node.now.row (listed node.now.leaves.now)) }
{
    let next = match pass_own(counts, outer, line, node) {
        Ok(line) => line,
        Err(order) => return Err(order),
    };
    let open = Before { counts, outer };
    pass_held_in(Around::Scope(&open), next, node.leaves)
}

/// Passes the lines of the definitions of a scope.
#[cycle(ordering)]
fn pass_defs(outer: Around<'_>, line: u64, defs: &[Node<'_, '_>]) -> Result<u64, Order>
    ensures { (befores : List Defs) → AllCounted outer.entry befores → result ≡ pass line (defs_verdicts (defs_listed defs.now) befores no_def) }
{
    let mut counts = Counts::none();
    let mut next = line;
    for node in defs {
        next = match pass_def(&counts, outer, next, node) {
            Ok(line) => line,
            Err(order) => return Err(order),
        };
        counts.add_def(node);
    }
    Ok(next)
}

/// Whether each reference of a component and of the scopes in it is to something that stands before it, by the lines of its listing
/// (`comp_list`); else the number of the first that isn't, and why. The tree is that of a component that bytes are read as
/// (`read_tree` of `wire_read`); of any other tree a number from 2^64 on is `u64::MAX`. It takes no memory.
pub fn order_scope(scope: &Scope<'_, '_>) -> Order
    ensures of_any { result ≡ capped_order (order (scope_of scope.now)) }
    ensures of_read { (bytes : List ℕ) → length bytes < 2 ^ 64 → Reads bytes (scope_of scope.now) → result ≡ order (scope_of scope.now) }
{
    match pass_defs(Around::Nothing, 0, scope.defs) {
        Ok(_line) => Order::Ordered,
        Err(order) => order,
    }
}
