//! Leaves with an index in the place of each name: the recursion.

ghost use Rattle.std.specs.Prelude.{◌≡◌, ◌<◌, ◌^◌, List, [], length, map, MatchResult};
ghost use Rattle.comp_tables.specs.Built.{missing, missing_leaf, missing_nodes};
ghost use Rattle.comp_tree.specs.Lists.{listed, nodes_listed};
ghost use Rattle.comp_tree.specs.Model.{leaf_of};
ghost use Rattle.open_scopes.specs.Indexed.{OpenIndexed};
ghost use Rattle.tree_names.specs.AllFound.{all_found, leaf_found, nodes_found, FoundFirst};
ghost use Rattle.tree_names.specs.Counted.{Refused};
ghost use Rattle.tree_names.specs.Read.{LeafRead, LeavesRead, NodesRead};
ghost use Rattle.tree_names.specs.Ready.{LeafReady, LeavesReady, NodesReady};
ghost use Rattle.tree_names.specs.Room.{LeafInRoom, LeavesInRoom, NodesInRoom};

use crate::cases::{check_case, keep_case, no_cases};
use crate::core_rule::{CoreRule, check_core};
use crate::leaf::{pass_numeral, resolve_core_value, resolve_named, resolve_path, resolve_place};
use crate::reading::Reading;
use crate::refusals::no_memory;
use bumpalo::Bump;
use comp_tree::{Leaf, Node, place, place_all};
use open_scopes::Open;
use std::alloc::Global;
use wast_parser::{Error, Index};

/// A leaf of a definition of an expanded list: the leaf with an index in the place of each name, by what was found for it.
///
/// A name that denotes nothing is `Unknown`, at the name; so it is in the scope of a count outward, but that is `OuterCount`, at the word
/// `alias`, where as many scopes aren't open, and an id of no open scope is `OuterComponent`, there; a case whose id an earlier one bears
/// is `Duplicate`, at the id; a core module breaks the rule. The first of these is the refusal. Otherwise want of memory is `NoMemory` at
/// 0. The roots of paths were looked at before, no scope stands in the leaf, and there are numbers below 2^32 - 1 for all that it needs.
#[cycle(resolving)]
fn resolve_leaf<'t, 'a, M: CoreRule>(
    alloc: Global,
    bump: &'t Bump,
    cores: &[M],
    scopes: &[Open<'a>],
    leaf: &Leaf<'t, 'a>,
    reading: &mut Reading<'a, '_>,
) -> Result<Leaf<'t, 'a>, Error>
    requires few { length scopes.now < 2 ^ 32 }
    requires indexed { OpenIndexed scopes.now }
    requires sized { length reading.old.counters ≡ 13 }
    requires ready { LeafReady scopes.now (leaf_of (map M.core_module cores.now) leaf.now) }
    requires kept { FoundFirst scopes.now (λ ms. leaf_found ms (leaf_of (map M.core_module cores.now) leaf.now)) reading.old.denotations.left.now }
    requires room { LeafInRoom scopes.now reading.old (leaf_of (map M.core_module cores.now) leaf.now) }
    ensures { MatchResult result (λ new. LeafRead M.encoding scopes.now reading.old reading.new (leaf_of (map M.core_module cores.now) leaf.now) (leaf_of (map M.core_module cores.now) new)) (Refused scopes.now (λ ms. missing_leaf M.encoding ms (leaf_of (map M.core_module cores.now) leaf.now))) }
{
    match leaf {
        Leaf::CoreValue(value) => match resolve_core_value(bump, scopes, *value, reading) {
            Ok(value) => Ok(Leaf::CoreValue(value)),
            Err(refused) => Err(refused),
        },
        Leaf::Numeral(_, _, _) => {
            pass_numeral(reading);
            Ok(*leaf)
        }
        Leaf::Name(space, reach, id) => {
            match resolve_named(scopes, *space, **reach, **id, reading) {
                Ok(number) => Ok(Leaf::Numeral(*space, number, id.span())),
                Err(refused) => Err(refused),
            }
        }
        Leaf::Path(space, path) => {
            match resolve_path(scopes, *space, path.root, path.exports, reading) {
                Ok(number) => Ok(Leaf::Numeral(*space, number, path.root.span())),
                Err(refused) => Err(refused),
            }
        }
        Leaf::Place(outer) => match resolve_place(scopes, outer.alias, outer.scope) {
            Ok(depth) => {
                let mut new = **outer;
                new.scope = Index::Num(depth, outer.alias);
                match place(bump, new) {
                    Ok(placed) => Ok(Leaf::Place(placed)),
                    Err(_) => Err(no_memory()),
                }
            }
            Err(refused) => Err(refused),
        },
        Leaf::Present(part) => {
            match resolve_leaf(alloc, bump, cores, scopes, part, reading) {
                Ok(new) => match place(bump, new) {
                    Ok(placed) => Ok(Leaf::Present(placed)),
                    Err(_) => Err(no_memory()),
                },
                Err(refused) => Err(refused),
            }
        }
        Leaf::Node(node) => {
            match resolve_leaves(alloc, bump, cores, scopes, node.leaves, reading) {
                Ok(leaves) => match place(
                    bump,
                    Node {
                        row: node.row,
                        span: node.span,
                        leaves,
                    },
                ) {
                    Ok(placed) => Ok(Leaf::Node(placed)),
                    Err(_) => Err(no_memory()),
                },
                Err(refused) => Err(refused),
            }
        }
        Leaf::Nodes(nodes) => {
            match resolve_nodes(alloc, bump, cores, scopes, nodes, reading) {
                Ok(nodes) => Ok(Leaf::Nodes(nodes)),
                Err(refused) => Err(refused),
            }
        }
        Leaf::Core(core) => match check_core(cores, *core) {
            Ok(()) => Ok(*leaf),
            Err(refused) => Err(refused),
        },
        Leaf::Inline(_, _) | Leaf::Bundle(_, _) | Leaf::Scope(_) => unreachable!(),
        Leaf::Text(_) => Ok(*leaf),
        Leaf::Pieces(_) => Ok(*leaf),
        Leaf::Number(_) => Ok(*leaf),
        Leaf::Kind(_) => Ok(*leaf),
        Leaf::Absent => Ok(*leaf),
        Leaf::CaseId(_) => Ok(*leaf),
        Leaf::Results(_) => Ok(*leaf),
    }
}

/// Leaves, one after the other.
#[cycle(resolving)]
pub(crate) fn resolve_leaves<'t, 'a, M: CoreRule>(
    alloc: Global,
    bump: &'t Bump,
    cores: &[M],
    scopes: &[Open<'a>],
    leaves: &[Leaf<'t, 'a>],
    reading: &mut Reading<'a, '_>,
) -> Result<&'t [Leaf<'t, 'a>], Error>
    requires few { length scopes.now < 2 ^ 32 }
    requires indexed { OpenIndexed scopes.now }
    requires sized { length reading.old.counters ≡ 13 }
    requires ready { LeavesReady scopes.now (listed (map M.core_module cores.now) leaves.now) }
    requires kept { FoundFirst scopes.now (λ ms. all_found ms (listed (map M.core_module cores.now) leaves.now)) reading.old.denotations.left.now }
    requires room { LeavesInRoom scopes.now reading.old (listed (map M.core_module cores.now) leaves.now) }
    ensures { MatchResult result (λ new. LeavesRead M.encoding scopes.now reading.old reading.new (listed (map M.core_module cores.now) leaves.now) (listed (map M.core_module cores.now) new.now)) (Refused scopes.now (λ ms. missing M.encoding ms (listed (map M.core_module cores.now) leaves.now))) }
{
    let mut all = Vec::new(alloc);
    for leaf in leaves {
        match resolve_leaf(alloc, bump, cores, scopes, leaf, reading) {
            Ok(new) => match all.push(new) {
                Ok(()) => {}
                Err(_) => return Err(no_memory()),
            },
            Err(refused) => return Err(refused),
        }
    }
    match place_all(bump, &all) {
        Ok(placed) => Ok(placed),
        Err(_) => Err(no_memory()),
    }
}

/// Nodes, one after the other; those of one list with cases have ids that are pairwise different.
#[cycle(resolving)]
fn resolve_nodes<'t, 'a, M: CoreRule>(
    alloc: Global,
    bump: &'t Bump,
    cores: &[M],
    scopes: &[Open<'a>],
    nodes: &[Node<'t, 'a>],
    reading: &mut Reading<'a, '_>,
) -> Result<&'t [Node<'t, 'a>], Error>
    requires few { length scopes.now < 2 ^ 32 }
    requires indexed { OpenIndexed scopes.now }
    requires sized { length reading.old.counters ≡ 13 }
    requires ready { NodesReady scopes.now (nodes_listed (map M.core_module cores.now) nodes.now) }
    requires kept { FoundFirst scopes.now (λ ms. nodes_found ms (nodes_listed (map M.core_module cores.now) nodes.now)) reading.old.denotations.left.now }
    requires room { NodesInRoom scopes.now reading.old (nodes_listed (map M.core_module cores.now) nodes.now) }
    ensures { MatchResult result (λ new. NodesRead M.encoding scopes.now [] reading.old reading.new (nodes_listed (map M.core_module cores.now) nodes.now) (nodes_listed (map M.core_module cores.now) new.now)) (Refused scopes.now (λ ms. missing_nodes M.encoding ms [] (nodes_listed (map M.core_module cores.now) nodes.now))) }
{
    let mut all = Vec::new(alloc);
    let mut cases = no_cases(alloc);
    for node in nodes {
        match check_case(&cases, node.leaves) {
            Ok(()) => {}
            Err(refused) => return Err(refused),
        }
        match resolve_leaves(alloc, bump, cores, scopes, node.leaves, reading) {
            Ok(leaves) => match all.push(Node {
                row: node.row,
                span: node.span,
                leaves,
            }) {
                Ok(()) => {}
                Err(_) => return Err(no_memory()),
            },
            Err(refused) => return Err(refused),
        }
        match keep_case(&mut cases, node.leaves) {
            Ok(()) => {}
            Err(refused) => return Err(refused),
        }
    }
    match place_all(bump, &all) {
        Ok(placed) => Ok(placed),
        Err(_) => Err(no_memory()),
    }
}
