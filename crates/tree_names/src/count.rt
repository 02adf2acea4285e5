//! What the references of a definition need, counted among open scopes.

ghost use Rattle.std.specs.Prelude.{◌≡◌, ◌<◌, ◌^◌, ◌∷◌, [], List, Option, length, option_map, MatchResult, OnOk, IfErr};
ghost use Rattle.comp_model.specs.CoreModules.{CoreModule};
ghost use Rattle.comp_scopes.specs.Names.{Denoted};
ghost use Rattle.comp_scopes.specs.Outward.{leads_out};
ghost use Rattle.comp_scopes.specs.Unmet.{unmet_kind};
ghost use Rattle.comp_expanded.specs.IsExpanded.{LeafExpanded, LeavesExpanded, NodesExpanded};
ghost use Rattle.comp_tables.specs.Tables.{Counters, past_name, found as found_among, unmet_kinds, unmet_kinds_leaf, unmet_kinds_nodes};
ghost use Rattle.comp_tree.specs.Lists.{listed, nodes_listed};
ghost use Rattle.comp_tree.specs.Model.{leaf_of, id_of, reach_of, index_of, path_of, root_of, core_value_of};
ghost use Rattle.comp_model.specs.Model as m;
ghost use Rattle.comp_walks.specs.Lent.{reach_of as lent_reach};
ghost use Rattle.open_scopes.specs.Refusals.{no_memory};
ghost use Rattle.open_scopes.specs.Shown.{found_of};
ghost use Rattle.tree_names.specs.AllFound.{name_found, root_found, all_found, leaf_found, nodes_found, FoundBehind};
ghost use Rattle.tree_names.specs.Counted.{Refused, SumsShow, Summed, NameCounted, LeafCounted, LeavesCounted, NodesCounted};
ghost use Rattle.tree_names.specs.Served.{name_served};
ghost use Rattle.tree_names.specs.Room.{CountersHaveRoom, SumsHaveRoom};
ghost use Rattle.comp_tables.specs.Bounds.{most_needs, most_needs_leaf, most_needs_nodes};

use crate::denotations::find_kept;
use crate::path::{count_steps, instance_space, path_allowed};
use crate::sums::Sums;
use comp_model::Space;
use comp_tree::{CoreValue, Leaf, Node, Reach};
use comp_walks::Reach as LentReach;
use open_scopes::{Found, Open, leads_out, unmet_kind};
use tree_walks::lend_reach;
use wast_parser::{Error, ErrorKind, Id, Index};

/// Passes a name with what was found for it: where it leads out, an alias serves it.
fn count_denoted(
    space: Space,
    reach: LentReach<'_>,
    denoted: Option<Found>,
    sums: &mut Sums,
) -> Result<(), Error>
    requires sized { length sums.old.counters ≡ 13 }
    requires room { CountersHaveRoom sums.old.counters 1 }
    ensures sized { OnOk result (length sums.new.counters ≡ 13) }
    ensures summed { OnOk result ((d : Option Denoted) (c : Counters) → denoted ≡ option_map found_of d → SumsShow sums.old c → Summed sums.old sums.new (past_name space (leads_out (lent_reach reach.entry) d) d c) (name_served space (leads_out (lent_reach reach.entry) d) d c)) }
    ensures refused { IfErr result (λ e. e ≡ no_memory) }
{
    if !leads_out(reach, denoted) {
        return Ok(());
    }
    match denoted {
        Some(found) => match sums.serve(space, found) {
            Ok(()) => Ok(()),
            Err(refused) => Err(refused),
        },
        None => Ok(()),
    }
}

/// Passes a name.
fn count_name<'a>(
    scopes: &[Open<'a>],
    space: Space,
    reach: Reach<'_, 'a>,
    id: Id<'a>,
    sums: &mut Sums,
    found: &mut Vec<Option<Found>>,
) -> Result<(), Error>
    requires few { length scopes.now < 2 ^ 32 }
    requires sized { length sums.old.counters ≡ 13 }
    requires room { CountersHaveRoom sums.old.counters 1 }
    ensures counted { MatchResult result (λ done. NameCounted scopes.now space (reach_of reach.entry) (id_of id.entry) sums.old sums.new) (Refused scopes.now (λ ms. unmet_kind (reach_of reach.entry) space (id_of id.entry) (found_among ms space (reach_of reach.entry) (id_of id.entry)))) }
    ensures kept { OnOk result (FoundBehind scopes.now (λ ms. name_found ms space (reach_of reach.entry) (id_of id.entry) ∷ []) found.old.items found.new.items) }
{
    let reach = lend_reach(reach);
    let denoted = find_kept(scopes, space, reach, id, found)?;
    match unmet_kind(reach, space, id, denoted) {
        Some(refused) => Err(refused),
        None => match count_denoted(space, reach, denoted, sums) {
            Ok(()) => Ok(()),
            Err(refused) => Err(refused),
        },
    }
}

/// Passes a reference by a name.
fn count_named<'a>(
    scopes: &[Open<'a>],
    space: Space,
    reach: Reach<'_, 'a>,
    id: Id<'a>,
    sums: &mut Sums,
    found: &mut Vec<Option<Found>>,
) -> Result<(), Error>
    requires few { length scopes.now < 2 ^ 32 }
    requires sized { length sums.old.counters ≡ 13 }
    requires room { CountersHaveRoom sums.old.counters 1 }
    ensures counted { MatchResult result (λ done. LeafCounted scopes.now sums.old sums.new (m.ref space (m.name (reach_of reach.entry) (id_of id.entry)))) (Refused scopes.now (λ ms. unmet_kinds_leaf ms (m.ref space (m.name (reach_of reach.entry) (id_of id.entry))))) }
    ensures kept { OnOk result (FoundBehind scopes.now (λ ms. leaf_found ms (m.ref space (m.name (reach_of reach.entry) (id_of id.entry)))) found.old.items found.new.items) }
{
    count_name(scopes, space, reach, id, sums, found)
}

/// Passes a reference by its index.
fn count_index<'a>(
    scopes: &[Open<'a>],
    space: Space,
    reach: Reach<'_, 'a>,
    index: Index<'a>,
    sums: &mut Sums,
    found: &mut Vec<Option<Found>>,
) -> Result<(), Error>
    requires few { length scopes.now < 2 ^ 32 }
    requires sized { length sums.old.counters ≡ 13 }
    requires room { CountersHaveRoom sums.old.counters (most_needs_leaf (m.ref space (index_of (reach_of reach) index))) }
    ensures counted { MatchResult result (λ done. LeafCounted scopes.now sums.old sums.new (m.ref space (index_of (reach_of reach.entry) index.entry))) (Refused scopes.now (λ ms. unmet_kinds_leaf ms (m.ref space (index_of (reach_of reach.entry) index.entry)))) }
    ensures kept { OnOk result (FoundBehind scopes.now (λ ms. leaf_found ms (m.ref space (index_of (reach_of reach.entry) index.entry))) found.old.items found.new.items) }
{
    match index {
        Index::Num(_, _) => Ok(()),
        Index::Id(id) => count_named(scopes, space, reach, id, sums, found),
    }
}

/// Looks up the root of a path, an item of a space, if it is a name. Want of memory is `NoMemory` at 0.
fn count_root<'a>(
    scopes: &[Open<'a>],
    space: Space,
    root: Index<'a>,
    found: &mut Vec<Option<Found>>,
) -> Result<(), Error>
    requires few { length scopes.now < 2 ^ 32 }
    ensures kept { OnOk result (FoundBehind scopes.now (λ ms. root_found ms space (root_of root.entry)) found.old.items found.new.items) }
    ensures refused { IfErr result (λ e. e ≡ no_memory) }
{
    match root {
        Index::Num(_, _) => Ok(()),
        Index::Id(id) => match find_kept(scopes, space, LentReach::Own, id, found) {
            Ok(_) => Ok(()),
            Err(refused) => Err(refused),
        },
    }
}

/// Passes a reference by a path.
fn count_path<'a>(
    scopes: &[Open<'a>],
    space: Space,
    root: Index<'a>,
    exports: &[&str],
    sums: &mut Sums,
    found: &mut Vec<Option<Found>>,
) -> Result<(), Error>
    requires few { length scopes.now < 2 ^ 32 }
    requires sized { length sums.old.counters ≡ 13 }
    requires room { CountersHaveRoom sums.old.counters (most_needs_leaf (m.ref space (path_of root exports.now))) }
    ensures counted { MatchResult result (λ done. LeafCounted scopes.now sums.old sums.new (m.ref space (path_of root.entry exports.now))) (Refused scopes.now (λ ms. unmet_kinds_leaf ms (m.ref space (path_of root.entry exports.now)))) }
    ensures kept { OnOk result (FoundBehind scopes.now (λ ms. leaf_found ms (m.ref space (path_of root.entry exports.now))) found.old.items found.new.items) }
{
    if exports.is_empty() {
        return count_index(scopes, space, Reach::Outward, root, sums, found);
    }
    if !path_allowed(space) {
        return Err(Error {
            kind: ErrorKind::CoreExportKind,
            offset: root.span().offset,
        });
    }
    count_root(scopes, instance_space(space), root, found)?;
    count_steps(space, root, exports, &mut sums.counters);
    Ok(())
}

/// Passes a core value type.
fn count_core_value<'a>(
    scopes: &[Open<'a>],
    value: CoreValue<'_, 'a>,
    sums: &mut Sums,
    found: &mut Vec<Option<Found>>,
) -> Result<(), Error>
    requires few { length scopes.now < 2 ^ 32 }
    requires sized { length sums.old.counters ≡ 13 }
    requires room { CountersHaveRoom sums.old.counters (most_needs_leaf (m.core_value (core_value_of value))) }
    ensures counted { MatchResult result (λ done. LeafCounted scopes.now sums.old sums.new (m.core_value (core_value_of value.entry))) (Refused scopes.now (λ ms. unmet_kinds_leaf ms (m.core_value (core_value_of value.entry)))) }
    ensures kept { OnOk result (FoundBehind scopes.now (λ ms. leaf_found ms (m.core_value (core_value_of value.entry))) found.old.items found.new.items) }
{
    match value {
        CoreValue::RefConcrete(_, concrete) => match concrete.index {
            Index::Num(_, _) => Ok(()),
            Index::Id(id) => {
                count_name(scopes, Space::CoreType, concrete.reach, id, sums, found)
            }
        },
        _ => Ok(()),
    }
}

/// Passes a leaf of a definition of an expanded list; a scope in it has references of its own alone.
#[cycle(counting)]
fn count_leaf<'a>(
    scopes: &[Open<'a>],
    leaf: &Leaf<'_, 'a>,
    sums: &mut Sums,
    found: &mut Vec<Option<Found>>,
) -> Result<(), Error>
    requires few { length scopes.now < 2 ^ 32 }
    requires sized { length sums.old.counters ≡ 13 }
    requires expanded { (C : List CoreModule) × LeafExpanded (leaf_of C leaf.now) }
    requires room { (C : List CoreModule) × SumsHaveRoom sums.old (most_needs_leaf (leaf_of C leaf.now)) }
    ensures counted { (C : List CoreModule) → MatchResult result (λ done. LeafCounted scopes.now sums.old sums.new (leaf_of C leaf.now)) (Refused scopes.now (λ ms. unmet_kinds_leaf ms (leaf_of C leaf.now))) }
    ensures kept { (C : List CoreModule) → OnOk result (FoundBehind scopes.now (λ ms. leaf_found ms (leaf_of C leaf.now)) found.old.items found.new.items) }
{
    match leaf {
        Leaf::CoreValue(value) => count_core_value(scopes, *value, sums, found),
        Leaf::Name(space, reach, id) => { count_named(scopes, *space, **reach, **id, sums, found) }
        Leaf::Path(space, path) => {
            count_path(scopes, *space, path.root, path.exports, sums, found)
        }
        Leaf::Present(part) => count_leaf(scopes, part, sums, found),
        Leaf::Node(node) => count_leaves(scopes, node.leaves, sums, found),
        Leaf::Nodes(nodes) => count_nodes(scopes, nodes, sums, found),
        Leaf::Inline(_, _) | Leaf::Bundle(_, _) => unreachable!(),
        Leaf::Text(_)
        | Leaf::Pieces(_)
        | Leaf::Number(_)
        | Leaf::Kind(_)
        | Leaf::Numeral(_, _, _)
        | Leaf::Place(_)
        | Leaf::Absent
        | Leaf::CaseId(_)
        | Leaf::Results(_)
        | Leaf::Scope(_) => Ok(()),
        Leaf::Core(_) => Ok(()),
    }
}

/// Passes leaves of a definition of an expanded list, one after the other, for all of which there are indices below 2^32 - 1. Each name in them is looked up, and what it denotes goes behind
/// what was found so far. The aliases of a path are counted in their spaces, and so is the alias of a name that leads out, unless one of
/// the same item stands already and serves it too.
///
/// A name that leads out to an item of which there is no outer alias is `OuterKind`, at the name, and a path to a core type or a core
/// instance `CoreExportKind`, at its root; the first of these is the refusal. Otherwise want of memory is `NoMemory` at 0.
#[cycle(counting)]
pub fn count_leaves<'a>(
    scopes: &[Open<'a>],
    leaves: &[Leaf<'_, 'a>],
    sums: &mut Sums,
    found: &mut Vec<Option<Found>>,
) -> Result<(), Error>
    requires few { length scopes.now < 2 ^ 32 }
    requires sized { length sums.old.counters ≡ 13 }
    requires expanded { (C : List CoreModule) × LeavesExpanded (listed C leaves.now) }
    requires room { (C : List CoreModule) × SumsHaveRoom sums.old (most_needs (listed C leaves.now)) }
    ensures counted { (C : List CoreModule) → MatchResult result (λ done. LeavesCounted scopes.now sums.old sums.new (listed C leaves.now)) (Refused scopes.now (λ ms. unmet_kinds ms (listed C leaves.now))) }
    ensures kept { (C : List CoreModule) → OnOk result (FoundBehind scopes.now (λ ms. all_found ms (listed C leaves.now)) found.old.items found.new.items) }
{
    for leaf in leaves {
        match count_leaf(scopes, leaf, sums, found) {
            Ok(()) => {}
            Err(refused) => return Err(refused),
        }
    }
    Ok(())
}

/// Passes nodes, one after the other.
#[cycle(counting)]
fn count_nodes<'a>(
    scopes: &[Open<'a>],
    nodes: &[Node<'_, 'a>],
    sums: &mut Sums,
    found: &mut Vec<Option<Found>>,
) -> Result<(), Error>
    requires few { length scopes.now < 2 ^ 32 }
    requires sized { length sums.old.counters ≡ 13 }
    requires expanded { (C : List CoreModule) × NodesExpanded (nodes_listed C nodes.now) }
    requires room { (C : List CoreModule) × SumsHaveRoom sums.old (most_needs_nodes (nodes_listed C nodes.now)) }
    ensures counted { (C : List CoreModule) → MatchResult result (λ done. NodesCounted scopes.now sums.old sums.new (nodes_listed C nodes.now)) (Refused scopes.now (λ ms. unmet_kinds_nodes ms (nodes_listed C nodes.now))) }
    ensures kept { (C : List CoreModule) → OnOk result (FoundBehind scopes.now (λ ms. nodes_found ms (nodes_listed C nodes.now)) found.old.items found.new.items) }
{
    for node in nodes {
        match count_leaves(scopes, node.leaves, sums, found) {
            Ok(()) => {}
            Err(refused) => return Err(refused),
        }
    }
    Ok(())
}
