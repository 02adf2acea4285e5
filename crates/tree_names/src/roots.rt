//! The roots of the paths of a definition, which are looked at before its other references.

ghost use Rattle.std.specs.Prelude.{List, MatchResult};
ghost use Rattle.comp_model.specs.declared.Space.{Space as ModelSpace};
ghost use Rattle.comp_model.specs.Core.{Id as ModelId, Reach as ModelReach};
ghost use Rattle.comp_model.specs.CoreModules.{CoreModule};
ghost use Rattle.comp_model.specs.Model as m;
ghost use Rattle.comp_scopes.specs.References.{instance_space};
ghost use Rattle.comp_tables.specs.Built.{missing_root, missing_roots, missing_roots_leaf, missing_roots_nodes};
ghost use Rattle.comp_tree.specs.Lists.{listed, nodes_listed};
ghost use Rattle.comp_tree.specs.Model.{leaf_of, root_of, path_of, index_of, core_value_of};
ghost use Rattle.open_scopes.specs.declared.scopes.Open.{Open as OpenScope};
ghost use Rattle.tree_names.specs.AllFound.{root_found, all_found, leaf_found, nodes_found, FoundFirst, FoundTaken};
ghost use Rattle.tree_names.specs.Counted.{RefusedBy};
ghost use Rattle.tree_names.specs.Rooted.{RootsPassed};

use crate::denotations::Denotations;
use crate::name::refuse_name;
use crate::path::instance_space;
use comp_model::Space;
use comp_tree::{CoreValue, Leaf, Node};
use comp_walks::Reach;
use open_scopes::Open;
use wast_parser::{Error, Index};

/// Passes a name.
fn pass_name(denotations: &mut Denotations<'_>)
    ensures { (os : List OpenScope) (s : ModelSpace) (r : ModelReach) (x : ModelId) → FoundFirst os (λ ms. leaf_found ms (m.ref s (m.name r x))) denotations.old.left.now → FoundTaken os (λ ms. leaf_found ms (m.ref s (m.name r x))) denotations.old.left.now denotations.new.left.now }
{
    let _ = denotations.next();
}

/// Passes a reference by its index.
fn pass_index(index: Index<'_>, denotations: &mut Denotations<'_>)
    ensures { (os : List OpenScope) (s : ModelSpace) (r : ModelReach) → FoundFirst os (λ ms. leaf_found ms (m.ref s (index_of r index.entry))) denotations.old.left.now → FoundTaken os (λ ms. leaf_found ms (m.ref s (index_of r index.entry))) denotations.old.left.now denotations.new.left.now }
{
    match index {
        Index::Num(_, _) => {}
        Index::Id(_) => {
            let _ = denotations.next();
        }
    }
}

/// Passes a core value type.
fn pass_core_value(value: CoreValue<'_, '_>, denotations: &mut Denotations<'_>)
    ensures { (os : List OpenScope) → FoundFirst os (λ ms. leaf_found ms (m.core_value (core_value_of value.entry))) denotations.old.left.now → FoundTaken os (λ ms. leaf_found ms (m.core_value (core_value_of value.entry))) denotations.old.left.now denotations.new.left.now }
{
    match value {
        CoreValue::RefConcrete(_, concrete) => match concrete.index {
            Index::Num(_, _) => {}
            Index::Id(_) => {
                let _ = denotations.next();
            }
        },
        _ => {}
    }
}

/// The root of a path, an item of a space: a name that the innermost scope doesn't have is `Unknown`, at the name.
fn check_root<'a>(
    scopes: &[Open<'a>],
    space: Space,
    root: Index<'a>,
    denotations: &mut Denotations<'_>,
) -> Result<(), Error>
    ensures { FoundFirst scopes.now (λ ms. root_found ms space (root_of root.entry)) denotations.old.left.now → MatchResult result (λ done. RootsPassed scopes.now (λ ms. missing_root ms space (root_of root.entry)) (λ ms. root_found ms space (root_of root.entry)) denotations.old.left.now denotations.new.left.now) (RefusedBy scopes.now (λ ms. missing_root ms space (root_of root.entry))) }
{
    match root {
        Index::Num(_, _) => Ok(()),
        Index::Id(id) => match denotations.next() {
            Some(_) => Ok(()),
            None => Err(refuse_name(scopes, Reach::Own, id)),
        },
    }
}

/// The root of a reference by a path.
fn check_path<'a>(
    scopes: &[Open<'a>],
    space: Space,
    root: Index<'a>,
    exports: &[&str],
    denotations: &mut Denotations<'_>,
) -> Result<(), Error>
    ensures { FoundFirst scopes.now (λ ms. leaf_found ms (m.ref space (path_of root.entry exports.now))) denotations.old.left.now → MatchResult result (λ done. RootsPassed scopes.now (λ ms. missing_roots_leaf ms (m.ref space (path_of root.entry exports.now))) (λ ms. leaf_found ms (m.ref space (path_of root.entry exports.now))) denotations.old.left.now denotations.new.left.now) (RefusedBy scopes.now (λ ms. missing_roots_leaf ms (m.ref space (path_of root.entry exports.now)))) }
{
    if exports.len() < 1 {
        pass_index(root, denotations);
        return Ok(());
    }
    match check_root(scopes, instance_space(space), root, denotations) {
        Ok(()) => Ok(()),
        Err(refused) => Err(refused),
    }
}

/// The roots of the paths in a leaf: one that the innermost scope doesn't have is `Unknown`, at the name.
#[cycle(rooting)]
fn check_leaf<'a>(
    scopes: &[Open<'a>],
    leaf: &Leaf<'_, 'a>,
    denotations: &mut Denotations<'_>,
) -> Result<(), Error>
    ensures { (C : List CoreModule) → FoundFirst scopes.now (λ ms. leaf_found ms (leaf_of C leaf.now)) denotations.old.left.now → MatchResult result (λ done. RootsPassed scopes.now (λ ms. missing_roots_leaf ms (leaf_of C leaf.now)) (λ ms. leaf_found ms (leaf_of C leaf.now)) denotations.old.left.now denotations.new.left.now) (RefusedBy scopes.now (λ ms. missing_roots_leaf ms (leaf_of C leaf.now))) }
{
    match leaf {
        Leaf::CoreValue(value) => {
            pass_core_value(*value, denotations);
            Ok(())
        }
        Leaf::Numeral(_, _, _) => Ok(()),
        Leaf::Name(_, _, _) => {
            pass_name(denotations);
            Ok(())
        }
        Leaf::Path(space, path) => check_path(scopes, *space, path.root, path.exports, denotations),
        Leaf::Present(part) => check_leaf(scopes, part, denotations),
        Leaf::Node(node) => check_leaves(scopes, node.leaves, denotations),
        Leaf::Nodes(nodes) => check_nodes(scopes, nodes, denotations),
        Leaf::Core(_) => Ok(()),
        Leaf::Text(_)
        | Leaf::Pieces(_)
        | Leaf::Number(_)
        | Leaf::Kind(_)
        | Leaf::Place(_)
        | Leaf::Absent
        | Leaf::Inline(_, _)
        | Leaf::Bundle(_, _)
        | Leaf::CaseId(_)
        | Leaf::Results(_)
        | Leaf::Scope(_) => Ok(()),
    }
}

/// The roots of the paths in leaves; the first one that the innermost scope doesn't have is `Unknown`, at the name. What the names of the
/// leaves denote is taken.
#[cycle(rooting)]
pub fn check_leaves<'a>(
    scopes: &[Open<'a>],
    leaves: &[Leaf<'_, 'a>],
    denotations: &mut Denotations<'_>,
) -> Result<(), Error>
    ensures { (C : List CoreModule) → FoundFirst scopes.now (λ ms. all_found ms (listed C leaves.now)) denotations.old.left.now → MatchResult result (λ done. RootsPassed scopes.now (λ ms. missing_roots ms (listed C leaves.now)) (λ ms. all_found ms (listed C leaves.now)) denotations.old.left.now denotations.new.left.now) (RefusedBy scopes.now (λ ms. missing_roots ms (listed C leaves.now))) }
{
    for leaf in leaves {
        match check_leaf(scopes, leaf, denotations) {
            Ok(()) => {}
            Err(refused) => return Err(refused),
        }
    }
    Ok(())
}

/// The roots of the paths in nodes.
#[cycle(rooting)]
fn check_nodes<'a>(
    scopes: &[Open<'a>],
    nodes: &[Node<'_, 'a>],
    denotations: &mut Denotations<'_>,
) -> Result<(), Error>
    ensures { (C : List CoreModule) → FoundFirst scopes.now (λ ms. nodes_found ms (nodes_listed C nodes.now)) denotations.old.left.now → MatchResult result (λ done. RootsPassed scopes.now (λ ms. missing_roots_nodes ms (nodes_listed C nodes.now)) (λ ms. nodes_found ms (nodes_listed C nodes.now)) denotations.old.left.now denotations.new.left.now) (RefusedBy scopes.now (λ ms. missing_roots_nodes ms (nodes_listed C nodes.now))) }
{
    for node in nodes {
        match check_leaves(scopes, node.leaves, denotations) {
            Ok(()) => {}
            Err(refused) => return Err(refused),
        }
    }
    Ok(())
}
