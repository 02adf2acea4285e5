//! The walk over the leaves of definitions, and the scopes in them.

ghost use Rattle.std.specs.Prelude.{◌≡◌, List, IfOk, false, option_map};
ghost use Rattle.comp_model.specs.CoreModules.{CoreModule};
ghost use Rattle.comp_model.specs.Model as m;
ghost use Rattle.comp_tree.specs.Model.{id_of, leaf_of, scope_of, names_at};
ghost use Rattle.comp_tree.specs.Lists.{listed, node_of, nodes_listed};
ghost use Rattle.comp_tree.specs.Marks.{inside_of, inside_listed, nodes_inside, marks_of};
ghost use Rattle.comp_tree.specs.Entries.{entries_of};
ghost use Rattle.tree_expand.specs.Known.{Shows};
ghost use Rattle.tree_expand.specs.Passed.{Noted};
ghost use Rattle.tree_expand.specs.Walked.{state_of, LeafWalked, LeavesWalked, NodesWalked, InlineWalked, BundleWalked, scope_state, built_state, number_here, DefWalked, ScopeWalked};

use crate::ended::finish_def;
use crate::exports::push_exports;
use crate::inline::{name_bundle, name_inline};
use crate::inlines::scope_inlines;
use crate::key::{begun, push_leaf};
use crate::known::{Known, push_part, push_type};
use crate::names::{first_id_of, given_names_of};
use crate::parts::{
    Built, Own, Parts, all_walked, enter, finish, pass_core_value, pass_left, pass_place,
    push_walked,
};
use crate::places::Places;
use crate::position::Position;
use crate::stays::scope_stays;
use bumpalo::Bump;
use comp_model::Space;
use comp_tree::{Def, Leaf, Node, Scope, place};
use std::alloc::{AllocError, Global};
use std::mem;
use type_keys::KeyPart;
use wast_parser::{Gensym, Id};

/// What a leaf becomes, and whether it has changed.
#[cycle(walk)]
fn walk_leaf<'t, 'a>(
    alloc: Global,
    bump: &'t Bump,
    leaf: Leaf<'t, 'a>,
    at: &Position<'t, 'a>,
    parts: &mut Parts<'t, 'a>,
    gensym: &mut Gensym,
) -> Result<(bool, Leaf<'t, 'a>), AllocError>
    ensures walked { (cores : List CoreModule) → IfOk result (λ r. LeafWalked cores at.now (leaf_of cores leaf.entry) (leaf_of cores r.1) (inside_of cores r.1) (state_of cores parts.old gensym.old) (state_of cores parts.new gensym.new)) }
    ensures same { IfOk result (λ r. r.0 ≡ false → r.1 ≡ leaf.entry) }
{
    push_leaf(&mut parts.own.key, &leaf)?;
    match leaf {
        Leaf::CoreValue(value) => {
            pass_core_value(alloc, value, &mut parts.reference, &mut parts.own.places)?;
            Ok((false, leaf))
        }
        Leaf::Numeral(_, _, _) => {
            pass_left(alloc, &mut parts.reference, &mut parts.own.places)?;
            Ok((false, leaf))
        }
        Leaf::Name(_, _, _) => {
            pass_left(alloc, &mut parts.reference, &mut parts.own.places)?;
            Ok((false, leaf))
        }
        Leaf::Path(_, _) => {
            pass_left(alloc, &mut parts.reference, &mut parts.own.places)?;
            Ok((false, leaf))
        }
        Leaf::Present(inner) => {
            let (changed, inner) = walk_leaf(alloc, bump, *inner, at, parts, gensym)?;
            if changed {
                let placed = place(bump, inner)?;
                Ok((true, Leaf::Present(placed)))
            } else {
                Ok((false, leaf))
            }
        }
        Leaf::Node(node) => {
            let (changed, leaves) = walk_leaves(alloc, bump, node.leaves, at, parts, gensym)?;
            if changed {
                let row = node.row;
                let span = node.span;
                let placed = place(bump, Node { row, span, leaves })?;
                Ok((true, Leaf::Node(placed)))
            } else {
                Ok((false, leaf))
            }
        }
        Leaf::Nodes(nodes) => {
            let (changed, nodes) = walk_nodes(alloc, bump, nodes, at, parts, gensym)?;
            push_part(&mut parts.own.key, KeyPart::End)?;
            if changed {
                Ok((true, Leaf::Nodes(nodes)))
            } else {
                Ok((false, leaf))
            }
        }
        Leaf::Inline(space, node) => {
            let leaf = walk_inline(alloc, bump, space, node, at, parts, gensym)?;
            Ok((true, leaf))
        }
        Leaf::Bundle(space, node) => {
            let leaf = walk_bundle(alloc, bump, space, node, at, parts, gensym)?;
            Ok((true, leaf))
        }
        Leaf::Scope(scope) => {
            let scope = walk_scope(alloc, bump, scope, gensym)?;
            let placed = place(bump, scope)?;
            Ok((true, Leaf::Scope(placed)))
        }
        Leaf::Text(_) => Ok((false, leaf)),
        Leaf::Pieces(_) => Ok((false, leaf)),
        Leaf::Number(_) => Ok((false, leaf)),
        Leaf::Kind(_) => Ok((false, leaf)),
        Leaf::Place(_) => Ok((false, leaf)),
        Leaf::Absent => Ok((false, leaf)),
        Leaf::CaseId(_) => Ok((false, leaf)),
        Leaf::Results(_) => Ok((false, leaf)),
        Leaf::Core(_) => Ok((false, leaf)),
    }
}

/// What leaves become, and whether any has changed.
#[cycle(walk)]
fn walk_leaves<'t, 'a>(
    alloc: Global,
    bump: &'t Bump,
    leaves: &'t [Leaf<'t, 'a>],
    at: &Position<'t, 'a>,
    parts: &mut Parts<'t, 'a>,
    gensym: &mut Gensym,
) -> Result<(bool, &'t [Leaf<'t, 'a>]), AllocError>
    ensures walked { (cores : List CoreModule) → IfOk result (λ r. LeavesWalked cores at.now (listed cores leaves.now) (listed cores r.1.now) (inside_listed cores r.1.now) (state_of cores parts.old gensym.old) (state_of cores parts.new gensym.new)) }
    ensures same { IfOk result (λ r. r.0 ≡ false → r.1.now ≡ leaves.now) }
{
    let mut walked = Vec::new(alloc);
    let mut changed = false;
    for (i, leaf) in leaves.iter().enumerate() {
        let (now, new) = walk_leaf(alloc, bump, *leaf, at, parts, gensym)?;
        changed = push_walked(&mut walked, changed, leaves, i, now, new)?;
    }
    all_walked(bump, changed, &walked, leaves)
}

/// What the entries of a list become, and whether any has changed.
#[cycle(walk)]
fn walk_nodes<'t, 'a>(
    alloc: Global,
    bump: &'t Bump,
    nodes: &'t [Node<'t, 'a>],
    at: &Position<'t, 'a>,
    parts: &mut Parts<'t, 'a>,
    gensym: &mut Gensym,
) -> Result<(bool, &'t [Node<'t, 'a>]), AllocError>
    ensures walked { (cores : List CoreModule) → IfOk result (λ r. NodesWalked cores at.now (nodes_listed cores nodes.now) (nodes_listed cores r.1.now) (nodes_inside cores r.1.now) (state_of cores parts.old gensym.old) (state_of cores parts.new gensym.new)) }
    ensures same { IfOk result (λ r. r.0 ≡ false → r.1.now ≡ nodes.now) }
{
    let mut walked = Vec::new(alloc);
    let mut changed = false;
    for (i, node) in nodes.iter().enumerate() {
        let row = node.row;
        push_part(&mut parts.own.key, KeyPart::Row(row.number()))?;
        let (now, leaves) = walk_leaves(alloc, bump, node.leaves, at, parts, gensym)?;
        push_part(&mut parts.own.key, KeyPart::End)?;
        let span = node.span;
        changed = push_walked(
            &mut walked,
            changed,
            nodes,
            i,
            now,
            Node { row, span, leaves },
        )?;
    }
    all_walked(bump, changed, &walked, nodes)
}

/// What an inline node becomes: the name of the definition that it reuses, or a definition behind those inside it, and its name. The key of
/// the node around it has its space already.
#[cycle(walk)]
fn walk_inline<'t, 'a>(
    alloc: Global,
    bump: &'t Bump,
    space: Space,
    node: &'t Node<'t, 'a>,
    at: &Position<'t, 'a>,
    parts: &mut Parts<'t, 'a>,
    gensym: &mut Gensym,
) -> Result<Leaf<'t, 'a>, AllocError>
    ensures { (cores : List CoreModule) → IfOk result (λ r. InlineWalked cores at.now space node.now.row (listed cores node.now.leaves.now) (leaf_of cores r) (inside_of cores r) (state_of cores parts.old gensym.old) (state_of cores parts.new gensym.new)) }
{
    let reach = at.generated_reach();
    let number = pass_place(alloc, &mut parts.reference, &mut parts.own.places)?;
    match at.reuse(alloc, node.row, node.leaves, &mut parts.reference)? {
        Some(id) => {
            push_type(&mut parts.own.key, None)?;
            let name = place(bump, id)?;
            Ok(Leaf::Name(space, reach, name))
        }
        None => {
            let key = begun(alloc, node.row, true)?;
            let outer = enter(alloc, &mut parts.own, key);
            let (_, leaves) = walk_leaves(alloc, bump, node.leaves, at, parts, gensym)?;
            let mut inner = mem::replace(&mut parts.own, outer);
            let name = name_inline(
                bump,
                at.definition(),
                number,
                node,
                leaves,
                &mut inner,
                parts,
                gensym,
            )?;
            Ok(Leaf::Name(space, reach, name))
        }
    }
}

/// What a bundle becomes: a definition behind those for inline nodes, and its name. The key of the node around it is given up already.
#[cycle(walk)]
fn walk_bundle<'t, 'a>(
    alloc: Global,
    bump: &'t Bump,
    space: Space,
    node: &'t Node<'t, 'a>,
    at: &Position<'t, 'a>,
    parts: &mut Parts<'t, 'a>,
    gensym: &mut Gensym,
) -> Result<Leaf<'t, 'a>, AllocError>
    ensures { (cores : List CoreModule) → IfOk result (λ r. BundleWalked cores at.now space node.now.row (listed cores node.now.leaves.now) (leaf_of cores r) (inside_of cores r) (state_of cores parts.old gensym.old) (state_of cores parts.new gensym.new)) }
{
    let reach = at.generated_reach();
    let number = pass_place(alloc, &mut parts.reference, &mut parts.own.places)?;
    let outer = enter(alloc, &mut parts.own, None);
    let (_, leaves) = walk_leaves(alloc, bump, node.leaves, at, parts, gensym)?;
    let inner = mem::replace(&mut parts.own, outer);
    let name = name_bundle(
        bump,
        at.definition(),
        number,
        node,
        leaves,
        &inner,
        &mut parts.own.bundles,
        gensym,
    )?;
    Ok(Leaf::Name(space, reach, name))
}

/// What a definition becomes, behind those of its scope so far, and the id of its first part.
#[cycle(walk)]
fn walk_def<'t, 'a>(
    alloc: Global,
    bump: &'t Bump,
    def: &'t Def<'t, 'a>,
    at: &Position<'t, 'a>,
    built: &mut Built<'t, 'a>,
    gensym: &mut Gensym,
) -> Result<Option<Id<'a>>, AllocError>
    ensures { (cores : List CoreModule) (xs : List Noted) → Shows built.old.known xs → IfOk result (λ id. DefWalked xs (number_here (scope_of cores at.now.scope) at.now.inlines (names_at def.now.span.offset def.now.names.now) def.now.node.row (listed cores def.now.node.leaves.now) (scope_state cores built.old at.now gensym.old) xs) (scope_state cores built.old at.now gensym.old) (built_state cores built.new (option_map id_of id) gensym.new)) }
{
    let names = given_names_of(alloc, bump, at.kind(), at.inlines(), def, gensym)?;
    let key = begun(alloc, def.node.row, at.inlines())?;
    let known = mem::replace(&mut built.known, Known::new(alloc));
    let mut parts = Parts {
        inlined: Vec::new(alloc),
        own: Own {
            bundles: Vec::new(alloc),
            places: Places::new(alloc),
            key,
        },
        reference: 0,
        known,
    };
    let (_, leaves) = walk_leaves(alloc, bump, def.node.leaves, at, &mut parts, gensym)?;
    finish_def(
        bump,
        &mut built.defs,
        &mut parts,
        at.definition(),
        at.inlines(),
        def,
        names,
        leaves,
    )?;
    mem::swap(&mut built.known, &mut parts.known);
    let id = first_id_of(names.ids);
    push_exports(alloc, bump, &mut built.exports, id, at.definition(), def)?;
    Ok(id)
}

/// What a scope becomes: itself, where nothing in it becomes a definition of its own.
#[cycle(walk)]
pub(crate) fn walk_scope<'t, 'a>(
    alloc: Global,
    bump: &'t Bump,
    scope: &'t Scope<'t, 'a>,
    gensym: &mut Gensym,
) -> Result<Scope<'t, 'a>, AllocError>
    ensures { (cores : List CoreModule) → IfOk result (λ r. ScopeWalked (scope_of cores scope.now) (scope_of cores r) (marks_of cores r) gensym.old.made gensym.new.made) }
{
    if scope_stays(scope) {
        return Ok(*scope);
    }
    let mut at = Position::new(alloc, *scope, scope_inlines(scope));
    let mut built = Built {
        defs: Vec::new(alloc),
        exports: Vec::new(alloc),
        known: Known::new(alloc),
    };
    for def in scope.defs {
        let id = walk_def(alloc, bump, def, &at, &mut built, gensym)?;
        at.pass(alloc, id)?;
    }
    let defs = finish(bump, built)?;
    Ok(Scope {
        kind: scope.kind,
        id: scope.id,
        label: scope.label,
        defs,
    })
}
