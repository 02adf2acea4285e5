//! What is made of all that a part left: nodes, entries, lists, optional parts and scopes.

ghost use Rattle.std.specs.Prelude.{◌≡◌, ◌≤◌, List, IfOk, map, length};
ghost use Rattle.comp_model.specs.CoreModules.{CoreModule, Field};
ghost use Rattle.comp_tree.specs.Model.{leaf_of};
ghost use Rattle.text_rules.specs.Rule.{an_entry, a_list, a_part, a_scope};
ghost use Rattle.text_rules.specs.Made.{Made, first_leaf, leaves_from};
ghost use Rattle.comp_model.specs.Model as m;
ghost use Rattle.comp_tree.specs.Lists.{def_of, node_of};
ghost use Rattle.tree_build.specs.Adds.{NodeTaken, MakesOf};
ghost use Rattle.tree_build.specs.Held.{loose};
ghost use Rattle.tree_build.specs.Making.{wraps_of, leaf_made};

use crate::scratch::Scratch;
use crate::take::{take_all, take_leaves, take_row};
use bumpalo::Bump;
use comp_model::{Row, ScopeKind, Space};
use comp_tree::{Def, Leaf, Node, Scope, place};
use comp_wire::Origin;
use std::alloc::AllocError;
use wast_parser::Span;

/// A node of a row and leaves, its first word there.
#[inline]
#[tactic(auto, using(crate::proofs::Views::leaves_listed))]
pub(crate) fn node_from<'t, 'a>(row: Row, span: Span, leaves: &'t [Leaf<'t, 'a>]) -> Node<'t, 'a>
    ensures { (cs : List CoreModule) → node_of cs result ≡ m.row row (leaves_from (map (leaf_of cs) leaves.entry.now)) }
{
    Node { row, span, leaves }
}

/// The node of the first row and the leaves behind two ends, its first word there.
#[inline]
fn take_node<'t, 'a>(
    scratch: &mut Scratch<'t, 'a>,
    span: Span,
    rows: usize,
    leaves: usize,
) -> Result<Node<'t, 'a>, AllocError>
    requires { leaves ≤ length scratch.old.leaves.items }
    ensures { NodeTaken rows leaves result scratch.old scratch.new }
{
    let row = take_row(&mut scratch.rows, rows);
    match take_leaves(
        scratch.bump,
        &mut scratch.cores,
        &mut scratch.leaves,
        leaves,
    ) {
        Ok(leaves) => Ok(node_from(row, span, leaves)),
        Err(AllocError) => Err(AllocError),
    }
}

/// What a node becomes as a leaf.
#[derive(Clone, Copy)]
pub enum Making {
    /// A node.
    Node,
    /// A reference in whose place a node stands.
    Inline(Space),
    /// A reference in whose place a list of exports stands.
    Bundle(Space),
}

/// A node as a leaf.
#[inline]
fn made_leaf<'t, 'a>(making: Making, node: &'t Node<'t, 'a>) -> Leaf<'t, 'a>
    ensures { (fs : List (List Field)) (cs : List CoreModule) → loose fs cs result ≡ leaf_made making (node_of cs node.entry.now) }
{
    match making {
        Making::Node => Leaf::Node(node),
        Making::Inline(space) => Leaf::Inline(space, node),
        Making::Bundle(space) => Leaf::Bundle(space, node),
    }
}

/// Makes a node of the first row and of all leaves behind two ends, whose first word stands there, and puts it in their place as a leaf of a
/// kind. Fails when memory runs out.
pub fn wrap_made(
    scratch: &mut Scratch<'_, '_>,
    making: Making,
    span: Span,
    rows: usize,
    leaves: usize,
) -> Result<(), AllocError>
    requires { leaves ≤ length scratch.old.leaves.items }
    ensures { MakesOf (wraps_of making) (λ a. (length a.rows ≡ rows) × (length a.leaves ≡ leaves)) result scratch.old scratch.new }
{
    match take_node(scratch, span, rows, leaves) {
        Ok(node) => match place(scratch.bump, node) {
            Ok(placed) => scratch.leaf(made_leaf(making, placed)),
            Err(AllocError) => Err(AllocError),
        },
        Err(AllocError) => Err(AllocError),
    }
}

/// Makes a node of the first row and of all leaves behind two ends, whose first word stands there, as an entry of a list. Fails when memory
/// runs out.
pub fn wrap_entry(
    scratch: &mut Scratch<'_, '_>,
    span: Span,
    rows: usize,
    leaves: usize,
) -> Result<(), AllocError>
    requires { leaves ≤ length scratch.old.leaves.items }
    ensures { MakesOf an_entry (λ a. (length a.rows ≡ rows) × (length a.leaves ≡ leaves)) result scratch.old scratch.new }
{
    match take_node(scratch, span, rows, leaves) {
        Ok(node) => match scratch.nodes.push(node) {
            Ok(()) => Ok(()),
            Err(_) => Err(AllocError),
        },
        Err(AllocError) => Err(AllocError),
    }
}

/// Makes a list of the entries behind an end, as a leaf. Fails when memory runs out.
pub fn wrap_list(scratch: &mut Scratch<'_, '_>, nodes: usize) -> Result<(), AllocError>
    requires { nodes ≤ length scratch.old.nodes.items }
    ensures { MakesOf a_list (λ a. length a.nodes ≡ nodes) result scratch.old scratch.new }
{
    match take_all(scratch.bump, &mut scratch.nodes, nodes) {
        Ok(nodes) => scratch.leaf(Leaf::Nodes(nodes)),
        Err(AllocError) => Err(AllocError),
    }
}

/// The first leaf, or in its place that of a part that is missing.
#[inline]
fn first_part<'t, 'a>(
    bump: &'t Bump,
    parts: &'t [Leaf<'t, 'a>],
) -> Result<&'t Leaf<'t, 'a>, AllocError>
    ensures { (cs : List CoreModule) → IfOk result (λ l. leaf_of cs l.now ≡ first_leaf (map (leaf_of cs) parts.entry.now)) }
{
    if parts.len() > 0 {
        Ok(&parts[0])
    } else {
        place(bump, Leaf::Absent)
    }
}

/// Makes an optional part that is there of the first leaf behind an end, or of a missing part if none stands there; other leaves go. Fails when
/// memory runs out.
pub fn wrap_part(scratch: &mut Scratch<'_, '_>, leaves: usize) -> Result<(), AllocError>
    requires { leaves ≤ length scratch.old.leaves.items }
    ensures { MakesOf a_part (λ a. length a.leaves ≡ leaves) result scratch.old scratch.new }
{
    match take_leaves(
        scratch.bump,
        &mut scratch.cores,
        &mut scratch.leaves,
        leaves,
    ) {
        Ok(parts) => match first_part(scratch.bump, parts) {
            Ok(part) => scratch.leaf(Leaf::Present(part)),
            Err(AllocError) => Err(AllocError),
        },
        Err(AllocError) => Err(AllocError),
    }
}

/// Says of the definitions behind an end which of their scope each is, from 0 on.
fn number_defs(defs: &mut Vec<Def<'_, '_>>, end: usize)
    requires { end ≤ length defs.old.items }
    ensures same { (cs : List CoreModule) → map (def_of cs) defs.new.items ≡ map (def_of cs) defs.old.items }
    ensures long { length defs.new.items ≡ length defs.old.items }
{
    let mut number: u32 = 0;
    for i in end..defs.len() {
        defs[i].origin = Origin::Written(number);
        number = number.wrapping_add(1);
    }
}

/// Makes a scope of a kind of the definitions behind an end, as a leaf, and numbers them from 0 on. It gets its id and its label when its own
/// definition is made. Fails when memory runs out.
pub fn wrap_scope(
    scratch: &mut Scratch<'_, '_>,
    kind: ScopeKind,
    defs: usize,
) -> Result<(), AllocError>
    requires { defs ≤ length scratch.old.defs.items }
    ensures { MakesOf (a_scope kind) (λ a. length a.defs ≡ defs) result scratch.old scratch.new }
{
    number_defs(&mut scratch.defs, defs);
    match take_all(scratch.bump, &mut scratch.defs, defs) {
        Ok(defs) => match place(
            scratch.bump,
            Scope {
                kind,
                id: None,
                label: None,
                defs,
            },
        ) {
            Ok(scope) => scratch.leaf(Leaf::Scope(scope)),
            Err(AllocError) => Err(AllocError),
        },
        Err(AllocError) => Err(AllocError),
    }
}
