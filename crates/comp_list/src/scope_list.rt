//! The walk that lists the references of a component.

ghost use Rattle.std.specs.Prelude.{◌≡◌, ◌<◌, ◌≤◌, ◌^◌, ◌++◌, ◌+◌, length, OnOk, IfOk};
ghost use Rattle.wire_tree.specs.Lists.{listed, node_of, nodes_listed, defs_listed};
ghost use Rattle.wire_tree.specs.Model.{leaf_of, scope_of};
ghost use Rattle.comp_list.specs.References.{references, outer_count};
ghost use Rattle.comp_list.specs.Open.{scopes_of, AllFound};
ghost use Rattle.comp_list.specs.Listing.{lines_of, def_lines, leaf_lines, leaves_lines, nodes_lines, defs_lines, scope_lines, listing};
ghost use Rattle.comp_list.specs.Room.{NumbersFit, RowFits, LeafFits, LeavesFit, NodesFit, ScopeFits, DefsFit, NumbersHaveRoom};

use crate::line::Line;
use crate::lines::{Stand, push_lines};
use crate::open::{Around, Open, OpenDefs};
use crate::reference::{outer_count, references_of};
use crate::spots::spots_of;
use std::alloc::{AllocError, Global};
use wire_tree::{Leaf, Node, Scope};

/// Puts the lines of a definition's own references behind others.
fn push_own(
    alloc: Global,
    lines: &mut Vec<Line>,
    around: Around<'_, '_, '_>,
    level: u32,
    def: u32,
    node: &Node<'_, '_>,
) -> Result<(), AllocError>
    requires few { length (references (listed node.now.leaves.now)) < 2 ^ 32 }
    requires depth { length (scopes_of around) < 2 ^ 32 }
    ensures { AllFound around.entry → OnOk result (lines.new.items ≡ lines.old.items ++ lines_of level (scopes_of around.entry) def (outer_count node.now.row (listed node.now.leaves.now)) 0 (references (listed node.now.leaves.now))) }
{
    let references = references_of(alloc, node.leaves)?;
    let stand = Stand {
        level,
        def,
        up: outer_count(node),
    };
    push_lines(lines, around, stand, references.as_slice())
}

/// Puts the lines of the scopes in a leaf behind others.
#[cycle(listing)]
fn push_leaf<'t, 'a>(
    alloc: Global,
    lines: &mut Vec<Line>,
    around: Around<'_, 't, 'a>,
    level: u32,
    leaf: &'t Leaf<'t, 'a>,
) -> Result<(), AllocError>
    requires room { LeafFits (leaf_of leaf.now) level }
    requires depth { length (scopes_of around) ≤ level }
    ensures { AllFound around.entry → OnOk result (lines.new.items ≡ lines.old.items ++ leaf_lines (leaf_of leaf.now) level (scopes_of around.entry)) }
{
    match leaf {
        Leaf::Scope(scope) => push_scope(alloc, lines, around, level, scope),
        Leaf::Present(part) => push_leaf(alloc, lines, around, level, part),
        Leaf::Node(node) => push_leaves(alloc, lines, around, level, node.leaves),
        Leaf::Nodes(nodes) => push_nodes(alloc, lines, around, level, nodes),
        Leaf::Index(_, _) => Ok(()),
        Leaf::CoreValue(_) => Ok(()),
        Leaf::Text(_) => Ok(()),
        Leaf::Number(_) => Ok(()),
        Leaf::Kind(_) => Ok(()),
        Leaf::Outward(_) => Ok(()),
        Leaf::Absent => Ok(()),
        Leaf::NoId => Ok(()),
        Leaf::Results(_) => Ok(()),
        Leaf::Module(_) => Ok(()),
    }
}

/// Puts the lines of the scopes in leaves behind others.
#[cycle(listing)]
fn push_leaves<'t, 'a>(
    alloc: Global,
    lines: &mut Vec<Line>,
    around: Around<'_, 't, 'a>,
    level: u32,
    leaves: &'t [Leaf<'t, 'a>],
) -> Result<(), AllocError>
    requires room { LeavesFit (listed leaves.now) level }
    requires depth { length (scopes_of around) ≤ level }
    ensures { AllFound around.entry → OnOk result (lines.new.items ≡ lines.old.items ++ leaves_lines (listed leaves.now) level (scopes_of around.entry)) }
{
    for leaf in leaves {
        push_leaf(alloc, lines, around, level, leaf)?;
    }
    Ok(())
}

/// Puts the lines of the scopes in nodes behind others.
#[cycle(listing)]
fn push_nodes<'t, 'a>(
    alloc: Global,
    lines: &mut Vec<Line>,
    around: Around<'_, 't, 'a>,
    level: u32,
    nodes: &'t [Node<'t, 'a>],
) -> Result<(), AllocError>
    requires room { NodesFit (nodes_listed nodes.now) level }
    requires depth { length (scopes_of around) ≤ level }
    ensures { AllFound around.entry → OnOk result (lines.new.items ≡ lines.old.items ++ nodes_lines (nodes_listed nodes.now) level (scopes_of around.entry)) }
{
    for node in nodes {
        push_leaves(alloc, lines, around, level, node.leaves)?;
    }
    Ok(())
}

/// Puts the lines of a definition behind others: those of its own references, then those of the scope that it holds.
#[cycle(listing)]
fn push_def<'t, 'a>(
    alloc: Global,
    lines: &mut Vec<Line>,
    around: Around<'_, 't, 'a>,
    level: u32,
    def: u32,
    node: &'t Node<'t, 'a>,
) -> Result<(), AllocError>
    requires room { NumbersFit (node_of node.now) level def × RowFits (node_of node.now) (level + 1) }
    requires depth { length (scopes_of around) ≤ level + 1 }
    ensures { AllFound around.entry → OnOk result (lines.new.items ≡ lines.old.items ++ def_lines level (scopes_of around.entry) def node.now.row (listed node.now.leaves.now)) }
{
    push_own(alloc, lines, around, level, def, node)?;
    push_leaves(alloc, lines, around, level + 1, node.leaves)
}

/// Puts the lines of definitions, the first of which has number 0, behind others.
#[cycle(listing)]
fn push_defs<'t, 'a>(
    alloc: Global,
    lines: &mut Vec<Line>,
    around: Around<'_, 't, 'a>,
    level: u32,
    defs: &'t [Node<'t, 'a>],
) -> Result<(), AllocError>
    requires room { DefsFit (defs_listed defs.now) level 0 }
    requires depth { length (scopes_of around) ≤ level + 1 }
    ensures { AllFound around.entry → OnOk result (lines.new.items ≡ lines.old.items ++ defs_lines (defs_listed defs.now) level (scopes_of around.entry) 0) }
{
    let mut def = 0;
    for node in defs {
        push_def(alloc, lines, around, level, def, node)?;
        def += 1;
    }
    Ok(())
}

/// Puts the lines of a scope in others behind lines.
#[cycle(listing)]
fn push_scope<'t, 'a>(
    alloc: Global,
    lines: &mut Vec<Line>,
    around: Around<'_, 't, 'a>,
    level: u32,
    scope: &'t Scope<'t, 'a>,
) -> Result<(), AllocError>
    requires room { ScopeFits (scope_of scope.now) level }
    requires depth { length (scopes_of around) ≤ level }
    ensures { AllFound around.entry → OnOk result (lines.new.items ≡ lines.old.items ++ scope_lines (scope_of scope.now) level (scopes_of around.entry)) }
{
    let spots = spots_of(alloc, scope.defs)?;
    let open = Open {
        spots: &spots,
        defs: OpenDefs::Rows(scope.defs),
        outer: around,
    };
    push_defs(alloc, lines, Around::Scope(&open), level, scope.defs)
}

/// The references of a component and of the scopes in it, a line each: definition by definition, those of its own in the order of its
/// leaves, then those of the scope that it holds.
///
/// The scope is that of a component that bytes are read as (`read_tree` of `wire_read`), or any other the numbers of whose lines have room in
/// 32 bits (`numbers_have_room`). It is refused where memory ran out.
pub fn list_scope(alloc: Global, scope: &Scope<'_, '_>) -> Result<Vec<Line>, AllocError>
    requires room { NumbersHaveRoom (scope_of scope.now) }
    ensures { IfOk result (λ v. v.items ≡ listing (scope_of scope.now)) }
{
    let mut lines = Vec::new(alloc);
    push_scope(alloc, &mut lines, Around::Nothing, 0, scope)?;
    Ok(lines)
}
