//! Generated aliases, as definitions of a list.

ghost use Rattle.std.specs.Prelude.{◌≡◌, List, IfOk};
ghost use Rattle.comp_model.specs.CoreModules.{CoreModule};
ghost use Rattle.comp_model.specs.Model.{no_names};
ghost use Rattle.comp_model.specs.Origins.{outer_alias_of, export_step};
ghost use Rattle.comp_scopes.specs.Encoding.{Encoding};
ghost use Rattle.comp_scopes.specs.Form.{make, alias_node, step_node, step_tag};
ghost use Rattle.comp_expanded.specs.IsResolved.{LeavesResolved};
ghost use Rattle.comp_tree.specs.Lists.{listed};
ghost use Rattle.wast_parser.specs.declared.index.Index.TheVariants.{Num};
ghost use Rattle.tree_names.specs.Generated.{generated_made};
ghost use Rattle.tree_resolve.specs.Made.{made_of, own_names, number_in};

use crate::marks::number_in;
use bumpalo::Bump;
use comp_model::{Row, Space};
use comp_tree::{Def, Leaf, Node, Place, no_names, place, place_all};
use comp_wire::Origin;
use std::alloc::AllocError;
use tree_names::{Generated, instance_space};
use wast_parser::{Index, Span};

/// The row of the alias of an export, an item of a space.
fn step_row(space: Space) -> Row
    ensures { result ≡ step_tag space }
{
    match space {
        Space::CoreFunc
        | Space::CoreTable
        | Space::CoreMemory
        | Space::CoreGlobal
        | Space::CoreTag
        | Space::CoreType
        | Space::CoreInstance => Row::AliasCoreExport,
        Space::CoreModule
        | Space::Func
        | Space::Value
        | Space::Ty
        | Space::Component
        | Space::Instance => Row::AliasExport,
    }
}

/// The first part of an alias so many scopes outward, in the arena. The list says how long its parts live.
fn outer_place<'t, 'a>(
    bump: &'t Bump,
    _list: &[Def<'t, 'a>],
    depth: u32,
) -> Result<&'t Place<'a>, AllocError>
    ensures { IfOk result (λ p. p.now ≡ record { alias = record { offset = 0 }; scope = Num depth (record { offset = 0 }) }) }
{
    let span = Span { offset: 0 };
    place(
        bump,
        Place {
            alias: span,
            scope: Index::Num(depth, span),
        },
    )
}

/// The alias of an item of an enclosing scope: how many scopes outward, its space, its index there. The list that it will stand in says how
/// long its parts live. An `Err` is want of memory.
fn outer_def<'t, 'a>(
    bump: &'t Bump,
    list: &[Def<'t, 'a>],
    definition: u32,
    depth: u32,
    space: Space,
    index: u32,
    reference: u32,
) -> Result<Def<'t, 'a>, AllocError>
    ensures made { IfOk result (λ d. (C : List CoreModule) (e : Encoding) → made_of e C d ≡ make (outer_alias_of definition reference) (alias_node depth space index)) }
    ensures resolved { IfOk result (λ d. (C : List CoreModule) → LeavesResolved (listed C d.node.leaves.now)) }
    ensures nameless { IfOk result (λ d. own_names d ≡ no_names) }
{
    let span = Span { offset: 0 };
    let scope = outer_place(bump, list, depth)?;
    let leaves = place_all(
        bump,
        &[
            Leaf::Place(scope),
            Leaf::Numeral(space, index, span),
            Leaf::Kind(space),
        ],
    )?;
    Ok(Def {
        origin: Origin::OuterAlias {
            def: definition,
            place: reference,
        },
        places: &[],
        span,
        names: no_names(),
        node: Node {
            row: Row::AliasOuter,
            span,
            leaves,
        },
    })
}

/// The alias of an export of the instance of an index: its space, its name, and which step of the path of which reference it is. An `Err`
/// is want of memory.
fn step_def<'t, 'a>(
    bump: &'t Bump,
    definition: u32,
    space: Space,
    index: u32,
    name: &'a str,
    reference: u32,
    step: u32,
) -> Result<Def<'t, 'a>, AllocError>
    ensures made { IfOk result (λ d. (C : List CoreModule) (e : Encoding) → made_of e C d ≡ make (export_step definition reference step) (step_node index name.entry.now space)) }
    ensures resolved { IfOk result (λ d. (C : List CoreModule) → LeavesResolved (listed C d.node.leaves.now)) }
    ensures nameless { IfOk result (λ d. own_names d ≡ no_names) }
{
    let span = Span { offset: 0 };
    let leaves = place_all(
        bump,
        &[
            Leaf::Numeral(instance_space(space), index, span),
            Leaf::Text(name),
            Leaf::Kind(space),
        ],
    )?;
    Ok(Def {
        origin: Origin::ExportStep {
            def: definition,
            place: reference,
            step,
        },
        places: &[],
        span,
        names: no_names(),
        node: Node {
            row: step_row(space),
            span,
            leaves,
        },
    })
}

/// The definition of a generated alias before a definition of the text, whose references have these numbers there; it has no name, and will
/// stand in that list. An `Err` is want of memory.
pub(crate) fn alias_def<'t, 'a>(
    bump: &'t Bump,
    list: &[Def<'t, 'a>],
    definition: u32,
    places: &[u32],
    alias: Generated<'a>,
) -> Result<Def<'t, 'a>, AllocError>
    ensures made { IfOk result (λ d. (C : List CoreModule) (e : Encoding) → made_of e C d ≡ generated_made (number_in places.now) definition alias.entry) }
    ensures resolved { IfOk result (λ d. (C : List CoreModule) → LeavesResolved (listed C d.node.leaves.now)) }
    ensures nameless { IfOk result (λ d. own_names d ≡ no_names) }
{
    match alias {
        Generated::Outer {
            depth,
            space,
            index,
            place,
        } => {
            let number = number_in(places, place);
            outer_def(bump, list, definition, depth, space, index, number)
        }
        Generated::Step {
            space,
            index,
            name,
            place,
            step,
        } => {
            let number = number_in(places, place);
            step_def(bump, definition, space, index, name, number, step)
        }
    }
}
