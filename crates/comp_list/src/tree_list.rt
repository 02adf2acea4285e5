//! The walk that lists the references of a tree.

ghost use Rattle.std.specs.Prelude.{◌≡◌, ◌<◌, ◌≤◌, ◌^◌, ◌++◌, ◌∷◌, ◌+◌, List, length, OnOk, IfOk};
ghost use Rattle.item_tree.specs.Model.{item_row, core_type_row, type_row, component_of, defs_listed};
ghost use Rattle.comp_list.specs.Alias.{row_outer};
ghost use Rattle.comp_list.specs.Places.{row_references};
ghost use Rattle.comp_list.specs.Open.{scopes_of, AllFound};
ghost use Rattle.comp_list.specs.Listing.{lines_of, defs_lines, listing};
ghost use Rattle.comp_list.specs.Held.{row_lines};
ghost use Rattle.comp_list.specs.Room.{RowFits, DefsFit, NumbersHaveRoom};

use crate::alias::outer_count_of;
use crate::item_references::item_references;
use crate::line::Line;
use crate::lines::{Stand, push_lines};
use crate::open::{Around, Open, OpenDefs};
use crate::spots::spots_of_items;
use comp_wire::{NoMemory, Seq};
use item_tree::{Item, ItemCoreType, ItemType, Tree};
use std::alloc::{AllocError, Global};

/// Puts the lines of a definition's own references behind others.
fn push_own(
    alloc: Global,
    lines: &mut Vec<Line>,
    around: Around<'_, '_, '_>,
    level: u32,
    def: u32,
    item: &Item<'_>,
) -> Result<(), AllocError>
    requires few { length (row_references (item_row item.now)) < 2 ^ 32 }
    requires depth { length (scopes_of around) < 2 ^ 32 }
    ensures { AllFound around.entry → OnOk result (lines.new.items ≡ lines.old.items ++ lines_of level (scopes_of around.entry) def (row_outer (item_row item.now)) 0 (row_references (item_row item.now))) }
{
    let references = item_references(alloc, item)?;
    let stand = Stand {
        level,
        def,
        up: outer_count_of(item),
    };
    push_lines(lines, around, stand, references.as_slice())
}

/// Puts the lines of the tree in a core type behind others.
#[tactic(auto, using(crate::proofs::Plain::no_more_lines, crate::proofs::Plain::function_plain, crate::proofs::Plain::functions_plain))]
#[cycle(trees)]
fn push_core_type<'t, 'a>(
    alloc: Global,
    lines: &mut Vec<Line>,
    around: Around<'_, 't, 'a>,
    level: u32,
    ty: &'t ItemCoreType<'a>,
) -> Result<(), AllocError>
    requires room { RowFits (core_type_row ty.now) level }
    requires depth { length (scopes_of around) ≤ level }
    ensures { AllFound around.entry → OnOk result (lines.new.items ≡ lines.old.items ++ row_lines (core_type_row ty.now) level (scopes_of around.entry)) }
{
    match ty {
        ItemCoreType::Module(tree) => push_tree(alloc, lines, around, level, tree),
        ItemCoreType::Func(_) => Ok(()),
        ItemCoreType::Rec(_) => Ok(()),
    }
}

/// Puts the lines of the tree in a type behind others.
#[tactic(auto, using(crate::proofs::Plain::no_more_lines, crate::proofs::Plain::value_plain, crate::proofs::Plain::optional_plain, crate::proofs::Plain::index_plain, crate::proofs::Plain::fields_plain, crate::proofs::Plain::cases_plain, crate::proofs::Plain::values_plain, crate::proofs::Plain::lone_names_plain))]
#[cycle(trees)]
fn push_type<'t, 'a>(
    alloc: Global,
    lines: &mut Vec<Line>,
    around: Around<'_, 't, 'a>,
    level: u32,
    ty: &'t ItemType<'a>,
) -> Result<(), AllocError>
    requires room { RowFits (type_row ty.now) level }
    requires depth { length (scopes_of around) ≤ level }
    ensures { AllFound around.entry → OnOk result (lines.new.items ≡ lines.old.items ++ row_lines (type_row ty.now) level (scopes_of around.entry)) }
{
    match ty {
        ItemType::Component(tree) => push_tree(alloc, lines, around, level, tree),
        ItemType::Instance(tree) => push_tree(alloc, lines, around, level, tree),
        ItemType::Primitive(_)
        | ItemType::Record(_)
        | ItemType::Variant(_)
        | ItemType::List(_)
        | ItemType::FixedLengthList(_, _)
        | ItemType::Tuple(_)
        | ItemType::Flags(_)
        | ItemType::Enum(_)
        | ItemType::Option(_)
        | ItemType::Result(_, _)
        | ItemType::Own(_)
        | ItemType::Borrow(_)
        | ItemType::Stream(_)
        | ItemType::Future(_)
        | ItemType::Func { .. }
        | ItemType::Resource { .. } => Ok(()),
    }
}

/// Puts the lines of the tree in a definition behind others.
#[tactic(auto, using(crate::proofs::Plain::no_more_lines, crate::proofs::Plain::core_exports_plain, crate::proofs::Plain::arguments_plain, crate::proofs::Plain::exports_plain, crate::proofs::Plain::instances_plain, crate::proofs::Plain::passed_plain, crate::proofs::Plain::alias_plain, crate::proofs::Plain::canon_plain, crate::proofs::Plain::description_plain, crate::proofs::Plain::described_plain, crate::proofs::Plain::entity_plain))]
#[cycle(trees)]
fn push_held<'t, 'a>(
    alloc: Global,
    lines: &mut Vec<Line>,
    around: Around<'_, 't, 'a>,
    level: u32,
    item: &'t Item<'a>,
) -> Result<(), AllocError>
    requires room { RowFits (item_row item.now) level }
    requires depth { length (scopes_of around) ≤ level }
    ensures { AllFound around.entry → OnOk result (lines.new.items ≡ lines.old.items ++ row_lines (item_row item.now) level (scopes_of around.entry)) }
{
    match item {
        Item::Component(tree) => push_tree(alloc, lines, around, level, tree),
        Item::CoreType(ty) => push_core_type(alloc, lines, around, level, ty),
        Item::Ty(ty) => push_type(alloc, lines, around, level, ty),
        Item::CoreModule(_)
        | Item::CoreInstantiate { .. }
        | Item::CoreBundle { .. }
        | Item::Instantiate { .. }
        | Item::Bundle { .. }
        | Item::Alias(_)
        | Item::Canon(_)
        | Item::Start { .. }
        | Item::Import { .. }
        | Item::Export { .. }
        | Item::Custom { .. }
        | Item::ExportDecl { .. }
        | Item::ModuleImport { .. }
        | Item::ModuleExport { .. } => Ok(()),
    }
}

/// Puts the lines of definitions, the first of which has number 0, behind others: of each those of its own references, then those of the
/// tree that it holds.
#[cycle(trees)]
fn push_items<'t, 'a>(
    alloc: Global,
    lines: &mut Vec<Line>,
    around: Around<'_, 't, 'a>,
    level: u32,
    items: &'t [Item<'a>],
) -> Result<(), AllocError>
    requires room { DefsFit (defs_listed items.now) level 0 }
    requires depth { length (scopes_of around) ≤ level + 1 }
    ensures { AllFound around.entry → OnOk result (lines.new.items ≡ lines.old.items ++ defs_lines (defs_listed items.now) level (scopes_of around.entry) 0) }
{
    let mut def = 0;
    for item in items {
        push_own(alloc, lines, around, level, def, item)?;
        push_held(alloc, lines, around, level + 1, item)?;
        def += 1;
    }
    Ok(())
}

/// Puts the lines of a tree in others behind lines.
#[cycle(trees)]
fn push_tree<'t, 'a>(
    alloc: Global,
    lines: &mut Vec<Line>,
    around: Around<'_, 't, 'a>,
    level: u32,
    tree: &'t Tree<'a>,
) -> Result<(), AllocError>
    requires room { DefsFit (defs_listed tree.now.defs) level 0 }
    requires depth { length (scopes_of around) ≤ level }
    ensures { AllFound around.entry → OnOk result (lines.new.items ≡ lines.old.items ++ defs_lines (defs_listed tree.now.defs) level (defs_listed tree.now.defs ∷ scopes_of around.entry) 0) }
{
    let items = tree.defs.as_slice();
    let spots = spots_of_items(alloc, items)?;
    let open = Open {
        spots: &spots,
        defs: OpenDefs::Items(items),
        outer: around,
    };
    push_items(alloc, lines, Around::Scope(&open), level, items)
}

/// The lines of a tree.
fn tree_lines(alloc: Global, tree: &Tree<'_>) -> Result<Seq<Line>, AllocError>
    requires room { NumbersHaveRoom (component_of tree.now) }
    ensures { IfOk result (λ v. v ≡ listing (component_of tree.now)) }
{
    let mut lines = Vec::new(alloc);
    push_tree(alloc, &mut lines, Around::Nothing, 0, tree)?;
    Ok(Seq::from_vec(lines))
}

/// The references of a component and of the scopes in it, a line each: definition by definition, those of its own in the order of its
/// leaves, then those of the scope that it holds (Component Model, binary format, "Index Spaces").
///
/// The tree is that of a component that bytes are read as (`read` of `item_read`), or any other the numbers of whose lines have room in 32 bits
/// (`numbers_have_room`). It is refused where memory ran out.
pub fn list(alloc: Global, tree: &Tree<'_>) -> Result<Seq<Line>, NoMemory>
    requires room { NumbersHaveRoom (component_of tree.now) }
    ensures { IfOk result (λ v. v ≡ listing (component_of tree.now)) }
{
    match tree_lines(alloc, tree) {
        Ok(lines) => Ok(lines),
        Err(_) => Err(NoMemory),
    }
}
