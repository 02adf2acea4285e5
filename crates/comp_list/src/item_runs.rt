//! The items that a definition of a tree declares, as a run of one space.

ghost use Rattle.std.specs.Prelude.{◌≡◌, ◌∷◌, []};
ghost use Rattle.comp_model.specs.Spaces.{described};
ghost use Rattle.comp_wire.specs.Values.{description_row};
ghost use Rattle.comp_wire.specs.Definitions.{canon_row};
ghost use Rattle.item_tree.specs.Model.{item_row, core_type_row, alias_row};
ghost use Rattle.comp_list.specs.Runs.{run_of};
ghost use Rattle.comp_list.specs.Places.{row_spaces, row_of};

use crate::runs::{Run, no_run};
use comp_model::Space;
use comp_wire::{ComponentTypeRef, WireCanon};
use item_tree::{Item, ItemAlias, ItemCoreType};

/// One item.
fn single(space: Space) -> Run
    ensures { run_of result ≡ space ∷ [] }
{
    Run { space, count: 1 }
}

/// The item that a description admits.
fn admitted(description: ComponentTypeRef) -> Run
    ensures { run_of result ≡ described (row_of (description_row description)) }
{
    match description {
        ComponentTypeRef::Module(_) => single(Space::CoreModule),
        ComponentTypeRef::Func(_) => single(Space::Func),
        ComponentTypeRef::Ty(_) => single(Space::Ty),
        ComponentTypeRef::Component(_) => single(Space::Component),
        ComponentTypeRef::Instance(_) => single(Space::Instance),
    }
}

/// The item that a canonical function declares.
fn canon_run(canon: &WireCanon) -> Run
    ensures { run_of result ≡ row_spaces (canon_row canon.now) }
{
    match canon {
        WireCanon::Lift { .. } => single(Space::Func),
        _ => single(Space::CoreFunc),
    }
}

/// The items that a core type declares.
#[tactic(auto, using(crate::proofs::ItemSpaces::group_declares))]
fn core_type_run(ty: &ItemCoreType<'_>) -> Run
    ensures { run_of result ≡ row_spaces (core_type_row ty.now) }
{
    match ty {
        ItemCoreType::Rec(functions) => Run {
            space: Space::CoreType,
            count: functions.as_slice().len() as u64,
        },
        ItemCoreType::Func(_) => single(Space::CoreType),
        ItemCoreType::Module(_) => single(Space::CoreType),
    }
}

/// The item that an alias declares.
fn alias_run(alias: &ItemAlias<'_>) -> Run
    ensures { run_of result ≡ row_spaces (alias_row alias.now) }
{
    match alias {
        ItemAlias::InstanceExport { kind, .. } => single(*kind),
        ItemAlias::CoreInstanceExport { kind, .. } => single(*kind),
        ItemAlias::Outer { kind, .. } => single(*kind),
    }
}

/// The items that a definition declares.
#[tactic(auto, using(crate::proofs::ItemSpaces::type_declares, crate::proofs::ItemSpaces::description_declares, crate::proofs::ItemSpaces::export_declares, crate::proofs::ItemSpaces::results_declare))]
pub fn item_run(item: &Item<'_>) -> Run
    ensures { run_of result ≡ row_spaces (item_row item.now) }
{
    match item {
        Item::CoreModule(_) => single(Space::CoreModule),
        Item::CoreInstantiate { .. } => single(Space::CoreInstance),
        Item::CoreBundle { .. } => single(Space::CoreInstance),
        Item::CoreType(ty) => core_type_run(ty),
        Item::Component(_) => single(Space::Component),
        Item::Instantiate { .. } => single(Space::Instance),
        Item::Bundle { .. } => single(Space::Instance),
        Item::Alias(alias) => alias_run(alias),
        Item::Ty(_) => single(Space::Ty),
        Item::Canon(canon) => canon_run(canon),
        Item::Start { results, .. } => Run {
            space: Space::Value,
            count: *results as u64,
        },
        Item::Import { ty, .. } => admitted(*ty),
        Item::Export { kind, .. } => single(*kind),
        Item::Custom { .. } => no_run(),
        Item::ExportDecl { ty, .. } => admitted(*ty),
        Item::ModuleImport { .. } => no_run(),
        Item::ModuleExport { .. } => no_run(),
    }
}
