//! The places of the definitions of a tree.

ghost use Rattle.std.specs.Prelude.{◌≡◌, ◌++◌, [], List};
ghost use Rattle.comp_model.specs.declared.Space.TheVariants as spaces;
ghost use Rattle.comp_wire.specs.Values.{function_row, index_of, value_of, optional_of, description_leaf, option_row, rows_of_list};
ghost use Rattle.comp_wire.specs.Definitions.{canon_row};
ghost use Rattle.item_tree.specs.Model.{item_row, core_type_row, type_row, alias_row};
ghost use Rattle.comp_list.specs.References.{leaf_references, node_references};
ghost use Rattle.comp_list.specs.Places.{row_references, references_at, references_in};

use crate::places::{
    Places, description_reference, entity_reference, optional_reference, reference, type_reference,
};
use crate::reference::value_reference;
use comp_model::Space;
use comp_wire::{CanonicalOption, ComponentTypeRef, ComponentValType, Seq, WireCanon, WireFunc};
use item_tree::{Item, ItemAlias, ItemCoreType, ItemType};

/// The places of a definition, in the order of its leaves.
#[derive(Clone, Copy)]
pub struct ItemPlaces<'t> {
    /// Those in front.
    pub first: Places<'t>,
    /// Those behind them.
    pub second: Places<'t>,
    /// Those behind these.
    pub third: Places<'t>,
    /// The types of a group of core types, behind all others.
    pub functions: &'t [WireFunc],
}

/// Three rows of places.
fn three<'t>(first: Places<'t>, second: Places<'t>, third: Places<'t>) -> ItemPlaces<'t>
    ensures { references_in result ≡ references_at first.entry ++ (references_at second.entry ++ (references_at third.entry ++ [])) }
{
    ItemPlaces {
        first,
        second,
        third,
        functions: &[],
    }
}

/// Two rows of places.
fn two<'t>(first: Places<'t>, second: Places<'t>) -> ItemPlaces<'t>
    ensures { references_in result ≡ references_at first.entry ++ (references_at second.entry ++ []) }
{
    three(first, second, Places::One(None))
}

/// A row of places.
fn one<'t>(first: Places<'t>) -> ItemPlaces<'t>
    ensures { references_in result ≡ references_at first.entry ++ [] }
{
    two(first, Places::One(None))
}

/// No places.
fn nothing<'t>() -> ItemPlaces<'t>
    ensures { references_in result ≡ [] }
{
    one(Places::One(None))
}

/// The place of a reference.
fn index<'t>(space: Space, index: u32) -> Places<'t>
    ensures { references_at result ≡ leaf_references (index_of space index) ++ [] }
{
    Places::One(reference(space, index))
}

/// The place of a value type.
fn value<'t>(value: ComponentValType) -> Places<'t>
    ensures { references_at result ≡ leaf_references (value_of value) ++ [] }
{
    Places::One(type_reference(value))
}

/// The place of a value type that may be missing.
fn maybe_value<'t>(value: Option<ComponentValType>) -> Places<'t>
    ensures { references_at result ≡ leaf_references (optional_of value_of value) ++ [] }
{
    Places::One(optional_reference(value))
}

/// The place of a description that may be missing.
fn described<'t>(description: Option<ComponentTypeRef>) -> Places<'t>
    ensures { references_at result ≡ leaf_references (optional_of description_leaf description) ++ [] }
{
    match description {
        None => Places::One(None),
        Some(description) => Places::One(description_reference(description)),
    }
}

/// The places of a core function type.
#[tactic(auto, using(crate::proofs::Joined::core_values))]
fn function_places(function: &WireFunc) -> ItemPlaces<'_>
    ensures { references_in result ≡ row_references (function_row function.now) }
{
    let params = Places::CoreValues(function.params.as_slice());
    let results = Places::CoreValues(function.results.as_slice());
    two(params, results)
}

/// The places of an alias.
fn alias_places<'t>(alias: &ItemAlias<'_>) -> ItemPlaces<'t>
    ensures { references_in result ≡ row_references (alias_row alias.now) }
{
    match alias {
        ItemAlias::InstanceExport { instance, .. } => one(index(Space::Instance, *instance)),
        ItemAlias::CoreInstanceExport { instance, .. } => {
            one(index(Space::CoreInstance, *instance))
        }
        ItemAlias::Outer {
            kind,
            index: at,
            ..
        } => one(index(*kind, *at)),
    }
}

/// The places of a type.
#[tactic(auto, using(crate::proofs::Joined::fields, crate::proofs::Joined::cases, crate::proofs::Joined::values, crate::proofs::Joined::no_names))]
fn type_places<'t>(ty: &'t ItemType<'_>) -> ItemPlaces<'t>
    ensures { references_in result ≡ row_references (type_row ty.now) }
{
    match ty {
        ItemType::Primitive(_) => nothing(),
        ItemType::Record(fields) => one(Places::Fields(fields.as_slice())),
        ItemType::Variant(cases) => one(Places::Cases(cases.as_slice())),
        ItemType::List(element) => one(value(*element)),
        ItemType::FixedLengthList(element, _) => one(value(*element)),
        ItemType::Tuple(values) => one(Places::Values(values.as_slice())),
        ItemType::Flags(_) => nothing(),
        ItemType::Enum(_) => nothing(),
        ItemType::Option(some) => one(value(*some)),
        ItemType::Result(ok, err) => two(maybe_value(*ok), maybe_value(*err)),
        ItemType::Own(resource) => one(index(Space::Ty, *resource)),
        ItemType::Borrow(resource) => one(index(Space::Ty, *resource)),
        ItemType::Stream(element) => one(maybe_value(*element)),
        ItemType::Future(element) => one(maybe_value(*element)),
        ItemType::Func { params, result, .. } => {
            two(Places::Fields(params.as_slice()), maybe_value(*result))
        }
        ItemType::Component(_) => nothing(),
        ItemType::Instance(_) => nothing(),
        ItemType::Resource { rep, dtor } => {
            let destructor = match dtor {
                None => None,
                Some(function) => reference(Space::CoreFunc, *function),
            };
            two(Places::One(value_reference(*rep)), Places::One(destructor))
        }
    }
}

/// The places of the options of a canonical function.
#[tactic(auto, using(crate::proofs::Joined::options))]
fn options(options: &Seq<CanonicalOption>) -> Places<'_>
    ensures { references_at result ≡ node_references (rows_of_list option_row options.now) }
{
    Places::Options(options.as_slice())
}

/// The places of a lifted function.
fn lift_places(ty: u32, func: u32, opts: &Seq<CanonicalOption>) -> ItemPlaces<'_>
    ensures { references_in result ≡ leaf_references (index_of spaces.Ty ty) ++ (leaf_references (index_of spaces.CoreFunc func) ++ (node_references (rows_of_list option_row opts.now) ++ [])) }
{
    three(
        index(Space::Ty, ty),
        index(Space::CoreFunc, func),
        options(opts),
    )
}

/// The places of a canonical function.
fn canon_places(canon: &WireCanon) -> ItemPlaces<'_>
    ensures { references_in result ≡ row_references (canon_row canon.now) }
{
    match canon {
        WireCanon::Lift {
            ty,
            core_func,
            opts,
        } => lift_places(*ty, *core_func, opts),
        WireCanon::Lower { func, opts } => two(index(Space::Func, *func), options(opts)),
        WireCanon::TaskReturn { result, opts } => two(maybe_value(*result), options(opts)),
        WireCanon::StreamRead(ty, opts)
        | WireCanon::StreamWrite(ty, opts)
        | WireCanon::FutureRead(ty, opts)
        | WireCanon::FutureWrite(ty, opts) => two(index(Space::Ty, *ty), options(opts)),
        WireCanon::ErrorContextNew(opts) => one(options(opts)),
        WireCanon::ErrorContextDebugMessage(opts) => one(options(opts)),
        WireCanon::ContextGet(value, _) => one(Places::One(value_reference(*value))),
        WireCanon::ContextSet(value, _) => one(Places::One(value_reference(*value))),
        WireCanon::ThreadSpawnRef(ty) => one(index(Space::CoreType, *ty)),
        WireCanon::ThreadSpawnIndirect { ty, table } => {
            two(index(Space::CoreType, *ty), index(Space::CoreTable, *table))
        }
        WireCanon::ResourceNew(ty) | WireCanon::ResourceDrop(ty) | WireCanon::ResourceRep(ty) => {
            one(index(Space::Ty, *ty))
        }
        WireCanon::StreamNew(ty)
        | WireCanon::StreamDropReadable(ty)
        | WireCanon::StreamDropWritable(ty)
        | WireCanon::StreamCancelRead(ty, _)
        | WireCanon::StreamCancelWrite(ty, _) => one(index(Space::Ty, *ty)),
        WireCanon::FutureNew(ty)
        | WireCanon::FutureDropReadable(ty)
        | WireCanon::FutureDropWritable(ty)
        | WireCanon::FutureCancelRead(ty, _)
        | WireCanon::FutureCancelWrite(ty, _) => one(index(Space::Ty, *ty)),
        _ => nothing(),
    }
}
/// The places of a group of core types.
fn group_places(functions: &Seq<WireFunc>) -> ItemPlaces<'_>
    ensures { references_in result ≡ node_references (rows_of_list function_row functions.now) }
{
    ItemPlaces {
        first: Places::One(None),
        second: Places::One(None),
        third: Places::One(None),
        functions: functions.as_slice(),
    }
}

/// The places of a core type.
fn core_type_places<'t>(ty: &'t ItemCoreType<'_>) -> ItemPlaces<'t>
    ensures { references_in result ≡ row_references (core_type_row ty.now) }
{
    match ty {
        ItemCoreType::Func(function) => function_places(function),
        ItemCoreType::Rec(functions) => group_places(functions),
        ItemCoreType::Module(_) => nothing(),
    }
}

/// The places of a definition: those of its row, in the order of the leaves.
#[tactic(auto, using(crate::proofs::Joined::core_exports, crate::proofs::Joined::arguments, crate::proofs::Joined::exports, crate::proofs::Joined::instances, crate::proofs::Joined::passed))]
pub fn places_of<'t>(item: &'t Item<'_>) -> ItemPlaces<'t>
    ensures { references_in result ≡ row_references (item_row item.now) }
{
    match item {
        Item::CoreModule(_) => nothing(),
        Item::CoreInstantiate { module, args } => two(
            index(Space::CoreModule, *module),
            Places::Instances(args.as_slice()),
        ),
        Item::CoreBundle { exports } => one(Places::Named(exports.as_slice())),
        Item::CoreType(ty) => core_type_places(ty),
        Item::Component(_) => nothing(),
        Item::Instantiate { component, args } => two(
            index(Space::Component, *component),
            Places::Named(args.as_slice()),
        ),
        Item::Bundle { exports } => one(Places::Named(exports.as_slice())),
        Item::Alias(alias) => alias_places(alias),
        Item::Ty(ty) => type_places(ty),
        Item::Canon(canon) => canon_places(canon),
        Item::Start { func, args, .. } => {
            two(index(Space::Func, *func), Places::Passed(args.as_slice()))
        }
        Item::Import { ty, .. } => one(Places::One(description_reference(*ty))),
        Item::Export {
            ty,
            kind,
            index: at,
            ..
        } => two(described(*ty), index(*kind, *at)),
        Item::Custom { .. } => nothing(),
        Item::ExportDecl { ty, .. } => one(Places::One(description_reference(*ty))),
        Item::ModuleImport { entity, .. } => one(Places::One(entity_reference(*entity))),
        Item::ModuleExport { entity, .. } => one(Places::One(entity_reference(*entity))),
    }
}
