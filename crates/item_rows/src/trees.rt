//! Scopes, and the definitions of a tree.

ghost use Rattle.std.specs.Prelude.{◌≡◌, IfOk, None};
ghost use Rattle.comp_model.specs.Model as m;
ghost use Rattle.comp_model.specs.Model.{no_leaf, ◌▸◌};
ghost use Rattle.wire_tree.specs.Lists.{node_of, defs_listed};
ghost use Rattle.wire_tree.specs.Model.{scope_of};
ghost use Rattle.item_tree.specs.Model.{item_row, core_type_row, type_row, component_of, scope_of_tree, defs_listed as items_listed};

use crate::arena::{place, place_all};
use crate::canons::canon_node;
use crate::entries::Entry;
use crate::items::{
    alias_node, bundle, core_instantiate, core_module, custom, described, export, instantiate,
    module_export, module_import, start,
};
use crate::parts::of_one;
use crate::types::{
    fixed_length_list, function, of_entries, of_handle, of_optional, of_primitive, of_value,
    outcome, resource,
};
use bumpalo::Bump;
use comp_model::{Row, ScopeKind};
use comp_wire::{ComponentValType, WireFunc};
use item_tree::{Item, ItemCoreType, ItemType, Tree};
use std::alloc::{AllocError, Global};
use wire_tree::{Leaf, Node, Scope};

/// A row of a scope of these definitions.
#[tactic(auto, using(wire_tree::proofs::Leaves::leaf_scope, wire_tree::proofs::Leaves::scope_made))]
fn scoped<'t>(
    bump: &'t Bump,
    row: Row,
    kind: ScopeKind,
    defs: &'t [Node<'t, 't>],
) -> Result<Node<'t, 't>, AllocError>
    ensures { IfOk result (λ n. node_of n ≡ m.row row (m.scope (m.scope_of kind None None (defs_listed defs.now)) ▸ no_leaf)) }
{
    let scope = place(bump, Scope { kind, defs })?;
    of_one(bump, row, Leaf::Scope(scope))
}

/// A row of the scope that a tree of a kind is.
#[cycle(trees)]
fn scope_node<'t, 'a: 't>(
    alloc: Global,
    bump: &'t Bump,
    row: Row,
    kind: ScopeKind,
    tree: &Tree<'a>,
) -> Result<Node<'t, 't>, AllocError>
    ensures { IfOk result (λ n. node_of n ≡ m.row row (m.scope (scope_of_tree kind tree.now) ▸ no_leaf)) }
{
    let defs = item_nodes(alloc, bump, tree.defs.as_slice())?;
    scoped(bump, row, kind, defs)
}

/// The row of a core type.
#[tactic(auto, using(item_tree::proofs::Scopes::module_type_item))]
#[cycle(trees)]
fn core_type_node<'t, 'a: 't>(
    alloc: Global,
    bump: &'t Bump,
    ty: &ItemCoreType<'a>,
) -> Result<Node<'t, 't>, AllocError>
    ensures { IfOk result (λ n. node_of n ≡ core_type_row ty.now) }
{
    match ty {
        ItemCoreType::Func(function) => WireFunc::node_in(alloc, bump, function),
        ItemCoreType::Rec(types) => of_entries::<WireFunc>(alloc, bump, Row::CoreRec, types),
        ItemCoreType::Module(tree) => {
            scope_node(alloc, bump, Row::ModuleType, ScopeKind::ModuleType, tree)
        }
    }
}

/// The row of a type.
#[tactic(auto, using(item_tree::proofs::Scopes::component_type_item, item_tree::proofs::Scopes::instance_type_item))]
#[cycle(trees)]
fn type_node<'t, 'a: 't>(
    alloc: Global,
    bump: &'t Bump,
    ty: &ItemType<'a>,
) -> Result<Node<'t, 't>, AllocError>
    ensures { IfOk result (λ n. node_of n ≡ type_row ty.now) }
{
    match ty {
        ItemType::Primitive(primitive) => of_primitive(bump, *primitive),
        ItemType::Record(fields) => {
            of_entries::<(&'a [u8], ComponentValType)>(alloc, bump, Row::RecordType, fields)
        }
        ItemType::Variant(cases) => {
            of_entries::<(&'a [u8], Option<ComponentValType>)>(alloc, bump, Row::VariantType, cases)
        }
        ItemType::List(element) => of_value(bump, Row::ListType, *element),
        ItemType::FixedLengthList(element, length) => fixed_length_list(bump, *element, *length),
        ItemType::Tuple(types) => {
            of_entries::<ComponentValType>(alloc, bump, Row::TupleType, types)
        }
        ItemType::Flags(names) => of_entries::<&'a [u8]>(alloc, bump, Row::FlagsType, names),
        ItemType::Enum(names) => of_entries::<&'a [u8]>(alloc, bump, Row::EnumType, names),
        ItemType::Option(value) => of_value(bump, Row::OptionType, *value),
        ItemType::Result(ok, err) => outcome(bump, *ok, *err),
        ItemType::Own(resource) => of_handle(bump, Row::OwnType, *resource),
        ItemType::Borrow(resource) => of_handle(bump, Row::BorrowType, *resource),
        ItemType::Stream(value) => of_optional(bump, Row::StreamType, *value),
        ItemType::Future(value) => of_optional(bump, Row::FutureType, *value),
        ItemType::Func {
            async_,
            params,
            result: returned,
        } => function(alloc, bump, *async_, params, *returned),
        ItemType::Component(tree) => scope_node(
            alloc,
            bump,
            Row::ComponentType,
            ScopeKind::ComponentType,
            tree,
        ),
        ItemType::Instance(tree) => scope_node(
            alloc,
            bump,
            Row::InstanceType,
            ScopeKind::InstanceType,
            tree,
        ),
        ItemType::Resource { rep, dtor } => resource(bump, *rep, *dtor),
    }
}

/// The row of a definition.
#[tactic(auto, using(item_tree::proofs::Scopes::component_item))]
#[cycle(trees)]
fn item_node<'t, 'a: 't>(
    alloc: Global,
    bump: &'t Bump,
    item: &Item<'a>,
) -> Result<Node<'t, 't>, AllocError>
    ensures { IfOk result (λ n. node_of n ≡ item_row item.now) }
{
    match item {
        Item::CoreModule(code) => core_module(bump, *code),
        Item::CoreInstantiate { module, args } => core_instantiate(alloc, bump, *module, args),
        Item::CoreBundle { exports } => bundle(
            alloc,
            bump,
            Row::CoreBundle,
            Row::CoreBundleExport,
            exports,
        ),
        Item::CoreType(ty) => core_type_node(alloc, bump, ty),
        Item::Component(tree) => {
            scope_node(alloc, bump, Row::Component, ScopeKind::Component, tree)
        }
        Item::Instantiate { component, args } => instantiate(alloc, bump, *component, args),
        Item::Bundle { exports } => { bundle(alloc, bump, Row::Bundle, Row::BundleExport, exports) }
        Item::Alias(alias) => alias_node(bump, *alias),
        Item::Ty(ty) => type_node(alloc, bump, ty),
        Item::Canon(canon) => canon_node(alloc, bump, canon),
        Item::Start {
            func,
            args,
            results,
        } => start(alloc, bump, *func, args, *results),
        Item::Import { name, ty } => described(bump, Row::Import, *name, *ty),
        Item::Export {
            name,
            ty,
            kind,
            index,
        } => export(bump, *name, *ty, *kind, *index),
        Item::Custom { name, payload } => custom(bump, *name, *payload),
        Item::ExportDecl { name, ty } => described(bump, Row::ExportType, *name, *ty),
        Item::ModuleImport {
            module,
            name,
            entity,
        } => module_import(bump, *module, *name, *entity),
        Item::ModuleExport { name, entity } => module_export(bump, *name, *entity),
    }
}

/// The rows of definitions.
#[tactic(auto, using(crate::proofs::DefRows::all_defs))]
#[cycle(trees)]
fn item_nodes<'t, 'a: 't>(
    alloc: Global,
    bump: &'t Bump,
    items: &[Item<'a>],
) -> Result<&'t [Node<'t, 't>], AllocError>
    ensures { IfOk result (λ ns. defs_listed ns.now ≡ items_listed items.now) }
{
    let mut nodes = Vec::new(alloc);
    for item in items {
        let node = item_node(alloc, bump, item)?;
        nodes.push(node)?;
    }
    let placed = place_all(bump, nodes.as_slice())?;
    Ok(placed)
}

/// The scope of the component that a tree stands for, in the arena. It is refused where memory ran out.
#[tactic(auto, using(wire_tree::proofs::Leaves::scope_made))]
pub fn rows_of_tree<'t, 'a: 't>(
    alloc: Global,
    bump: &'t Bump,
    tree: &Tree<'a>,
) -> Result<Scope<'t, 't>, AllocError>
    ensures { IfOk result (λ s. scope_of s ≡ component_of tree.now) }
{
    let defs = item_nodes(alloc, bump, tree.defs.as_slice())?;
    Ok(Scope {
        kind: ScopeKind::Component,
        defs,
    })
}
