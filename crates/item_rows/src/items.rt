//! Definitions, but for those that hold a scope.

ghost use Rattle.std.specs.Prelude.{◌≡◌, IfOk};
ghost use Rattle.comp_model.specs.declared.row.Row.TheVariants as rows;
ghost use Rattle.comp_model.specs.Makers as make;
ghost use Rattle.comp_model.specs.Model as m;
ghost use Rattle.comp_model.specs.Model.{no_leaf, ◌▸◌};
ghost use Rattle.comp_wire.specs.Values.{rows_of_list, core_argument_row, start_argument_row, optional_of, description_leaf, description_row, entity_row};
ghost use Rattle.wire_tree.specs.Lists.{node_of};
ghost use Rattle.item_tree.specs.Model.{alias_row};
ghost use Rattle.item_rows.specs.Named.{named_row};

use crate::entries::entries;
use crate::named::named_items;
use crate::parts::{of_one, of_three, of_two};
use crate::rows::{description, entity, optional_description};
use bumpalo::Bump;
use comp_model::{Row, Space};
use comp_wire::{ComponentTypeRef, ModuleArg, Seq, WireEntity};
use item_tree::ItemAlias;
use std::alloc::{AllocError, Global};
use wire_tree::{Leaf, Node};

/// A core module.
pub fn core_module<'t>(bump: &'t Bump, code: &'t [u8]) -> Result<Node<'t, 't>, AllocError>
    ensures { IfOk result (λ n. node_of n ≡ make.core_module (m.module_bytes code.now)) }
{
    of_one(bump, Row::CoreModule, Leaf::Module(code))
}

/// A core module instantiated with named core instances.
pub fn core_instantiate<'t, 'a: 't>(
    alloc: Global,
    bump: &'t Bump,
    source: u32,
    args: &Seq<(&'a [u8], ModuleArg)>,
) -> Result<Node<'t, 't>, AllocError>
    ensures { IfOk result (λ n. node_of n ≡ make.core_instantiate (m.index source) (rows_of_list core_argument_row args.now)) }
{
    let args = entries::<(&'a [u8], ModuleArg)>(alloc, bump, args.as_slice())?;
    let source = Leaf::Index(Space::CoreModule, source);
    of_two(bump, Row::CoreInstantiate, source, args)
}

/// A component instantiated with named items.
pub fn instantiate<'t, 'a: 't>(
    alloc: Global,
    bump: &'t Bump,
    component: u32,
    args: &Seq<(&'a [u8], Space, u32)>,
) -> Result<Node<'t, 't>, AllocError>
    ensures { IfOk result (λ n. node_of n ≡ make.instantiate (m.index component) (rows_of_list (named_row rows.Argument) args.now)) }
{
    let args = named_items(alloc, bump, Row::Argument, args.as_slice())?;
    let component = Leaf::Index(Space::Component, component);
    of_two(bump, Row::Instantiate, component, args)
}

/// An instance made of named items, each an entry of a row.
pub fn bundle<'t, 'a: 't>(
    alloc: Global,
    bump: &'t Bump,
    row: Row,
    entry: Row,
    exports: &Seq<(&'a [u8], Space, u32)>,
) -> Result<Node<'t, 't>, AllocError>
    ensures { IfOk result (λ n. node_of n ≡ m.row row (m.nodes (rows_of_list (named_row entry) exports.now) ▸ no_leaf)) }
{
    let exports = named_items(alloc, bump, entry, exports.as_slice())?;
    of_one(bump, row, exports)
}

/// An alias.
pub fn alias_node<'t>(bump: &'t Bump, alias: ItemAlias<'t>) -> Result<Node<'t, 't>, AllocError>
    ensures { IfOk result (λ n. node_of n ≡ alias_row alias.entry) }
{
    match alias {
        ItemAlias::InstanceExport {
            instance,
            kind,
            name,
        } => {
            let instance = Leaf::Index(Space::Instance, instance);
            of_three(
                bump,
                Row::AliasExport,
                instance,
                Leaf::Text(name),
                Leaf::Kind(kind),
            )
        }
        ItemAlias::CoreInstanceExport {
            instance,
            kind,
            name,
        } => {
            let instance = Leaf::Index(Space::CoreInstance, instance);
            of_three(
                bump,
                Row::AliasCoreExport,
                instance,
                Leaf::Text(name),
                Leaf::Kind(kind),
            )
        }
        ItemAlias::Outer { count, kind, index } => {
            let item = Leaf::Index(kind, index);
            of_three(
                bump,
                Row::AliasOuter,
                Leaf::Outward(count),
                item,
                Leaf::Kind(kind),
            )
        }
    }
}

/// The call of a function when the component starts.
pub fn start<'t>(
    alloc: Global,
    bump: &'t Bump,
    func: u32,
    args: &Seq<u32>,
    results: u32,
) -> Result<Node<'t, 't>, AllocError>
    ensures { IfOk result (λ n. node_of n ≡ make.start (m.index func) (rows_of_list start_argument_row args.now) (m.result_count results)) }
{
    let args = entries::<u32>(alloc, bump, args.as_slice())?;
    let func = Leaf::Index(Space::Func, func);
    of_three(bump, Row::Start, func, args, Leaf::Results(results))
}

/// A name with a description: an import, or an export of a type.
pub fn described<'t>(
    bump: &'t Bump,
    row: Row,
    name: &'t [u8],
    ty: ComponentTypeRef,
) -> Result<Node<'t, 't>, AllocError>
    ensures { IfOk result (λ n. node_of n ≡ m.row row (m.text name.now ▸ m.node (description_row ty) ▸ no_leaf)) }
{
    let ty = description(bump, ty)?;
    of_two(bump, row, Leaf::Text(name), ty)
}

/// An export of a component.
pub fn export<'t>(
    bump: &'t Bump,
    name: &'t [u8],
    ty: Option<ComponentTypeRef>,
    kind: Space,
    index: u32,
) -> Result<Node<'t, 't>, AllocError>
    ensures { IfOk result (λ n. node_of n ≡ make.export_row (m.text name.now) (optional_of description_leaf ty) kind (m.index index)) }
{
    let ty = optional_description(bump, ty)?;
    let item = Leaf::Index(kind, index);
    of_three(bump, Row::Export, Leaf::Text(name), ty, item)
}

/// A custom section.
pub fn custom<'t>(
    bump: &'t Bump,
    name: &'t [u8],
    payload: &'t [u8],
) -> Result<Node<'t, 't>, AllocError>
    ensures { IfOk result (λ n. node_of n ≡ make.custom name.now payload.now) }
{
    of_two(bump, Row::Custom, Leaf::Text(name), Leaf::Text(payload))
}

/// An import of a module type.
pub fn module_import<'t>(
    bump: &'t Bump,
    source: &'t [u8],
    name: &'t [u8],
    found: WireEntity,
) -> Result<Node<'t, 't>, AllocError>
    ensures { IfOk result (λ n. node_of n ≡ make.module_import source.now name.now (entity_row found)) }
{
    let entity = entity(bump, found)?;
    of_three(
        bump,
        Row::ModuleImport,
        Leaf::Text(source),
        Leaf::Text(name),
        entity,
    )
}

/// An export of a module type.
pub fn module_export<'t>(
    bump: &'t Bump,
    name: &'t [u8],
    found: WireEntity,
) -> Result<Node<'t, 't>, AllocError>
    ensures { IfOk result (λ n. node_of n ≡ make.module_export name.now (entity_row found)) }
{
    let entity = entity(bump, found)?;
    of_two(bump, Row::ModuleExport, Leaf::Text(name), entity)
}
