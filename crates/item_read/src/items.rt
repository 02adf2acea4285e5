//! Definitions of variants of their own, but for those that hold a scope.

ghost use Rattle.std.specs.Prelude.{◌≡◌, IfOk};
ghost use Rattle.wire_tree.specs.Lists.{node_of};
ghost use Rattle.item_tree.specs.Model.{item_row};
ghost use Rattle.item_read.specs.Rows.{IsDeclared, IsListed, IsPlain};

use crate::entries::entries;
use crate::leaves::{index, item, module, results, text};
use crate::named::named_items;
use crate::parts::{one, three, two};
use crate::rows::{description, entity, optional_description};
use comp_model::Row;
use comp_wire::ModuleArg;
use item_tree::Item;
use std::alloc::{AllocError, Global};
use wire_tree::Node;

/// The definition of a component, without a list, that a node is.
pub fn plain_item_of<'a>(node: &Node<'_, 'a>) -> Item<'a>
    requires { IsPlain (node_of node.now) }
    ensures { item_row result ≡ node_of node.now }
{
    match node.row {
        Row::CoreModule => Item::CoreModule(module(one(node.leaves))),
        Row::Import => {
            let (name, ty) = two(node.leaves);
            Item::Import {
                name: text(name),
                ty: description(ty),
            }
        }
        Row::Export => {
            let (name, ty, exported) = three(node.leaves);
            let (kind, index) = item(exported);
            Item::Export {
                name: text(name),
                ty: optional_description(ty),
                kind,
                index,
            }
        }
        Row::Custom => {
            let (name, payload) = two(node.leaves);
            Item::Custom {
                name: text(name),
                payload: text(payload),
            }
        }
        _ => unreachable!(),
    }
}

/// The declaration of a type alone that a node is.
pub fn declaration_of<'a>(node: &Node<'_, 'a>) -> Item<'a>
    requires { IsDeclared (node_of node.now) }
    ensures { item_row result ≡ node_of node.now }
{
    match node.row {
        Row::ExportType => {
            let (name, ty) = two(node.leaves);
            Item::ExportDecl {
                name: text(name),
                ty: description(ty),
            }
        }
        Row::ModuleImport => {
            let (module, name, imported) = three(node.leaves);
            Item::ModuleImport {
                module: text(module),
                name: text(name),
                entity: entity(imported),
            }
        }
        Row::ModuleExport => {
            let (name, exported) = two(node.leaves);
            Item::ModuleExport {
                name: text(name),
                entity: entity(exported),
            }
        }
        _ => unreachable!(),
    }
}

/// The definition with a list that a node is. It is refused where memory ran out.
pub fn listed_item_of<'a>(alloc: Global, node: &Node<'_, 'a>) -> Result<Item<'a>, AllocError>
    requires { IsListed (node_of node.now) }
    ensures { IfOk result (λ v. item_row v ≡ node_of node.now) }
{
    match node.row {
        Row::CoreInstantiate => {
            let (module, args) = two(node.leaves);
            let args = entries::<(&'a [u8], ModuleArg)>(alloc, args)?;
            Ok(Item::CoreInstantiate {
                module: index(module),
                args,
            })
        }
        Row::CoreBundle => {
            let exports = named_items(alloc, one(node.leaves))?;
            Ok(Item::CoreBundle { exports })
        }
        Row::Instantiate => {
            let (component, args) = two(node.leaves);
            let args = named_items(alloc, args)?;
            Ok(Item::Instantiate {
                component: index(component),
                args,
            })
        }
        Row::Bundle => {
            let exports = named_items(alloc, one(node.leaves))?;
            Ok(Item::Bundle { exports })
        }
        Row::Start => {
            let (func, args, count) = three(node.leaves);
            let args = entries::<u32>(alloc, args)?;
            Ok(Item::Start {
                func: index(func),
                args,
                results: results(count),
            })
        }
        _ => unreachable!(),
    }
}
