//! Types, but for those that hold declarations.

ghost use Rattle.std.specs.Prelude.{◌≡◌, IfOk};
ghost use Rattle.wire_tree.specs.Lists.{node_of};
ghost use Rattle.item_tree.specs.Model.{type_row};
ghost use Rattle.item_read.specs.Rows.{IsListedType, IsType};

use crate::entries::entries;
use crate::leaves::{
    core_value, flag, index, number, optional_function, optional_value, primitive, value,
};
use crate::parts::{one, three, two};
use comp_model::Row;
use comp_wire::ComponentValType;
use item_tree::ItemType;
use std::alloc::{AllocError, Global};
use wire_tree::Node;

/// The type without a list that a node is.
pub fn type_of<'a>(node: &Node<'_, 'a>) -> ItemType<'a>
    requires { IsType (node_of node.now) }
    ensures { type_row result ≡ node_of node.now }
{
    match node.row {
        Row::Primitive => ItemType::Primitive(primitive(one(node.leaves))),
        Row::ListType => ItemType::List(value(one(node.leaves))),
        Row::FixedLengthListType => {
            let (element, length) = two(node.leaves);
            ItemType::FixedLengthList(value(element), number(length))
        }
        Row::OptionType => ItemType::Option(value(one(node.leaves))),
        Row::ResultType => {
            let (ok, err) = two(node.leaves);
            ItemType::Result(optional_value(ok), optional_value(err))
        }
        Row::OwnType => ItemType::Own(index(one(node.leaves))),
        Row::BorrowType => ItemType::Borrow(index(one(node.leaves))),
        Row::StreamType => ItemType::Stream(optional_value(one(node.leaves))),
        Row::FutureType => ItemType::Future(optional_value(one(node.leaves))),
        Row::ResourceType => {
            let (rep, dtor) = two(node.leaves);
            ItemType::Resource {
                rep: core_value(rep),
                dtor: optional_function(dtor),
            }
        }
        _ => unreachable!(),
    }
}

/// The type with a list that a node is. It is refused where memory ran out.
pub fn listed_type_of<'a>(alloc: Global, node: &Node<'_, 'a>) -> Result<ItemType<'a>, AllocError>
    requires { IsListedType (node_of node.now) }
    ensures { IfOk result (λ v. type_row v ≡ node_of node.now) }
{
    match node.row {
        Row::RecordType => {
            let fields = entries::<(&'a [u8], ComponentValType)>(alloc, one(node.leaves))?;
            Ok(ItemType::Record(fields))
        }
        Row::VariantType => {
            let cases = entries::<(&'a [u8], Option<ComponentValType>)>(alloc, one(node.leaves))?;
            Ok(ItemType::Variant(cases))
        }
        Row::TupleType => {
            let values = entries::<ComponentValType>(alloc, one(node.leaves))?;
            Ok(ItemType::Tuple(values))
        }
        Row::FlagsType => {
            let names = entries::<&'a [u8]>(alloc, one(node.leaves))?;
            Ok(ItemType::Flags(names))
        }
        Row::EnumType => {
            let names = entries::<&'a [u8]>(alloc, one(node.leaves))?;
            Ok(ItemType::Enum(names))
        }
        Row::FunctionType => {
            let (async_, params, result) = three(node.leaves);
            let params = entries::<(&'a [u8], ComponentValType)>(alloc, params)?;
            Ok(ItemType::Func {
                async_: flag(async_),
                params,
                result: optional_value(result),
            })
        }
        _ => unreachable!(),
    }
}
