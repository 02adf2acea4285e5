//! Types, but for those that hold declarations.

ghost use Rattle.std.specs.Prelude.{◌≡◌, IfOk};
ghost use Rattle.comp_model.specs.declared.Space.TheVariants as space;
ghost use Rattle.comp_model.specs.Makers as make;
ghost use Rattle.comp_model.specs.Model as m;
ghost use Rattle.comp_model.specs.Model.{no_leaf, ◌▸◌};
ghost use Rattle.comp_wire.specs.Values.{bit, value_of, optional_of, index_of, core_value_of, rows_of_list, named_type_row, primitive_byte_of};
ghost use Rattle.wire_tree.specs.Lists.{node_of};

use crate::entries::{Entry, entries};
use crate::leaves::{flag, optional_index, optional_value, primitive, value};
use crate::parts::{of_one, of_three, of_two};
use bumpalo::Bump;
use comp_model::{Row, Space};
use comp_wire::{ComponentValType, PrimitiveValType, Seq, WireVal};
use std::alloc::{AllocError, Global};
use wire_tree::{Leaf, Node};

/// A row of a list alone.
pub fn of_entries<'t, T: Entry<'t>>(
    alloc: Global,
    bump: &'t Bump,
    row: Row,
    list: &Seq<T>,
) -> Result<Node<'t, 't>, AllocError>
    ensures { IfOk result (λ n. node_of n ≡ m.row row (m.nodes (rows_of_list T.entry_row list.now) ▸ no_leaf)) }
{
    let leaf = entries::<T>(alloc, bump, list.as_slice())?;
    of_one(bump, row, leaf)
}

/// A primitive under a new index.
pub fn of_primitive<'t>(bump: &'t Bump, found: PrimitiveValType) -> Result<Node<'t, 't>, AllocError>
    ensures { IfOk result (λ n. node_of n ≡ make.primitive (primitive_byte_of found)) }
{
    of_one(bump, Row::Primitive, primitive(found))
}

/// A row of a value type alone.
pub fn of_value<'t>(
    bump: &'t Bump,
    row: Row,
    found: ComponentValType,
) -> Result<Node<'t, 't>, AllocError>
    ensures { IfOk result (λ n. node_of n ≡ m.row row (value_of found ▸ no_leaf)) }
{
    of_one(bump, row, value(found))
}

/// A row of a value type alone that may be missing.
pub fn of_optional<'t>(
    bump: &'t Bump,
    row: Row,
    found: Option<ComponentValType>,
) -> Result<Node<'t, 't>, AllocError>
    ensures { IfOk result (λ n. node_of n ≡ m.row row (optional_of value_of found ▸ no_leaf)) }
{
    let leaf = optional_value(bump, found)?;
    of_one(bump, row, leaf)
}

/// A handle of a resource.
pub fn of_handle<'t>(bump: &'t Bump, row: Row, resource: u32) -> Result<Node<'t, 't>, AllocError>
    ensures { IfOk result (λ n. node_of n ≡ m.row row (m.ref space.Ty (m.index resource) ▸ no_leaf)) }
{
    of_one(bump, row, Leaf::Index(Space::Ty, resource))
}

/// A fixed number of elements.
pub fn fixed_length_list<'t>(
    bump: &'t Bump,
    element: ComponentValType,
    length: u32,
) -> Result<Node<'t, 't>, AllocError>
    ensures { IfOk result (λ n. node_of n ≡ make.fixed_length_list_type (value_of element) length) }
{
    of_two(
        bump,
        Row::FixedLengthListType,
        value(element),
        Leaf::Number(length),
    )
}

/// What comes of a success and of a failure.
pub fn outcome<'t>(
    bump: &'t Bump,
    ok: Option<ComponentValType>,
    err: Option<ComponentValType>,
) -> Result<Node<'t, 't>, AllocError>
    ensures { IfOk result (λ n. node_of n ≡ make.result_type (optional_of value_of ok) (optional_of value_of err)) }
{
    let ok = optional_value(bump, ok)?;
    let err = optional_value(bump, err)?;
    of_two(bump, Row::ResultType, ok, err)
}

/// A new resource.
pub fn resource<'t>(
    bump: &'t Bump,
    rep: WireVal,
    dtor: Option<u32>,
) -> Result<Node<'t, 't>, AllocError>
    ensures { IfOk result (λ n. node_of n ≡ make.resource_type (core_value_of rep) (optional_of (index_of space.CoreFunc) dtor)) }
{
    let dtor = optional_index(bump, Space::CoreFunc, dtor)?;
    of_two(bump, Row::ResourceType, Leaf::CoreValue(rep), dtor)
}

/// A function type.
pub fn function<'t, 'a: 't>(
    alloc: Global,
    bump: &'t Bump,
    async_: bool,
    params: &Seq<(&'a [u8], ComponentValType)>,
    returned: Option<ComponentValType>,
) -> Result<Node<'t, 't>, AllocError>
    ensures { IfOk result (λ n. node_of n ≡ make.function_type (bit async_) (rows_of_list named_type_row params.now) (optional_of value_of returned)) }
{
    let params = entries::<(&'a [u8], ComponentValType)>(alloc, bump, params.as_slice())?;
    let returned = optional_value(bump, returned)?;
    of_three(bump, Row::FunctionType, flag(async_), params, returned)
}
