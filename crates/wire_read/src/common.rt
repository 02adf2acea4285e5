//! Rows that interfaces are full of, with their lines written out: no piece of them is looked up.

ghost use Rattle.std.specs.Prelude.{◌≡◌, ℕ, Some, option_to_list};
ghost use Rattle.comp_model.specs.declared.row.Row.TheVariants as rows;
ghost use Rattle.comp_wire.specs.Table as t;
ghost use Rattle.byte_table.specs.Lines.{family_of};
ghost use Rattle.wire_read.specs.Flat.{type_lead};
ghost use Rattle.wire_read.specs.Place.{rest};
ghost use Rattle.wire_read.specs.RowAt.{row_at};
ghost use Rattle.wire_read.specs.Nodes.{OutcomeLeaf, OutcomeNode, OutcomeRows};

use crate::arena::{place, place_all};
use crate::input::Input;
use crate::leaves::{async_leaf, index_leaf, text_leaf, value_leaf};
use crate::numbers::read_unsigned;
use crate::stop::Fault;
use crate::values::{expect, read_lead};
use bumpalo::Bump;
use byte_table::Family;
use comp_model::{Row, Space};
use std::alloc::Global;
use wire_tree::{Leaf, Node};

/// Takes a name with a type: a parameter, or a field of a record.
#[inline(always)]
fn read_named<'t, 'a>(bump: &'t Bump, input: &mut Input<'a>) -> Result<Node<'t, 'a>, Fault>
    ensures { (left : ℕ) → OutcomeNode t.named_types left input.old input.new result }
{
    match text_leaf(input) {
        None => Err(Fault::Misread),
        Some(name) => match value_leaf(input) {
            None => Err(Fault::Misread),
            Some(value) => match place_all(bump, &[name, value]) {
                Err(_) => Err(Fault::Memory),
                Ok(leaves) => Ok(Node {
                    row: Row::NamedType,
                    leaves,
                }),
            },
        },
    }
}

/// Takes so many names with types, into the arena. What stood in the list is forgotten.
fn read_all_named<'t, 'a>(
    bump: &'t Bump,
    names: &mut Vec<Node<'t, 'a>>,
    input: &mut Input<'a>,
    count: u32,
) -> Result<&'t [Node<'t, 'a>], Fault>
    ensures { (left : ℕ) → OutcomeRows count t.named_types left input.old input.new result }
{
    names.clear();
    for _ in 0..count {
        match read_named(bump, input) {
            Err(fault) => return Err(fault),
            Ok(node) => match names.push(node) {
                Err(_) => return Err(Fault::Memory),
                Ok(()) => {}
            },
        }
    }
    match place_all(bump, names.as_slice()) {
        Err(_) => Err(Fault::Memory),
        Ok(placed) => Ok(placed),
    }
}

/// Takes a count and so many names with types. What stood in the list is forgotten.
pub fn read_named_types<'t, 'a>(
    bump: &'t Bump,
    names: &mut Vec<Node<'t, 'a>>,
    input: &mut Input<'a>,
) -> Result<Leaf<'t, 'a>, Fault>
    ensures { (left : ℕ) → OutcomeLeaf (t.each t.named_types) left input.old input.new result }
{
    match read_unsigned(input) {
        None => Err(Fault::Misread),
        Some(count) => match read_all_named(bump, names, input, count) {
            Err(fault) => Err(fault),
            Ok(rows) => Ok(Leaf::Nodes(rows)),
        },
    }
}

/// Takes the result of a function.
#[inline(always)]
fn read_result_type<'t, 'a>(bump: &'t Bump, input: &mut Input<'a>) -> Result<Leaf<'t, 'a>, Fault>
    ensures { (left : ℕ) → OutcomeLeaf (t.result t.value) left input.old input.new result }
{
    match input.next() {
        None => Err(Fault::Misread),
        Some(byte) => {
            if byte == 0x00 {
                match value_leaf(input) {
                    None => Err(Fault::Misread),
                    Some(value) => match place(bump, value) {
                        Err(_) => Err(Fault::Memory),
                        Ok(placed) => Ok(Leaf::Present(placed)),
                    },
                }
            } else if byte == 0x01 {
                if expect(input, 0x00) {
                    Ok(Leaf::Absent)
                } else {
                    Err(Fault::Misread)
                }
            } else {
                Err(Fault::Misread)
            }
        }
    }
}

/// The byte in front of a type, where it is a declaration.
fn type_lead(family: Family) -> Option<u8>
    ensures { result ≡ type_lead (family_of family) }
{
    match family {
        Family::ComponentDeclarations => Some(0x01),
        Family::InstanceDeclarations => Some(0x01),
        _ => None,
    }
}

/// Takes a function type.
pub fn read_function_type<'t, 'a>(
    bump: &'t Bump,
    names: &mut Vec<Node<'t, 'a>>,
    input: &mut Input<'a>,
    family: Family,
) -> Result<Node<'t, 'a>, Fault>
    ensures { (left : ℕ) → Some rows.FunctionType ≡ row_at (family_of family) (rest input.old) → OutcomeNode (family_of family) left input.old input.new result }
{
    if !read_lead(input, type_lead(family)) {
        return Err(Fault::Misread);
    }
    match async_leaf(input) {
        None => Err(Fault::Misread),
        Some(is_async) => match read_named_types(bump, names, input) {
            Err(fault) => Err(fault),
            Ok(parameters) => match read_result_type(bump, input) {
                Err(fault) => Err(fault),
                Ok(returned) => match place_all(bump, &[is_async, parameters, returned]) {
                    Err(_) => Err(Fault::Memory),
                    Ok(leaves) => Ok(Node {
                        row: Row::FunctionType,
                        leaves,
                    }),
                },
            },
        },
    }
}

/// Takes that an import or export is a function.
pub fn read_func_description<'t, 'a>(
    bump: &'t Bump,
    input: &mut Input<'a>,
    family: Family,
) -> Result<Node<'t, 'a>, Fault>
    ensures { (left : ℕ) → Some rows.FuncDescription ≡ row_at (family_of family) (rest input.old) → OutcomeNode (family_of family) left input.old input.new result }
{
    if !expect(input, 0x01) {
        return Err(Fault::Misread);
    }
    match index_leaf(input, Space::Ty) {
        None => Err(Fault::Misread),
        Some(index) => match place_all(bump, &[index]) {
            Err(_) => Err(Fault::Memory),
            Ok(leaves) => Ok(Node {
                row: Row::FuncDescription,
                leaves,
            }),
        },
    }
}
