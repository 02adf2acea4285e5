//! Lists: a value for each node of one.

ghost use Rattle.std.specs.Prelude.{◌≡◌, IfOk};
ghost use Rattle.comp_model.specs.Model as m;
ghost use Rattle.comp_model.specs.Model.{Node as ModelNode};
ghost use Rattle.comp_wire.specs.Values.{rows_of_list, option_row, core_argument_row, core_value_row, named_type_row, case_row, lone_type_row, lone_name_row, start_argument_row};
ghost use Rattle.wire_tree.specs.Lists.{node_of, nodes_listed};
ghost use Rattle.wire_tree.specs.Model.{leaf_of};
ghost use Rattle.item_read.specs.Leaves.{Each, IsList};
ghost use Rattle.item_read.specs.Rows.{IsOption, IsCoreArgument, IsCoreValueType, IsNamedType, IsCase, IsLoneType, IsLoneName, IsStartArgument};

use crate::leaves::{core_value, index, optional_value, text, value};
use crate::parts::{one, three, two};
use comp_model::Row;
use comp_wire::{CanonicalOption, ComponentValType, ModuleArg, Seq, WireVal};
use std::alloc::{AllocError, Global};
use wire_tree::{Leaf, Node};

/// What stands in a list.
pub trait Entry<'a>: Sized + Drop {
    /// The row of an entry.
    ghost entry_row: { Self → ModelNode };

    /// Which nodes are entries.
    ghost is_entry: { ModelNode → Type 0 };

    /// The entry that a node is.
    fn of_node(node: &Node<'_, 'a>) -> Self
        requires { is_entry (node_of node.now) }
        ensures { entry_row result ≡ node_of node.now };
}

/// The entries that nodes are.
#[tactic(auto, using(crate::proofs::ListRows::all_rows, crate::proofs::ListRows::one_of_all))]
fn all_entries<'a, T: Entry<'a>>(
    alloc: Global,
    nodes: &[Node<'_, 'a>],
) -> Result<Seq<T>, AllocError>
    requires { Each T.is_entry (nodes_listed nodes.now) }
    ensures { IfOk result (λ v. rows_of_list T.entry_row v ≡ nodes_listed nodes.now) }
{
    let mut found = Vec::new(alloc);
    for node in nodes {
        found.push(T::of_node(node))?;
    }
    Ok(Seq::from_vec(found))
}

/// The entries of a list.
#[tactic(auto, using(crate::proofs::Held::nodes_held, crate::proofs::Held::list_held))]
pub fn entries<'a, T: Entry<'a>>(alloc: Global, leaf: &Leaf<'_, 'a>) -> Result<Seq<T>, AllocError>
    requires { IsList T.is_entry (leaf_of leaf.now) }
    ensures { IfOk result (λ v. m.nodes (rows_of_list T.entry_row v) ≡ leaf_of leaf.now) }
{
    match leaf {
        Leaf::Nodes(nodes) => {
            let found = all_entries(alloc, nodes)?;
            Ok(found)
        }
        _ => unreachable!(),
    }
}

impl<'a> Entry<'a> for CanonicalOption {
    ghost entry_row = { option_row };

    ghost is_entry = { IsOption };

    fn of_node(node: &Node<'_, 'a>) -> CanonicalOption {
        match node.row {
            Row::OptionUtf8 => CanonicalOption::UTF8,
            Row::OptionUtf16 => CanonicalOption::UTF16,
            Row::OptionLatin1Utf16 => CanonicalOption::CompactUTF16,
            Row::OptionMemory => CanonicalOption::Memory(index(one(node.leaves))),
            Row::OptionRealloc => CanonicalOption::Realloc(index(one(node.leaves))),
            Row::OptionPostReturn => CanonicalOption::PostReturn(index(one(node.leaves))),
            Row::OptionAsync => CanonicalOption::Async,
            Row::OptionCallback => CanonicalOption::Callback(index(one(node.leaves))),
            _ => unreachable!(),
        }
    }
}

impl<'a> Entry<'a> for WireVal {
    ghost entry_row = { core_value_row };

    ghost is_entry = { IsCoreValueType };

    fn of_node(node: &Node<'_, 'a>) -> WireVal {
        core_value(one(node.leaves))
    }
}

impl<'a> Entry<'a> for (&'a [u8], ModuleArg) {
    ghost entry_row = { core_argument_row };

    ghost is_entry = { IsCoreArgument };

    fn of_node(node: &Node<'_, 'a>) -> (&'a [u8], ModuleArg) {
        let (name, instance) = two(node.leaves);
        (text(name), ModuleArg::Instance(index(instance)))
    }
}

impl<'a> Entry<'a> for (&'a [u8], ComponentValType) {
    ghost entry_row = { named_type_row };

    ghost is_entry = { IsNamedType };

    fn of_node(node: &Node<'_, 'a>) -> (&'a [u8], ComponentValType) {
        let (name, ty) = two(node.leaves);
        (text(name), value(ty))
    }
}

impl<'a> Entry<'a> for (&'a [u8], Option<ComponentValType>) {
    ghost entry_row = { case_row };

    ghost is_entry = { IsCase };

    fn of_node(node: &Node<'_, 'a>) -> (&'a [u8], Option<ComponentValType>) {
        let (_id, name, ty) = three(node.leaves);
        (text(name), optional_value(ty))
    }
}

impl<'a> Entry<'a> for ComponentValType {
    ghost entry_row = { lone_type_row };

    ghost is_entry = { IsLoneType };

    fn of_node(node: &Node<'_, 'a>) -> ComponentValType {
        value(one(node.leaves))
    }
}

impl<'a> Entry<'a> for &'a [u8] {
    ghost entry_row = { lone_name_row };

    ghost is_entry = { IsLoneName };

    fn of_node(node: &Node<'_, 'a>) -> &'a [u8] {
        text(one(node.leaves))
    }
}

impl<'a> Entry<'a> for u32 {
    ghost entry_row = { start_argument_row };

    ghost is_entry = { IsStartArgument };

    fn of_node(node: &Node<'_, 'a>) -> u32 {
        index(one(node.leaves))
    }
}
