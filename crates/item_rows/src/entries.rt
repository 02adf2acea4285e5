//! Lists: a row for each entry of one.

ghost use Rattle.std.specs.Prelude.{◌≡◌, IfOk};
ghost use Rattle.comp_model.specs.Model as m;
ghost use Rattle.comp_model.specs.Makers as make;
ghost use Rattle.comp_model.specs.Model.{Node as ModelNode};
ghost use Rattle.comp_wire.specs.Values.{rows_of_list, option_row, core_argument_row, core_value_row, function_row, named_type_row, case_row, lone_type_row, lone_name_row, start_argument_row};
ghost use Rattle.wire_tree.specs.Lists.{node_of, nodes_listed};
ghost use Rattle.wire_tree.specs.Model.{leaf_of};

use crate::arena::place_all;
use crate::leaves::{optional_value, value};
use crate::parts::{of_none, of_one, of_three, of_two};
use bumpalo::Bump;
use comp_model::{Row, Space};
use comp_wire::{CanonicalOption, ComponentValType, ModuleArg, WireFunc, WireVal};
use std::alloc::{AllocError, Global};
use wire_tree::{Leaf, Node};

/// What stands in a list.
pub trait Entry<'t>: Sized {
    /// The row of an entry.
    ghost entry_row: { Self → ModelNode };

    /// That row, in the arena. It is refused where memory ran out.
    fn node_in(alloc: Global, bump: &'t Bump, entry: &Self) -> Result<Node<'t, 't>, AllocError>
        ensures { IfOk result (λ n. node_of n ≡ entry_row entry.now) };
}

/// The rows of entries.
#[tactic(auto, using(crate::proofs::ListRows::all_rows))]
fn entry_nodes<'t, T: Entry<'t>>(
    alloc: Global,
    bump: &'t Bump,
    entries: &[T],
) -> Result<&'t [Node<'t, 't>], AllocError>
    ensures { IfOk result (λ ns. nodes_listed ns.now ≡ rows_of_list T.entry_row entries.now) }
{
    let mut nodes = Vec::new(alloc);
    for entry in entries {
        let node = T::node_in(alloc, bump, entry)?;
        nodes.push(node)?;
    }
    let placed = place_all(bump, nodes.as_slice())?;
    Ok(placed)
}

/// A list.
#[tactic(auto, using(wire_tree::proofs::Leaves::leaf_nodes))]
pub fn entries<'t, T: Entry<'t>>(
    alloc: Global,
    bump: &'t Bump,
    entries: &[T],
) -> Result<Leaf<'t, 't>, AllocError>
    ensures { IfOk result (λ l. leaf_of l ≡ m.nodes (rows_of_list T.entry_row entries.now)) }
{
    let nodes = entry_nodes(alloc, bump, entries)?;
    Ok(Leaf::Nodes(nodes))
}

/// An option of a core function.
fn of_function<'t>(bump: &'t Bump, row: Row, func: u32) -> Result<Node<'t, 't>, AllocError>
    ensures { IfOk result (λ n. node_of n ≡ make.option_of_function row (m.index func)) }
{
    of_one(bump, row, Leaf::Index(Space::CoreFunc, func))
}

/// The row of an option.
fn option_node<'t>(bump: &'t Bump, option: CanonicalOption) -> Result<Node<'t, 't>, AllocError>
    ensures { IfOk result (λ n. node_of n ≡ option_row option) }
{
    match option {
        CanonicalOption::UTF8 => Ok(of_none(Row::OptionUtf8)),
        CanonicalOption::UTF16 => Ok(of_none(Row::OptionUtf16)),
        CanonicalOption::CompactUTF16 => Ok(of_none(Row::OptionLatin1Utf16)),
        CanonicalOption::Async => Ok(of_none(Row::OptionAsync)),
        CanonicalOption::Memory(memory) => of_one(
            bump,
            Row::OptionMemory,
            Leaf::Index(Space::CoreMemory, memory),
        ),
        CanonicalOption::Realloc(func) => of_function(bump, Row::OptionRealloc, func),
        CanonicalOption::PostReturn(func) => of_function(bump, Row::OptionPostReturn, func),
        CanonicalOption::Callback(func) => of_function(bump, Row::OptionCallback, func),
    }
}

impl<'t> Entry<'t> for CanonicalOption {
    ghost entry_row = { option_row };

    fn node_in(
        _alloc: Global,
        bump: &'t Bump,
        entry: &CanonicalOption,
    ) -> Result<Node<'t, 't>, AllocError> {
        option_node(bump, *entry)
    }
}

impl<'t> Entry<'t> for WireVal {
    ghost entry_row = { core_value_row };

    fn node_in(
        _alloc: Global,
        bump: &'t Bump,
        entry: &WireVal,
    ) -> Result<Node<'t, 't>, AllocError> {
        of_one(bump, Row::CoreValueType, Leaf::CoreValue(*entry))
    }
}

impl<'t> Entry<'t> for WireFunc {
    ghost entry_row = { function_row };

    fn node_in(
        alloc: Global,
        bump: &'t Bump,
        entry: &WireFunc,
    ) -> Result<Node<'t, 't>, AllocError> {
        let params = entries::<WireVal>(alloc, bump, entry.params.as_slice())?;
        let results = entries::<WireVal>(alloc, bump, entry.results.as_slice())?;
        of_two(bump, Row::CoreFunctionType, params, results)
    }
}

impl<'t, 'a: 't> Entry<'t> for (&'a [u8], ModuleArg) {
    ghost entry_row = { core_argument_row };

    fn node_in(
        _alloc: Global,
        bump: &'t Bump,
        entry: &(&'a [u8], ModuleArg),
    ) -> Result<Node<'t, 't>, AllocError> {
        let ModuleArg::Instance(instance) = entry.1;
        let name = Leaf::Text(entry.0);
        of_two(
            bump,
            Row::CoreArgument,
            name,
            Leaf::Index(Space::CoreInstance, instance),
        )
    }
}

impl<'t, 'a: 't> Entry<'t> for (&'a [u8], ComponentValType) {
    ghost entry_row = { named_type_row };

    fn node_in(
        _alloc: Global,
        bump: &'t Bump,
        entry: &(&'a [u8], ComponentValType),
    ) -> Result<Node<'t, 't>, AllocError> {
        of_two(bump, Row::NamedType, Leaf::Text(entry.0), value(entry.1))
    }
}

impl<'t, 'a: 't> Entry<'t> for (&'a [u8], Option<ComponentValType>) {
    ghost entry_row = { case_row };

    fn node_in(
        _alloc: Global,
        bump: &'t Bump,
        entry: &(&'a [u8], Option<ComponentValType>),
    ) -> Result<Node<'t, 't>, AllocError> {
        let found = optional_value(bump, entry.1)?;
        of_three(bump, Row::CaseType, Leaf::NoId, Leaf::Text(entry.0), found)
    }
}

impl<'t> Entry<'t> for ComponentValType {
    ghost entry_row = { lone_type_row };

    fn node_in(
        _alloc: Global,
        bump: &'t Bump,
        entry: &ComponentValType,
    ) -> Result<Node<'t, 't>, AllocError> {
        of_one(bump, Row::LoneType, value(*entry))
    }
}

impl<'t, 'a: 't> Entry<'t> for &'a [u8] {
    ghost entry_row = { lone_name_row };

    fn node_in(
        _alloc: Global,
        bump: &'t Bump,
        entry: &&'a [u8],
    ) -> Result<Node<'t, 't>, AllocError> {
        of_one(bump, Row::LoneName, Leaf::Text(*entry))
    }
}

impl<'t> Entry<'t> for u32 {
    ghost entry_row = { start_argument_row };

    fn node_in(_alloc: Global, bump: &'t Bump, entry: &u32) -> Result<Node<'t, 't>, AllocError> {
        of_one(bump, Row::StartArgument, Leaf::Index(Space::Value, *entry))
    }
}
