//! What is compared of the function types of a module type: their parameters and results as they are written, offsets aside.

ghost use Rattle.std.specs.Prelude.{◌≡◌, ◌+◌, List, IfOk, OnOk, map, option_map, length};
ghost use Rattle.comp_model.specs.CoreModules.{CoreModule};
ghost use Rattle.comp_model.specs.Model.{row};
ghost use Rattle.comp_tree.specs.Model.{reach_of, core_value_of, core_reference, leaf_of};
ghost use Rattle.comp_tree.specs.Lists.{listed, node_of, nodes_listed};
ghost use Rattle.tree_expand.specs.Written.{written_reach, written_value, written_lone, written_leaf_value, written_entry, written_list, written_leaf, written_signature, parts_references, signature_references};
ghost use Rattle.tree_expand.specs.Keys.{reach_key, value_key, entry_key, signature_key};

use crate::parts::pass;
use comp_model::Row;
use comp_tree::{CoreValue, Leaf, Node, Reach};
use std::alloc::{AllocError, Global};
use wast_parser::Index;

/// How far the name of a core type is looked for.
#[derive(Clone, Copy, PartialEq, Eq, PartialOrd, Ord)]
pub(crate) enum WrittenReach<'a> {
    /// Outward from the innermost scope.
    Outward,
    /// In the innermost scope alone.
    Own,
    /// In the scope so many scopes outward.
    Counted(u32),
    /// In the scope with this id: its name, and the number that tells generated ones apart.
    Named(&'a str, u64),
}

/// A core value type.
#[derive(Clone, Copy, PartialEq, Eq, PartialOrd, Ord)]
pub(crate) enum WrittenValue<'a> {
    /// `i32`.
    I32,
    /// `i64`.
    I64,
    /// `f32`.
    F32,
    /// `f64`.
    F64,
    /// `v128`.
    V128,
    /// A reference to a function, and whether it is nullable.
    RefFunc(bool),
    /// A reference to a value of the host, and whether it is nullable.
    RefExtern(bool),
    /// A reference to a value of the core type of an index, and whether it is nullable.
    RefNumber(bool, u32),
    /// A reference to a value of the core type of an id, by its name and its number, and whether it is nullable.
    RefName(bool, WrittenReach<'a>, &'a str, u64),
}

/// A parameter or a result.
#[derive(Clone, Copy, PartialEq, Eq, PartialOrd, Ord)]
pub(crate) struct WrittenEntry<'a> {
    /// The number of its row.
    row: u32,
    /// Its type.
    value: WrittenValue<'a>,
}

/// A function type.
#[derive(PartialEq, Eq, PartialOrd, Ord, Drop)]
pub(crate) struct Signature<'a> {
    /// The parameters, in order.
    params: Vec<WrittenEntry<'a>>,
    /// The results, in order.
    results: Vec<WrittenEntry<'a>>,
}

/// How far a name is looked for, as it is compared.
fn reach_written<'t, 'a>(reach: Reach<'t, 'a>) -> WrittenReach<'a>
    ensures { reach_key result ≡ written_reach (reach_of reach.entry) }
{
    match reach {
        Reach::Outward => WrittenReach::Outward,
        Reach::Own => WrittenReach::Own,
        Reach::At(place) => match place.scope {
            Index::Num(count, _) => WrittenReach::Counted(count),
            Index::Id(id) => WrittenReach::Named(id.name(), id.number()),
        },
    }
}

/// A reference to a value of a core type, as it is compared.
fn reference_written<'t, 'a>(
    nullable: bool,
    reach: Reach<'t, 'a>,
    index: Index<'a>,
) -> WrittenValue<'a>
    ensures { Some (value_key result) ≡ written_value (core_reference nullable (reach_of reach.entry) index.entry) }
{
    match index {
        Index::Num(number, _) => WrittenValue::RefNumber(nullable, number),
        Index::Id(id) => WrittenValue::RefName(
            nullable,
            reach_written(reach),
            id.name(),
            id.number(),
        ),
    }
}

/// A core value type, as it is compared; `None` for another type, which is equal to none.
fn value_written<'t, 'a>(value: CoreValue<'t, 'a>) -> Option<WrittenValue<'a>>
    ensures { option_map value_key result ≡ written_value (core_value_of value.entry) }
{
    match value {
        CoreValue::I32 => Some(WrittenValue::I32),
        CoreValue::I64 => Some(WrittenValue::I64),
        CoreValue::F32 => Some(WrittenValue::F32),
        CoreValue::F64 => Some(WrittenValue::F64),
        CoreValue::V128 => Some(WrittenValue::V128),
        CoreValue::RefFunc(nullable) => Some(WrittenValue::RefFunc(nullable)),
        CoreValue::RefExtern(nullable) => Some(WrittenValue::RefExtern(nullable)),
        CoreValue::RefConcrete(nullable, concrete) => Some(reference_written(
            nullable,
            concrete.reach,
            concrete.index,
        )),
        CoreValue::Other => None,
    }
}

/// The core value type that a leaf is, if it is one that is compared.
fn leaf_value_written<'t, 'a>(leaf: Leaf<'t, 'a>) -> Option<WrittenValue<'a>>
    ensures { (cores : List CoreModule) → option_map value_key result ≡ written_leaf_value (leaf_of cores leaf.entry) }
{
    match leaf {
        Leaf::CoreValue(value) => value_written(value),
        Leaf::Core(_) => None,
        _ => None,
    }
}

/// The core value type that is the only leaf of an entry, if it is one that is compared.
fn lone_written<'t, 'a>(leaves: &[Leaf<'t, 'a>]) -> Option<WrittenValue<'a>>
    ensures { (cores : List CoreModule) → option_map value_key result ≡ written_lone (listed cores leaves.now) }
{
    if leaves.len() == 1 {
        leaf_value_written(leaves[0])
    } else {
        None
    }
}

/// A parameter or a result, if it is compared.
fn entry_written<'t, 'a>(row: Row, leaves: &[Leaf<'t, 'a>]) -> Option<WrittenEntry<'a>>
    ensures { (cores : List CoreModule) → option_map entry_key result ≡ written_entry row (listed cores leaves.now) }
{
    match lone_written(leaves) {
        Some(value) => Some(WrittenEntry {
            row: row.number(),
            value,
        }),
        None => None,
    }
}

/// Parameters or results, if all of them are compared.
fn list_written<'t, 'a>(
    alloc: Global,
    nodes: &[Node<'t, 'a>],
) -> Result<Option<Vec<WrittenEntry<'a>>>, AllocError>
    ensures { (cores : List CoreModule) → IfOk result (λ r. option_map (λ v. map entry_key v.items) r ≡ written_list (nodes_listed cores nodes.now)) }
{
    let mut entries = Vec::new(alloc);
    for node in nodes {
        match entry_written(node.row, node.leaves) {
            Some(entry) => entries.push(entry)?,
            None => return Ok(None),
        }
    }
    Ok(Some(entries))
}

/// The parameters or results that a leaf lists, if all of them are compared.
fn leaf_written<'t, 'a>(
    alloc: Global,
    leaf: Leaf<'t, 'a>,
) -> Result<Option<Vec<WrittenEntry<'a>>>, AllocError>
    ensures { (cores : List CoreModule) → IfOk result (λ r. option_map (λ v. map entry_key v.items) r ≡ written_leaf (leaf_of cores leaf.entry)) }
{
    match leaf.as_nodes() {
        Some(nodes) => list_written(alloc, nodes),
        None => Ok(None),
    }
}

/// What is compared of a function type with these leaves; `None` where it is equal to none. It is refused where memory ran out.
pub(crate) fn signature_written<'t, 'a>(
    alloc: Global,
    leaves: &[Leaf<'t, 'a>],
) -> Result<Option<Signature<'a>>, AllocError>
    ensures { (cores : List CoreModule) → IfOk result (λ r. option_map signature_key r ≡ written_signature (listed cores leaves.now)) }
{
    if leaves.len() != 2 {
        return Ok(None);
    }
    match leaf_written(alloc, leaves[0])? {
        None => Ok(None),
        Some(params) => match leaf_written(alloc, leaves[1])? {
            None => Ok(None),
            Some(results) => Ok(Some(Signature { params, results })),
        },
    }
}

/// Passes the references of parameters or results.
fn pass_entries<'a>(entries: &[WrittenEntry<'a>], reference: &mut u32) -> Result<(), AllocError>
    ensures { OnOk result (reference.new ≡ reference.old + parts_references (map entry_key entries.now)) }
{
    for entry in entries {
        match entry.value {
            WrittenValue::RefNumber(_, _) => pass(reference)?,
            WrittenValue::RefName(_, _, _, _) => pass(reference)?,
            _ => {}
        }
    }
    Ok(())
}

impl<'a> Signature<'a> {
    /// Passes the references of the function type.
    pub(crate) fn pass(&self, reference: &mut u32) -> Result<(), AllocError>
        ensures { OnOk result (reference.new ≡ reference.old + signature_references (signature_key self.now)) }
    {
        pass_entries(&self.params, reference)?;
        pass_entries(&self.results, reference)
    }
}
