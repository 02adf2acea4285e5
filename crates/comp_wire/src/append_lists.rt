//! The bytes of lists: a count, and so many rows.

ghost use Rattle.std.specs.Prelude.{◌≡◌, ◌∷◌, ◌++◌, OnOk};
ghost use Rattle.comp_model.specs.Leb.{uleb as unsigned_bytes};
ghost use Rattle.comp_model.specs.Model.{Node, nodes};
ghost use Rattle.comp_wire.specs.Table.{Family, each};
ghost use Rattle.comp_wire.specs.Spelled.{spell_leaf, spell_node, FitsLeaf, FitsNode};
ghost use Rattle.comp_wire.specs.Values.{rows_of_list};

use crate::append::{append_byte, append_indexed};
use crate::leb::uleb;
use crate::memory::NoMemory;
use crate::seq::Seq;
use std::alloc::Global;

/// What stands in a list.
pub trait Entry {
    /// The row of an entry.
    ghost entry_row: { Self → Node };

    /// The rows that may stand in the list.
    ghost family: { Family };

    /// Appends an entry.
    fn append_entry(&self, alloc: Global, out: &mut Vec<u8>) -> Result<(), NoMemory>
        requires { FitsNode (entry_row self.now) family }
        ensures { OnOk result (out.new.items ≡ out.old.items ++ spell_node (entry_row self.now) family) };
}

/// Appends a count and so many entries.
fn append_entries<T: Entry>(alloc: Global, out: &mut Vec<u8>, entries: &[T]) -> Result<(), NoMemory>
    requires { FitsLeaf (nodes (rows_of_list T.entry_row entries.now)) (each T.family) }
    ensures { OnOk result (out.new.items ≡ out.old.items ++ spell_leaf (nodes (rows_of_list T.entry_row entries.now)) (each T.family)) }
{
    uleb(alloc, out, entries.len() as u32)?;
    for entry in entries {
        entry.append_entry(alloc, out)?;
    }
    Ok(())
}

/// Appends a list.
pub fn append_list<T: Entry>(
    alloc: Global,
    out: &mut Vec<u8>,
    entries: &Seq<T>,
) -> Result<(), NoMemory>
    requires { FitsLeaf (nodes (rows_of_list T.entry_row entries.now)) (each T.family) }
    ensures { OnOk result (out.new.items ≡ out.old.items ++ spell_leaf (nodes (rows_of_list T.entry_row entries.now)) (each T.family)) }
{
    append_entries(alloc, out, entries.as_slice())
}

/// Appends a byte and a list.
pub fn append_list_behind<T: Entry>(
    alloc: Global,
    out: &mut Vec<u8>,
    byte: u8,
    entries: &Seq<T>,
) -> Result<(), NoMemory>
    requires { FitsLeaf (nodes (rows_of_list T.entry_row entries.now)) (each T.family) }
    ensures { OnOk result (out.new.items ≡ out.old.items ++ byte ∷ spell_leaf (nodes (rows_of_list T.entry_row entries.now)) (each T.family)) }
{
    append_byte(out, byte)?;
    append_list(alloc, out, entries)
}

/// Appends a byte, an index and a list.
pub fn append_indexed_list<T: Entry>(
    alloc: Global,
    out: &mut Vec<u8>,
    byte: u8,
    index: u32,
    entries: &Seq<T>,
) -> Result<(), NoMemory>
    requires { FitsLeaf (nodes (rows_of_list T.entry_row entries.now)) (each T.family) }
    ensures { OnOk result (out.new.items ≡ out.old.items ++ byte ∷ (unsigned_bytes index ++ spell_leaf (nodes (rows_of_list T.entry_row entries.now)) (each T.family))) }
{
    append_indexed(alloc, out, byte, index)?;
    append_list(alloc, out, entries)
}
