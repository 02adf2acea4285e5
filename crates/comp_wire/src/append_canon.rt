//! The bytes of canonical functions.

ghost use Rattle.std.specs.Prelude.{◌≡◌, ◌∷◌, [], ◌++◌, OnOk};
ghost use Rattle.comp_model.specs.Leb.{uleb as unsigned_bytes};
ghost use Rattle.comp_wire.specs.Table as table;
ghost use Rattle.comp_wire.specs.Table.{each, result as result_field, value as value_field};
ghost use Rattle.comp_wire.specs.Spelled.{spell_leaf, spell_node, FitsLeaf, FitsNode, core_bytes};
ghost use Rattle.comp_wire.specs.Values.{bit, core_value_of, optional_of, value_of};
ghost use Rattle.comp_wire.specs.Definitions.{canon_row, options_leaf};

use crate::append::{append_byte, append_indexed, append_two_indices};
use crate::append_lists::{append_indexed_list, append_list, append_list_behind};
use crate::append_values::{append_core_value_behind, append_flag, append_result};
use crate::canon::{CanonicalOption, WireCanon};
use crate::leb::uleb;
use crate::memory::NoMemory;
use crate::seq::Seq;
use crate::values::{ComponentValType, WireVal};
use std::alloc::Global;

/// Appends a byte, an index and whether async is written.
fn append_flagged(
    alloc: Global,
    out: &mut Vec<u8>,
    byte: u8,
    index: u32,
    async_: bool,
) -> Result<(), NoMemory>
    ensures { OnOk result (out.new.items ≡ out.old.items ++ byte ∷ (unsigned_bytes index ++ bit async_ ∷ [])) }
{
    append_indexed(alloc, out, byte, index)?;
    append_flag(out, async_)
}

/// Appends a byte, a core value type and the number of a slot.
fn append_context(
    alloc: Global,
    out: &mut Vec<u8>,
    byte: u8,
    value: WireVal,
    slot: u32,
) -> Result<(), NoMemory>
    ensures { OnOk result (out.new.items ≡ out.old.items ++ byte ∷ (core_bytes (core_value_of value) ++ unsigned_bytes slot)) }
{
    append_core_value_behind(alloc, out, byte, value)?;
    uleb(alloc, out, slot)
}

/// Appends a lifted function: the core function first, its type last.
fn append_lift(
    alloc: Global,
    out: &mut Vec<u8>,
    ty: u32,
    core_func: u32,
    opts: &Seq<CanonicalOption>,
) -> Result<(), NoMemory>
    requires { FitsLeaf (options_leaf opts.now) (each table.options) }
    ensures { OnOk result (out.new.items ≡ out.old.items ++ 0x00 ∷ 0x00 ∷ (unsigned_bytes core_func ++ (spell_leaf (options_leaf opts.now) (each table.options) ++ unsigned_bytes ty))) }
{
    append_byte(out, 0x00)?;
    append_indexed_list(alloc, out, 0x00, core_func, opts)?;
    uleb(alloc, out, ty)
}

/// Appends a lowered function.
fn append_lower(
    alloc: Global,
    out: &mut Vec<u8>,
    func: u32,
    opts: &Seq<CanonicalOption>,
) -> Result<(), NoMemory>
    requires { FitsLeaf (options_leaf opts.now) (each table.options) }
    ensures { OnOk result (out.new.items ≡ out.old.items ++ 0x01 ∷ 0x00 ∷ (unsigned_bytes func ++ spell_leaf (options_leaf opts.now) (each table.options))) }
{
    append_byte(out, 0x01)?;
    append_indexed_list(alloc, out, 0x00, func, opts)
}

/// Appends the result that a task gives.
fn append_task_return(
    alloc: Global,
    out: &mut Vec<u8>,
    result_type: Option<ComponentValType>,
    opts: &Seq<CanonicalOption>,
) -> Result<(), NoMemory>
    requires { FitsLeaf (options_leaf opts.now) (each table.options) }
    ensures { OnOk result (out.new.items ≡ out.old.items ++ 0x09 ∷ (spell_leaf (optional_of value_of result_type) (result_field value_field) ++ spell_leaf (options_leaf opts.now) (each table.options))) }
{
    append_byte(out, 0x09)?;
    append_result(alloc, out, result_type)?;
    append_list(alloc, out, opts)
}

/// Appends a canonical function.
pub fn append_canon(alloc: Global, out: &mut Vec<u8>, canon: &WireCanon) -> Result<(), NoMemory>
    requires { FitsNode (canon_row canon.now) table.canons }
    ensures { OnOk result (out.new.items ≡ out.old.items ++ spell_node (canon_row canon.now) table.canons) }
{
    match canon {
        WireCanon::Lift {
            ty,
            core_func,
            opts,
        } => append_lift(alloc, out, *ty, *core_func, opts),
        WireCanon::Lower { func, opts } => append_lower(alloc, out, *func, opts),
        WireCanon::ResourceNew(ty) => append_indexed(alloc, out, 0x02, *ty),
        WireCanon::ResourceDrop(ty) => append_indexed(alloc, out, 0x03, *ty),
        WireCanon::ResourceRep(ty) => append_indexed(alloc, out, 0x04, *ty),
        WireCanon::TaskCancel => append_byte(out, 0x05),
        WireCanon::SubtaskCancel(async_) => append_subtask_cancel(out, *async_),
        WireCanon::TaskReturn { result, opts } => append_task_return(alloc, out, *result, opts),
        WireCanon::ContextGet(value, slot) => append_context(alloc, out, 0x0a, *value, *slot),
        WireCanon::ContextSet(value, slot) => append_context(alloc, out, 0x0b, *value, *slot),
        WireCanon::SubtaskDrop => append_byte(out, 0x0d),
        WireCanon::StreamNew(ty) => append_indexed(alloc, out, 0x0e, *ty),
        WireCanon::StreamRead(ty, opts) => append_indexed_list(alloc, out, 0x0f, *ty, opts),
        WireCanon::StreamWrite(ty, opts) => append_indexed_list(alloc, out, 0x10, *ty, opts),
        WireCanon::StreamCancelRead(ty, async_) => append_flagged(alloc, out, 0x11, *ty, *async_),
        WireCanon::StreamCancelWrite(ty, async_) => append_flagged(alloc, out, 0x12, *ty, *async_),
        WireCanon::StreamDropReadable(ty) => append_indexed(alloc, out, 0x13, *ty),
        WireCanon::StreamDropWritable(ty) => append_indexed(alloc, out, 0x14, *ty),
        WireCanon::FutureNew(ty) => append_indexed(alloc, out, 0x15, *ty),
        WireCanon::FutureRead(ty, opts) => append_indexed_list(alloc, out, 0x16, *ty, opts),
        WireCanon::FutureWrite(ty, opts) => append_indexed_list(alloc, out, 0x17, *ty, opts),
        WireCanon::FutureCancelRead(ty, async_) => append_flagged(alloc, out, 0x18, *ty, *async_),
        WireCanon::FutureCancelWrite(ty, async_) => append_flagged(alloc, out, 0x19, *ty, *async_),
        WireCanon::FutureDropReadable(ty) => append_indexed(alloc, out, 0x1a, *ty),
        WireCanon::FutureDropWritable(ty) => append_indexed(alloc, out, 0x1b, *ty),
        WireCanon::ErrorContextNew(opts) => append_list_behind(alloc, out, 0x1c, opts),
        WireCanon::ErrorContextDebugMessage(opts) => append_list_behind(alloc, out, 0x1d, opts),
        WireCanon::ErrorContextDrop => append_byte(out, 0x1e),
        WireCanon::WaitableSetNew => append_byte(out, 0x1f),
        WireCanon::WaitableSetDrop => append_byte(out, 0x22),
        WireCanon::WaitableJoin => append_byte(out, 0x23),
        WireCanon::BackpressureInc => append_byte(out, 0x24),
        WireCanon::BackpressureDec => append_byte(out, 0x25),
        WireCanon::ThreadSpawnRef(ty) => append_indexed(alloc, out, 0x40, *ty),
        WireCanon::ThreadSpawnIndirect { ty, table } => append_two_indices(
            alloc, out, 0x41, *ty, *table,
        ),
        WireCanon::ThreadAvailableParallelism => append_byte(out, 0x42),
    }
}

/// Appends a cancelled subtask, and whether async is written.
fn append_subtask_cancel(out: &mut Vec<u8>, async_: bool) -> Result<(), NoMemory>
    ensures { OnOk result (out.new.items ≡ out.old.items ++ 0x06 ∷ bit async_ ∷ []) }
{
    append_byte(out, 0x06)?;
    append_flag(out, async_)
}
