//! Canonical functions. The tables have a line for each built-in.

ghost use Rattle.std.specs.Prelude.{◌≡◌, IfOk};
ghost use Rattle.comp_model.specs.Makers as make;
ghost use Rattle.comp_model.specs.Model as m;
ghost use Rattle.comp_wire.specs.Values.{bit, core_value_of, value_of, optional_of, rows_of_list, option_row};
ghost use Rattle.comp_wire.specs.Definitions.{canon_row};
ghost use Rattle.wire_tree.specs.Lists.{node_of};

use crate::entries::entries;
use crate::leaves::{flag, optional_value};
use crate::parts::{of_none, of_one, of_three, of_two};
use bumpalo::Bump;
use comp_model::{Row, Space};
use comp_wire::{CanonicalOption, ComponentValType, Seq, WireCanon, WireVal};
use std::alloc::{AllocError, Global};
use wire_tree::{Leaf, Node};

/// A built-in without parts.
fn built_in<'t>(row: Row) -> Result<Node<'t, 't>, AllocError>
    ensures { IfOk result (λ n. node_of n ≡ make.built_in row) }
{
    Ok(of_none(row))
}

/// A built-in of a type.
fn of_type<'t>(bump: &'t Bump, row: Row, ty: u32) -> Result<Node<'t, 't>, AllocError>
    ensures { IfOk result (λ n. node_of n ≡ make.of_type row (m.index ty)) }
{
    of_one(bump, row, Leaf::Index(Space::Ty, ty))
}

/// A built-in of a type, with options.
fn of_type_with<'t>(
    alloc: Global,
    bump: &'t Bump,
    row: Row,
    ty: u32,
    opts: &Seq<CanonicalOption>,
) -> Result<Node<'t, 't>, AllocError>
    ensures { IfOk result (λ n. node_of n ≡ make.of_type_with row (m.index ty) (rows_of_list option_row opts.now)) }
{
    let opts = entries::<CanonicalOption>(alloc, bump, opts.as_slice())?;
    of_two(bump, row, Leaf::Index(Space::Ty, ty), opts)
}

/// A built-in of a type, asynchronous or not.
fn of_type_async<'t>(
    bump: &'t Bump,
    row: Row,
    ty: u32,
    async_: bool,
) -> Result<Node<'t, 't>, AllocError>
    ensures { IfOk result (λ n. node_of n ≡ make.of_type_async row (m.index ty) (bit async_)) }
{
    of_two(bump, row, Leaf::Index(Space::Ty, ty), flag(async_))
}

/// A built-in with options alone.
fn of_options<'t>(
    alloc: Global,
    bump: &'t Bump,
    row: Row,
    opts: &Seq<CanonicalOption>,
) -> Result<Node<'t, 't>, AllocError>
    ensures { IfOk result (λ n. node_of n ≡ make.of_options row (rows_of_list option_row opts.now)) }
{
    let opts = entries::<CanonicalOption>(alloc, bump, opts.as_slice())?;
    of_one(bump, row, opts)
}

/// A built-in of a context.
fn of_context<'t>(
    bump: &'t Bump,
    row: Row,
    value: WireVal,
    slot: u32,
) -> Result<Node<'t, 't>, AllocError>
    ensures { IfOk result (λ n. node_of n ≡ make.of_context row (core_value_of value) slot) }
{
    of_two(bump, row, Leaf::CoreValue(value), Leaf::Number(slot))
}

/// A lifted function.
fn lifted<'t>(
    alloc: Global,
    bump: &'t Bump,
    ty: u32,
    func: u32,
    opts: &Seq<CanonicalOption>,
) -> Result<Node<'t, 't>, AllocError>
    ensures { IfOk result (λ n. node_of n ≡ make.lift (m.index ty) (m.index func) (rows_of_list option_row opts.now)) }
{
    let opts = entries::<CanonicalOption>(alloc, bump, opts.as_slice())?;
    let ty = Leaf::Index(Space::Ty, ty);
    let func = Leaf::Index(Space::CoreFunc, func);
    of_three(bump, Row::Lift, ty, func, opts)
}

/// A lowered function.
fn lowered<'t>(
    alloc: Global,
    bump: &'t Bump,
    func: u32,
    opts: &Seq<CanonicalOption>,
) -> Result<Node<'t, 't>, AllocError>
    ensures { IfOk result (λ n. node_of n ≡ make.lower (m.index func) (rows_of_list option_row opts.now)) }
{
    let opts = entries::<CanonicalOption>(alloc, bump, opts.as_slice())?;
    of_two(bump, Row::Lower, Leaf::Index(Space::Func, func), opts)
}

/// What a task returns.
fn returned<'t>(
    alloc: Global,
    bump: &'t Bump,
    value: Option<ComponentValType>,
    opts: &Seq<CanonicalOption>,
) -> Result<Node<'t, 't>, AllocError>
    ensures { IfOk result (λ n. node_of n ≡ make.task_return (optional_of value_of value) (rows_of_list option_row opts.now)) }
{
    let value = optional_value(bump, value)?;
    let opts = entries::<CanonicalOption>(alloc, bump, opts.as_slice())?;
    of_two(bump, Row::TaskReturn, value, opts)
}

/// A subtask cancelled, asynchronously or not.
fn subtask_cancel<'t>(bump: &'t Bump, async_: bool) -> Result<Node<'t, 't>, AllocError>
    ensures { IfOk result (λ n. node_of n ≡ make.subtask_cancel (bit async_)) }
{
    of_one(bump, Row::SubtaskCancel, flag(async_))
}

/// A thread of a function type.
fn spawn_ref<'t>(bump: &'t Bump, ty: u32) -> Result<Node<'t, 't>, AllocError>
    ensures { IfOk result (λ n. node_of n ≡ make.thread_spawn_ref (m.index ty)) }
{
    of_one(bump, Row::ThreadSpawnRef, Leaf::Index(Space::CoreType, ty))
}

/// A thread of a function in a table.
fn spawn_indirect<'t>(bump: &'t Bump, ty: u32, table: u32) -> Result<Node<'t, 't>, AllocError>
    ensures { IfOk result (λ n. node_of n ≡ make.thread_spawn_indirect (m.index ty) (m.index table)) }
{
    let ty = Leaf::Index(Space::CoreType, ty);
    let table = Leaf::Index(Space::CoreTable, table);
    of_two(bump, Row::ThreadSpawnIndirect, ty, table)
}

/// The row of a canonical function.
pub fn canon_node<'t>(
    alloc: Global,
    bump: &'t Bump,
    canon: &WireCanon,
) -> Result<Node<'t, 't>, AllocError>
    ensures { IfOk result (λ n. node_of n ≡ canon_row canon.now) }
{
    match canon {
        WireCanon::Lift {
            ty,
            core_func,
            opts,
        } => lifted(alloc, bump, *ty, *core_func, opts),
        WireCanon::Lower { func, opts } => lowered(alloc, bump, *func, opts),
        WireCanon::ResourceNew(ty) => of_type(bump, Row::ResourceNew, *ty),
        WireCanon::ResourceDrop(ty) => of_type(bump, Row::ResourceDrop, *ty),
        WireCanon::ResourceRep(ty) => of_type(bump, Row::ResourceRep, *ty),
        WireCanon::TaskCancel => built_in(Row::TaskCancel),
        WireCanon::SubtaskCancel(async_) => subtask_cancel(bump, *async_),
        WireCanon::SubtaskDrop => built_in(Row::SubtaskDrop),
        WireCanon::TaskReturn { result: ty, opts } => returned(alloc, bump, *ty, opts),
        WireCanon::ContextGet(value, slot) => of_context(bump, Row::ContextGet, *value, *slot),
        WireCanon::ContextSet(value, slot) => of_context(bump, Row::ContextSet, *value, *slot),
        WireCanon::StreamNew(ty) => of_type(bump, Row::StreamNew, *ty),
        WireCanon::StreamRead(ty, opts) => of_type_with(alloc, bump, Row::StreamRead, *ty, opts),
        WireCanon::StreamWrite(ty, opts) => of_type_with(alloc, bump, Row::StreamWrite, *ty, opts),
        WireCanon::StreamCancelRead(ty, async_) => {
            of_type_async(bump, Row::StreamCancelRead, *ty, *async_)
        }
        WireCanon::StreamCancelWrite(ty, async_) => {
            of_type_async(bump, Row::StreamCancelWrite, *ty, *async_)
        }
        WireCanon::StreamDropReadable(ty) => of_type(bump, Row::StreamDropReadable, *ty),
        WireCanon::StreamDropWritable(ty) => of_type(bump, Row::StreamDropWritable, *ty),
        WireCanon::FutureNew(ty) => of_type(bump, Row::FutureNew, *ty),
        WireCanon::FutureRead(ty, opts) => of_type_with(alloc, bump, Row::FutureRead, *ty, opts),
        WireCanon::FutureWrite(ty, opts) => of_type_with(alloc, bump, Row::FutureWrite, *ty, opts),
        WireCanon::FutureCancelRead(ty, async_) => {
            of_type_async(bump, Row::FutureCancelRead, *ty, *async_)
        }
        WireCanon::FutureCancelWrite(ty, async_) => {
            of_type_async(bump, Row::FutureCancelWrite, *ty, *async_)
        }
        WireCanon::FutureDropReadable(ty) => of_type(bump, Row::FutureDropReadable, *ty),
        WireCanon::FutureDropWritable(ty) => of_type(bump, Row::FutureDropWritable, *ty),
        WireCanon::ErrorContextNew(opts) => of_options(alloc, bump, Row::ErrorContextNew, opts),
        WireCanon::ErrorContextDebugMessage(opts) => {
            of_options(alloc, bump, Row::ErrorContextDebugMessage, opts)
        }
        WireCanon::ErrorContextDrop => built_in(Row::ErrorContextDrop),
        WireCanon::WaitableSetNew => built_in(Row::WaitableSetNew),
        WireCanon::WaitableSetDrop => built_in(Row::WaitableSetDrop),
        WireCanon::WaitableJoin => built_in(Row::WaitableJoin),
        WireCanon::BackpressureInc => built_in(Row::BackpressureInc),
        WireCanon::BackpressureDec => built_in(Row::BackpressureDec),
        WireCanon::ThreadSpawnRef(ty) => spawn_ref(bump, *ty),
        WireCanon::ThreadSpawnIndirect { ty, table } => spawn_indirect(bump, *ty, *table),
        WireCanon::ThreadAvailableParallelism => built_in(Row::ThreadAvailableParallelism),
    }
}
