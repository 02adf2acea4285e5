//! Canonical functions (Component Model, binary format, Canonical Definitions).

ghost use Rattle.std.specs.Prelude.{◌≡◌, IfOk};
ghost use Rattle.comp_model.specs.Model as m;
ghost use Rattle.comp_wire.specs.Definitions.{canon_row};
ghost use Rattle.comp_wire.specs.Values.{option_row, rows_of_list};
ghost use Rattle.wire_tree.specs.Lists.{listed, node_of};
ghost use Rattle.item_read.specs.Parts.{last as last_leaf};
ghost use Rattle.item_read.specs.Rows.{IsBuiltIn, IsCanon, IsOfType, IsWithOptions};

use crate::entries::entries;
use crate::leaves::{core_value, flag, index, number, optional_value};
use crate::parts::{last, one, three, two};
use comp_model::Row;
use comp_wire::{CanonicalOption, Seq, WireCanon};
use std::alloc::{AllocError, Global};
use wire_tree::Node;

/// The canonical function, named alone, that a node is.
pub fn built_in_of(node: &Node<'_, '_>) -> WireCanon
    requires { IsBuiltIn (node_of node.now) }
    ensures { canon_row result ≡ node_of node.now }
{
    match node.row {
        Row::TaskCancel => WireCanon::TaskCancel,
        Row::SubtaskDrop => WireCanon::SubtaskDrop,
        Row::ErrorContextDrop => WireCanon::ErrorContextDrop,
        Row::WaitableSetNew => WireCanon::WaitableSetNew,
        Row::WaitableSetDrop => WireCanon::WaitableSetDrop,
        Row::WaitableJoin => WireCanon::WaitableJoin,
        Row::BackpressureInc => WireCanon::BackpressureInc,
        Row::BackpressureDec => WireCanon::BackpressureDec,
        Row::ThreadAvailableParallelism => WireCanon::ThreadAvailableParallelism,
        _ => unreachable!(),
    }
}

/// The canonical function of a type that a node is.
pub fn type_canon_of(node: &Node<'_, '_>) -> WireCanon
    requires { IsOfType (node_of node.now) }
    ensures { canon_row result ≡ node_of node.now }
{
    let ty = index(one(node.leaves));
    match node.row {
        Row::ResourceNew => WireCanon::ResourceNew(ty),
        Row::ResourceDrop => WireCanon::ResourceDrop(ty),
        Row::ResourceRep => WireCanon::ResourceRep(ty),
        Row::StreamNew => WireCanon::StreamNew(ty),
        Row::StreamDropReadable => WireCanon::StreamDropReadable(ty),
        Row::StreamDropWritable => WireCanon::StreamDropWritable(ty),
        Row::FutureNew => WireCanon::FutureNew(ty),
        Row::FutureDropReadable => WireCanon::FutureDropReadable(ty),
        Row::FutureDropWritable => WireCanon::FutureDropWritable(ty),
        _ => unreachable!(),
    }
}

/// Another canonical function without options that a node is.
pub fn canon_of(node: &Node<'_, '_>) -> WireCanon
    requires { IsCanon (node_of node.now) }
    ensures { canon_row result ≡ node_of node.now }
{
    match node.row {
        Row::SubtaskCancel => WireCanon::SubtaskCancel(flag(one(node.leaves))),
        Row::ContextGet => {
            let (value, slot) = two(node.leaves);
            WireCanon::ContextGet(core_value(value), number(slot))
        }
        Row::ContextSet => {
            let (value, slot) = two(node.leaves);
            WireCanon::ContextSet(core_value(value), number(slot))
        }
        Row::StreamCancelRead => {
            let (ty, async_) = two(node.leaves);
            WireCanon::StreamCancelRead(index(ty), flag(async_))
        }
        Row::StreamCancelWrite => {
            let (ty, async_) = two(node.leaves);
            WireCanon::StreamCancelWrite(index(ty), flag(async_))
        }
        Row::FutureCancelRead => {
            let (ty, async_) = two(node.leaves);
            WireCanon::FutureCancelRead(index(ty), flag(async_))
        }
        Row::FutureCancelWrite => {
            let (ty, async_) = two(node.leaves);
            WireCanon::FutureCancelWrite(index(ty), flag(async_))
        }
        Row::ThreadSpawnRef => WireCanon::ThreadSpawnRef(index(one(node.leaves))),
        Row::ThreadSpawnIndirect => {
            let (ty, table) = two(node.leaves);
            WireCanon::ThreadSpawnIndirect {
                ty: index(ty),
                table: index(table),
            }
        }
        _ => unreachable!(),
    }
}

/// The canonical function that a node is, with its options.
fn with_options(node: &Node<'_, '_>, opts: Seq<CanonicalOption>) -> WireCanon
    requires row { IsWithOptions (node_of node.now) }
    requires options { m.nodes (rows_of_list option_row opts) ≡ last_leaf (listed node.now.leaves.now) }
    ensures { canon_row result ≡ node_of node.now }
{
    match node.row {
        Row::Lift => {
            let (ty, core_func, _opts) = three(node.leaves);
            WireCanon::Lift {
                ty: index(ty),
                core_func: index(core_func),
                opts,
            }
        }
        Row::Lower => WireCanon::Lower {
            func: index(two(node.leaves).0),
            opts,
        },
        Row::TaskReturn => WireCanon::TaskReturn {
            result: optional_value(two(node.leaves).0),
            opts,
        },
        Row::StreamRead => WireCanon::StreamRead(index(two(node.leaves).0), opts),
        Row::StreamWrite => WireCanon::StreamWrite(index(two(node.leaves).0), opts),
        Row::FutureRead => WireCanon::FutureRead(index(two(node.leaves).0), opts),
        Row::FutureWrite => WireCanon::FutureWrite(index(two(node.leaves).0), opts),
        Row::ErrorContextNew => WireCanon::ErrorContextNew(opts),
        Row::ErrorContextDebugMessage => WireCanon::ErrorContextDebugMessage(opts),
        _ => unreachable!(),
    }
}

/// The canonical function with options that a node is. It is refused where memory ran out.
#[tactic(auto, using(crate::proofs::Options::some_leaf, crate::proofs::Options::are_options))]
pub fn canon_with_options_of(alloc: Global, node: &Node<'_, '_>) -> Result<WireCanon, AllocError>
    requires { IsWithOptions (node_of node.now) }
    ensures { IfOk result (λ v. canon_row v ≡ node_of node.now) }
{
    let opts = entries::<CanonicalOption>(alloc, last(node.leaves))?;
    Ok(with_options(node, opts))
}
