//! Canonical functions: lifting, lowering, and the built-in functions.

use crate::seq::Seq;
use crate::values::{ComponentValType, WireVal};

/// An option of a canonical function.
#[derive(Clone, Copy, PartialEq, Eq, Debug)]
pub enum CanonicalOption {
    /// Strings are UTF-8.
    UTF8,
    /// Strings are UTF-16.
    UTF16,
    /// Strings are Latin-1 or UTF-16.
    CompactUTF16,
    /// The core memory of this index.
    Memory(u32),
    /// The core function of this index gives memory.
    Realloc(u32),
    /// The core function of this index is called behind a call.
    PostReturn(u32),
    /// The call is asynchronous.
    Async,
    /// The core function of this index takes events.
    Callback(u32),
}

/// A canonical function. A `u32` alone is the index of a type, and a `bool` is true where async is written.
#[derive(Drop)]
pub enum WireCanon {
    /// A core function lifted to a function of this type.
    Lift {
        ty: u32,
        core_func: u32,
        opts: Seq<CanonicalOption>,
    },
    /// A function lowered to a core function.
    Lower {
        func: u32,
        opts: Seq<CanonicalOption>,
    },
    ResourceNew(u32),
    ResourceDrop(u32),
    ResourceRep(u32),
    TaskCancel,
    SubtaskCancel(bool),
    SubtaskDrop,
    /// The result of a task is given.
    TaskReturn {
        result: Option<ComponentValType>,
        opts: Seq<CanonicalOption>,
    },
    /// The type and the number of a slot.
    ContextGet(WireVal, u32),
    /// The type and the number of a slot.
    ContextSet(WireVal, u32),
    StreamNew(u32),
    StreamRead(u32, Seq<CanonicalOption>),
    StreamWrite(u32, Seq<CanonicalOption>),
    StreamCancelRead(u32, bool),
    StreamCancelWrite(u32, bool),
    StreamDropReadable(u32),
    StreamDropWritable(u32),
    FutureNew(u32),
    FutureRead(u32, Seq<CanonicalOption>),
    FutureWrite(u32, Seq<CanonicalOption>),
    FutureCancelRead(u32, bool),
    FutureCancelWrite(u32, bool),
    FutureDropReadable(u32),
    FutureDropWritable(u32),
    ErrorContextNew(Seq<CanonicalOption>),
    ErrorContextDebugMessage(Seq<CanonicalOption>),
    ErrorContextDrop,
    WaitableSetNew,
    WaitableSetDrop,
    WaitableJoin,
    BackpressureInc,
    BackpressureDec,
    /// The index is of a core type.
    ThreadSpawnRef(u32),
    /// The indices of a core type and of a core table.
    ThreadSpawnIndirect {
        ty: u32,
        table: u32,
    },
    ThreadAvailableParallelism,
}
