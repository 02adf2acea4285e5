//! Canonical functions and built-ins, with a type for each (Component Model, "Canonical Definitions").
//!
//! Each type is read by its line of the table, goes into the tree and comes out of it as the leaves of its row; `specs/Stands` says which they are.
#![tactic(auto)]

mod errors;
mod futures;
mod lift;
mod lines;
mod parallelism;
mod resources;
mod streams;
mod tasks;
mod threads;
mod waitables;

pub use errors::{CanonErrorContextDebugMessage, CanonErrorContextNew};
pub use futures::{
    CanonFutureCancelRead, CanonFutureCancelWrite, CanonFutureDropReadable,
    CanonFutureDropWritable, CanonFutureForward, CanonFutureNew, CanonFutureRead, CanonFutureWrite,
};
pub use lift::{CanonLift, CanonLower};
pub use parallelism::CanonThreadAvailableParallelism;
pub use resources::{CanonResourceDrop, CanonResourceNew, CanonResourceRep};
pub use streams::{
    CanonStreamCancelRead, CanonStreamCancelWrite, CanonStreamDropReadable,
    CanonStreamDropWritable, CanonStreamForward, CanonStreamNew, CanonStreamRead, CanonStreamWrite,
};
pub use tasks::CanonSubtaskCancel;
pub use threads::{CanonThreadNewIndirect, CanonThreadSpawnIndirect, CanonThreadSpawnRef};
pub use waitables::{CanonWaitableSetPoll, CanonWaitableSetWait};
