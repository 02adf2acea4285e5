//! Canonical functions and built-ins.

use crate::answer::print_read;
use comp_canon::{
    CanonErrorContextDebugMessage, CanonErrorContextNew, CanonFutureCancelRead,
    CanonFutureCancelWrite, CanonFutureDropReadable, CanonFutureDropWritable, CanonFutureForward,
    CanonFutureNew, CanonFutureRead, CanonFutureWrite, CanonLift, CanonLower, CanonResourceDrop,
    CanonResourceNew, CanonResourceRep, CanonStreamCancelRead, CanonStreamCancelWrite,
    CanonStreamDropReadable, CanonStreamDropWritable, CanonStreamForward, CanonStreamNew,
    CanonStreamRead, CanonStreamWrite, CanonSubtaskCancel, CanonThreadAvailableParallelism,
    CanonThreadNewIndirect, CanonThreadSpawnIndirect, CanonThreadSpawnRef, CanonWaitableSetPoll,
    CanonWaitableSetWait,
};
use std::io;
use wast_parser::ParseBuffer;

/// Prints a canonical function or a built-in that is of no stream and no future, by its word.
pub fn print_canon<'a>(
    rt: &HostRuntime,
    name: &str,
    buffer: &'a ParseBuffer<'a>,
) -> Result<(), io::Error> {
    match name {
        "lift" => print_read::<CanonLift<'a>>(rt, buffer),
        "lower" => print_read::<CanonLower<'a>>(rt, buffer),
        "resource.new" => print_read::<CanonResourceNew<'a>>(rt, buffer),
        "resource.drop" => print_read::<CanonResourceDrop<'a>>(rt, buffer),
        "resource.rep" => print_read::<CanonResourceRep<'a>>(rt, buffer),
        "subtask.cancel" => print_read::<CanonSubtaskCancel>(rt, buffer),
        "error-context.new" => print_read::<CanonErrorContextNew<'a>>(rt, buffer),
        "error-context.debug-message" => {
            print_read::<CanonErrorContextDebugMessage<'a>>(rt, buffer)
        }
        "waitable-set.wait" => print_read::<CanonWaitableSetWait<'a>>(rt, buffer),
        "waitable-set.poll" => print_read::<CanonWaitableSetPoll<'a>>(rt, buffer),
        "thread.spawn-ref" => print_read::<CanonThreadSpawnRef<'a>>(rt, buffer),
        "thread.spawn-indirect" => print_read::<CanonThreadSpawnIndirect<'a>>(rt, buffer),
        "thread.new-indirect" => print_read::<CanonThreadNewIndirect<'a>>(rt, buffer),
        "thread.available-parallelism" => print_read::<CanonThreadAvailableParallelism>(rt, buffer),
        _ => println!(rt; "  no type"),
    }
}

/// Prints a built-in of streams or futures, by its word.
pub fn print_built_in<'a>(
    rt: &HostRuntime,
    name: &str,
    buffer: &'a ParseBuffer<'a>,
) -> Result<(), io::Error> {
    match name {
        "stream.new" => print_read::<CanonStreamNew<'a>>(rt, buffer),
        "stream.read" => print_read::<CanonStreamRead<'a>>(rt, buffer),
        "stream.write" => print_read::<CanonStreamWrite<'a>>(rt, buffer),
        "stream.forward" => print_read::<CanonStreamForward<'a>>(rt, buffer),
        "stream.cancel-read" => print_read::<CanonStreamCancelRead<'a>>(rt, buffer),
        "stream.cancel-write" => print_read::<CanonStreamCancelWrite<'a>>(rt, buffer),
        "stream.drop-readable" => print_read::<CanonStreamDropReadable<'a>>(rt, buffer),
        "stream.drop-writable" => print_read::<CanonStreamDropWritable<'a>>(rt, buffer),
        "future.new" => print_read::<CanonFutureNew<'a>>(rt, buffer),
        "future.read" => print_read::<CanonFutureRead<'a>>(rt, buffer),
        "future.write" => print_read::<CanonFutureWrite<'a>>(rt, buffer),
        "future.forward" => print_read::<CanonFutureForward<'a>>(rt, buffer),
        "future.cancel-read" => print_read::<CanonFutureCancelRead<'a>>(rt, buffer),
        "future.cancel-write" => print_read::<CanonFutureCancelWrite<'a>>(rt, buffer),
        "future.drop-readable" => print_read::<CanonFutureDropReadable<'a>>(rt, buffer),
        "future.drop-writable" => print_read::<CanonFutureDropWritable<'a>>(rt, buffer),
        _ => println!(rt; "  no type"),
    }
}
