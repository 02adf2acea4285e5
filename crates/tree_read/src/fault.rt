//! Why a reader stops.

ghost use Rattle.std.specs.Prelude.{◌≡◌, Err};
ghost use Rattle.tree_read.specs.Comes.{as_fault, as_result, FailsBy};
ghost use Rattle.wast_grammar.specs.Stand.{Stand};
ghost use Rattle.wast_grammar.specs.Read.{Outcome, FailsAs};

use std::alloc::AllocError;
use wast_parser::{Error, ErrorKind};

/// Why a reader stops. It takes one byte, so that answers pass in registers; where the refused token stands is where the reader does.
#[derive(Clone, Copy)]
pub(crate) enum Fault {
    /// The next token doesn't fit.
    Parse,
    /// A checked item begins below more than 100 open parentheses.
    TooDeep,
    /// Memory ran out.
    NoMemory,
}

/// How a reader by rules ends. It takes one byte, so that a call in the last place becomes a jump.
#[derive(Clone, Copy)]
pub(crate) enum Answer {
    /// All was read.
    Done,
    /// The next token doesn't fit.
    Parse,
    /// A checked item begins below more than 100 open parentheses.
    TooDeep,
    /// Memory ran out.
    NoMemory,
}

/// Why a reader stops, as its answer.
#[inline]
pub(crate) fn stopped(fault: Fault) -> Answer
    ensures { as_result result ≡ Err fault }
{
    match fault {
        Fault::Parse => Answer::Parse,
        Fault::TooDeep => Answer::TooDeep,
        Fault::NoMemory => Answer::NoMemory,
    }
}

/// What a part came to, as an answer.
#[inline]
pub(crate) fn answered(part: Result<(), Fault>) -> Answer
    ensures { as_result result ≡ part }
{
    match part {
        Ok(()) => Answer::Done,
        Err(fault) => stopped(fault),
    }
}

/// What was made, or want of memory, as an answer.
#[inline]
pub(crate) fn made(part: Result<(), AllocError>) -> Answer
    ensures { as_result result ≡ as_fault part }
{
    match part {
        Ok(()) => Answer::Done,
        Err(AllocError) => Answer::NoMemory,
    }
}

/// What was made, or want of memory.
#[inline]
pub(crate) fn stored(made: Result<(), AllocError>) -> Result<(), Fault>
    ensures { result ≡ as_fault made }
{
    match made {
        Ok(()) => Ok(()),
        Err(AllocError) => Err(Fault::NoMemory),
    }
}

/// Why a reader of the parser stopped.
pub(crate) fn fault_of(refusal: Error) -> Fault
    requires { (s : Stand) × (o : Outcome) × FailsAs refusal.kind refusal.offset s o }
    ensures { (s : Stand) (o : Outcome) → FailsAs refusal.kind refusal.offset s o → FailsBy result s o }
{
    match refusal.kind {
        ErrorKind::Parse => Fault::Parse,
        ErrorKind::TooDeep => Fault::TooDeep,
        ErrorKind::NoMemory => Fault::NoMemory,
        _ => unreachable!(),
    }
}
