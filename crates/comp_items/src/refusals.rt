//! The refusal for want of memory.

ghost use Rattle.std.specs.Prelude.{◌≡◌};
ghost use Rattle.wast_tokens.specs.declared.error.ErrorKind.{ErrorKind as Kind};
ghost use Rattle.wast_tokens.specs.declared.error.ErrorKind.TheVariants as kinds;

use wast_parser::{Error, ErrorKind};

/// Want of memory.
pub(crate) fn no_room() -> Error
    ensures kind { result.kind ≡ kinds.NoMemory }
    ensures offset { result.offset ≡ 0 }
{
    Error {
        kind: ErrorKind::NoMemory,
        offset: 0,
    }
}
