//! Refusals.

ghost use Rattle.std.specs.Prelude.{◌≡◌};
ghost use Rattle.open_scopes.specs.Refusals.{no_memory};

use wast_parser::{Error, ErrorKind};

/// Want of memory: an allocation was refused.
pub fn no_memory() -> Error
    ensures { result ≡ no_memory }
{
    Error {
        kind: ErrorKind::NoMemory,
        offset: 0,
    }
}
