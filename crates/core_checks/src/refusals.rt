//! Refusals by the rules.

ghost use Rattle.std.specs.Prelude.{◌≡◌};
ghost use Rattle.wast_tokens.specs.declared.error.ErrorKind.TheVariants.{Core, NoMemory};
ghost use Rattle.core_names.specs.Names.{refusal};
ghost use Rattle.core_checks.specs.Refusals.{as_core_rule};

use wast_parser::{CoreRule, Error, ErrorKind, Span};

/// A rule that is broken there.
pub(crate) fn broken(rule: CoreRule, span: Span) -> Error
    ensures { result ≡ refusal (Core rule) span.offset }
{
    Error {
        kind: ErrorKind::Core(rule),
        offset: span.offset,
    }
}

/// A refusal of a namespace as that of a core module.
pub(crate) fn in_module(refusal: Error) -> Error
    ensures { result ≡ as_core_rule refusal }
{
    match refusal.kind {
        ErrorKind::Duplicate => Error {
            kind: ErrorKind::Core(CoreRule::Duplicate),
            offset: refusal.offset,
        },
        _ => refusal,
    }
}

/// Want of memory.
pub(crate) fn no_memory() -> Error
    ensures { result ≡ refusal NoMemory 0 }
{
    Error {
        kind: ErrorKind::NoMemory,
        offset: 0,
    }
}
