//! Refusals: why a text has no encoding, and where.

ghost use Rattle.std.specs.Prelude.{◌≡◌};
ghost use Rattle.wast_tokens.specs.declared.error.ErrorKind.TheVariants.{NoMemory};

use crate::span::Span;
use std::alloc::{AllocError, AllocFailed};

/// Why a text can't be cut into tokens.
#[derive(Clone, Copy, PartialEq, Eq, Debug)]
pub enum LexFault {
    /// The text ends inside a string.
    UnclosedString,
    /// A string holds a character that it can't hold.
    BadStringChar,
    /// A backslash in a string begins no escape.
    BadEscape,
    /// The text ends inside a block comment.
    UnclosedComment,
    /// A character begins no token.
    BadChar,
    /// An id or an annotation has no name.
    EmptyId,
    /// An id in quotes isn't UTF-8.
    BadIdText,
    /// A run directly follows the name of an annotation.
    Glued,
}

/// A form that is read and not supported: it is never written.
#[derive(Clone, Copy, PartialEq, Eq, Debug)]
pub enum FormKind {
    /// The attributes `implements`, `version-suffix` and `external-id` of a name.
    U1,
    /// The type `map`.
    U2,
    /// A `value` signature of an import, an export or an ascription.
    U3,
    /// The options `gc` and `core-type`.
    U4,
    /// A built-in function that isn't supported, such as `thread.yield`.
    U5,
    /// A core type other than a plain function type, an unusual heap type, or 64-bit or shared limits.
    U6,
    /// A field or an instruction of a core module outside the profile.
    U7,
}

/// A rule that an inline core module breaks.
#[derive(Clone, Copy, PartialEq, Eq, Debug)]
pub enum CoreRule {
    /// Two ids of one space are the same.
    Duplicate,
    /// A name that its space lacks.
    Unknown,
    /// An import after a function, table, memory or global that is none.
    ImportOrder,
    /// A type use whose index and signature differ.
    TypeMismatch,
}

/// Why a text is refused.
#[derive(Clone, Copy, PartialEq, Eq, Debug)]
pub enum ErrorKind {
    /// The text, or the component in it, passes a limit: `found` is its length in bytes or its weight.
    TooBig {
        /// The length or weight.
        found: u64,
        /// The limit that it passes.
        limit: u64,
    },
    /// The text can't be cut into tokens.
    Lex(LexFault),
    /// The tokens aren't of the grammar.
    Parse,
    /// More than 100 parentheses are open.
    TooDeep,
    /// The text is that of a core module, and no component.
    Module,
    /// The component has a form that is read and not written.
    Form(FormKind),
    /// Two declarations of one space of a scope bear the same id.
    Duplicate,
    /// No declaration that a reference can see bears its name.
    Unknown,
    /// Only an enclosing scope declares the name, in a space that can't be reached from here.
    OuterKind,
    /// The first part of an outer alias is the id of no open scope.
    OuterComponent,
    /// The first part of an outer alias isn't below the number of open scopes.
    OuterCount,
    /// An export name follows a reference to a core type or core instance.
    CoreExportKind,
    /// An inline core module breaks a rule.
    Core(CoreRule),
    /// The tree was refused before.
    Failed,
    /// Memory ran out.
    NoMemory,
}

/// A refusal: its kind, and the byte offset in the text that shows why.
#[derive(Clone, Copy, PartialEq, Eq, Debug)]
pub struct Error {
    /// Why.
    pub kind: ErrorKind,
    /// Where, in bytes from the beginning of the text.
    pub offset: u32,
}

impl Error {
    /// Where the text is refused.
    pub fn span(&self) -> Span
        ensures offset { result.offset ≡ self.now.offset }
    {
        Span {
            offset: self.offset,
        }
    }

    /// Why the text is refused.
    pub fn kind(&self) -> ErrorKind
        ensures kind { result ≡ self.now.kind }
    {
        self.kind
    }
}

impl From<AllocError> for Error {
    ghost from_gives = { λ _ e. (e.kind ≡ NoMemory) × (e.offset ≡ 0) };

    fn from(_error: AllocError) -> Error {
        Error {
            kind: ErrorKind::NoMemory,
            offset: 0,
        }
    }
}

impl<T: Drop> From<AllocFailed<T>> for Error {
    ghost from_gives = { λ _ e. (e.kind ≡ NoMemory) × (e.offset ≡ 0) };

    fn from(_error: AllocFailed<T>) -> Error {
        Error {
            kind: ErrorKind::NoMemory,
            offset: 0,
        }
    }
}
