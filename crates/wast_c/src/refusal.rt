//! Refusals as C has them: the number of a kind, its printed name, and what is wrong in plain words.

ghost use Rattle.std.specs.Prelude.{◌≡◌, ◌≢◌, ◌⊎◌, ℕ, List, IfNone, MatchOption};
ghost use Rattle.std.specs.Str.{IsUtf8};
ghost use Rattle.wast_tokens.specs.declared.error.ErrorKind.{ErrorKind as Kind};
ghost use Rattle.wast_c.specs.Answer.{Tells, IsNoRefusal};
ghost use Rattle.wast_c.specs.Buffer.{IsHandedOut};
ghost use Rattle.wast_c.specs.Kinds.{lex_number, form_number, core_number, kind_number, HasName};
ghost use Rattle.wast_c.specs.Status.{out_of_memory, no_kind};

use crate::buffer::hand_out;
use crate::status::{NO_KIND, NO_MEMORY};
use std::alloc::Global;
use wast_refusals::kind_name;
use wast_tokens::{CoreRule, Error, ErrorKind, FormKind, LexFault};

/// Why a text is refused, and where: `struct wast_refusal`.
#[repr(C)]
#[derive(Clone, Copy)]
pub struct WastRefusal {
    /// The number of its kind; 0 where there is none.
    pub kind: u32,
    /// Where, in bytes from the beginning of the text.
    pub offset: u64,
    /// Of what is too big its length in bytes or its weight, else 0.
    pub found: u64,
    /// Of what is too big the limit that it passes, else 0.
    pub limit: u64,
}

/// The number of a fault of the lexical grammar.
fn lex_number(fault: LexFault) -> u32
    ensures { result ≡ lex_number fault }
{
    match fault {
        LexFault::UnclosedString => 17,
        LexFault::BadStringChar => 18,
        LexFault::BadEscape => 19,
        LexFault::UnclosedComment => 20,
        LexFault::BadChar => 21,
        LexFault::EmptyId => 22,
        LexFault::BadIdText => 23,
        LexFault::Glued => 24,
    }
}

/// The number of a form that is read and not written.
fn form_number(form: FormKind) -> u32
    ensures { result ≡ form_number form }
{
    match form {
        FormKind::U1 => 33,
        FormKind::U2 => 34,
        FormKind::U3 => 35,
        FormKind::U4 => 36,
        FormKind::U5 => 37,
        FormKind::U6 => 38,
        FormKind::U7 => 39,
    }
}

/// The number of a rule that a core module breaks.
fn core_number(rule: CoreRule) -> u32
    ensures { result ≡ core_number rule }
{
    match rule {
        CoreRule::Duplicate => 49,
        CoreRule::Unknown => 50,
        CoreRule::ImportOrder => 51,
        CoreRule::TypeMismatch => 52,
    }
}

/// The number of a kind of refusal.
fn kind_number(kind: ErrorKind) -> u32
    ensures { result ≡ kind_number kind }
{
    match kind {
        ErrorKind::TooBig { .. } => 1,
        ErrorKind::Lex(fault) => lex_number(fault),
        ErrorKind::Parse => 2,
        ErrorKind::TooDeep => 3,
        ErrorKind::Module => 4,
        ErrorKind::Form(form) => form_number(form),
        ErrorKind::Duplicate => 5,
        ErrorKind::Unknown => 6,
        ErrorKind::OuterKind => 7,
        ErrorKind::OuterComponent => 8,
        ErrorKind::OuterCount => 9,
        ErrorKind::CoreExportKind => 10,
        ErrorKind::Core(rule) => core_number(rule),
        ErrorKind::Failed => 11,
        ErrorKind::NoMemory => 0,
    }
}

/// A refusal for C.
pub fn refusal_of(error: Error) -> WastRefusal
    ensures { Tells result error.kind error.offset }
{
    let (found, limit) = match error.kind {
        ErrorKind::TooBig { found, limit } => (found, limit),
        _ => (0, 0),
    };
    WastRefusal {
        kind: kind_number(error.kind),
        offset: error.offset as u64,
        found,
        limit,
    }
}

/// The kind with a number, of what is too big with its size and the limit.
fn kind_of(number: u32, found: u64, limit: u64) -> Option<ErrorKind>
    ensures { MatchOption result ((kind : Kind) → kind_number kind ≢ number) (λ kind. kind_number kind ≡ number) }
{
    Some(match number {
        0 => ErrorKind::NoMemory,
        1 => ErrorKind::TooBig { found, limit },
        2 => ErrorKind::Parse,
        3 => ErrorKind::TooDeep,
        4 => ErrorKind::Module,
        5 => ErrorKind::Duplicate,
        6 => ErrorKind::Unknown,
        7 => ErrorKind::OuterKind,
        8 => ErrorKind::OuterComponent,
        9 => ErrorKind::OuterCount,
        10 => ErrorKind::CoreExportKind,
        11 => ErrorKind::Failed,
        17 => ErrorKind::Lex(LexFault::UnclosedString),
        18 => ErrorKind::Lex(LexFault::BadStringChar),
        19 => ErrorKind::Lex(LexFault::BadEscape),
        20 => ErrorKind::Lex(LexFault::UnclosedComment),
        21 => ErrorKind::Lex(LexFault::BadChar),
        22 => ErrorKind::Lex(LexFault::EmptyId),
        23 => ErrorKind::Lex(LexFault::BadIdText),
        24 => ErrorKind::Lex(LexFault::Glued),
        33 => ErrorKind::Form(FormKind::U1),
        34 => ErrorKind::Form(FormKind::U2),
        35 => ErrorKind::Form(FormKind::U3),
        36 => ErrorKind::Form(FormKind::U4),
        37 => ErrorKind::Form(FormKind::U5),
        38 => ErrorKind::Form(FormKind::U6),
        39 => ErrorKind::Form(FormKind::U7),
        49 => ErrorKind::Core(CoreRule::Duplicate),
        50 => ErrorKind::Core(CoreRule::Unknown),
        51 => ErrorKind::Core(CoreRule::ImportOrder),
        52 => ErrorKind::Core(CoreRule::TypeMismatch),
        _ => return None,
    })
}

/// The refusal that C has, if there is one with its kind and its offset.
fn error_of(why: &WastRefusal) -> Option<Error>
    ensures { IfNone result (IsNoRefusal why.now) }
{
    let offset = u32::try_from(why.offset).ok()?;
    let kind = kind_of(why.kind, why.found, why.limit)?;
    Some(Error { kind, offset })
}

/// Writes the printed name of the kind of refusal with the number `kind` to `out`, and its length to `needed`: the word that the program
/// prints (`wast_refusals`).
///
/// Answers `DONE`; `TOO_SHORT` with the length that is needed; or `NO_KIND` where no kind with a name has the number: 0 is want of memory,
/// which has none. Nothing is written but by `DONE`, and of `needed` by `TOO_SHORT`.
#[unsafe(no_mangle)]
pub extern "C" fn wast_kind_name(kind: u32, out: &mut [u8], needed: &mut usize) -> u8
    ensures named { (name : List ℕ) → HasName kind name → IsHandedOut name result out.old out.new needed.new }
    ensures nameless { ((name : List ℕ) → ¬ (HasName kind name)) → (result ≡ no_kind) × (out.new ≡ out.old) × (needed.new ≡ needed.old) }
{
    let kind = match kind_of(kind, 0, 0) {
        Some(kind) => kind,
        None => return NO_KIND,
    };
    match kind_name(kind) {
        Some(name) => hand_out(name.as_bytes(), out, needed),
        None => NO_KIND,
    }
}

/// Writes what is wrong, in plain words with the offset, to `out`, and the length of these words to `needed`: the message of the library
/// ([`Error::message`]), which is UTF-8.
///
/// `why` is a refusal that [`wast_encode`](crate::wast_encode) or [`wast_origins`](crate::wast_origins) gave. Answers `DONE`; `TOO_SHORT` with
/// the length that is needed; `NO_MEMORY`; or `NO_KIND` where no refusal has the kind or the offset. Nothing is written but by `DONE`, and of
/// `needed` by `TOO_SHORT`.
#[unsafe(no_mangle)]
pub extern "C" fn wast_message(
    alloc: Global,
    why: &WastRefusal,
    out: &mut [u8],
    needed: &mut usize,
) -> u8
    ensures answers { ((words : List ℕ) × IsUtf8 words × IsHandedOut words result out.old out.new needed.new)
        ⊎ (((result ≡ out_of_memory) ⊎ ((result ≡ no_kind) × IsNoRefusal why.now)) × (out.new ≡ out.old) × (needed.new ≡ needed.old)) }
{
    let refusal = match error_of(why) {
        Some(error) => error,
        None => return NO_KIND,
    };
    match refusal.message(alloc) {
        Ok(words) => hand_out(words.as_str().as_bytes(), out, needed),
        Err(_) => NO_MEMORY,
    }
}
