//! The printed name of each kind of refusal.

ghost use Rattle.std.specs.Prelude.{◌≡◌};
ghost use Rattle.std.specs.Option.{option_copied};
ghost use Rattle.wast_refusals.specs.Kinds.{lex_name, form_name, core_name, kind_name};

use wast_tokens::{CoreRule, ErrorKind, FormKind, LexFault};

/// The printed name of a fault of the lexical grammar.
fn lex_name(fault: LexFault) -> &'static str
    ensures { result.now ≡ lex_name fault }
{
    match fault {
        LexFault::UnclosedString => "Lex-UnclosedString",
        LexFault::BadStringChar => "Lex-BadStringChar",
        LexFault::BadEscape => "Lex-BadEscape",
        LexFault::UnclosedComment => "Lex-UnclosedComment",
        LexFault::BadChar => "Lex-BadChar",
        LexFault::EmptyId => "Lex-EmptyId",
        LexFault::BadIdText => "Lex-BadIdText",
        LexFault::Glued => "Lex-Glued",
    }
}

/// The printed name of a form that is read and not written.
fn form_name(form: FormKind) -> &'static str
    ensures { result.now ≡ form_name form }
{
    match form {
        FormKind::U1 => "Form-U1",
        FormKind::U2 => "Form-U2",
        FormKind::U3 => "Form-U3",
        FormKind::U4 => "Form-U4",
        FormKind::U5 => "Form-U5",
        FormKind::U6 => "Form-U6",
        FormKind::U7 => "Form-U7",
    }
}

/// The printed name of a rule that a core module breaks.
fn core_name(rule: CoreRule) -> &'static str
    ensures { result.now ≡ core_name rule }
{
    match rule {
        CoreRule::Duplicate => "Core-Duplicate",
        CoreRule::Unknown => "Core-Unknown",
        CoreRule::ImportOrder => "Core-ImportOrder",
        CoreRule::TypeMismatch => "Core-TypeMismatch",
    }
}

/// The printed name of a refusal's kind. Want of memory has none: it says nothing of the text.
pub fn kind_name(kind: ErrorKind) -> Option<&'static str>
    ensures { option_copied result ≡ kind_name kind }
{
    Some(match kind {
        ErrorKind::TooBig { .. } => "TooBig",
        ErrorKind::Lex(fault) => lex_name(fault),
        ErrorKind::Parse => "Parse",
        ErrorKind::TooDeep => "TooDeep",
        ErrorKind::Module => "Module",
        ErrorKind::Form(form) => form_name(form),
        ErrorKind::Duplicate => "Duplicate",
        ErrorKind::Unknown => "Unknown",
        ErrorKind::OuterKind => "OuterKind",
        ErrorKind::OuterComponent => "OuterComponent",
        ErrorKind::OuterCount => "OuterCount",
        ErrorKind::CoreExportKind => "CoreExportKind",
        ErrorKind::Core(rule) => core_name(rule),
        ErrorKind::Failed => "Failed",
        ErrorKind::NoMemory => return None,
    })
}
