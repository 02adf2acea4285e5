//! Refusals in plain words.

ghost use Rattle.std.specs.Prelude.{◌≡◌, IfErr};
ghost use Rattle.wast_tokens.specs.declared.error.ErrorKind.TheVariants.{NoMemory};

use crate::error::{CoreRule, Error, ErrorKind, FormKind, LexFault};
use std::alloc::Global;

/// What is wrong with the characters of a text.
fn words_of_fault(fault: LexFault) -> &'static str {
    match fault {
        LexFault::UnclosedString => "unclosed string",
        LexFault::BadStringChar => "invalid character in a string",
        LexFault::BadEscape => "invalid escape in a string",
        LexFault::UnclosedComment => "unclosed block comment",
        LexFault::BadChar => "unexpected character",
        LexFault::EmptyId => "empty identifier or annotation name",
        LexFault::BadIdText => "identifier that is not valid UTF-8",
        LexFault::Glued => "missing white space after the name of an annotation",
    }
}

/// Which form isn't supported, and which part of the text holds it.
fn words_of_form(form: FormKind) -> &'static str {
    match form {
        FormKind::U1 =>
            "attributes of an import or export name are not supported, in the definition",
        FormKind::U2 => "map types are not supported, in the definition",
        FormKind::U3 => "value imports and exports are not supported, in the definition",
        FormKind::U4 => "the options `gc` and `core-type` are not supported, in the definition",
        FormKind::U5 => "this built-in function is not supported, in the definition",
        FormKind::U6 => "this core type is not supported, in the definition",
        FormKind::U7 => "a field or instruction is not supported, in the core module's field",
    }
}

/// Which rule of core modules is broken.
fn words_of_rule(rule: CoreRule) -> &'static str {
    match rule {
        CoreRule::Duplicate => "name that is already defined in the core module",
        CoreRule::Unknown => "unknown name in a core module",
        CoreRule::ImportOrder =>
            "import after a function, table, memory or global of the core module",
        CoreRule::TypeMismatch => "type use that does not match the type of its index",
    }
}

/// What is wrong.
fn words_of(kind: ErrorKind) -> &'static str {
    match kind {
        ErrorKind::TooBig { .. } => "too big a text or component",
        ErrorKind::Lex(fault) => words_of_fault(fault),
        ErrorKind::Parse => "unexpected token or end of the text",
        ErrorKind::TooDeep => "more than 100 open parentheses",
        ErrorKind::Module => "core module where a component is expected",
        ErrorKind::Form(form) => words_of_form(form),
        ErrorKind::Duplicate => "name that is already defined",
        ErrorKind::Unknown => "unknown name",
        ErrorKind::OuterKind => "name of an enclosing component whose sort has no outer aliases",
        ErrorKind::OuterComponent => "outer alias of a name that no enclosing scope has",
        ErrorKind::OuterCount => "outer count is not smaller than the number of open scopes",
        ErrorKind::CoreExportKind => "export name after a core type or a core instance",
        ErrorKind::Core(rule) => words_of_rule(rule),
        ErrorKind::Failed => "component that was refused before",
        ErrorKind::NoMemory => "out of memory",
    }
}

impl Error {
    /// What is wrong, in plain words, with the offset in bytes at which it shows; of what is too big also its size and the limit.
    ///
    /// Want of memory for the words is `NoMemory` at offset 0. The words are for people: nothing but the tests says which they are.
    pub fn message(&self, alloc: Global) -> Result<String, Error>
        ensures refused { IfErr result (λ e. (e.kind ≡ NoMemory) × (e.offset ≡ 0)) }
    {
        let mut message = String::from_str(alloc, words_of(self.kind))?;
        if let ErrorKind::TooBig { found, limit } = self.kind {
            message.push_str(" (")?;
            message.push_str(found.to_string(alloc)?.as_str())?;
            message.push_str(" of ")?;
            message.push_str(limit.to_string(alloc)?.as_str())?;
            message.push_str(")")?;
        }
        message.push_str(" at byte ")?;
        message.push_str(self.offset.to_string(alloc)?.as_str())?;
        Ok(message)
    }
}
