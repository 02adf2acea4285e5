//! The lines of a plan, and what a line says.

ghost use Rattle.std.specs.Prelude.{◌≡◌, ◌∷◌, [], ◌^◌, ◌<◌, ◌≤◌, MatchOption, IfSome, Some, None, option_map, is_some, true};
ghost use Rattle.std.specs.List.{list_all};
ghost use Rattle.plan_lines.specs.Lines as plan;
ghost use Rattle.plan_lines.specs.Lines.{is_between, made_of, two_of};
ghost use Rattle.plan_lines.specs.Words.{pieces};
ghost use Rattle.plan_lines.specs.declared.line.Line.TheVariants.{Instance};
ghost use Rattle.plan_lines.specs.Shown.{word_of, rest_of, span, argument_of, words_of, test_of, SpansBelow, Says, LineWithin};

use crate::words::{Word, cut};

/// An argument of an instance: the text that names it, and the name of the instance that is passed.
#[derive(Clone, Copy)]
pub struct Argument<'p> {
    /// The text.
    pub text: Word<'p>,
    /// The name of the instance.
    pub instance: Word<'p>,
}

/// What a line says.
#[derive(Clone, Copy)]
pub enum Line<'p> {
    /// A component by its bytes in hexadecimal.
    Part {
        /// Its name.
        name: Word<'p>,
        /// The bytes.
        digits: Word<'p>,
    },
    /// A part instantiated.
    Instance {
        /// The name of the instance.
        name: Word<'p>,
        /// The name of the part.
        part: Word<'p>,
        /// The arguments, one behind the other; none where there are none.
        arguments: Option<Word<'p>>,
    },
    /// An instance exported.
    Export {
        /// The text by which it is exported.
        text: Word<'p>,
        /// The name of the instance.
        instance: Word<'p>,
    },
}

/// What a word may be.
#[derive(Clone, Copy)]
enum Kind {
    /// Letters, digits and `-`.
    Name,
    /// Printed characters of ASCII other than the space and `=`.
    Text,
    /// Hexadecimal digits of either case.
    Digits,
}

/// Whether a byte may stand in a word of this kind.
fn allows(kind: Kind, byte: u8) -> bool
    ensures { result ≡ test_of kind byte }
{
    match kind {
        Kind::Name => is_between(97, byte, 122) || is_between(48, byte, 57) || byte == 45,
        Kind::Text => is_between(33, byte, 126) && byte != 61,
        Kind::Digits => is_between(48, byte, 57)
            || is_between(65, byte, 70)
            || is_between(97, byte, 102),
    }
}

/// Whether a byte is none below the first and none above the last.
fn is_between(first: u8, byte: u8, last: u8) -> bool
    ensures { result ≡ is_between first byte last }
{
    first <= byte && byte <= last
}

/// Whether each byte may stand in a word of this kind.
fn all_allowed(kind: Kind, bytes: &[u8]) -> bool
    ensures { result ≡ list_all (test_of kind) bytes.now }
{
    for byte in bytes {
        if !allows(kind, *byte) {
            return false;
        }
    }
    true
}

/// Whether a word is of this kind: one or more bytes that may stand in it.
fn is_of(kind: Kind, word: &Word<'_>) -> bool
    ensures { result ≡ made_of (test_of kind) (word_of word.now) }
{
    !word.bytes.is_empty() && all_allowed(kind, word.bytes)
}

/// The two words, where they are of these kinds.
fn both_of<'p>(
    first: Word<'p>,
    first_kind: Kind,
    second: Word<'p>,
    second_kind: Kind,
) -> Option<(Word<'p>, Word<'p>)>
    ensures words { option_map words_of result ≡ two_of (test_of first_kind) (test_of second_kind) (word_of first.entry ∷ word_of second.entry ∷ []) }
    ensures same { IfSome result (λ p. (p.0 ≡ first.entry) × (p.1 ≡ second.entry)) }
{
    if is_of(first_kind, &first) && is_of(second_kind, &second) {
        Some((first, second))
    } else {
        None
    }
}

/// The two pieces of a word, where there are two, of these kinds.
fn two_of<'p>(
    value: u8,
    word: Word<'p>,
    first_kind: Kind,
    second_kind: Kind,
) -> Option<(Word<'p>, Word<'p>)>
    requires { span word < 2 ^ 64 }
    ensures words { option_map words_of result ≡ two_of (test_of first_kind) (test_of second_kind) (pieces value (word_of word.entry)) }
    ensures spans { IfSome result (λ p. (span p.0 ≤ span word.entry) × (span p.1 ≤ span word.entry)) }
{
    let (first, rest) = cut(word, value);
    match rest {
        None => None,
        Some(rest) => {
            let (second, more) = cut(rest, value);
            match more {
                None => both_of(first, first_kind, second, second_kind),
                Some(_) => None,
            }
        }
    }
}

/// The argument that a word is: a text, `=` and the name of an instance.
pub fn read_argument<'p>(word: Word<'p>) -> Option<Argument<'p>>
    requires { span word < 2 ^ 64 }
    ensures argument { option_map argument_of result ≡ plan.argument (word_of word.entry) }
    ensures spans { IfSome result (λ a. (span a.text ≤ span word.entry) × (span a.instance ≤ span word.entry)) }
{
    match two_of(b'=', word, Kind::Text, Kind::Name) {
        None => None,
        Some((text, instance)) => Some(Argument { text, instance }),
    }
}

/// Whether each piece of what is left of a line is an argument.
fn are_arguments(rest: Option<Word<'_>>) -> bool
    requires { SpansBelow rest (2 ^ 64) }
    ensures { result ≡ is_some (plan.arguments (rest_of 32 rest.entry)) }
{
    let mut left = rest;
    while let Some(word) = left {
        let (argument, more) = cut(word, b' ');
        if read_argument(argument).is_none() {
            return false;
        }
        left = more;
    }
    true
}

/// What a line of a part says behind its first word.
fn part_line<'p>(rest: Word<'p>) -> Option<Line<'p>>
    requires { span rest < 2 ^ 64 }
    ensures said { Says result (plan.part_line (pieces 32 (word_of rest.entry))) }
    ensures spans { LineWithin result (span rest.entry) }
{
    match two_of(b' ', rest, Kind::Name, Kind::Digits) {
        None => None,
        Some((name, digits)) => Some(Line::Part { name, digits }),
    }
}

/// What a line of an export says behind its first word.
fn export_line<'p>(rest: Word<'p>) -> Option<Line<'p>>
    requires { span rest < 2 ^ 64 }
    ensures said { Says result (plan.export_line (pieces 32 (word_of rest.entry))) }
    ensures spans { LineWithin result (span rest.entry) }
{
    match two_of(b' ', rest, Kind::Text, Kind::Name) {
        None => None,
        Some((text, instance)) => Some(Line::Export { text, instance }),
    }
}

/// The instance of these words, where they are names and arguments.
fn instance_of<'p>(name: Word<'p>, part: Word<'p>, arguments: Option<Word<'p>>) -> Option<Line<'p>>
    requires { SpansBelow arguments (2 ^ 64) }
    ensures said { Says result (plan.instance_line (word_of name.entry ∷ word_of part.entry ∷ rest_of 32 arguments.entry)) }
    ensures same { IfSome result (λ l. l ≡ Instance name.entry part.entry arguments.entry) }
{
    if is_of(Kind::Name, &name) && is_of(Kind::Name, &part) && are_arguments(arguments) {
        Some(Line::Instance {
            name,
            part,
            arguments,
        })
    } else {
        None
    }
}

/// What a line of an instance says behind its first word.
fn instance_line<'p>(rest: Word<'p>) -> Option<Line<'p>>
    requires { span rest < 2 ^ 64 }
    ensures said { Says result (plan.instance_line (pieces 32 (word_of rest.entry))) }
    ensures spans { LineWithin result (span rest.entry) }
{
    let (name, rest) = cut(rest, b' ');
    match rest {
        None => None,
        Some(rest) => {
            let (part, arguments) = cut(rest, b' ');
            instance_of(name, part, arguments)
        }
    }
}

/// What a line says; none where it says nothing.
pub fn read_line<'p>(line: Word<'p>) -> Option<Line<'p>>
    requires { span line < 2 ^ 64 }
    ensures said { Says result (plan.line (word_of line.entry)) }
    ensures spans { LineWithin result (span line.entry) }
{
    let (first, rest) = cut(line, b' ');
    match rest {
        None => None,
        Some(rest) => {
            if first.bytes == b"part".as_slice() {
                part_line(rest)
            } else if first.bytes == b"instance".as_slice() {
                instance_line(rest)
            } else if first.bytes == b"export".as_slice() {
                export_line(rest)
            } else {
                None
            }
        }
    }
}
