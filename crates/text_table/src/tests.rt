//! Whether a test of the next tokens holds where a parser stands.
//!
//! A reader keeps the numbers of the next two tokens, so most tests compare numbers; a test over several tokens looks on from there, over at most
//! seven of them.

ghost use Rattle.std.specs.Prelude.{◌≡◌, ◌+◌, ◌&&◌, ◌∷◌, List, map};
ghost use Rattle.wast_grammar.specs.Classes.{Class, among};
ghost use Rattle.wast_grammar.specs.Stand.{class_at, class_after};
ghost use Rattle.wast_grammar.specs.Grammar.{fits, is_special};
ghost use Rattle.wast_grammar.specs.Grammar.{holds as test_holds};
ghost use Rattle.wast_parser.specs.View.{stand_of};
ghost use Rattle.token_codes.specs.Numbers.{number, between};
ghost use Rattle.text_table.specs.Code.{test_of, ending_of, silent_of, classes_of, lent_classes};

use crate::rule::{Ending, Silent, Test};
use token_codes::numbers::{
    ARRAY, CLOSING, CONT, FINISH, I64, OPENING, OTHER, SHARED, STRUCT, SUB,
};
use token_codes::{number_at, number_behind};
use wast_parser::{Cursor, Parser};

/// Whether a test holds at a place.
pub fn holds_at(test: &Test<'_>, cursor: Cursor<'_>) -> bool
    ensures { result ≡ test_holds (test_of test.now) (stand_of cursor.entry) }
{
    any_holds(test, cursor, number_at(cursor), number_behind(cursor))
}

/// Whether a test holds where a parser stands. Its next token has the number `code`, and what stands behind that the number `ahead`; the end of the
/// text has the number 0.
///
/// What is asked most often is told here, so that it takes no call.
#[inline]
pub fn holds(test: &Test<'_>, parser: &Parser<'_>, code: u8, ahead: u8) -> bool
    requires next { code ≡ number (class_at parser.now) }
    requires behind { ahead ≡ number (class_after parser.now) }
    ensures { result ≡ test_holds (test_of test.now) parser.now }
{
    match test {
        Test::Next(class) => is_between(*class, code, *class),
        Test::Group(class) => is_opening(code) & is_between(*class, ahead, *class),
        Test::Going => !is_between(FINISH, code, CLOSING),
        _ => any_holds(test, parser.cursor(), code, ahead),
    }
}

/// The same of any test, at a place.
#[inline(never)]
fn any_holds(test: &Test<'_>, cursor: Cursor<'_>, code: u8, ahead: u8) -> bool
    requires next { code ≡ number (class_at (stand_of cursor)) }
    requires behind { ahead ≡ number (class_after (stand_of cursor)) }
    ensures { result ≡ test_holds (test_of test.now) (stand_of cursor.entry) }
{
    match test {
        Test::Next(class) => is_between(*class, code, *class),
        Test::Range(first, last) => is_between(*first, code, *last),
        Test::Among(classes) => is_among(classes, code),
        Test::Both(first, second) => {
            is_between(*first, code, *first) & is_between(*second, ahead, *second)
        }
        Test::Group(class) => is_opening(code) & is_between(*class, ahead, *class),
        Test::GroupRange(first, last) => is_opening(code) & is_between(*first, ahead, *last),
        Test::Going => !is_between(FINISH, code, CLOSING),
        Test::Or(one, other) => {
            any_holds(one, cursor, code, ahead) || any_holds(other, cursor, code, ahead)
        }
        Test::Ending(ending) => has_ending(*ending, cursor),
        Test::Legacy => cursor.legacy(),
        Test::Form(first, second, rest) => has_form(first, second, rest, cursor, code, ahead),
    }
}

/// Whether the next token, with the number `code`, is one that isn't kept.
pub fn is_silent(silent: Silent, parser: &Parser<'_>, code: u8) -> bool
    requires next { code ≡ number (class_at parser.now) }
    ensures { result ≡ is_special (silent_of silent) parser.now }
{
    match silent {
        Silent::OtherReference => has_ending(Ending::OtherReference, parser.cursor()),
        Silent::OtherType => is_among(&[SUB, STRUCT, ARRAY, CONT, SHARED], code),
        Silent::OtherLimits => is_among(&[I64, SHARED], code),
    }
}

/// Whether a number is that of a class from the first number to the last.
#[inline]
pub fn is_between(first: u8, code: u8, last: u8) -> bool
    ensures { result ≡ between first code last }
{
    first <= code && code <= last && code < OTHER
}

/// Whether a number is that of `(`.
#[inline]
fn is_opening(code: u8) -> bool
    ensures { result ≡ between 2 code 2 }
{
    is_between(OPENING, code, OPENING)
}

/// Whether a number is that of one of these classes.
fn is_among(classes: &[u8], code: u8) -> bool
    ensures { (c : Class) → code ≡ number c → result ≡ among (classes_of classes.now) c }
{
    for class in classes {
        if is_between(*class, code, *class) {
            return true;
        }
    }
    false
}

/// Whether the next token is a keyword with this end.
fn has_ending(ending: Ending, cursor: Cursor<'_>) -> bool
    ensures { result ≡ test_holds (ending_of ending) (stand_of cursor.entry) }
{
    match cursor.keyword() {
        Some((word, _)) => match ending {
            Ending::Reference => word.as_bytes().ends_with(b"ref"),
            Ending::OtherReference => {
                word.as_bytes().ends_with(b"ref") && !(word == "funcref" || word == "externref")
            }
        },
        None => false,
    }
}

/// The place behind the next token, or the end of the text.
#[inline]
fn past(cursor: Cursor<'_>) -> Cursor<'_>
    ensures text { (stand_of result).text ≡ (stand_of cursor.entry).text }
    ensures on { (ps : List (List Class)) → fits ps (stand_of cursor.entry).text.tokens result.at ≡ fits ps (stand_of cursor.entry).text.tokens (cursor.entry.at + 1) }
{
    if cursor.is_at_end() {
        cursor
    } else {
        cursor.behind()
    }
}

/// Whether the next two tokens, with the numbers `code` and `ahead`, are of these classes.
fn are_among(first: &[u8], second: &[u8], code: u8, ahead: u8) -> bool
    ensures { (c d : Class) → code ≡ number c → ahead ≡ number d → result ≡ (among (classes_of first.now) c && among (classes_of second.now) d) }
{
    is_among(first, code) & is_among(second, ahead)
}

/// Whether the next tokens are of these classes, one behind the other; the next two have the numbers `code` and `ahead`.
fn has_form(
    first: &[u8],
    second: &[u8],
    rest: &[&[u8]],
    cursor: Cursor<'_>,
    code: u8,
    ahead: u8,
) -> bool
    requires next { code ≡ number (class_at (stand_of cursor)) }
    requires behind { ahead ≡ number (class_after (stand_of cursor)) }
    ensures { result ≡ fits (classes_of first.now ∷ classes_of second.now ∷ map lent_classes rest.now) (stand_of cursor.entry).text.tokens cursor.entry.at }
{
    if are_among(first, second, code, ahead) {
        is_form(rest, past(past(cursor)))
    } else {
        false
    }
}

/// Whether the next tokens are of these classes, one behind the other.
fn is_form(classes: &[&[u8]], cursor: Cursor<'_>) -> bool
    ensures { result ≡ fits (map lent_classes classes.now) (stand_of cursor.entry).text.tokens cursor.entry.at }
{
    let mut at = cursor;
    for part in classes {
        if !is_among(part, number_at(at)) {
            return false;
        }
        at = past(at);
    }
    true
}
