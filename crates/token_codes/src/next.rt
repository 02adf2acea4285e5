//! The numbers of the tokens at a place.

ghost use Rattle.std.specs.Prelude.{◌≡◌};
ghost use Rattle.std.specs.Str.{is_utf8};
ghost use Rattle.wast_grammar.specs.Tokens.{is_numeral};
ghost use Rattle.wast_grammar.specs.Classes.{string, integer};
ghost use Rattle.wast_grammar.specs.Stand.{class_at, class_after};
ghost use Rattle.wast_parser.specs.View.{stand_of};
ghost use Rattle.token_codes.specs.Numbers.{number};

use crate::numbers::{
    BYTES, CLOSING, FINISH, ID, NUMERAL, OPENING, OTHER, TEXT, WIDE, annotation_number,
    keyword_number,
};
use wast_parser::Cursor;
use wast_tokens::numeral;

/// The number of the class of the token at a place, or that of the end of the text.
#[inline]
pub fn number_at(cursor: Cursor<'_>) -> u8
    ensures number { result ≡ number (class_at (stand_of cursor.entry)) }
{
    if let Some((spelled, _)) = cursor.keyword() {
        return keyword_number(spelled);
    }
    if let Some(_) = cursor.lparen() {
        return OPENING;
    }
    if let Some(_) = cursor.rparen() {
        return CLOSING;
    }
    if let Some((bytes, _)) = cursor.string() {
        return string_number(bytes);
    }
    if let Some(_) = cursor.id() {
        return ID;
    }
    if let Some((spelled, _)) = cursor.integer() {
        return integer_number(spelled);
    }
    if let Some((name, _)) = cursor.annotation() {
        return annotation_number(name);
    }
    if cursor.is_at_end() { FINISH } else { OTHER }
}

/// The same; that of a parenthesis is told here, so that it takes no call.
#[inline]
pub fn number_next(cursor: Cursor<'_>) -> u8
    ensures { result ≡ number (class_at (stand_of cursor.entry)) }
{
    if let Some(_) = cursor.lparen() {
        return OPENING;
    }
    if let Some(_) = cursor.rparen() {
        return CLOSING;
    }
    number_at(cursor)
}

/// The number of the class of the token behind the one at a place, or that of the end of the text.
#[inline]
#[tactic(auto, using(crate::proofs::Ends::nothing_behind))]
pub fn number_behind(cursor: Cursor<'_>) -> u8
    ensures { result ≡ number (class_after (stand_of cursor.entry)) }
{
    if cursor.is_at_end() {
        FINISH
    } else {
        number_next(cursor.behind())
    }
}

/// The number of a string.
fn string_number(bytes: &[u8]) -> u8
    ensures { result ≡ number (string (is_utf8 bytes.now)) }
{
    match str::from_utf8(bytes) {
        Ok(_) => TEXT,
        Err(_) => BYTES,
    }
}

/// The number of an integer.
fn integer_number(spelled: &str) -> u8
    ensures { result ≡ number (integer (is_numeral spelled.now)) }
{
    match numeral(spelled.as_bytes()) {
        Some(_) => NUMERAL,
        None => WIDE,
    }
}
