//! What tokens stand for, by their bytes.

ghost use Rattle.std.specs.Prelude.{◌≡◌, not, ◌<◌, ◌^◌, ℕ, ◌++◌, List, [], ◌∷◌, cond, nat_lt, drop, slice_index, true, false, Some, None, MatchOption, IfSome, OnOk};
ghost use Rattle.std.specs.List.{All};
ghost use Rattle.std.specs.Bool.{MatchBool};
ghost use Rattle.wast_tokens.specs.Spelled.{IsStringSpelling, IsIdSpelling, IsAnnotationSpelling};
ghost use Rattle.wast_tokens.specs.Values.{number_of, is_numeral, is_constant, constant_of, is_in_quotes, between_quotes, string_of, escaped_string, name_of, escaped_name, in_string};
ghost use Rattle.wast_tokens.specs.Chars.{is_id_char};

use crate::numbers::{number, unsigned};
use crate::strings::push_decoded;
use std::alloc::AllocError;

/// The number of an integer, without its sign, if it is below 2^64.
fn magnitude(integer: &[u8]) -> Option<u64>
    ensures number { result ≡ cond (nat_lt (number_of integer.now) (2 ^ 64)) (Some (number_of integer.now)) None }
{
    let unsigned = unsigned(integer);
    match unsigned {
        [b'0', b'x', digits @ ..] => number(digits, 16),
        _ => number(unsigned, 10),
    }
}

/// The number of an integer, if it has no `-` and is below 2^32.
pub fn numeral(integer: &[u8]) -> Option<u32>
    ensures number { result ≡ cond (is_numeral integer.now) (Some (number_of integer.now)) None }
{
    if let [b'-', ..] = integer {
        return None;
    }
    match magnitude(integer) {
        Some(number) if number < 0x1_0000_0000 => Some(number as u32),
        _ => None,
    }
}

/// The number of an integer modulo 2^32, if it is one of 32 bits: below 2^32 without `-`, and at least -2^31 with it (WebAssembly
/// text format, uninterpreted integers).
pub fn constant_32(integer: &[u8]) -> Option<u32>
    ensures number { result ≡ cond (is_constant 32 integer.now) (Some (constant_of 32 integer.now)) None }
{
    let Some(number) = magnitude(integer) else {
        return None;
    };
    match integer {
        [b'-', ..] if number <= 0x8000_0000 => Some(0u32.wrapping_sub(number as u32)),
        [b'-', ..] => None,
        _ if number <= 0xffff_ffff => Some(number as u32),
        _ => None,
    }
}

/// The number of an integer modulo 2^64, if it is one of 64 bits: below 2^64 without `-`, and at least -2^63 with it.
pub fn constant_64(integer: &[u8]) -> Option<u64>
    ensures number { result ≡ cond (is_constant 64 integer.now) (Some (constant_of 64 integer.now)) None }
{
    let Some(number) = magnitude(integer) else {
        return None;
    };
    match integer {
        [b'-', ..] if number <= 0x8000_0000_0000_0000 => Some(0u64.wrapping_sub(number)),
        [b'-', ..] => None,
        _ => Some(number),
    }
}

/// The bytes between the quotes of a string: what it stands for, where it has no escape.
pub fn plain_string(string: &str) -> &[u8]
    requires spelled { IsStringSpelling string.now }
    ensures between { result.now ≡ between_quotes string.now }
    ensures value { escaped_string string.now ≡ None → result.now ≡ string_of string.now }
{
    &string.as_bytes()[1..string.len() - 1]
}

/// Whether a string has an escape, so that it stands for other bytes than those between its quotes.
pub fn has_escape(string: &str) -> bool
    requires spelled { IsStringSpelling string.now }
    ensures escape { MatchBool result (escaped_string string.now ≡ Some (string_of string.now)) (escaped_string string.now ≡ None) }
{
    plain_string(string).contains(&b'\\')
}

/// Adds the bytes that a string stands for to some bytes. Want of memory is `AllocError`.
pub fn push_string(bytes: &mut Vec<u8>, string: &str) -> Result<(), AllocError>
    requires spelled { IsStringSpelling string.now }
    ensures pushed { OnOk result (bytes.new.items ≡ bytes.old.items ++ string_of string.now) }
{
    push_decoded(bytes, plain_string(string))
}

/// The string in an id that is spelled with quotes.
pub fn string_in_id(id: &str) -> Option<&str>
    requires spelled { IsIdSpelling id.now }
    ensures string { MatchOption result (is_in_quotes id.now ≡ false) (λ s. (is_in_quotes id.now ≡ true) × (s.now ≡ drop 1 id.now)) }
    ensures spelled { IfSome result (λ s. IsStringSpelling s.now) }
{
    if id.as_bytes()[1] == b'"' {
        Some(&id[1..])
    } else {
        None
    }
}

/// The name of an id, as it stands behind its `$` or between its quotes: the id's name, where it has no escape.
pub fn plain_name(id: &str) -> &str
    requires spelled { IsIdSpelling id.now }
    ensures value { escaped_name id.now ≡ None → result.now ≡ name_of id.now }
{
    if id.as_bytes()[1] == b'"' {
        &id[2..id.len() - 1]
    } else {
        &id[1..]
    }
}

/// The name of an annotation, without its `(@`.
pub fn annotation_name(annotation: &str) -> &str
    requires spelled { IsAnnotationSpelling annotation.now }
    ensures name { result.now ≡ drop 2 annotation.now }
{
    &annotation[2..]
}

/// The laws of names: an id has one name however it is spelled. Behind `$` (36) id characters are the name. Between quotes (34) the same
/// bytes are, but for `\` (92), which stands there behind another. And any string there, whatever its escapes, is the name that it stands for.
pub fn names_have_one_value()
    ensures bare { (name : List ℕ) → All (λ b. is_id_char b ≡ true) name → name_of (36 ∷ name) ≡ name }
    ensures quoted { (name : List ℕ) → All (λ b. ¬ (b ≡ 92)) name → name_of (36 ∷ 34 ∷ (name ++ 34 ∷ [])) ≡ name }
    ensures escaped { (name : List ℕ) → name_of (36 ∷ 34 ∷ (in_string name ++ 34 ∷ [])) ≡ name }
    ensures by_string { (string : List ℕ) → slice_index string 0 ≡ 34 → name_of (36 ∷ string) ≡ string_of string }
{}
