//! Strings in quotes, character by character: where they end, and what they stand for.

ghost use Rattle.std.specs.Prelude.{◌≡◌, ◌≤◌, ◌<◌, ◌+◌, ◌^◌, ◌++◌, IfOk, OnOk, MatchResult, length, slice_index};
ghost use Rattle.wast_tokens.specs.Strings.{is_plain, short_escape, scalar_of, digits_at, escape_at, character_at, first_of, IsString, IsBrokenString, bytes_of, decoded};

use crate::chars::byte_at;
use crate::error::LexFault;
use crate::numbers::{are_digits, digit_value, number};
use std::alloc::AllocError;

/// What a character of a string stands for.
#[derive(Clone, Copy)]
pub enum Value {
    /// One byte.
    Byte(u8),
    /// A scalar value, in UTF-8.
    Scalar(char),
}

/// A character of a string: how many bytes spell it, and what it stands for.
#[derive(Clone, Copy)]
pub struct Character {
    pub len: usize,
    pub value: Value,
}

/// Why a text can't be cut at a place, and the offset at which this shows.
#[derive(Clone, Copy)]
pub struct Fault {
    pub fault: LexFault,
    pub place: usize,
}

/// Whether a byte of a string stands for itself.
#[inline]
#[tactic(auto, unfolding(crate::specs::Strings::is_plain))]
fn is_plain(b: u8) -> bool
    ensures class { result ≡ is_plain b }
{
    32 <= b && b != b'"' && b != b'\\' && b != 127
}

/// What a backslash and a letter or mark stand for, if they are an escape.
#[tactic(auto, unfolding(crate::specs::Strings::short_escape))]
fn short_escape(c: u8) -> Option<u8>
    ensures escape { result ≡ short_escape c }
{
    match c {
        b't' => Some(9),
        b'n' => Some(10),
        b'r' => Some(13),
        b'"' | b'\'' | b'\\' => Some(c),
        _ => None,
    }
}

/// Where the hexadecimal digits and underscores from a place on end.
fn digits_end(text: &[u8], at: usize) -> usize
    requires here { at ≤ length text.now }
    ensures end { result ≡ at + digits_at text.now at }
    ensures within { result ≤ length text.now }
{
    let mut end = at;
    while end < text.len() && (digit_value(text[end]) < 16 || text[end] == b'_') {
        end += 1;
    }
    end
}

/// The scalar value that digits and the byte behind them spell, if they spell one.
#[tactic(auto, unfolding(crate::specs::Strings::is_scalar))]
fn scalar_of(digits: &[u8], next: u8) -> Option<Character>
    requires small { length digits.now + 4 < 2 ^ 64 }
    ensures scalar { result ≡ scalar_of digits.now next }
{
    if !are_digits(digits, 16) || next != b'}' {
        return None;
    }
    let Some(code) = number(digits, 16) else {
        return None;
    };
    if code >= 0x11_0000 {
        return None;
    }
    match char::from_u32(code as u32) {
        Some(c) => Some(Character {
            len: digits.len() + 4,
            value: Value::Scalar(c),
        }),
        None => None,
    }
}

/// The escape whose backslash stands at a place, if one does.
#[tactic(auto, unfolding(crate::specs::Strings::escape_at))]
fn escape_at(text: &[u8], at: usize) -> Option<Character>
    requires here { at < length text.now }
    ensures escape { result ≡ escape_at text.now at }
{
    let c = byte_at(text, at + 1);
    let d = byte_at(text, at + 2);
    if let Some(b) = short_escape(c) {
        return Some(Character {
            len: 2,
            value: Value::Byte(b),
        });
    }
    if c == b'u' && d == b'{' {
        let end = digits_end(text, at + 3);
        return scalar_of(&text[at + 3..end], byte_at(text, end));
    }
    let high = digit_value(c);
    let low = digit_value(d);
    if high < 16 && low < 16 {
        return Some(Character {
            len: 3,
            value: Value::Byte((16 * high + low) as u8),
        });
    }
    None
}

/// Where the string that begins at a place ends, or what is wrong with it.
pub fn string_end(text: &[u8], at: usize) -> Result<usize, Fault>
    requires opened { slice_index text.now at ≡ 34 }
    ensures string { MatchResult result (IsString text.now at) (λ f. IsBrokenString text.now at f.fault f.place) }
    ensures within { IfOk result (λ end. end ≤ length text.now) }
{
    let mut k = at + 1;
    while k < text.len() {
        let b = text[k];
        if is_plain(b) {
            k += 1;
        } else if b == b'"' {
            return Ok(k + 1);
        } else if b == b'\\' {
            match escape_at(text, k) {
                Some(c) => k += c.len,
                None => {
                    return Err(Fault {
                        fault: LexFault::BadEscape,
                        place: k,
                    });
                }
            }
        } else {
            return Err(Fault {
                fault: LexFault::BadStringChar,
                place: k,
            });
        }
    }
    Err(Fault {
        fault: LexFault::UnclosedString,
        place: at,
    })
}

/// The character at a place inside a string; a byte that begins none stands for itself.
#[inline]
fn first_at(inside: &[u8], at: usize) -> Character
    requires here { at < length inside.now }
    ensures first { result ≡ first_of (slice_index inside.now at) (character_at inside.now at) }
{
    let b = inside[at];
    if b == b'\\' {
        if let Some(c) = escape_at(inside, at) {
            return c;
        }
    }
    Character {
        len: 1,
        value: Value::Byte(b),
    }
}

/// Adds what a character stands for to some bytes.
fn push_value(bytes: &mut Vec<u8>, value: Value) -> Result<(), AllocError>
    ensures pushed { OnOk result (bytes.new.items ≡ bytes.old.items ++ bytes_of value) }
{
    match value {
        Value::Byte(b) => bytes.push(b)?,
        Value::Scalar(c) => {
            let mut buffer = [0; 4];
            bytes.extend_from_slice(c.encode_utf8(&mut buffer).as_bytes())?;
        }
    }
    Ok(())
}

/// Adds what the characters inside a string stand for to some bytes.
pub fn push_decoded(bytes: &mut Vec<u8>, inside: &[u8]) -> Result<(), AllocError>
    ensures decoded { OnOk result (bytes.new.items ≡ bytes.old.items ++ decoded inside.now) }
{
    let mut at = 0;
    while at < inside.len() {
        let c = first_at(inside, at);
        push_value(bytes, c.value)?;
        at += c.len;
    }
    Ok(())
}
