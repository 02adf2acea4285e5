//! Classes of characters, and what begins at a place of a text.
//!
//! Each character of a class is ASCII, and so one byte of the text.

ghost use Rattle.std.specs.Prelude.{◌≡◌, ◌≤◌, ◌<◌, ◌+◌, length, slice_index};
ghost use Rattle.wast_tokens.specs.Chars.{is_newline, is_id_char, beginning_at, word_end, line_end};
ghost use Rattle.wast_tokens.specs.Classes.{class_of, begun_in};

use self::Class::{Closing, Id, Mark, Opening, Other, Quote, Semicolon, Space};

/// The id characters that are no letters or digits (WebAssembly text format, Identifiers).
pub const ID_MARKS: [u8; 23] = *b"!#$%&'*+-./:<=>?@\\^_`|~";

/// The class of a byte, by which it is told what begins with it.
#[derive(Clone, Copy)]
enum Class {
    /// An id character.
    Id,
    /// `"`.
    Quote,
    /// White space: a space, a tab, a line feed or a carriage return.
    Space,
    /// `(`.
    Opening,
    /// `)`.
    Closing,
    /// `;`.
    Semicolon,
    /// A character that stands in reserved runs alone, other than `;`: `,` `[` `]` `{` or `}`.
    Mark,
    /// A byte that begins nothing.
    Other,
}

/// What begins at a place of a text.
#[derive(Clone, Copy)]
pub enum Beginning {
    /// A character of white space.
    Space,
    /// A comment up to the end of its line.
    LineComment,
    /// A comment in parentheses.
    BlockComment,
    /// `(@`.
    Annotation,
    /// Another `(`.
    Opening,
    /// `)`.
    Closing,
    /// A run: an id character, a quote, or a mark of reserved runs.
    Run,
    /// Nothing: the end of the text, or a character that begins no token.
    Nothing,
}

/// Whether a byte ends a line: a line feed or a carriage return.
#[inline]
#[tactic(auto, unfolding(crate::specs::Chars::is_newline))]
fn is_newline(b: u8) -> bool
    ensures class { result ≡ is_newline b }
{
    matches!(b, b'\n' | b'\r')
}

/// The class of each byte.
static CLASSES: [Class; 256] = [
    Other, Other, Other, Other, Other, Other, Other, Other, Other, Space, Space, Other, Other,
    Space, Other, Other, Other, Other, Other, Other, Other, Other, Other, Other, Other, Other,
    Other, Other, Other, Other, Other, Other, Space, Id, Quote, Id, Id, Id, Id, Id, Opening,
    Closing, Id, Id, Mark, Id, Id, Id, Id, Id, Id, Id, Id, Id, Id, Id, Id, Id, Id, Semicolon, Id,
    Id, Id, Id, Id, Id, Id, Id, Id, Id, Id, Id, Id, Id, Id, Id, Id, Id, Id, Id, Id, Id, Id, Id, Id,
    Id, Id, Id, Id, Id, Id, Mark, Id, Mark, Id, Id, Id, Id, Id, Id, Id, Id, Id, Id, Id, Id, Id, Id,
    Id, Id, Id, Id, Id, Id, Id, Id, Id, Id, Id, Id, Id, Id, Id, Mark, Id, Mark, Id, Other, Other,
    Other, Other, Other, Other, Other, Other, Other, Other, Other, Other, Other, Other, Other,
    Other, Other, Other, Other, Other, Other, Other, Other, Other, Other, Other, Other, Other,
    Other, Other, Other, Other, Other, Other, Other, Other, Other, Other, Other, Other, Other,
    Other, Other, Other, Other, Other, Other, Other, Other, Other, Other, Other, Other, Other,
    Other, Other, Other, Other, Other, Other, Other, Other, Other, Other, Other, Other, Other,
    Other, Other, Other, Other, Other, Other, Other, Other, Other, Other, Other, Other, Other,
    Other, Other, Other, Other, Other, Other, Other, Other, Other, Other, Other, Other, Other,
    Other, Other, Other, Other, Other, Other, Other, Other, Other, Other, Other, Other, Other,
    Other, Other, Other, Other, Other, Other, Other, Other, Other, Other, Other, Other, Other,
    Other, Other, Other, Other, Other, Other, Other, Other, Other, Other,
];

/// The class of a byte.
#[inline]
fn class_of(b: u8) -> Class
    ensures class { result ≡ class_of b }
{
    CLASSES[b as usize]
}

/// Whether a byte is an id character: an ASCII digit, a letter or one of the 23 marks.
#[inline]
pub fn is_id_char(b: u8) -> bool
    ensures class { result ≡ is_id_char b }
{
    matches!(class_of(b), Id)
}

/// The byte at a place, 0 at the end of the text.
#[inline]
pub fn byte_at(text: &[u8], at: usize) -> u8
    ensures byte { result ≡ slice_index text.now at }
{
    if at < text.len() { text[at] } else { 0 }
}

/// What begins at a place with a byte of a class.
#[inline]
#[tactic(auto, unfolding(crate::specs::Classes::begun_in))]
fn begun_in(class: Class, text: &[u8], at: usize) -> Beginning
    requires here { at ≤ length text.now }
    ensures begun { result ≡ begun_in class (slice_index text.now (at + 1)) }
{
    match class {
        Id => Beginning::Run,
        Quote => Beginning::Run,
        Space => Beginning::Space,
        Opening => match byte_at(text, at + 1) {
            b';' => Beginning::BlockComment,
            b'@' => Beginning::Annotation,
            _ => Beginning::Opening,
        },
        Closing => Beginning::Closing,
        Semicolon => match byte_at(text, at + 1) {
            b';' => Beginning::LineComment,
            _ => Beginning::Run,
        },
        Mark => Beginning::Run,
        Other => Beginning::Nothing,
    }
}

/// What begins at a place.
#[inline]
pub fn beginning_at(text: &[u8], at: usize) -> Beginning
    requires here { at ≤ length text.now }
    ensures beginning { result ≡ beginning_at text.now at }
{
    begun_in(class_of(byte_at(text, at)), text, at)
}

/// Where the id characters from a place on end.
#[inline]
pub fn word_end(text: &[u8], at: usize) -> usize
    requires here { at ≤ length text.now }
    ensures end { result ≡ word_end text.now at }
    ensures within { (at ≤ result) × (result ≤ length text.now) }
{
    let mut end = at;
    while end < text.len() && is_id_char(text[end]) {
        end += 1;
    }
    end
}

/// Where the line with a place ends: before a line feed or a carriage return, or at the end of the text.
#[inline]
pub fn line_end(text: &[u8], at: usize) -> usize
    requires here { at ≤ length text.now }
    ensures end { result ≡ line_end text.now at }
    ensures within { (at ≤ result) × (result ≤ length text.now) }
{
    let mut end = at;
    while end < text.len() && !is_newline(text[end]) {
        end += 1;
    }
    end
}
