//! Printed tokens, and how each is spelled: words as they are, numbers in decimal digits, strings in quotes with `\hh` for each byte that
//! doesn't stand for itself.

ghost use Rattle.std.specs.Prelude.{◌≡◌, ◌<◌, ◌++◌, OnOk, string_bytes};
ghost use Rattle.print_table.specs.Tokens.{hex_digit as digit_of, is_literal as stands_for_itself, escaped_byte, escaped, quoted, spelled};
ghost use Rattle.tree_print.specs.Taken.{token_of, is_opening as opens, follows, gap_at, spaced};

use std::alloc::AllocError;
use std::fmt::Write;

/// A printed token.
#[derive(Clone, Copy)]
pub enum Token<'a> {
    /// The character `(`.
    Opening,
    /// The character `)`.
    Closing,
    /// `(@custom`.
    Custom,
    /// A word.
    Word(&'a str),
    /// A number.
    Numeral(u32),
    /// A string, by its bytes.
    Text(&'a [u8]),
}

/// Whether a token is `(`.
pub fn is_opening(token: Token<'_>) -> bool
    ensures { result ≡ opens (token_of token.entry) }
{
    match token {
        Token::Opening => true,
        Token::Closing => false,
        Token::Custom => false,
        Token::Word(_) => false,
        Token::Numeral(_) => false,
        Token::Text(_) => false,
    }
}

/// Whether no space stands in front of a token.
pub fn follows_at_once(tight: bool, token: Token<'_>) -> bool
    ensures { result ≡ follows tight (token_of token.entry) }
{
    match token {
        Token::Closing => true,
        Token::Opening => tight,
        Token::Custom => tight,
        Token::Word(_) => tight,
        Token::Numeral(_) => tight,
        Token::Text(_) => tight,
    }
}

/// A hexadecimal digit in lower case.
fn hex_digit(digit: u8) -> u8
    requires { digit < 16 }
    ensures digit { result ≡ digit_of digit }
    ensures small { result < 128 }
{
    if digit < 10 { b'0' + digit } else { 87 + digit }
}

/// Whether a byte stands for itself in a string: one from 0x20 to 0x7e other than `"` and `\`.
pub fn is_literal(byte: u8) -> bool
    ensures { result ≡ stands_for_itself byte }
{
    byte >= 0x20 && byte <= 0x7e && !(byte == b'"' || byte == b'\\')
}

/// Appends a byte of a string: itself, or `\` and two hexadecimal digits.
fn push_escaped(text: &mut String, byte: u8) -> Result<(), AllocError>
    ensures { OnOk result (string_bytes text.new ≡ string_bytes text.old ++ escaped_byte byte) }
{
    if is_literal(byte) {
        return text.push(byte as char);
    }
    text.push('\\')?;
    text.push(hex_digit(byte / 16) as char)?;
    text.push(hex_digit(byte % 16) as char)
}

/// Appends the bytes of a string, without its quotes.
fn push_escapes(text: &mut String, bytes: &[u8]) -> Result<(), AllocError>
    ensures { OnOk result (string_bytes text.new ≡ string_bytes text.old ++ escaped bytes.now) }
{
    for byte in bytes {
        push_escaped(text, *byte)?;
    }
    Ok(())
}

/// Appends a string in quotes.
fn push_quoted(text: &mut String, bytes: &[u8]) -> Result<(), AllocError>
    ensures { OnOk result (string_bytes text.new ≡ string_bytes text.old ++ quoted bytes.now) }
{
    text.push_str("\"")?;
    push_escapes(text, bytes)?;
    text.push_str("\"")
}

/// Appends a token, with no space in front of it.
fn push_token(text: &mut String, token: Token<'_>) -> Result<(), AllocError>
    ensures { OnOk result (string_bytes text.new ≡ string_bytes text.old ++ spelled (token_of token.entry)) }
{
    match token {
        Token::Opening => text.push_str("("),
        Token::Closing => text.push_str(")"),
        Token::Custom => text.push_str("(@custom"),
        Token::Word(word) => text.push_str(word),
        Token::Numeral(number) => write!(text, "{number}"),
        Token::Text(bytes) => push_quoted(text, bytes),
    }
}

/// Appends the space in front of a token, where one stands.
fn push_gap(text: &mut String, tight: bool, token: Token<'_>) -> Result<(), AllocError>
    ensures { OnOk result (string_bytes text.new ≡ string_bytes text.old ++ gap_at tight (token_of token.entry)) }
{
    if follows_at_once(tight, token) {
        return Ok(());
    }
    text.push_str(" ")
}

/// Appends a token, with the space in front of it where one stands.
pub fn push_spaced(text: &mut String, tight: bool, token: Token<'_>) -> Result<(), AllocError>
    ensures { OnOk result (string_bytes text.new ≡ string_bytes text.old ++ spaced tight (token_of token.entry)) }
{
    push_gap(text, tight, token)?;
    push_token(text, token)
}
