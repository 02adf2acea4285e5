//! How many bytes a token takes.

ghost use Rattle.std.specs.Prelude.{◌≡◌, length};
ghost use Rattle.std.specs.Fmt.{decimal};
ghost use Rattle.print_table.specs.Tokens.{quoted, spelled, escaped_byte};
ghost use Rattle.print_table.specs.TextOf.{results_tokens};
ghost use Rattle.tree_print.specs.Taken.{token_of, spaced, all_spaced, capped};

use crate::token::{Token, follows_at_once, is_literal};

/// How many digits a number has.
#[tactic(auto, using(crate::proofs::Sizes::one_digit, crate::proofs::Sizes::one_more_digit, crate::proofs::Sizes::few_digits))]
fn decimal_size(number: u32) -> u64
    ensures { result ≡ length (decimal number) }
{
    let mut rest = number;
    let mut digits: u64 = 1;
    while rest >= 10 {
        rest /= 10;
        digits += 1;
    }
    digits
}

/// How many bytes a byte of a string takes.
fn escaped_size(byte: u8) -> u64
    ensures { result ≡ length (escaped_byte byte) }
{
    if is_literal(byte) { 1 } else { 3 }
}

/// How many bytes a string in quotes takes; `u64::MAX` stands for every greater number.
#[tactic(auto, using(crate::proofs::Sizes::quoted_length))]
fn quoted_size(bytes: &[u8]) -> u64
    ensures { result ≡ capped (length (quoted bytes.now)) }
{
    let mut size: u64 = 2;
    for byte in bytes {
        size = size.saturating_add(escaped_size(*byte));
    }
    size
}

/// How many bytes a token takes; `u64::MAX` stands for every greater number.
fn token_size(token: Token<'_>) -> u64
    ensures { result ≡ capped (length (spelled (token_of token.entry))) }
{
    match token {
        Token::Opening => 1,
        Token::Closing => 1,
        Token::Custom => 8,
        Token::Word(word) => word.len() as u64,
        Token::Numeral(number) => decimal_size(number),
        Token::Text(bytes) => quoted_size(bytes),
    }
}

/// How many bytes a token takes with the space in front of it, where one stands; `u64::MAX` stands for every greater number.
pub fn spaced_size(tight: bool, token: Token<'_>) -> u64
    ensures { result ≡ capped (length (spaced tight (token_of token.entry))) }
{
    if follows_at_once(tight, token) {
        return token_size(token);
    }
    token_size(token).saturating_add(1)
}

/// How many bytes so many results of a start function take: each `(result (value))`, with the space in front of it where one stands.
#[tactic(auto, using(crate::proofs::Sizes::results_length, crate::proofs::Sizes::tight_length))]
pub fn results_size(tight: bool, count: u32) -> u64
    ensures { result ≡ length (all_spaced tight (results_tokens count)) }
{
    let size = 17 * count as u64;
    if !tight {
        return size;
    }
    if count == 0 {
        return 0;
    }
    size - 1
}
