//! Digits, and the numbers that they write.

ghost use Rattle.std.specs.Prelude.{◌≡◌, ◌≤◌, ◌<◌, ◌^◌, cond, nat_lt, Some, None};
ghost use Rattle.std.specs.Char.{digit_value};
ghost use Rattle.wast_tokens.specs.Numbers.{are_digits, number, unsigned, is_integer};

/// The value of a digit or a letter of ASCII, from 0 for `0` to 35 for `Z` and `z`; 36 for any other byte.
#[inline]
pub fn digit_value(b: u8) -> u64
    ensures value { result ≡ digit_value b }
    ensures bound { result ≤ 36 }
{
    match b {
        b'0'..=b'9' => u64::from(b - b'0'),
        b'A'..=b'Z' => u64::from(b - b'A') + 10,
        b'a'..=b'z' => u64::from(b - b'a') + 10,
        _ => 36,
    }
}

/// Whether bytes are one digit of a radix or more, with single underscores between two.
pub fn are_digits(bytes: &[u8], radix: u64) -> bool
    ensures digits { result ≡ are_digits radix bytes.now }
{
    let mut last = false;
    for b in bytes {
        let is_digit = digit_value(*b) < radix;
        if !is_digit && !(*b == b'_' && last) {
            return false;
        }
        last = is_digit;
    }
    last
}

/// The number that digits of a radix write, without their underscores, if it is below 2^64.
pub fn number(bytes: &[u8], radix: u64) -> Option<u64>
    requires radix { 0 < radix }
    ensures number { result ≡ cond (nat_lt (number radix bytes.now) (2 ^ 64)) (Some (number radix bytes.now)) None }
{
    let mut number: u64 = 0;
    for b in bytes {
        if *b != b'_' {
            let Some(product) = number.checked_mul(radix) else {
                return None;
            };
            let Some(sum) = product.checked_add(digit_value(*b)) else {
                return None;
            };
            number = sum;
        }
    }
    Some(number)
}

/// The bytes behind a sign, `+` or `-`.
#[inline]
pub fn unsigned(bytes: &[u8]) -> &[u8]
    ensures unsigned { result.now ≡ unsigned bytes.now }
{
    match bytes {
        [b'+' | b'-', rest @ ..] => rest,
        _ => bytes,
    }
}

/// Whether a run is an integer: a sign or none, then decimal digits, or `0x` and hexadecimal digits.
pub fn is_integer(run: &[u8]) -> bool
    ensures integer { result ≡ is_integer run.now }
{
    let unsigned = unsigned(run);
    match unsigned {
        [b'0', b'x', digits @ ..] => are_digits(digits, 16),
        _ => are_digits(unsigned, 10),
    }
}
