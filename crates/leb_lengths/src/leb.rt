//! How many bytes numbers have in LEB128 (WebAssembly, binary format, Integers).

ghost use Rattle.std.specs.Prelude.{◌≡◌, ◌≤◌, ◌+◌, ◌-◌, ◌^◌, length, min};
ghost use Rattle.comp_model.specs.Leb.{leb, plain, uleb, sleb, signed_leb, magnitude};
ghost use Rattle.comp_wire.specs.Fits.{is_word as is_below};

/// Whether a count, a length or an index is below 2^32.
pub fn is_word(value: u64) -> bool
    ensures { result ≡ is_below value }
{
    value < 0x1_0000_0000
}

/// How many bytes a number has, where one below `limit` is the last byte.
fn leb_length(value: u64, limit: u64) -> u64
    requires least { 64 ≤ limit }
    requires most { limit ≤ 128 }
    ensures bytes { result ≡ length (leb plain limit value) }
    ensures few { result ≤ 10 }
{
    let mut length = 1;
    let mut rest = value;
    while rest >= limit {
        rest /= 128;
        length += 1;
    }
    length
}

/// How many bytes a number has in unsigned LEB128.
pub fn uleb_length(value: u64) -> u64
    ensures bytes { result ≡ length (uleb value) }
    ensures few { result ≤ 10 }
{
    leb_length(value, 128)
}

/// How many bytes a number that isn't negative has in signed LEB128.
pub fn sleb_length(value: u64) -> u64
    ensures bytes { result ≡ length (sleb value) }
    ensures few { result ≤ 10 }
{
    leb_length(value, 64)
}

/// The number, or -1 minus the number where it is negative.
fn bits_of(value: i64) -> u64
    ensures { result ≡ magnitude value }
{
    if value < 0 {
        -(value + 1) as u64
    } else {
        value as u64
    }
}

/// How many bytes a number has in signed LEB128.
#[tactic(auto, using(crate::proofs::Lengths::signed_long))]
pub fn signed_length(value: i64) -> u64
    ensures bytes { result ≡ length (signed_leb value) }
    ensures few { result ≤ 10 }
{
    leb_length(bits_of(value), 64)
}

/// How many bytes so many are with their length in front of them; `u64::MAX` stands for every greater number.
pub fn framed_length(count: u64) -> u64
    ensures { result ≡ min (length (uleb count) + count) (2 ^ 64 - 1) }
{
    uleb_length(count).saturating_add(count)
}
