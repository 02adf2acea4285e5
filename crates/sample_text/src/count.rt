//! How many types a sample is to have, as a word says it.

ghost use Rattle.std.specs.Prelude.{◌≡◌, IfSome};
ghost use Rattle.std.specs.Fmt.{decimal};
ghost use Rattle.sample_text.specs.Count.{begins_otherwise, count_of};

/// The most types that a sample has.
pub const MAX_COUNT: u32 = 100_000;

/// Whether a word begins as no numeral does: with a plus, or with a zero that isn't all of it.
fn begins_otherwise(word: &str) -> bool
    ensures { result ≡ begins_otherwise word.now }
{
    let bytes = word.as_bytes();
    if bytes.is_empty() {
        return false;
    }
    bytes[0] == b'+' || bytes[0] == b'0' && bytes.len() > 1
}

/// The number that a word says: in decimal digits, without a leading zero (`0` alone is a numeral), and at most `MAX_COUNT`; none
/// where the word says no such number.
pub fn count_of(word: &str) -> Option<u32>
    ensures value { result ≡ count_of word.now }
    ensures spelled { IfSome result (λ count. word.now ≡ decimal count) }
{
    if begins_otherwise(word) {
        return None;
    }
    match word.parse::<u32>() {
        Ok(count) => {
            if count <= MAX_COUNT {
                Some(count)
            } else {
                None
            }
        }
        Err(_) => None,
    }
}
