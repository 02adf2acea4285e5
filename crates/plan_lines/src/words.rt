//! Pieces of a plan, between bytes that part them.

ghost use Rattle.std.specs.Prelude.{◌≡◌, ◌+◌, ◌<◌, ◌≤◌, ◌^◌, ◌∷◌, ℕ, length, IfNone, IfSome};
ghost use Rattle.plan_lines.specs.Words.{pieces};
ghost use Rattle.plan_lines.specs.Shown.{word_of, rest_of, size, span};

use memchr::memchr;

/// A piece of a plan, and the offset at which it begins.
#[derive(Clone, Copy)]
pub struct Word<'p> {
    /// The offset in the plan.
    pub at: usize,
    /// The bytes.
    pub bytes: &'p [u8],
}

/// The bytes in front of the first one of this value, and those behind it; none where there is no such byte.
#[tactic(auto, using(crate::proofs::Splits::whole))]
pub fn cut<'p>(word: Word<'p>, value: u8) -> (Word<'p>, Option<Word<'p>>)
    requires { span word < 2 ^ 64 }
    ensures pieces { pieces value (word_of word.entry) ≡ word_of result.0 ∷ rest_of value result.1 }
    ensures whole { IfNone result.1 (result.0 ≡ word.entry) }
    ensures sizes { length word.entry.bytes.now + 1 ≡ length result.0.bytes.now + 1 + size result.1 }
    ensures first { span result.0 ≤ span word.entry }
    ensures rest { IfSome result.1 (λ w. (length w.bytes.now < length word.entry.bytes.now) × (span w ≤ span word.entry)) }
{
    match memchr(value, word.bytes) {
        None => (word, None),
        Some(end) => {
            let first = Word {
                at: word.at,
                bytes: &word.bytes[..end],
            };
            let rest = Word {
                at: word.at + end + 1,
                bytes: &word.bytes[end + 1..],
            };
            (first, Some(rest))
        }
    }
}
