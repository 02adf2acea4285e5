//! The lines of a plan, one behind the other.

ghost use Rattle.std.specs.Prelude.{◌≡◌, ◌+◌, ◌<◌, ◌≤◌, ◌^◌, ◌∷◌, [], ℕ, length, MatchOption, IfSome};
ghost use Rattle.plan_lines.specs.Lines.{lines, first_bad};
ghost use Rattle.plan_lines.specs.Shown.{word_of, lines_left, span, size, SpansBelow, Within};

use crate::line::read_line;
use crate::words::{Word, cut};

/// All of a plan, as what is left of it.
pub fn all_of<'p>(plan: &'p [u8]) -> Option<Word<'p>>
    requires { length plan.now < 2 ^ 64 }
    ensures lines { lines_left result ≡ lines plan.now }
    ensures spans { Within result (length plan.now) }
    ensures size { size result ≡ length plan.now + 1 }
{
    Some(Word { at: 0, bytes: plan })
}

/// The next line of what is left of a plan, without its line feed, and what is left behind it; none where no line is left.
pub fn next_line<'p>(left: Option<Word<'p>>) -> Option<(Word<'p>, Option<Word<'p>>)>
    requires { SpansBelow left (2 ^ 64) }
    ensures lines { MatchOption result (lines_left left.entry ≡ []) (λ p. lines_left left.entry ≡ word_of p.0 ∷ lines_left p.1) }
    ensures size { IfSome result (λ p. size left.entry ≡ length p.0.bytes.now + 1 + size p.1) }
    ensures spans { (n : ℕ) → SpansBelow left.entry n → IfSome result (λ p. (span p.0 < n) × SpansBelow p.1 n) }
{
    match left {
        None => None,
        Some(word) => {
            if word.bytes.is_empty() {
                return None;
            }
            Some(cut(word, b'\n'))
        }
    }
}

/// The offset of the first line that says nothing; none where each says something.
pub fn first_bad_line(plan: &[u8]) -> Option<usize>
    requires { length plan.now < 2 ^ 64 }
    ensures { result ≡ first_bad (lines plan.now) }
{
    let mut left = all_of(plan);
    while let Some((line, rest)) = next_line(left) {
        if read_line(line).is_none() {
            return Some(line.at);
        }
        left = rest;
    }
    None
}
