//! Block comments, which nest.

ghost use Rattle.std.specs.Prelude.{◌≡◌, ℕ, ◌≤◌, true, length, IfSome, IfNone};
ghost use Rattle.wast_tokens.specs.Blocks.{opens, closes, IsBlock};

use crate::chars::byte_at;

/// Whether `(;` stands at a place.
#[inline]
#[tactic(auto, unfolding(crate::specs::Blocks::opens))]
fn opens(text: &[u8], at: usize) -> bool
    requires here { at ≤ length text.now }
    ensures opens { result ≡ opens text.now at }
{
    byte_at(text, at) == b'(' && byte_at(text, at + 1) == b';'
}

/// Whether `;)` stands at a place.
#[inline]
#[tactic(auto, unfolding(crate::specs::Blocks::closes))]
fn closes(text: &[u8], at: usize) -> bool
    requires here { at ≤ length text.now }
    ensures closes { result ≡ closes text.now at }
{
    byte_at(text, at) == b';' && byte_at(text, at + 1) == b')'
}

/// Where the block comment that begins at a place ends, if it does.
pub fn block_end(text: &[u8], at: usize) -> Option<usize>
    requires opened { opens text.now at ≡ true }
    ensures found { IfSome result (IsBlock text.now at) }
    ensures none { IfNone result ((end : ℕ) → ¬ (IsBlock text.now at end)) }
{
    let mut more: usize = 0;
    let mut k = at + 2;
    while k < text.len() {
        if opens(text, k) {
            more += 1;
            k += 2;
        } else if closes(text, k) {
            k += 2;
            if more == 0 {
                return Some(k);
            }
            more -= 1;
        } else {
            k += 1;
        }
    }
    None
}
