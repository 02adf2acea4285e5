//! Lengths in bytes. `u64::MAX` stands for every greater one, so that a limit below that is asked for exactly.

ghost use Rattle.std.specs.Prelude.{◌≡◌, ◌+◌, length};
ghost use Rattle.comp_model.specs.Payloads.{framed};
ghost use Rattle.core_syntax.specs.Measures.{capped};

use leb_lengths::framed_length;

/// The sum of two lengths.
pub(crate) fn add(length: u64, more: u64) -> u64
    ensures { result ≡ capped (length + more) }
{
    length.saturating_add(more)
}

/// How many bytes a text is with its length in front of it.
pub(crate) fn text_length(text: &str) -> u64
    ensures { result ≡ capped (length (framed text.now)) }
{
    framed_length(text.len() as u64)
}
