//! Places in a text.

ghost use Rattle.std.specs.Prelude.{◌≡◌};

/// A place in a text: a byte offset from its beginning.
#[derive(Clone, Copy, PartialEq, Eq, Debug, Hash)]
pub struct Span {
    /// The offset, in bytes.
    pub offset: u32,
}

impl Span {
    /// The place that is `offset` bytes from the beginning of the text.
    pub fn from_offset(offset: u32) -> Span
        ensures offset { result.offset ≡ offset }
    {
        Span { offset }
    }
}
