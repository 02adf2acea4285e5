//! Tokens: the pieces into which a text is cut, without its white space and comments.

/// What a token is.
#[derive(Clone, Copy, PartialEq, Eq, Debug)]
pub enum TokenKind {
    /// The character `(`.
    LParen,
    /// `(@` with the name of an annotation.
    Annotation,
    /// The character `)`.
    RParen,
    /// A string in quotes.
    Text,
    /// `$` with a name.
    Id,
    /// A number without a fraction.
    Integer,
    /// A run that begins with `a` to `z`.
    Keyword,
    /// Any other run, which stands nowhere in the grammar.
    Reserved,
}

/// A token, by its place: bytes `start` to `end` of the text, without the latter.
#[derive(Clone, Copy, PartialEq, Eq, Debug)]
pub struct Token {
    /// What it is.
    pub kind: TokenKind,
    /// The offset of its first byte.
    pub start: u32,
    /// The offset behind its last byte.
    pub end: u32,
}
