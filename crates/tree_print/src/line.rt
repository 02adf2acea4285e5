//! The types of a printed line: what stands around its pieces, and the pieces of which its tokens are made.

ghost use Rattle.std.specs.Prelude.{◌≡◌};
ghost use Rattle.tree_print.specs.Lines.{field_of, part_of};

use crate::word::Word;

/// A part that may be missing, where it is there.
#[derive(Clone, Copy)]
pub enum Part {
    /// A value type.
    Value,
    /// A number, or an index.
    Number,
    /// A row.
    One,
}

/// How one leaf is printed.
#[derive(Clone, Copy)]
pub enum Field {
    /// A number, an index, or how many scopes outward.
    Number,
    /// A text.
    Text,
    /// The bytes of a custom section, which need be no text.
    Payload,
    /// The word of a primitive type.
    Primitive,
    /// The word of a primitive type, or an index.
    Value,
    /// A core value type.
    CoreValue,
    /// The core value type of a table's elements, a reference.
    Element,
    /// The word, where the number is 1.
    Flag(Word),
    /// `(` and `mut`, where the number is 1.
    OpensMutable,
    /// `)`, where the number is 1.
    ClosesMutable,
    /// The words of the kind of an item.
    Kind,
    /// The word of the kind of a core item.
    CoreKind,
    /// The words of the kind of an item of an enclosing scope.
    OuterKind,
    /// The words of a space, and an index.
    Item,
    /// The word of a core space, and an index.
    CoreItem,
    /// A part that may be missing.
    Optional(Part),
    /// A part that may be missing, in parentheses behind the word.
    OptionalIn(Word, Part),
    /// A row.
    One,
    /// Rows.
    Each,
    /// Rows, each in parentheses behind the word.
    EachIn(Word),
    /// `(result (value))` for each result of a start function.
    Results,
    /// The definitions of a scope.
    Definitions,
}

/// A part of a line.
#[derive(Clone, Copy)]
pub enum Piece {
    /// The character `(`.
    Open,
    /// The character `)`.
    Close,
    /// A word.
    Word(Word),
    /// The leaf at this place, and how it is printed.
    Leaf(u8, Field),
}

/// What stands around the pieces of a line.
#[derive(Clone, Copy)]
pub enum Frame {
    /// Nothing.
    Bare,
    /// `(` and the word, and `)`.
    Group(Word),
    /// `(@custom`, and `)`.
    Custom,
    /// `(type (` and the word, and `))`.
    TypeOf(Word),
    /// `(canon` and the word, and `(core func))`.
    BuiltIn(Word),
}

/// The line of a row, in the order of the tokens.
#[derive(Clone, Copy)]
pub struct Line {
    /// What stands around the pieces.
    pub frame: Frame,
    /// The pieces.
    pub pieces: &'static [Piece],
}

/// How a part is printed where it is there.
pub fn part_field(part: Part) -> Field
    ensures { field_of result ≡ part_of part }
{
    match part {
        Part::Value => Field::Value,
        Part::Number => Field::Number,
        Part::One => Field::One,
    }
}
