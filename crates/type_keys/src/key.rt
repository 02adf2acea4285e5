//! The key of a type: what is compared of it, offsets aside.

ghost use Rattle.std.specs.Prelude.{◌≡◌, ◌++◌, ◌∷◌, [], OnOk};
ghost use Rattle.type_keys.specs.PartsOf.{part_of, parts_of};

use std::alloc::{AllocError, Global};

/// How far a name is looked for.
#[derive(Clone, Copy, PartialEq, Eq, PartialOrd, Ord)]
pub enum KeyReach<'a> {
    /// Outward from the innermost scope.
    Outward,
    /// In the innermost scope alone.
    Own,
    /// In the scope so many scopes outward.
    Counted(u32),
    /// In the scope with this id: its name, and the number that tells generated ones apart.
    Named(&'a str, u64),
}

/// A part of a key, one for each leaf and what is in it.
#[derive(Clone, Copy, PartialEq, Eq, PartialOrd, Ord)]
pub enum KeyPart<'a> {
    /// The end of the leaves of a row, or of a list of rows.
    End,
    /// A row, by its number.
    Row(u32),
    /// A text.
    Text(&'a str),
    /// A number.
    Number(u32),
    /// An optional part that is missing.
    Absent,
    /// An optional part that is there, in front of what it is.
    Present,
    /// A list of rows, in front of them.
    Nodes,
    /// A case without an id.
    NoCase,
    /// The id of a case: its name and its number.
    Case(&'a str, u64),
    /// A reference into a space, by the number of the space, in front of where it leads.
    Space(u8),
    /// A reference by an index.
    Numeral(u32),
    /// A reference by an id: how far it is looked for, its name and its number.
    Name(KeyReach<'a>, &'a str, u64),
    /// The root of a path, by an index.
    Root(u32),
    /// The root of a path, by an id: its name and its number.
    RootName(&'a str, u64),
    /// An export name of a path.
    Export(&'a str),
    /// A type that stands inline: the number of the first type of the scope that is equal to it.
    Inline(u32),
}

/// The key of a type: its row and its leaves in order, each with an end.
#[derive(PartialEq, Eq, PartialOrd, Ord, Drop)]
pub struct TypeKey<'a> {
    parts: Vec<KeyPart<'a>>,
}

impl<'a> TypeKey<'a> {
    /// A key without parts. It takes no memory.
    pub fn new(alloc: Global) -> TypeKey<'a>
        ensures { parts_of result ≡ [] }
    {
        TypeKey {
            parts: Vec::new(alloc),
        }
    }

    /// Puts a part behind the others.
    ///
    /// An `Err` is want of memory; behind it nothing is said of the key.
    pub fn push(&mut self, part: KeyPart<'a>) -> Result<(), AllocError>
        ensures { OnOk result (parts_of self.new ≡ parts_of self.old ++ part_of part.entry ∷ []) }
    {
        self.parts.push(part)?;
        Ok(())
    }
}
