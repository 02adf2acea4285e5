//! The parts of a tree, as a visitor is told them.

use comp_model::{Row, ScopeKind, Space};
use wast_parser::{Id, Index, Span};

/// How far the name of a reference is looked for.
#[derive(Clone, Copy, Debug)]
pub enum Reach<'p> {
    /// Outward from the innermost scope.
    Outward,
    /// In the innermost scope alone.
    Own,
    /// In the scope alone that an outer alias names: where its word `alias` stands, and its first part.
    At(Span, Index<'p>),
}

/// A core value type (WebAssembly text format, "Types"). The flag of a reference type says that it is nullable.
#[derive(Clone, Copy, Debug)]
pub enum CoreValue<'p> {
    /// `i32`.
    I32,
    /// `i64`.
    I64,
    /// `f32`.
    F32,
    /// `f64`.
    F64,
    /// `v128`.
    V128,
    /// A reference to a function.
    RefFunc(bool),
    /// A reference to a value of the host.
    RefExtern(bool),
    /// A reference to a value of the core type with this index, whose name is looked for so far.
    RefConcrete(bool, Reach<'p>, Index<'p>),
    /// Another type, which is read and never written.
    Other,
}

/// The names of a definition, and where it stands.
#[derive(Clone, Copy, Debug)]
pub struct Names<'p> {
    /// The ids of its parts, of which the last ones may be left out.
    pub ids: &'p [Option<Id<'p>>],
    /// The labels of its parts, of which the last ones may be left out.
    pub labels: &'p [Option<&'p str>],
    /// The names of its inline exports.
    pub exports: &'p [&'p str],
    /// Its first word, behind the parenthesis.
    pub span: Span,
}

/// A part of a tree.
#[derive(Clone, Copy, Debug)]
pub enum Part<'p> {
    /// A text.
    Text(&'p str),
    /// A text in pieces.
    Pieces(&'p [&'p [u8]]),
    /// A number.
    Number(u32),
    /// The kind of an item.
    Kind(Space),
    /// A core value type.
    CoreValue(CoreValue<'p>),
    /// A reference into a space by its index.
    Index(Space, Reach<'p>, Index<'p>),
    /// A reference into a space that looks outward, by its index, or by the path of export names behind it where there are any.
    Reference(Space, Index<'p>, &'p [&'p str]),
    /// The first part of an outer alias, whose word `alias` stands there.
    Place(Span, Index<'p>),
    /// An optional part that is missing.
    Absent,
    /// An optional part, which comes next.
    Present,
    /// The id of a case.
    CaseId(Option<Id<'p>>),
    /// The ids of the results of a start function.
    Results(&'p [Option<Id<'p>>]),
    /// A leaf that holds a node, which comes next.
    Node,
    /// A list of nodes, which come next.
    List,
    /// A reference into a space in whose place a node stands, which comes next and is closed.
    Inline(Space),
    /// A reference into a space in whose place a list of exports stands, which comes next and is closed.
    Bundle(Space),
    /// A node begins: its leaves come next.
    Row(Row),
    /// A definition begins: its node comes next.
    Definition(Names<'p>),
    /// The definition that stands there ends.
    Ended(Span),
    /// A leaf that holds a scope, which comes next and is closed.
    Held,
    /// A scope with an id and a label begins: its definitions come next.
    Scope(ScopeKind, Option<Id<'p>>, Option<&'p str>),
    /// A node in the place of a reference, a list of exports or a scope ends.
    Closed,
}
