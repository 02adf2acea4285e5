//! Scopes, definitions, nodes and leaves.

ghost use Rattle.std.specs.Prelude.{◌≡◌, []};
ghost use Rattle.comp_model.specs.Core.{outward, own};
ghost use Rattle.comp_model.specs.Model.{no_names};
ghost use Rattle.comp_tree.specs.Model.{names_at, reach_of};

use comp_model::{Row, ScopeKind, Space};
use comp_wire::Origin;
use wast_parser::{Id, Index, Span};

/// The first part of an outer alias: a count of scopes outward, or the id of an open scope.
#[derive(Clone, Copy)]
pub struct Place<'a> {
    /// The word `alias`.
    pub alias: Span,
    /// The first part.
    pub scope: Index<'a>,
}

/// How far a name is looked for.
#[derive(Clone, Copy)]
pub enum Reach<'t, 'a> {
    /// Outward from the innermost scope.
    Outward,
    /// In the innermost scope alone.
    Own,
    /// In the scope at a place alone.
    At(&'t Place<'a>),
}

/// A path: an item, and what is exported from it. Without any name it is a reference to the root, which looks outward.
#[derive(Clone, Copy)]
pub struct PathUse<'t, 'a> {
    /// Its root.
    pub root: Index<'a>,
    /// The export names behind it.
    pub exports: &'t [&'a str],
}

/// Outward from the innermost scope.
static OUTWARD: Reach<'static, 'static> = Reach::Outward;

/// In the innermost scope alone.
static OWN: Reach<'static, 'static> = Reach::Own;

/// That a name is looked for outward from the innermost scope.
pub fn outward() -> &'static Reach<'static, 'static>
    ensures { reach_of result.now ≡ outward }
{
    &OUTWARD
}

/// That a name is looked for in the innermost scope alone.
pub fn own() -> &'static Reach<'static, 'static>
    ensures { reach_of result.now ≡ own }
{
    &OWN
}

/// The core type of a reference.
#[derive(Clone, Copy)]
pub struct Concrete<'t, 'a> {
    /// How far its name is looked for.
    pub reach: Reach<'t, 'a>,
    /// Its number or its name.
    pub index: Index<'a>,
}

/// A core value type (WebAssembly text format, "Types"). The flag of a reference type says that it is nullable.
#[derive(Clone, Copy)]
pub enum CoreValue<'t, 'a> {
    /// `i32`.
    I32,
    /// `i64`.
    I64,
    /// `f32`.
    F32,
    /// `f64`.
    F64,
    /// `v128`.
    V128,
    /// A reference to a function.
    RefFunc(bool),
    /// A reference to a value of the host.
    RefExtern(bool),
    /// A reference to a value of this core type.
    RefConcrete(bool, &'t Concrete<'t, 'a>),
    /// Another type, which is read and never written.
    Other,
}

/// The names of a definition.
#[derive(Clone, Copy)]
pub struct Names<'t, 'a> {
    /// The ids of its parts, of which the last ones may be left out.
    pub ids: &'t [Option<Id<'a>>],
    /// The labels of its parts, of which the last ones may be left out.
    pub labels: &'t [Option<&'a str>],
    /// The names of its inline exports.
    pub exports: &'t [&'a str],
}

/// A part of a node.
#[derive(Clone, Copy)]
#[cycle(tree)]
pub enum Leaf<'t, 'a> {
    /// A text.
    Text(&'a str),
    /// A text in pieces.
    Pieces(&'t [&'a [u8]]),
    /// A number.
    Number(u32),
    /// The kind of an item.
    Kind(Space),
    /// A core value type.
    CoreValue(CoreValue<'t, 'a>),
    /// A reference into a space by a number, which stands there.
    Numeral(Space, u32, Span),
    /// A reference into a space by a name.
    Name(Space, &'t Reach<'t, 'a>, &'t Id<'a>),
    /// A reference into a space by a path.
    Path(Space, &'t PathUse<'t, 'a>),
    /// The first part of an outer alias.
    Place(&'t Place<'a>),
    /// An optional part that is missing.
    Absent,
    /// An optional part that is there.
    Present(&'t Leaf<'t, 'a>),
    /// A node.
    Node(&'t Node<'t, 'a>),
    /// Nodes.
    Nodes(&'t [Node<'t, 'a>]),
    /// A reference into a space in whose place a node stands.
    Inline(Space, &'t Node<'t, 'a>),
    /// A reference into a space in whose place a list of exports stands.
    Bundle(Space, &'t Node<'t, 'a>),
    /// The id of a case.
    CaseId(&'t Option<Id<'a>>),
    /// The ids of the results of a start function.
    Results(&'t [Option<Id<'a>>]),
    /// A core module, by its number in a list of them.
    Core(usize),
    /// A scope.
    Scope(&'t Scope<'t, 'a>),
}

/// A row of the tables with its leaves.
#[derive(Clone, Copy)]
#[cycle(tree)]
pub struct Node<'t, 'a> {
    /// The row.
    pub row: Row,
    /// Its first word in the text, behind the parenthesis that it begins with; 0 where it was generated.
    pub span: Span,
    /// The leaves, in the order in which they are visited.
    pub leaves: &'t [Leaf<'t, 'a>],
}

/// A definition.
#[derive(Clone, Copy)]
#[cycle(tree)]
pub struct Def<'t, 'a> {
    /// Which definition of the text it is, or which part of one.
    pub origin: Origin,
    /// The numbers in the text of its references, in order, where they aren't 0 and those after it.
    pub places: &'t [u32],
    /// Its first word, behind the parenthesis; 0 where it was generated.
    pub span: Span,
    /// Its names.
    pub names: &'t Names<'t, 'a>,
    /// What it is.
    pub node: Node<'t, 'a>,
}

/// Definitions, in order.
#[derive(Clone, Copy)]
#[cycle(tree)]
pub struct Scope<'t, 'a> {
    /// Whether it is a component, or which type.
    pub kind: ScopeKind,
    /// Its id.
    pub id: Option<Id<'a>>,
    /// Its label.
    pub label: Option<&'a str>,
    /// The definitions.
    pub defs: &'t [Def<'t, 'a>],
}

/// No ids, labels and exports.
static NO_NAMES: Names<'static, 'static> = Names {
    ids: &[],
    labels: &[],
    exports: &[],
};

/// The names of a definition that has none.
pub fn no_names() -> &'static Names<'static, 'static>
    ensures { names_at 0 result.now ≡ no_names }
{
    &NO_NAMES
}

/// No labels.
pub fn no_labels<'t, 'a>() -> &'t [Option<&'a str>]
    ensures { result.now ≡ [] }
{
    &[]
}

/// No inline exports.
pub fn no_exports<'t, 'a>() -> &'t [&'a str]
    ensures { result.now ≡ [] }
{
    &[]
}

// A pass copies what it changes, so these are kept small: in bytes.
const _: () = prove!(size_of::<Leaf<'static, 'static>>() <= 24);

const _: () = prove!(size_of::<Node<'static, 'static>>() <= 24);

const _: () = prove!(size_of::<Def<'static, 'static>>() <= 72);
