//! Value types, function types and uses of types.

use wast_parser::{Id, Index, NameAnnotation, Span};

/// A value type (WebAssembly, text format, Value Types).
#[derive(Clone, Copy, PartialEq, Eq)]
pub enum ValType<'a> {
    /// A number of 32 bits.
    I32,
    /// A number of 64 bits.
    I64,
    /// A floating-point number of 32 bits.
    F32,
    /// A floating-point number of 64 bits.
    F64,
    /// A vector of 128 bits.
    V128,
    /// A reference.
    Ref(RefType<'a>),
    /// Another one, which is read and never written.
    Other(Span),
}

/// A reference type (WebAssembly, text format, Reference Types).
#[derive(Clone, Copy, PartialEq, Eq)]
pub struct RefType<'a> {
    /// Whether it may be null.
    pub nullable: bool,
    /// What it refers to.
    pub heap: HeapType<'a>,
}

/// What a reference refers to (WebAssembly, text format, Heap Types).
#[derive(Clone, Copy, PartialEq, Eq)]
pub enum HeapType<'a> {
    /// A function.
    Func,
    /// A value of the embedder.
    Extern,
    /// A value of a type of the module.
    Concrete(Index<'a>),
}

/// A parameter of a function type.
#[derive(Drop)]
pub struct Param<'a> {
    /// Its id, which only a function that writes it can name.
    pub id: Option<Id<'a>>,
    /// Its label.
    pub name: Option<NameAnnotation<'a>>,
    /// Its type.
    pub ty: ValType<'a>,
}

/// A function type (WebAssembly, text format, Function Types).
#[derive(Drop)]
pub struct FunctionType<'a> {
    /// The parameters, in order.
    pub params: Vec<Param<'a>>,
    /// The results, in order.
    pub results: Vec<ValType<'a>>,
}

/// What a type is defined to be.
#[derive(Drop)]
pub enum TypeDef<'a> {
    /// A function type.
    Func(FunctionType<'a>),
    /// Another one, which is read and never written.
    Other(Span),
}

/// A type of a module.
#[derive(Drop)]
pub struct Type<'a> {
    /// Where its first word stands.
    pub span: Span,
    /// Its id.
    pub id: Option<Id<'a>>,
    /// Its label.
    pub name: Option<NameAnnotation<'a>>,
    /// What it is defined to be.
    pub def: TypeDef<'a>,
}

/// A group of types that may refer to one another.
#[derive(Drop)]
pub struct Rec<'a> {
    /// Where its first word stands.
    pub span: Span,
    /// The types, in order.
    pub types: Vec<Type<'a>>,
}

/// A use of a type: an index, a signature, or both (WebAssembly, text format, Type Uses).
///
/// `inline` is there exactly where a group of parameters or results stands, be it empty. A use of neither is that of the empty
/// function type.
#[derive(Drop)]
pub struct TypeUse<'a> {
    /// The index of the type.
    pub index: Option<Index<'a>>,
    /// The signature.
    pub inline: Option<FunctionType<'a>>,
}
