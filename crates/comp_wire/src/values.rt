//! Value types, of components and of core modules.

use crate::seq::Seq;

/// A primitive value type.
#[derive(Clone, Copy, PartialEq, Eq, Debug)]
pub enum PrimitiveValType {
    Bool,
    S8,
    U8,
    S16,
    U16,
    S32,
    U32,
    S64,
    U64,
    F32,
    F64,
    Char,
    String,
    ErrorContext,
}

/// A value type of a component: a primitive, or the index of a defined type.
#[derive(Clone, Copy, PartialEq, Eq, Debug)]
pub enum ComponentValType {
    /// A primitive.
    Primitive(PrimitiveValType),
    /// The type of this index.
    Ty(u32),
}

/// What a core reference points to.
#[derive(Clone, Copy, PartialEq, Eq, Debug)]
pub enum WireHeap {
    /// Any function.
    Func,
    /// Any value of the host.
    Extern,
    /// The core type of this index.
    Concrete(u32),
}

/// A core value type.
#[derive(Clone, Copy, PartialEq, Eq, Debug)]
pub enum WireVal {
    I32,
    I64,
    F32,
    F64,
    V128,
    /// A reference.
    Ref {
        /// Whether it may be null.
        nullable: bool,
        /// What it points to.
        heap: WireHeap,
    },
}

/// A core function type.
#[derive(Drop)]
pub struct WireFunc {
    /// The types of its parameters.
    pub params: Seq<WireVal>,
    /// The types of its results.
    pub results: Seq<WireVal>,
}
