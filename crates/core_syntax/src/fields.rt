//! The fields of a module.

use crate::instructions::Expression;
use crate::items::{ExportKind, Imports, Limits};
use crate::types::{RefType, Type, TypeUse, ValType};
use wast_parser::{Id, Index, NameAnnotation, Span};

/// A field of a module (WebAssembly, text format, Modules).
#[derive(Drop)]
pub enum ModuleField<'a> {
    /// A type.
    Ty(Type<'a>),
    /// An import.
    Import(Imports<'a>),
    /// A function.
    Func(Func<'a>),
    /// A memory.
    Memory(Memory<'a>),
    /// A table.
    Table(Table<'a>),
    /// A global.
    Global(GlobalField<'a>),
    /// An export.
    Export(Export<'a>),
    /// Another one, which is read and never written.
    Other(Span),
}

/// A local of a function.
#[derive(Drop)]
pub struct Local<'a> {
    /// Its id.
    pub id: Option<Id<'a>>,
    /// Its label.
    pub name: Option<NameAnnotation<'a>>,
    /// Its type.
    pub ty: ValType<'a>,
}

/// A function. One with an inline import has no locals and no instructions in a text.
#[derive(Drop)]
pub struct Func<'a> {
    /// Where its first word stands.
    pub span: Span,
    /// Its id.
    pub id: Option<Id<'a>>,
    /// Its label.
    pub name: Option<NameAnnotation<'a>>,
    /// The names under which it is exported.
    pub exports: Vec<&'a str>,
    /// The module and the name from which it is imported.
    pub import: Option<(&'a str, &'a str)>,
    /// Its type.
    pub ty: TypeUse<'a>,
    /// Its locals, which follow its parameters.
    pub locals: Vec<Local<'a>>,
    /// Its instructions.
    pub body: Expression<'a>,
}

/// A memory.
#[derive(Drop)]
pub struct Memory<'a> {
    /// Where its first word stands.
    pub span: Span,
    /// Its id.
    pub id: Option<Id<'a>>,
    /// Its label.
    pub name: Option<NameAnnotation<'a>>,
    /// The names under which it is exported.
    pub exports: Vec<&'a str>,
    /// The module and the name from which it is imported.
    pub import: Option<(&'a str, &'a str)>,
    /// Its limits, in pages.
    pub limits: Limits,
}

/// A table.
#[derive(Drop)]
pub struct Table<'a> {
    /// Where its first word stands.
    pub span: Span,
    /// Its id.
    pub id: Option<Id<'a>>,
    /// Its label.
    pub name: Option<NameAnnotation<'a>>,
    /// The names under which it is exported.
    pub exports: Vec<&'a str>,
    /// The module and the name from which it is imported.
    pub import: Option<(&'a str, &'a str)>,
    /// Its limits, in elements.
    pub limits: Limits,
    /// The type of its elements.
    pub ty: RefType<'a>,
}

/// A global. One with an inline import has no instructions in a text.
#[derive(Drop)]
pub struct GlobalField<'a> {
    /// Where its first word stands.
    pub span: Span,
    /// Its id.
    pub id: Option<Id<'a>>,
    /// Its label.
    pub name: Option<NameAnnotation<'a>>,
    /// The names under which it is exported.
    pub exports: Vec<&'a str>,
    /// The module and the name from which it is imported.
    pub import: Option<(&'a str, &'a str)>,
    /// Its type.
    pub ty: ValType<'a>,
    /// Whether it is mutable.
    pub mutable: bool,
    /// Its first value.
    pub init: Expression<'a>,
}

/// An export (WebAssembly, text format, Exports).
#[derive(Drop)]
pub struct Export<'a> {
    /// Where its first word stands.
    pub span: Span,
    /// The name under which the item is exported.
    pub name: &'a str,
    /// What it is.
    pub kind: ExportKind,
    /// Which it is.
    pub item: Index<'a>,
}
