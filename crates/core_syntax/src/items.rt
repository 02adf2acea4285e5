//! What a module imports and exports.

use crate::types::{RefType, TypeUse, ValType};
use wast_parser::{Id, NameAnnotation, Span};

/// How many pages or elements: at least, and at most.
#[derive(Drop)]
pub struct Limits {
    /// How many there are at first.
    pub min: u32,
    /// How many there may ever be.
    pub max: Option<u32>,
}

/// What an import asks for.
#[derive(Drop)]
pub enum ItemKind<'a> {
    /// A function of a type.
    Func(TypeUse<'a>),
    /// A table with its limits and the type of its elements.
    Table(Limits, RefType<'a>),
    /// A memory with its limits, in pages.
    Memory(Limits),
    /// A global with its type, and whether it is mutable.
    Global(ValType<'a>, bool),
    /// Another one, which is read and never written.
    Other(Span),
}

/// The signature of an import.
#[derive(Drop)]
pub struct ItemSig<'a> {
    /// Where its first word stands.
    pub span: Span,
    /// The id of the item.
    pub id: Option<Id<'a>>,
    /// The label of the item.
    pub name: Option<NameAnnotation<'a>>,
    /// What it asks for.
    pub kind: ItemKind<'a>,
}

/// An import (WebAssembly, text format, Imports).
#[derive(Drop)]
pub struct Imports<'a> {
    /// Where its first word stands.
    pub span: Span,
    /// The module from which the item comes.
    pub module: &'a str,
    /// The name that the item has there.
    pub name: &'a str,
    /// The item.
    pub sig: ItemSig<'a>,
}

/// What an export is of. No text spells an export of a tag.
#[derive(Clone, Copy, PartialEq, Eq, Debug)]
pub enum ExportKind {
    /// A function.
    Func,
    /// A table.
    Table,
    /// A memory.
    Memory,
    /// A global.
    Global,
    /// A tag, which is never written.
    Tag,
}
