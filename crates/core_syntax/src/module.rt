//! A whole module.

use crate::fields::ModuleField;
use wast_parser::{Id, NameAnnotation, Span};

/// A core module.
#[derive(Drop)]
pub struct Module<'a> {
    /// Where its first word stands.
    pub span: Span,
    /// Its id.
    pub id: Option<Id<'a>>,
    /// Its label.
    pub name: Option<NameAnnotation<'a>>,
    /// Its fields or its bytes.
    pub kind: ModuleKind<'a>,
    /// What was done to it.
    pub stage: Stage,
}

/// How a module is written.
#[derive(Drop)]
pub enum ModuleKind<'a> {
    /// As fields.
    Text(Vec<ModuleField<'a>>),
    /// As its bytes, in pieces.
    Binary(Vec<&'a [u8]>),
}

/// What was done to a tree.
#[derive(Drop)]
pub enum Stage {
    /// It was read.
    Parsed,
    /// Its names were resolved.
    Resolved,
    /// Its names were refused.
    Failed,
}

/// What made a module (WebAssembly tool conventions, Producers Section).
#[derive(Drop)]
pub struct Producers<'a> {
    /// A field's word, a name and a version, each.
    pub fields: Vec<(&'a str, &'a str, &'a str)>,
}
