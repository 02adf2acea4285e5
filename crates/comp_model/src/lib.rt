//! The one model of a component, written as text or encoded in binary, on which all contracts on names, plans and bytes stand.
//!
//! It has hardly any code: the rows of the tables as enums, and the table of what each row declares. All else is in `specs/`. A component is a scope of definitions; a definition has names and one
//! node; a node is a row of the tables of the Component Model with its leaves. A component of the text and the binary one that it
//! becomes are values of the same types, so what a scope declares is defined once.
#![tactic(auto)]

mod declares;
pub mod laws;
mod row;

pub use declares::{Declares, declares_by, described_space};
pub use row::{Row, ScopeKind};

/// The index spaces of a scope (Component Model, "Index Spaces"): eight of core items and five of the component's own.
#[derive(Clone, Copy, PartialEq, Eq, Debug)]
pub enum Space {
    /// Core functions.
    CoreFunc,
    /// Core tables.
    CoreTable,
    /// Core memories.
    CoreMemory,
    /// Core globals.
    CoreGlobal,
    /// Core exception tags.
    CoreTag,
    /// Core types: function types and module types.
    CoreType,
    /// Core modules.
    CoreModule,
    /// Core instances.
    CoreInstance,
    /// Component functions.
    Func,
    /// Values.
    Value,
    /// Component types.
    Ty,
    /// Components.
    Component,
    /// Component instances.
    Instance,
}
