//! The ids of a core module, space by space, and what the names in its instructions mean.

use crate::namespace::Namespace;

/// The ids of the items of a core module, one namespace for each of its index spaces (WebAssembly, text format, Indices).
#[derive(Drop)]
pub struct ModuleNames<'a> {
    /// The types.
    pub types: Namespace<'a>,
    /// The functions.
    pub funcs: Namespace<'a>,
    /// The tables.
    pub tables: Namespace<'a>,
    /// The memories.
    pub memories: Namespace<'a>,
    /// The globals.
    pub globals: Namespace<'a>,
    /// What the names in the instructions of the fields mean, in order: each the place of its item, parameter or local. Parameters
    /// that only a type tells of don't count.
    pub places: Vec<u32>,
}
