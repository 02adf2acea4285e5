//! Which sections there are.

/// A section whose items each field gives by itself.
#[derive(Clone, Copy)]
pub enum Part {
    /// Types.
    Types,
    /// Imports.
    Imports,
    /// The types of functions.
    Functions,
    /// Tables.
    Tables,
    /// Memories.
    Memories,
    /// Globals.
    Globals,
    /// Entries of code.
    Code,
}
