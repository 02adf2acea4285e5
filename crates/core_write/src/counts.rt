//! How many items of each space stand before a field.

/// How many items of each space that can be exported stand before a field.
#[derive(Clone, Copy)]
pub struct Counts {
    /// Functions.
    pub funcs: usize,
    /// Tables.
    pub tables: usize,
    /// Memories.
    pub memories: usize,
    /// Globals.
    pub globals: usize,
}
