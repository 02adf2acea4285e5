//! Where the definitions of a component come from.
//!
//! A scope of a binary component holds more definitions than were written: each one says which written definition, or
//! which part of one, it stands for.

use crate::seq::Seq;

/// Where one definition of a binary scope comes from.
///
/// `def` counts the written definitions of the scope from 0. `place` counts the references of that definition from 0, in
/// the order of the text, numerals included; an inline node or bundle comes before the references in it, and inner
/// scopes are not entered.
#[derive(Clone, Copy, PartialEq, Eq, Debug)]
pub enum Origin {
    /// The written definition of this number.
    Written(u32),
    /// The type that was written in place of an index.
    InlineType { def: u32, place: u32 },
    /// The instance that was written in place of an index.
    Bundle { def: u32, place: u32 },
    /// The export that a definition asks for by its inline export name of this number.
    InlineExport { def: u32, name: u32 },
    /// The alias for one text of a path, counted from 0.
    ExportStep { def: u32, place: u32, step: u32 },
    /// The alias of an item of an outer scope.
    OuterAlias { def: u32, place: u32 },
    /// The name section.
    NameSection,
}

/// The origin of one definition, and those of the definitions in it.
#[derive(Drop)]
#[cycle(origins)]
pub struct ItemOrigin {
    /// Where the definition comes from.
    pub origin: Origin,
    /// The origins of the scope that the definition holds, where it holds one.
    pub inner: Option<ScopeOrigins>,
    /// Which references of the text stand in the definition of an expanded list: their `place`s, in leaf order. A reference that stands for
    /// an inline node or a bundle has the place of that node or bundle, and those written in it stand in another definition or, where it is
    /// reused, in none. Empty for what is neither written nor an inline type nor a bundle, and in the origins of a binary, where it is not
    /// recorded.
    pub places: Seq<u32>,
}

/// The origins of the definitions of a scope, in their order.
#[derive(Drop)]
#[cycle(origins)]
pub struct ScopeOrigins {
    /// One for each definition.
    pub items: Seq<ItemOrigin>,
}
