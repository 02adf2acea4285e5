//! The names that a component gives to its items.

use crate::seq::Seq;
use comp_model::Space;

/// The names of a component: its own, and those of its items, space by space.
#[derive(Drop)]
pub struct NameMaps<'a> {
    /// The component's name, where it has one.
    pub component: Option<&'a str>,
    /// The names of the items, a space at a time, in the order of the name section.
    pub maps: Seq<NameMap<'a>>,
}

/// The names of the items of one space.
#[derive(Drop)]
pub struct NameMap<'a> {
    /// The space.
    pub space: Space,
    /// The index and the name of each item that has one, by ascending index.
    pub names: Seq<(u32, &'a str)>,
}
