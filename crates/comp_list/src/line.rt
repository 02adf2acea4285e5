//! What is said of a reference.

use comp_model::Space;

/// A part of a definition: an item that it declares.
#[derive(Clone, Copy, PartialEq, Eq, Debug)]
pub struct Spot {
    /// The number of the definition in its scope.
    pub def: u32,
    /// The number of the part among those of the definition.
    pub part: u32,
}

/// Where a reference leads that is to an outer alias.
#[derive(Clone, Copy, PartialEq, Eq, Debug)]
pub enum Led {
    /// It is to no outer alias.
    Not,
    /// The alias leads to nothing.
    Nowhere,
    /// The alias leads to a part of a definition.
    To {
        /// How many scopes outward of the reference.
        up: u32,
        /// The part, by the numbers of that scope.
        spot: Spot,
    },
}

/// A reference of a component, and what it is a reference to.
#[derive(Clone, Copy, PartialEq, Eq, Debug)]
pub struct Line {
    /// How many scopes stand around the definition, the outermost not counted.
    pub level: u32,
    /// The number of the definition in its scope.
    pub def: u32,
    /// The number of the reference in its definition.
    pub place: u32,
    /// The space of the index.
    pub space: Space,
    /// The index.
    pub index: u32,
    /// How many scopes outward the index is looked up, where it is that of an outer alias.
    pub up: Option<u32>,
    /// What declares the item of the index; none where there is no such item or scope.
    pub at: Option<Spot>,
    /// Where it leads, if it is to an outer alias.
    pub led: Led,
}
