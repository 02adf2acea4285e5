//! A component as it is read from its binary: its definitions, with their fields.
//!
//! The types have the variants and fields of those that `comp_wire` writes. A text, a name, a payload and a core module are bytes of those
//! that were read; a kind is a space, since the binary format has every sort there; and a scope in a definition is a tree of its own, whose
//! items are the definitions of a component or the declarations of a type. `component_of` (`specs/Model`) is the component of the model
//! that a tree stands for.
#![tactic(auto)]

mod tree;

pub use tree::{Item, ItemAlias, ItemCoreType, ItemType, Tree};
