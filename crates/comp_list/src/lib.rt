//! The references of a component binary: a line for each, with what it is a reference to.
//!
//! A walk goes over the tree of a binary, definition by definition. Of each scope that is open it has a table of what its definitions
//! declare, so that the item of an index is found by a search in halves. `list` goes over definitions with their fields (`item_tree`),
//! `list_scope` over rows (`wire_tree`).
#![tactic(auto)]

mod alias;
mod item_places;
mod item_references;
mod item_runs;
mod laws;
mod line;
mod lines;
mod open;
mod places;
mod reference;
mod runs;
mod scope_list;
mod spots;
mod tree_list;

pub use alias::outer_count_of;
pub use item_places::{ItemPlaces, places_of};
pub use item_runs::item_run;
pub use laws::{listing_is_short, numbers_have_room};
pub use line::{Led, Line, Spot};
pub use places::Places;
pub use reference::{Reference, outer_count, value_reference};
pub use runs::{Run, leaf_run};
pub use scope_list::list_scope;
pub use tree_list::list;
