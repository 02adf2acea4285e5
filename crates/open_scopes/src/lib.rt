//! Open scopes, and what names denote among them (Component Model text format, "Index Spaces" and "Alias Definitions").
//!
//! While a list of definitions is resolved, the scopes around it are open. Of each is kept what its definitions declare: a [`Registry`] of
//! the ids of its items, and a table with the index of the first item of each definition. [`Counters`] number the items as they are
//! passed, and [`Aliases`] are the outer aliases that stand already. A reader's account is in `docs/SCOPES.md`, "Resolving with tables".
#![tactic(auto)]

mod aliases;
mod counters;
mod demands;
pub mod laws;
mod lookup;
mod numbered;
mod registry;
mod scopes;

pub use aliases::Aliases;
pub use counters::Counters;
pub use demands::{leads_out, missing_name, missing_place, unmet_kind};
pub use lookup::{Found, find, index_of};
pub use registry::{Item, Registry};
pub use scopes::{Open, depth_of};
