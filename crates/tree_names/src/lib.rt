//! The references of a definition of a tree, looked up among open scopes.
//!
//! Each pass goes over the leaves of a definition once, whatever its row is: [`count_leaves`] looks up its names and counts what its
//! references need, [`check_leaves`] looks at the roots of its paths, and [`resolve_definition`] puts an index in the place of each name.
//! A name is looked up once: what it denotes is kept, in the order of the names, and the later passes take it from there
//! ([`Denotations`]). What they find is what the tables of `comp_tables` have. So it is with the outer alias of a name that leads out: the
//! first pass tells whether one of the same item stands already and serves it, and the last takes the answer from there. Lists of
//! definitions, and the scopes that stand in them, are gone through by `tree_resolve`.
#![tactic(auto)]

mod cases;
mod core_rule;
mod count;
mod denotations;
mod generated;
pub mod laws;
mod leaf;
mod leaves;
mod name;
mod node;
mod path;
mod reading;
mod refusals;
mod roots;
mod sums;

pub use core_rule::CoreRule;
pub use count::count_leaves;
pub use denotations::Denotations;
pub use generated::Generated;
pub use node::resolve_definition;
pub use path::instance_space;
pub use reading::Reading;
pub use refusals::no_memory;
pub use roots::check_leaves;
pub use sums::Sums;
