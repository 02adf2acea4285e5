//! Loose parts of a tree, and what is made of them.
//!
//! A reader puts what a rule of `text_rules` leaves on the stacks of a `Scratch`: rows, leaves, entries, ids and so on. Before it reads a part it
//! notes where stacks end; behind the part it calls a `wrap_` function, which takes all that stands behind these ends and puts one thing in its
//! place: a leaf, an entry or a definition, in the arena. Core modules stand beside the tree in `Cores`, and the tree names each by its number.
//! Nothing here looks at a token, or at the table of rules.
//!
//! All that can go wrong is want of memory; then nothing is said of what the stacks hold.
#![tactic(auto)]

mod cores;
mod definitions;
mod modules;
mod numbered;
mod outer;
mod rare;
mod scratch;
mod take;
mod wraps;

pub use cores::{Cores, NamedModule};
pub use definitions::{DefEnds, def_from, wrap_def};
pub use numbered::{wrap_by_number, wrap_joined};
pub use outer::{wrap_heap, wrap_outer};
pub use rare::{Ends, wrap_dropped, wrap_last_first, wrap_other_alone, wrap_results, wrap_swapped};
pub use scratch::Scratch;
pub use take::take_all;
pub use wraps::{Making, wrap_entry, wrap_list, wrap_made, wrap_part, wrap_scope};
