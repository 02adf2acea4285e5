//! Whether each reference of a component binary is to something that stands before it.
//!
//! A walk goes over the tree of a binary, definition by definition, as that of `comp_list` does. Of each open scope it has thirteen
//! numbers, how many items of each space stand in front of the definition at hand; it takes no memory. `order` goes over definitions with
//! their fields (`item_tree`), `order_scope` over rows (`wire_tree`).
#![tactic(auto)]

mod before;
mod counts;
mod scope_order;
mod steps;
mod tree_order;
mod verdict;

pub use scope_order::order_scope;
pub use tree_order::order;
pub use verdict::{Order, Verdict};
