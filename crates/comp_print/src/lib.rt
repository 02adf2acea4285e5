//! The text of a component binary, printed from the tree of its definitions with their fields.
//!
//! The definitions become rows in an arena (`item_rows`), which are printed by the table of lines (`tree_print`).
#![tactic(auto)]

mod whole;

pub use tree_print::{PrintError, PrintKind};
pub use whole::print;
