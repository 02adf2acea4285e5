//! Values that stand for what a rule of the text format leaves: how a type with a row of its own is read.
//!
//! A type says its rule, what leaves the rule leaves, and which of them a value stands for; `parse_leaves` reads by the rule and makes the value.
#![tactic(auto)]

pub mod laws;
mod read;
mod typed;

pub use read::read_leaves;
pub use typed::{OfLeaves, parse_leaves};
