//! Reads the text of a component into its tree, by the rules of `text_rules`.
//!
//! What is read is kept as loose parts (`tree_build`) until a rule makes something of them, which goes into the arena once.
#![tactic(auto)]

mod fault;
mod fields;
mod left;
mod making;
mod names;
mod outside;
mod own_names;
mod parts;
mod path;
mod plain;
mod read;
mod reader;
mod skip;
mod steps;
mod text;
mod told;
mod unwritten;

pub use left::{LeftParts, read_parts};
pub use text::{TextTree, read_text};
pub use tree_build::{Cores, NamedModule};
