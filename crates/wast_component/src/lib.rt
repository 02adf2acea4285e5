//! From the text of one component to its binary.
//!
//! The text comes from the caller. It is cut into tokens by `wast_parser` and read into a tree by the table of rules (`tree_read`); the tree
//! is measured (`tree_walks`), expanded (`tree_expand`), resolved (`tree_resolve`) and written (`tree_write`), each pass over the same kind
//! of tree. Core modules stand beside it, and go through the passes of `core_encode`. What comes back is the binary, with the origin of each
//! definition in it.
#![tactic(auto)]

mod bytes;
mod checked;
mod coded;
mod component;
mod laws;
mod light;
mod measures;
mod module;
mod ruled;
mod rules;
mod text;
mod whole;

pub use laws::{encodings_are_light, spelled_once};
pub use text::{Encoded, component_binary, encode_component_text};
