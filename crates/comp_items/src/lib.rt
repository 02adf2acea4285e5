//! References to items, index spaces, and the options of canonical functions, with a type for each.
//!
//! A value is read by its rule of the text format (`typed_parts`), goes into the tree and comes out of it; `specs/` says what it stands for there.
#![tactic(auto)]

mod contents;
mod core_items;
mod item_spaces;
mod items;
mod kinds;
mod options;
mod peeks;
mod prefixed;
mod refusals;
mod spaces;
mod words;

pub use contents::parse_core_prefixed_contents;
pub use core_items::CoreItemRef;
pub use item_spaces::{ComponentItem, CoreItem};
pub use items::ItemRef;
pub use kinds::{ComponentExportAliasKind, ComponentOuterAliasKind};
pub use options::{CanonOpt, parse_canon_opts};
pub use prefixed::{CorePrefixedRef, IndexOrRef};
pub use spaces::Ns;
pub use words::{CoreItemWord, ItemWord};
