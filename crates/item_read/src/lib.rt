//! Reads the binary of a component as the tree of its definitions with their fields.
//!
//! `wire_read` reads bytes as rows with their leaves; here each row becomes the variant of `item_tree` that has these leaves as fields. One
//! clause says of each that the variant stands for just this row. A row that was read has the leaves that the format's table gives it, so
//! that only want of memory stops a conversion.
#![tactic(auto)]

mod aliases;
mod canons;
mod core_types;
mod entries;
mod items;
mod kinds;
mod leaves;
mod named;
mod parts;
mod rows;
mod trees;
mod types;
mod whole;

pub use whole::read;
pub use wire_read::{ReadError, ReadKind};
