//! Turns the definitions of a tree into rows with their leaves, in an arena.
//!
//! A variant of `item_tree` with its fields becomes the row of `wire_tree` that it stands for; one clause says so of each. It is what
//! `item_read` does, the other way round. Texts, payloads and core modules are lent on, and nothing is refused but for want of memory.
#![tactic(auto)]

mod arena;
mod canons;
mod entries;
mod items;
mod leaves;
mod named;
mod parts;
mod rows;
mod trees;
mod types;

pub use trees::rows_of_tree;
