//! The tests of `comp_tree` and `tree_walks`: trees that are made by hand, and what is asked of them.
//!
//! They stand in a crate of their own, since a crate with tests is proved twice.
#![tactic(auto)]

#[cfg(test)]
mod tests;
