//! The tests of `tree_write`: small trees that are made by hand, and the bytes that the binary format gives them.
//!
//! They stand in a crate of their own, since a crate with tests is proved twice.
#![tactic(auto)]

#[cfg(test)]
mod short;
#[cfg(test)]
mod whole;
