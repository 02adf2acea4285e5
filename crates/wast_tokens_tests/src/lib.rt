//! The tests of `wast_tokens`: each kind of token with its neighbours, and each fault with its offset.
//!
//! They stand in a crate of their own, since a crate with tests is proved twice.
#![tactic(auto)]

#[cfg(test)]
mod tests;
