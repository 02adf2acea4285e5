//! The tests of `wast_component`: components that weigh as much as one may, and more, which are too long for `golden_texts`; and where nodes of
//! its tree stand in the text.
//!
//! They stand in a crate of their own, since a crate with tests is proved twice.
#![tactic(auto)]

#[cfg(test)]
mod spans;
#[cfg(test)]
mod tests;
