//! The tests of `core_syntax`: what no line of a stored run shows. What texts of core modules come to, part by part, stands in the runs
//! of `golden_texts` and `core_prog`.
//!
//! They stand in a crate of their own, since a crate with tests is proved twice.
#![tactic(auto)]

#[cfg(test)]
mod tests;
