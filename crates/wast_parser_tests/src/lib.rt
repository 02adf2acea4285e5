//! The tests of `wast_parser`: the words of its types, and strings that are no text.
//!
//! They stand in a crate of their own, since a crate with tests is proved twice.
#![tactic(auto)]

#[cfg(test)]
mod strings;
#[cfg(test)]
mod words;
