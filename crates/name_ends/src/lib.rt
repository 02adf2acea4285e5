//! The end of a name as a number, by which most names are told apart without going over their bytes.
#![tactic(auto)]

mod bytes;

pub use bytes::ending;
