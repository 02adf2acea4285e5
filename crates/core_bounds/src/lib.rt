//! The numerals of a core module that was read: each is below `2 ^ 32`, and each constant within its bits.
#![tactic(auto)]

mod numerals;

pub use numerals::read_numerals;
