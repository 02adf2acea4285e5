//! A component binary, printed as text and encoded again; and why that text is valid.
#![tactic(auto)]

mod binary;
pub mod laws;

pub use binary::{AgainError, again};
