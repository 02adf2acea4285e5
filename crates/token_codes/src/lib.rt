//! Numbers for the classes of tokens.
//!
//! A reader that goes by a table asks of each token many times which word, string, id, integer, annotation or parenthesis it is. Here a token is told
//! once, by one look-up in the table of the words of the text format, and has a number from then on: tests of words compare numbers, and a choice
//! among words is one step. `specs/Numbers` has the classes in the order of their numbers; `laws` says that a number tells its class.
#![tactic(auto)]

pub mod laws;
mod next;
pub mod numbers;

pub use next::{number_at, number_behind, number_next};
