//! The plan of a composition: lines that name parts, instances of them, and what is exported.
#![tactic(auto)]

mod line;
mod plan;
mod words;

pub use line::{Argument, Line, read_argument, read_line};
pub use plan::{all_of, first_bad_line, next_line};
pub use words::{Word, cut};
