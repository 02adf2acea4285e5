//! Where the definitions of a component come from, in print: a line each; and how many there are.
#![tactic(auto)]

mod count;
mod laws;
mod print;

pub use count::{Counts, count_marks};
pub use laws::plan_costs_its_marks;
pub use print::{origin_lines, push_lines};
