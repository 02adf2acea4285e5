//! How a refusal is printed: the name of its kind, and the line that says why a text is refused, and where.
#![tactic(auto)]

mod kinds;
mod line;

pub use kinds::kind_name;
pub use line::refusal_line;
