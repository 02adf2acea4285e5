//! What the word `compose` answers, by the whole input: the plan of a composition.
#![tactic(auto)]

mod kinds;
mod reply;

pub use kinds::plan_kind_name;
pub use reply::{Told, reply_to_plan};
