//! A component of any length: lists by name, each of the one before, and in an inner component lists of each of them.
#![tactic(auto)]

mod count;
mod text;

pub use count::{MAX_COUNT, count_of};
pub use text::text_of;
