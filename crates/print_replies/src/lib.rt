//! What the word `print` answers, by the whole input: the binary of a component, as it is or in hexadecimal.
#![tactic(auto)]

mod kinds;
mod reply;

pub use kinds::print_kind_name;
pub use reply::reply_to_print;
