//! What the words `list` and `order` answer, by the whole input: the binary of a component, as it is or in hexadecimal.
#![tactic(auto)]

mod reply;

pub use reply::{Ask, reply_to_binary};
