//! What C, and plain Rust, call of the encoder: a static library whose functions `include/wast.h` declares.
//!
//! Each function answers a status, and writes what it makes to a buffer of its caller's, with the length that is needed. A text comes as bytes;
//! where they are UTF-8, it goes to `wast_component`, and its binary, its origins or its refusal to the caller. Nothing stays in memory.
#![tactic(auto)]

mod buffer;
mod encode;
mod refusal;
mod status;

pub use encode::{wast_encode, wast_origins};
pub use refusal::{WastRefusal, wast_kind_name, wast_message};
pub use status::{BAD_FLAGS, DONE, LEGACY, NO_KIND, NO_MEMORY, NOT_UTF8, REFUSED, TOO_SHORT};
