//! How many bytes numbers have in LEB128, and parts with their length in front of them (WebAssembly, binary format, Integers), without
//! writing them.
#![tactic(auto)]

mod leb;

pub use leb::{framed_length, is_word, signed_length, sleb_length, uleb_length};
