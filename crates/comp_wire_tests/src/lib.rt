//! Components written through the sink of `comp_wire` and read off byte by byte: what its contracts can't say is that a call
//! is answered at all, and that the table is the published one.
//!
//! The tests stand in a crate of their own, since a crate with tests is proved twice.
#![tactic(auto)]

#[cfg(test)]
mod tests;
