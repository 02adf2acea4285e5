//! What the text of a component in binary form says, read as any text is: definitions and laws, no code.
#![tactic(auto)]

pub mod laws;
