//! The table of the printed text: a line for each row of a component in binary form, with numerals alone; the text of a component by
//! that table, and which components have one. Definitions and laws, no code.
#![tactic(auto)]

pub mod laws;
