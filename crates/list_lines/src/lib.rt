//! How a listing of references is printed, and whether it is in order.
#![tactic(auto)]

mod print;

pub use print::{list_lines, order_line};
