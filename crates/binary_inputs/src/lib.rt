//! An input that has the binary of a component, as it is or in hexadecimal, and what is to be written where it has none that is read.
#![tactic(auto)]

mod kinds;
mod source;
mod told;

pub use kinds::read_kind_name;
pub use source::{HexRefusal, bytes_of, digits_of};
pub use told::{Told, told_digits, told_error};
