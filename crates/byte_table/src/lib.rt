//! The tables of the binary format in code: the line of bytes of each row in each place where it may stand, and the section of each
//! definition. A line here is the line of the table of `comp_wire`, and each row is looked up by a match.
#![tactic(auto)]

mod line;
mod place;
mod sections;
mod table;

pub use line::{Family, Field, Line, Part, Piece, TypeKind, number_of};
pub use place::{Placed, pieces_in};
pub use sections::{is_producers, rows_in, section_of_row};
pub use table::line_of;
