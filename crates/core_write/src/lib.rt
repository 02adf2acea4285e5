//! The bytes of core modules whose names are resolved.
//!
//! Beside the encoder it offers what a test of what can be written shares with it: which items stand in which section, how many of each
//! space stand before a field, how an item is named, and the numbers of references.
#![tactic(auto)]

mod bytes;
mod code;
mod counts;
mod exports;
mod fields;
mod instructions;
mod items;
mod module;
mod name_section;
mod names;
mod part;
mod sections;
mod types;
mod values;

pub use code::extends_run;
pub use counts::Counts;
pub use exports::count_in;
pub use fields::{name_of, name_of_field, space_of};
pub use instructions::number_of;
pub use items::type_index;
pub use module::encode_module;
pub use names::is_in;
pub use part::Part;
pub use values::has_bytes;
