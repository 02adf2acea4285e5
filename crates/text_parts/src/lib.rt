//! The rules of parts of rows that are read alone, as a tree with a type for each row reads a field of a record.
//!
//! Each part has a name in an enum of its subject, and its rule by the function beside that, whose contract says that it is the published one;
//! `specs/ReadAlone` is the table. Rows that stand in others by their names have theirs by `row_rule` and `part_rule` of `text_table`, built-ins by
//! `built_in_rule`, and references to items of one kind by the functions of its `kinds`.
#![tactic(auto)]

mod field_parts;
mod item_parts;
mod type_parts;
mod value_parts;

pub use field_parts::{FieldPart, field_rule};
pub use item_parts::{ItemPart, item_rule};
pub use type_parts::{TypePart, type_rule};
pub use value_parts::{ValuePart, value_rule};
