//! The table of the text format in code: rules as data, by which a reader goes.
//!
//! `rule` has what rules are made of, and `values`, `core_types`, `references`, `types`, `instances`, `canons` and `fields` have a rule for each row
//! of the format, in the order of its chapters. All of them are constants that are lent for good. `specs/Code` says which rule of `text_rules` each
//! stands for; the contracts of `row_rule`, `part_rule` and `whole_text` say that it is the published one, and so the checker computes. `chosen`
//! finds the rule of a word by its number in one step, and `holds` tells by the numbers of the next tokens whether a test holds.
//!
//! A line of the built-ins has its rule by `built_in_rule`, and references to items of one kind by the functions of `kinds`; other parts that are read
//! alone have theirs in `text_parts`, which takes the constants from here.
#![tactic(auto)]

pub mod canons;
mod choices;
pub mod core_types;
pub mod fields;
mod forms;
pub mod instances;
mod kinds;
pub mod laws;
mod parts;
pub mod references;
mod rows;
pub mod rule;
mod tests;
pub mod types;
pub mod values;

pub use choices::{built_in_rule, chosen, number_told};
pub use kinds::{
    CoreItemKind, ItemKind, core_item_of_either_form, core_item_reference, index_or_core_item,
    index_or_item_reference, item_reference,
};
pub use parts::part_rule;
pub use rows::{row_rule, whole_text};
pub use tests::{holds, holds_at, is_silent};
