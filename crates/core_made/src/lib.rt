//! What the table of the text format makes of the fields of a core module, and what the tree of `core_syntax` stands for: the same.
//!
//! The table takes the value of the fields apart (`specs/CoreMade` of `text_rules`). A tree is seen as a value of the same rows, by `many_view field_group_view`
//! of `core_syntax`, and stands for fields of the model, by `fields_of`. The laws say that what is made of the value is what the tree stands for.
#![tactic(auto)]

pub mod laws;
