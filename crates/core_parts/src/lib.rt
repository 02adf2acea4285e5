//! What the readers of core modules share, for types of any kind: words, parts that stand one behind the other, groups of one word, and
//! forms that are read and never written, which are gone over.
//!
//! A reader stands with its type, in `core_syntax`. What is here reads by rows of `wast_grammar`, whatever a value of a part is.
#![tactic(auto)]

mod inline_read;
mod keywords;
mod limit_ends;
mod lists;
mod names;
mod operation_words;
mod other_fields;
mod parts;
mod producer_parts;
mod turns;
mod type_ends;
mod type_looks;
mod type_place;
mod unread;
mod word_groups;

pub use inline_read::{Head, InlineImport, OptionalImport, is_inline_import};
pub use keywords::{
    Words, is_any_next, is_group_of, is_word_next, over_word, take_any, take_note, take_word,
};
pub use limit_ends::{LimitWord, LimitsEnd, is_segment, segment, unread_limits};
pub use lists::items_to_end;
pub use names::{NameParts, Names};
pub use operation_words::{Indexed, Kind, Plain, integer_32, integer_64, is_operation, next_kind};
pub use other_fields::{is_noted, note_group, other_field, other_type};
pub use parts::{
    Grouped, Joined, Part, Perhaps, in_parentheses, in_turn, part_and_perhaps, two_alone,
    word_and_perhaps, word_and_two, word_group,
};
pub use turns::{Next, next_turn, other_operation, take_end};
pub use type_ends::{TypeEnd, unread_type};
pub use type_looks::{is_reference_type, other_reference};
pub use type_place::Place;
pub use unread::skip_rest;
pub use word_groups::{GroupItem, Groups, WordedItem};
