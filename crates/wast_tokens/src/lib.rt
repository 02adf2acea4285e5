//! A text as tokens: white space, comments, parentheses, annotations and runs, and the refusals of a text with their places.
//!
//! A text comes as it was read. Its tokens go to the readers by their places alone; what a token spells is looked up in the text.
#![tactic(auto)]

mod blocks;
mod chars;
mod error;
mod lexer;
mod messages;
mod numbers;
mod runs;
mod span;
mod strings;
mod token;
mod values;

pub use error::{CoreRule, Error, ErrorKind, FormKind, LexFault};
pub use lexer::{MAX_TEXT, lex, one_tiling_or_fault};
pub use span::Span;
pub use token::{Token, TokenKind};
pub use values::{
    annotation_name, constant_32, constant_64, has_escape, names_have_one_value, numeral,
    plain_name, plain_string, push_string, string_in_id,
};
