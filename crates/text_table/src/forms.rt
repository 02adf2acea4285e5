//! Forms that the rules of the text format share. Each gives a rule that is lent for good.

use crate::rule::Rule::{Adds, Alone, Either, End, Noted, Then};
use crate::rule::{Add, Keep, Rule, Step, Test};
use token_codes::numbers as word;

/// A word alone.
macro_rules! lone_word {
    ($word:expr) => {
        &crate::rule::Rule::Word($word, &crate::rule::Rule::End)
    };
}

pub(crate) use lone_word;

/// The first two words of a definition, then the rest.
macro_rules! first_words {
    ($first:expr, $second:expr, $rest:expr) => {
        &crate::rule::Rule::Then(
            &crate::rule::Rule::Marks(&crate::rule::Rule::Word($first, $crate::forms::lone_word!($second))),
            $rest,
        )
    };
}

pub(crate) use first_words;

/// One of these, from the number on; a reader takes the first whose test holds.
macro_rules! cases_from {
    ($number:expr;) => {
        &crate::rule::Rule::NoCase
    };
    ($number:expr; $test:expr => $rule:expr, $($more:tt)*) => {
        &crate::rule::Rule::Case($number, $test, $rule, $crate::forms::cases_from!($number + 1; $($more)*))
    };
}

pub(crate) use cases_from;

/// One of these; a reader takes the first whose test holds.
macro_rules! cases {
    ($($more:tt)*) => {
        $crate::forms::cases_from!(0; $($more)*)
    };
}

pub(crate) use cases;

/// The group of a word and a plain name is next, to its end.
macro_rules! inline_name {
    ($word:expr) => {
        crate::rule::Test::Or(
            &crate::rule::Test::Form(&[token_codes::numbers::OPENING], &[$word], &[&[token_codes::numbers::TEXT], &[token_codes::numbers::CLOSING]]),
            &crate::rule::Test::Form(&[token_codes::numbers::OPENING], &[$word], &[&[token_codes::numbers::OPENING], &[token_codes::numbers::INTERFACE], &[token_codes::numbers::TEXT], &[token_codes::numbers::CLOSING], &[token_codes::numbers::CLOSING]]),
        )
    };
}

pub(crate) use inline_name;

/// Definitions or entries, as long as their group goes on.
pub const GOING: &Test<'static> = &Test::Going;

/// An id is next.
pub const IS_ID: &Test<'static> = &Test::Next(word::ID);

/// A string is next.
pub const IS_STRING: &Test<'static> = &Test::Range(word::TEXT, word::BYTES);

/// A number is next.
pub const IS_NUMBER: &Test<'static> = &Test::Range(word::NUMERAL, word::WIDE);

/// A parenthesis is next.
pub const IS_OPENING: &Test<'static> = &Test::Next(word::OPENING);

/// A label is next.
pub const IS_NAME: &Test<'static> = &Test::Next(word::NAME);

/// `idx` is next: a number or an id.
pub const IS_REFERENCE: &Test<'static> = &Test::Range(word::ID, word::WIDE);

/// `text`.
pub const TEXT: &Rule<'static> = &Alone(Step::Keep(Keep::Text));

/// `num`.
pub const COUNT: &Rule<'static> = &Alone(Step::Keep(Keep::Count));

/// `id?` of a definition (Index Spaces).
pub const OPTIONAL_ID: &Rule<'static> = &Either(IS_ID, &Alone(Step::Keep(Keep::Id)), &End);

/// `name = "(@name" text ")"` (Name Annotations).
pub const LABEL: &Rule<'static> = &Noted(word::NAME, &Alone(Step::Keep(Keep::Label)));

/// `name?` of a definition (Name Annotations).
pub const OPTIONAL_NAME: &Rule<'static> = &Either(IS_NAME, LABEL, &End);

/// `id? name?` of a definition.
pub const NAMES: &Rule<'static> = &Then(OPTIONAL_ID, OPTIONAL_NAME);

/// `id?` of one of several parts of a definition, which is kept if it is missing, too.
pub const PART_ID: &Rule<'static> = &Either(IS_ID, &Alone(Step::Keep(Keep::Id)), &Adds(Add::NoId));

/// `name?` of one of several parts of a definition.
pub const PART_NAME: &Rule<'static> = &Either(IS_NAME, LABEL, &Adds(Add::NoLabel));

/// An optional part that is missing.
pub const ABSENT: &Rule<'static> = &Adds(Add::NoPart);
