//! Choices among words: the rule of a word is found by its number in one step.

ghost use Rattle.std.specs.Prelude.{◌≡◌, cond, map, slice_get};
ghost use Rattle.std.specs.Option.{option_map};
ghost use Rattle.wast_grammar.specs.Classes.{Class};
ghost use Rattle.token_codes.specs.Numbers.{number, between};
ghost use Rattle.text_rules.specs.CanonRules.{built_in_line, built_ins};
ghost use Rattle.text_table.specs.Code.{rule_of, choice_of};
ghost use Rattle.text_table.specs.Choice.{ChosenAs, at_number, lent_rule, place_among, told_in};

use crate::canons::BUILT_IN_ROWS;
use crate::fields::{CORE_FIELD_ROWS, CORE_FIELD_WORDS, FIELD_ROWS, FIELD_WORDS};
use crate::rule::{Choice, Rule, Told};
use crate::tests::is_between;
use crate::types::{
    COMPONENT_DECLARATION_ROWS, COMPONENT_DECLARATION_WORDS, CORE_DECLARATION_ROWS,
    CORE_DECLARATION_WORDS, INSTANCE_DECLARATION_ROWS, INSTANCE_DECLARATION_WORDS,
};
use crate::values::NONPRIM_ROWS;
use token_codes::numbers as word;

/// The rule that a choice comes to where the next token has the number `code` and that behind it the number `ahead`; none where it refuses them.
pub fn chosen(choice: Choice, code: u8, ahead: u8) -> Option<&'static Rule<'static>>
    ensures { ChosenAs (option_map lent_rule result) (choice_of choice) code ahead }
{
    match choice {
        Choice::NonPrim => nonprim(code, ahead),
        Choice::BuiltIn => built_in(code, ahead),
        Choice::Field => field(code, ahead),
        Choice::ComponentDeclaration => component_declaration(code, ahead),
        Choice::InstanceDeclaration => instance_declaration(code, ahead),
    }
}

/// What stands in the parentheses of a value type.
fn nonprim(code: u8, ahead: u8) -> Option<&'static Rule<'static>>
    ensures { ChosenAs (option_map lent_rule result) (choice_of Choice.NonPrim) code ahead }
{
    rule_at(&NONPRIM_ROWS, word::RECORD, code)
}

/// A built-in.
fn built_in(code: u8, ahead: u8) -> Option<&'static Rule<'static>>
    ensures { ChosenAs (option_map lent_rule result) (choice_of Choice.BuiltIn) code ahead }
{
    rule_at(&BUILT_IN_ROWS, word::LOWER, code)
}

/// The rule of a built-in, from its word on, by the number of the word in `token_codes`; none where it is the number of another.
pub fn built_in_rule(code: u8) -> Option<&'static Rule<'static>>
    ensures { option_map lent_rule result ≡ at_number (map built_in_line built_ins) 58 code }
{
    rule_at(&BUILT_IN_ROWS, word::LOWER, code)
}

/// What stands in the parentheses of a field of a component.
fn field(code: u8, ahead: u8) -> Option<&'static Rule<'static>>
    ensures { ChosenAs (option_map lent_rule result) (choice_of Choice.Field) code ahead }
{
    rule_of_words(
        &CORE_FIELD_WORDS,
        &CORE_FIELD_ROWS,
        &FIELD_WORDS,
        &FIELD_ROWS,
        code,
        ahead,
    )
}

/// What stands in the parentheses of a declaration of the type of a component.
fn component_declaration(code: u8, ahead: u8) -> Option<&'static Rule<'static>>
    ensures { ChosenAs (option_map lent_rule result) (choice_of Choice.ComponentDeclaration) code ahead }
{
    rule_of_words(
        &CORE_DECLARATION_WORDS,
        &CORE_DECLARATION_ROWS,
        &COMPONENT_DECLARATION_WORDS,
        &COMPONENT_DECLARATION_ROWS,
        code,
        ahead,
    )
}

/// What stands in the parentheses of a declaration of the type of an instance.
fn instance_declaration(code: u8, ahead: u8) -> Option<&'static Rule<'static>>
    ensures { ChosenAs (option_map lent_rule result) (choice_of Choice.InstanceDeclaration) code ahead }
{
    rule_of_words(
        &CORE_DECLARATION_WORDS,
        &CORE_DECLARATION_ROWS,
        &INSTANCE_DECLARATION_WORDS,
        &INSTANCE_DECLARATION_ROWS,
        code,
        ahead,
    )
}

/// The place of the first word with the number `code`, or the length of the list.
fn place_of(words: &[u8], code: u8) -> usize
    ensures { result ≡ place_among words.now code }
{
    'places: for place in 0..words.len() {
        if is_between(words[place], code, words[place]) {
            return place;
        }
    }
    words.len()
}

/// The rule of the word with the number `code`, where each word has the rule at its place.
fn rule_of_word<'r>(words: &[u8], rules: &'r [Rule<'r>], code: u8) -> Option<&'r Rule<'r>>
    ensures { option_map lent_rule result ≡ slice_get (map rule_of rules.now) (place_among words.now code) }
{
    rules.get(place_of(words, code))
}

/// The rule of a list for a number, if the first is that of `first`.
fn rule_at<'r>(rules: &'r [Rule<'r>], first: u8, code: u8) -> Option<&'r Rule<'r>>
    ensures { option_map lent_rule result ≡ at_number (map rule_of rules.now) first code }
{
    if code < first {
        return None;
    }
    rules.get((code - first) as usize)
}

/// The rule of the word with the number `code`, or behind `core` of that with the number `ahead`.
fn rule_of_words<'r>(
    core_words: &[u8],
    core_rules: &'r [Rule<'r>],
    words: &[u8],
    rules: &'r [Rule<'r>],
    code: u8,
    ahead: u8,
) -> Option<&'r Rule<'r>>
    ensures { option_map lent_rule result ≡ cond (between 114 code 114) (slice_get (map rule_of core_rules.now) (place_among core_words.now ahead)) (slice_get (map rule_of rules.now) (place_among words.now code)) }
{
    if is_between(word::CORE, code, word::CORE) {
        rule_of_word(core_words, core_rules, ahead)
    } else {
        rule_of_word(words, rules, code)
    }
}

/// The bytes of primitive types, in the order of their words' numbers.
const PRIMITIVES: [u8; 16] = [
    0x7f, 0x7e, 0x7d, 0x7c, 0x7b, 0x7a, 0x79, 0x78, 0x77, 0x76, 0x76, 0x75, 0x75, 0x74, 0x73, 0x64,
];

/// The numbers of the fields of a `producers` section, in the order of their words' numbers.
const PRODUCERS: [u8; 3] = [0, 1, 2];

/// The number that a table has for the word with the number `code`, if it has the word.
pub fn number_told(table: Told, code: u8) -> Option<u32>
    ensures { (c : Class) → code ≡ number c → result ≡ told_in table c }
{
    match table {
        Told::Primitive => number_at(&PRIMITIVES, word::BOOL, code),
        Told::Producer => number_at(&PRODUCERS, word::LANGUAGE, code),
    }
}

/// The number of a list for a number, if the first is that of `first`.
fn number_at(numbers: &[u8], first: u8, code: u8) -> Option<u32>
    ensures { result ≡ at_number numbers.now first code }
{
    if code < first {
        return None;
    }
    match numbers.get((code - first) as usize) {
        Some(number) => Some(*number as u32),
        None => None,
    }
}
