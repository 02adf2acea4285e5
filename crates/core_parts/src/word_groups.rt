//! Groups of one word whose items are one list: those of parameters, of results and of locals.
//!
//! `(param i32 i64) (param f32)` holds the three items that `(param i32) (param i64) (param f32)` holds; how they are grouped isn't
//! kept (WebAssembly, text format, Function Types, Abbreviations).

ghost use Rattle.std.specs.Prelude.{◌≡◌, ◌≤◌, ◌∷◌, ℕ, List, [], false, true, MatchOption, IfSome, IfOk};
ghost use Rattle.wast_grammar.specs.Classes.{closing};
ghost use Rattle.wast_grammar.specs.Stand.{IsInside, moved};
ghost use Rattle.wast_grammar.specs.Grammar.{Grammar, Value, both, after, by_test, holds, none, nothing, left, pair};
ghost use Rattle.wast_grammar.specs.Read.{Gives, read, reads};
ghost use Rattle.wast_grammar.specs.Shape.{sound, consumes};
ghost use Rattle.wast_parser.specs.View.{stand_of, many_view};
ghost use Rattle.wast_grammar.specs.CoreForms.{begins_group, empty_behind, empty_groups, goes_on, groups_of, is_empty_behind, is_empty_group, is_joint, items_on, joint, next_item, next_items, optional_joint, some_groups};
ghost use Rattle.wast_grammar.specs.CoreRows.{is_value_type};
ghost use Rattle.core_parts.specs.PartViews.{groups_view, items_on_view, items_behind, next_item_view, some_groups_view};

use crate::keywords::{behind_word, is_group_of, take_word};
use crate::lists::push_short;
use crate::parts::Part;
use crate::type_looks::is_value_type;
use std::alloc::Global;
use wast_parser::{Cursor, Error, Parser};

/// What stands in such groups.
pub trait GroupItem<'a>: Sized + Drop {
    /// The row of an item.
    ghost item_row: { Grammar };

    /// The row can be read from left to right.
    ghost is_sound: { sound item_row ≡ true };

    /// An item has a token.
    ghost has_token: { consumes item_row ≡ true };

    /// What an item stands for.
    ghost view: { Self → Value };

    /// Reads an item, and refuses as `Parse::parse` does.
    fn item(alloc: Global, parser: &mut Parser<'a>) -> Result<Self, Error>
        ensures gives { Gives view result parser.new (read item_row parser.old) }
        ensures text { parser.new.text ≡ parser.old.text }
        ensures forward { parser.old.at ≤ parser.new.at };
}

/// The place behind a group of the word without an item, if one is next.
fn behind_empty_group<'a>(cursor: Cursor<'a>, word: &str) -> Option<Cursor<'a>>
    ensures next { MatchOption result (holds (is_empty_group word.now) (stand_of cursor.entry) ≡ false) (λ r. (holds (is_empty_group word.now) (stand_of cursor.entry) ≡ true) × (stand_of r ≡ moved (moved (moved (stand_of cursor.entry) 1) 1) 1)) }
    ensures inside { IfSome result (λ r. IsInside (stand_of r)) }
{
    let inner = cursor.lparen()?;
    let last = behind_word(inner, word)?;
    last.rparen()
}

/// The place behind the end of a group and the beginning of another of the word, if these are next.
fn behind_joint<'a>(cursor: Cursor<'a>, word: &str) -> Option<Cursor<'a>>
    ensures next { MatchOption result (holds (is_joint word.now) (stand_of cursor.entry) ≡ false) (λ r. (holds (is_joint word.now) (stand_of cursor.entry) ≡ true) × (stand_of r ≡ moved (moved (moved (stand_of cursor.entry) 1) 1) 1)) }
    ensures inside { IfSome result (λ r. IsInside (stand_of r)) }
{
    let outer = cursor.rparen()?;
    let inner = outer.lparen()?;
    behind_word(inner, word)
}

/// The same, where the group that begins holds no item.
fn behind_empty_joint<'a>(cursor: Cursor<'a>, word: &str) -> Option<Cursor<'a>>
    ensures next { MatchOption result (holds (is_empty_behind word.now) (stand_of cursor.entry) ≡ false) (λ r. (holds (is_empty_behind word.now) (stand_of cursor.entry) ≡ true) × (stand_of r ≡ moved (moved (moved (stand_of cursor.entry) 1) 1) 1)) }
    ensures inside { IfSome result (λ r. IsInside (stand_of r)) }
{
    match behind_joint(cursor, word) {
        Some(behind) if behind.rparen().is_some() => Some(behind),
        _ => None,
    }
}

/// Goes behind groups of the word without an item.
fn skip_empty_groups(parser: &mut Parser<'_>, word: &str)
    ensures gives { read (empty_groups word.now) parser.old ≡ reads none parser.new }
    ensures text { parser.new.text ≡ parser.old.text }
    ensures forward { parser.old.at ≤ parser.new.at }
{
    'groups: while let Some(behind) = behind_empty_group(parser.cursor(), word) {
        parser.advance(behind);
    }
}

/// Goes into the last of the groups of the word that have no item, as long as they follow the group in which the parser stands.
fn skip_empty_behind(parser: &mut Parser<'_>, word: &str)
    ensures gives { read (empty_behind word.now) parser.old ≡ reads none parser.new }
    ensures text { parser.new.text ≡ parser.old.text }
    ensures forward { parser.old.at ≤ parser.new.at }
{
    'groups: while let Some(behind) = behind_empty_joint(parser.cursor(), word) {
        parser.advance(behind);
    }
}

/// Goes from the end of a group into another of the word.
fn enter_next(parser: &mut Parser<'_>, word: &str) -> Result<(), Error>
    ensures gives { Gives (λ _. none) result parser.new (read (joint word.now) parser.old) }
    ensures text { parser.new.text ≡ parser.old.text }
    ensures forward { parser.old.at ≤ parser.new.at }
{
    parser.leave()?;
    parser.enter()?;
    take_word(parser, word)
}

/// The same, where a group ends here.
fn enter_next_at_end(parser: &mut Parser<'_>, word: &str) -> Result<(), Error>
    ensures gives { Gives (λ _. none) result parser.new (read (optional_joint word.now) parser.old) }
    ensures text { parser.new.text ≡ parser.old.text }
    ensures forward { parser.old.at ≤ parser.new.at }
{
    if parser.cursor().rparen().is_some() {
        return enter_next(parser, word);
    }
    Ok(())
}

/// Reads an item, and goes behind groups without one.
fn item<'a, T: GroupItem<'a>>(
    alloc: Global,
    parser: &mut Parser<'a>,
    word: &str,
) -> Result<T, Error>
    ensures gives { Gives (λ x. both (T.view x) none) result parser.new (read (pair T.item_row (empty_behind word.now)) parser.old) }
    ensures text { parser.new.text ≡ parser.old.text }
    ensures forward { parser.old.at ≤ parser.new.at }
{
    match T::item(alloc, parser) {
        Ok(item) => {
            skip_empty_behind(parser, word);
            Ok(item)
        }
        Err(error) => Err(error),
    }
}

/// Reads an item behind another.
fn next_item<'a, T: GroupItem<'a>>(
    alloc: Global,
    parser: &mut Parser<'a>,
    word: &str,
) -> Result<T, Error>
    ensures gives { Gives (next_item_view T.view) result parser.new (read (next_item word.now T.item_row) parser.old) }
    ensures text { parser.new.text ≡ parser.old.text }
    ensures forward { parser.old.at ≤ parser.new.at }
{
    match enter_next_at_end(parser, word) {
        Ok(()) => item(alloc, parser, word),
        Err(error) => Err(error),
    }
}

/// Whether a further item is next, in the same group or in another.
fn goes_on(parser: &Parser<'_>, word: &str) -> bool
    ensures next { result ≡ holds (goes_on word.now is_value_type) parser.now }
{
    behind_joint(parser.cursor(), word).is_some() || is_value_type(parser)
}

/// Reads the items behind the first, and puts all into a list, which is empty. What a refusal leaves in it is nothing to go by.
fn next_items<'a, T: GroupItem<'a>>(
    alloc: Global,
    parser: &mut Parser<'a>,
    word: &str,
    first: T,
    items: &mut Vec<T>,
) -> Result<(), Error>
    requires none { items.old.items ≡ [] }
    ensures gives { Gives (λ _. many_view (next_item_view T.view) (items_behind items.new.items)) result parser.new (read (next_items word.now is_value_type T.item_row) parser.old) }
    ensures begins { IfOk result (λ _. items.new.items ≡ first ∷ items_behind items.new.items) }
    ensures text { parser.new.text ≡ parser.old.text }
    ensures forward { parser.old.at ≤ parser.new.at }
{
    push_short(items, first)?;
    'items: while goes_on(parser, word) {
        let item = next_item::<T>(alloc, parser, word)?;
        push_short(items, item)?;
    }
    Ok(())
}

/// The same behind groups without an item, and reads the end of the last group.
fn further_items<'a, T: GroupItem<'a>>(
    alloc: Global,
    parser: &mut Parser<'a>,
    word: &str,
    first: T,
    items: &mut Vec<T>,
) -> Result<(), Error>
    requires none { items.old.items ≡ [] }
    ensures gives { Gives (λ _. both none (many_view (next_item_view T.view) (items_behind items.new.items))) result parser.new (read (pair (empty_behind word.now) (after (next_items word.now is_value_type T.item_row) closing)) parser.old) }
    ensures begins { IfOk result (λ _. items.new.items ≡ first ∷ items_behind items.new.items) }
    ensures text { parser.new.text ≡ parser.old.text }
    ensures forward { parser.old.at ≤ parser.new.at }
{
    skip_empty_behind(parser, word);
    match next_items(alloc, parser, word, first, items) {
        Ok(()) => parser.leave(),
        Err(error) => Err(error),
    }
}

/// Reads the items from the first on into an empty list, and the end of the last group.
fn items_on<'a, T: GroupItem<'a>>(
    alloc: Global,
    parser: &mut Parser<'a>,
    word: &str,
    items: &mut Vec<T>,
) -> Result<(), Error>
    requires none { items.old.items ≡ [] }
    ensures gives { Gives (λ _. items_on_view T.view items.new.items) result parser.new (read (items_on word.now is_value_type T.item_row) parser.old) }
    ensures some { IfOk result (λ _. some_groups_view T.view items.new.items ≡ left (items_on_view T.view items.new.items)) }
    ensures text { parser.new.text ≡ parser.old.text }
    ensures forward { parser.old.at ≤ parser.new.at }
{
    match T::item(alloc, parser) {
        Ok(first) => further_items(alloc, parser, word, first, items),
        Err(error) => Err(error),
    }
}

/// Reads groups of the word, the first of which has an item, into an empty list.
fn some_groups<'a, T: GroupItem<'a>>(
    alloc: Global,
    parser: &mut Parser<'a>,
    word: &str,
    items: &mut Vec<T>,
) -> Result<(), Error>
    requires none { items.old.items ≡ [] }
    ensures gives { Gives (λ _. items_on_view T.view items.new.items) result parser.new (read (some_groups word.now is_value_type T.item_row) parser.old) }
    ensures some { IfOk result (λ _. some_groups_view T.view items.new.items ≡ left (items_on_view T.view items.new.items)) }
    ensures text { parser.new.text ≡ parser.old.text }
    ensures forward { parser.old.at ≤ parser.new.at }
{
    match parser.enter() {
        Ok(()) => match take_word(parser, word) {
            Ok(()) => items_on(alloc, parser, word, items),
            Err(error) => Err(error),
        },
        Err(error) => Err(error),
    }
}

/// Reads groups of the word into an empty list, if one with an item is next.
fn groups_or_none<'a, T: GroupItem<'a>>(
    alloc: Global,
    parser: &mut Parser<'a>,
    word: &str,
    items: &mut Vec<T>,
) -> Result<(), Error>
    requires none { items.old.items ≡ [] }
    ensures gives { Gives (λ _. some_groups_view T.view items.new.items) result parser.new (read (by_test (begins_group word.now) (some_groups word.now is_value_type T.item_row) nothing) parser.old) }
    ensures text { parser.new.text ≡ parser.old.text }
    ensures forward { parser.old.at ≤ parser.new.at }
{
    if is_group_of(parser.cursor(), word) {
        return some_groups(alloc, parser, word, items);
    }
    Ok(())
}

/// Reads the items of all groups of the word.
fn all_groups<'a, T: GroupItem<'a>>(
    alloc: Global,
    parser: &mut Parser<'a>,
    word: &str,
) -> Result<Vec<T>, Error>
    ensures gives { Gives (λ v. groups_view T.view v.items) result parser.new (read (groups_of word.now is_value_type T.item_row) parser.old) }
    ensures text { parser.new.text ≡ parser.old.text }
    ensures forward { parser.old.at ≤ parser.new.at }
{
    skip_empty_groups(parser, word);
    let mut items = Vec::new(alloc);
    match groups_or_none(alloc, parser, word, &mut items) {
        Ok(()) => Ok(items),
        Err(error) => Err(error),
    }
}

/// Items whose groups have one word.
pub trait WordedItem<'a>: GroupItem<'a> {
    /// The word.
    ghost group_word: { List ℕ };

    /// The word of their groups.
    fn word() -> &'static str
        ensures word { result.now ≡ group_word };
}

/// The items of all groups of their word.
#[derive(Drop)]
pub struct Groups<T> {
    pub items: Vec<T>,
}

impl<'a, T: WordedItem<'a>> Part<'a> for Groups<T> {
    ghost use Rattle.wast_grammar.specs.CoreForms.{groups_of};
    ghost use Rattle.wast_grammar.specs.CoreRows.{is_value_type};
    ghost use Rattle.core_parts.specs.PartViews.{groups_view};

    ghost part_row = { groups_of T.group_word is_value_type T.item_row };

    ghost view = { λ x. groups_view T.view x.items.items };

    fn part(alloc: Global, parser: &mut Parser<'a>) -> Result<Groups<T>, Error> {
        match all_groups::<T>(alloc, parser, T::word()) {
            Ok(items) => Ok(Groups { items }),
            Err(error) => Err(error),
        }
    }
}
