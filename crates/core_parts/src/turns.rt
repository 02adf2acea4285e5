//! What stands next among instructions, and what of them is gone over.

ghost use Rattle.std.specs.Prelude.{◌≡◌, ◌≤◌, false, true, MatchOption, IfSome};
ghost use Rattle.wast_grammar.specs.Classes.{is_keyword, keyword};
ghost use Rattle.wast_grammar.specs.Stand.{IsInside, class_after, class_at, moved};
ghost use Rattle.wast_grammar.specs.Grammar.{a_word, before, none, nothing, out, part_at, skipping, special, turn};
ghost use Rattle.wast_grammar.specs.Read.{Gives, read};
ghost use Rattle.wast_parser.specs.View.{stand_of};
ghost use Rattle.wast_grammar.specs.CoreRows.{branch_hint, hint_group, operation_words, other_group, other_operation, other_start, other_words};
ghost use Rattle.core_parts.specs.PartViews.{turn_view};
ghost use Rattle.core_parts.specs.Operations.{word_of};
ghost use Rattle.core_parts.specs.declared.turns.Next.TheVariants.{Group, Operation};

use crate::keywords::{is_note, take_note};
use crate::operation_words::{Kind, is_operation, next_kind};
use crate::unread::skip_rest;
use wast_parser::{Cursor, Error, Parser, Span};

/// What stands next among instructions.
#[derive(Clone, Copy)]
pub enum Next {
    Operation(Kind),
    Group(Kind),
    GroupEnd,
    TextEnd,
    Other,
}

/// What stands next.
pub fn next_turn(parser: &Parser<'_>) -> Next
    ensures turn { turn_view result ≡ turn operation_words parser.now }
    ensures word { (k : Kind) → result ≡ Operation k → class_at parser.now ≡ keyword (word_of k) }
    ensures behind { (k : Kind) → result ≡ Group k → class_after parser.now ≡ keyword (word_of k) }
{
    let cursor = parser.cursor();
    if !parser.has_meaningful_tokens() {
        return Next::TextEnd;
    }
    if cursor.rparen().is_some() {
        return Next::GroupEnd;
    }
    match next_kind(cursor) {
        Some((kind, _)) => Next::Operation(kind),
        None => match cursor.lparen() {
            Some(inner) => match next_kind(inner) {
                Some((kind, _)) => Next::Group(kind),
                None => Next::Other,
            },
            None => Next::Other,
        },
    }
}

/// The place behind a keyword that is no instruction, if one is next.
#[tactic(auto, using(crate::proofs::Looks::no_keyword))]
fn behind_other_word<'a>(cursor: Cursor<'a>) -> Option<Cursor<'a>>
    ensures next { MatchOption result (is_keyword other_words (class_at (stand_of cursor.entry)) ≡ false) (λ r. (is_keyword other_words (class_at (stand_of cursor.entry)) ≡ true) × (stand_of r ≡ moved (stand_of cursor.entry) 1)) }
    ensures inside { IfSome result (λ r. IsInside (stand_of r)) }
{
    if is_operation(cursor) {
        return None;
    }
    match cursor.keyword() {
        Some((_, behind)) => Some(behind),
        None => None,
    }
}

/// Takes a keyword that is no instruction.
fn take_other_word(parser: &mut Parser<'_>) -> Result<(), Error>
    ensures gives { Gives (λ _. none) result parser.new (read (special (a_word other_words)) parser.old) }
    ensures text { parser.new.text ≡ parser.old.text }
    ensures forward { parser.old.at ≤ parser.new.at }
{
    match behind_other_word(parser.cursor()) {
        Some(behind) => {
            parser.advance(behind);
            Ok(())
        }
        None => Err(parser.error()),
    }
}

/// Goes over what stands in the group of a keyword that is no instruction.
fn other_contents(parser: &mut Parser<'_>) -> Result<(), Error>
    ensures gives { Gives (λ _. none) result parser.new (read (skipping (special (a_word other_words))) parser.old) }
    ensures text { parser.new.text ≡ parser.old.text }
    ensures forward { parser.old.at ≤ parser.new.at }
{
    match take_other_word(parser) {
        Ok(()) => skip_rest(parser),
        Err(error) => Err(error),
    }
}

/// Goes over the group of such a keyword.
fn other_group(parser: &mut Parser<'_>) -> Result<(), Error>
    ensures gives { Gives (λ _. none) result parser.new (read other_group parser.old) }
    ensures text { parser.new.text ≡ parser.old.text }
    ensures forward { parser.old.at ≤ parser.new.at }
{
    parser.enter()?;
    other_contents(parser)?;
    parser.leave()?;
    Ok(())
}

/// Goes over what stands in the group of the annotation of a branch.
fn hint_contents(parser: &mut Parser<'_>) -> Result<(), Error>
    ensures gives { Gives (λ _. none) result parser.new (read (skipping (before branch_hint nothing)) parser.old) }
    ensures text { parser.new.text ≡ parser.old.text }
    ensures forward { parser.old.at ≤ parser.new.at }
{
    match take_note(parser, "metadata.code.branch_hint") {
        Ok(()) => skip_rest(parser),
        Err(error) => Err(error),
    }
}

/// Goes over the group of such an annotation.
fn hint_group(parser: &mut Parser<'_>) -> Result<(), Error>
    ensures gives { Gives (λ _. none) result parser.new (read hint_group parser.old) }
    ensures text { parser.new.text ≡ parser.old.text }
    ensures forward { parser.old.at ≤ parser.new.at }
{
    match hint_contents(parser) {
        Ok(()) => parser.leave(),
        Err(error) => Err(error),
    }
}

/// Goes over the first of what is no instruction: a keyword, a group of one, or the annotation of a branch.
#[tactic(auto, unfolding(wast_grammar::specs::CoreRows::other_start))]
fn other_start(parser: &mut Parser<'_>) -> Result<(), Error>
    ensures gives { Gives (λ _. none) result parser.new (read other_start parser.old) }
    ensures text { parser.new.text ≡ parser.old.text }
    ensures forward { parser.old.at ≤ parser.new.at }
{
    if behind_other_word(parser.cursor()).is_some() {
        return take_other_word(parser);
    }
    if is_note(parser.cursor(), "metadata.code.branch_hint") {
        return hint_group(parser);
    }
    other_group(parser)
}

/// Goes over what is no instruction, up to the end of its group; the place of its first token is kept.
#[tactic(auto, unfolding(wast_grammar::specs::CoreRows::other_operation))]
pub fn other_operation(parser: &mut Parser<'_>) -> Result<Span, Error>
    ensures gives { Gives (λ s. part_at s.offset none) result parser.new (read other_operation parser.old) }
    ensures text { parser.new.text ≡ parser.old.text }
    ensures forward { parser.old.at ≤ parser.new.at }
{
    let span = parser.cur_span();
    match other_start(parser) {
        Ok(()) => match skip_rest(parser) {
            Ok(()) => Ok(span),
            Err(error) => Err(error),
        },
        Err(error) => Err(error),
    }
}

/// Goes behind the end of a group, which is next.
pub fn take_end(parser: &mut Parser<'_>)
    requires next { turn operation_words parser.old ≡ out }
    ensures behind { parser.new ≡ moved parser.old 1 }
{
    if let Some(behind) = parser.cursor().rparen() {
        parser.advance(behind);
    }
}
