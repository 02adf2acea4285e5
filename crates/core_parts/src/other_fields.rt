//! Fields, type definitions and signatures that are never written: they are gone over.

ghost use Rattle.std.specs.Prelude.{◌≡◌, ◌≤◌, ◌∷◌, false, true, IfSome, MatchOption};
ghost use Rattle.wast_grammar.specs.Classes.{among, annotation};
ghost use Rattle.wast_grammar.specs.Stand.{IsInside, class_at, moved};
ghost use Rattle.wast_grammar.specs.Grammar.{any_of, holds, next, none, part_at, skipping, special};
ghost use Rattle.wast_grammar.specs.Read.{Gives, read};
ghost use Rattle.wast_parser.specs.View.{stand_of};
ghost use Rattle.wast_grammar.specs.CoreRows.{note_group, other_field, other_field_notes, other_fields, other_type};

use crate::keywords::{Words, behind_any, over_any};
use crate::unread::skip_rest;
use wast_parser::{Cursor, Error, Parser, Span};

/// The words that begin a field which is never written.
struct OtherFieldWord;

impl Words for OtherFieldWord {
    ghost use Rattle.std.specs.Prelude.{refl};
    ghost use Rattle.wast_grammar.specs.CoreRows.{other_field_words};

    ghost classes = { other_field_words };

    ghost are_words = { refl };

    fn has(word: &str) -> bool {
        match word {
            "rec" | "start" | "elem" | "data" | "tag" => true,
            _ => false,
        }
    }
}

/// Whether an annotation begins such a field, by its name without the `(@`.
fn is_other_note(name: &str) -> bool
    ensures other { result ≡ among other_field_notes (annotation (40 ∷ 64 ∷ name.now)) }
{
    match name {
        "custom" | "producers" | "dylink.0" => true,
        _ => false,
    }
}

/// The place behind such an annotation, if it is next.
#[tactic(auto, using(crate::proofs::Looks::no_other_field_note))]
fn behind_other_note<'a>(cursor: Cursor<'a>) -> Option<Cursor<'a>>
    ensures next { MatchOption result (among other_field_notes (class_at (stand_of cursor.entry)) ≡ false) (λ r. (among other_field_notes (class_at (stand_of cursor.entry)) ≡ true) × (stand_of r ≡ moved (stand_of cursor.entry) 1)) }
    ensures inside { IfSome result (λ r. IsInside (stand_of r)) }
{
    match cursor.annotation() {
        Some((name, behind)) if is_other_note(name) => Some(behind),
        _ => None,
    }
}

/// The place behind what begins a field that is never written, an annotation where one may stand.
#[tactic(auto, using(crate::proofs::Looks::among_both))]
fn behind_other<'a>(cursor: Cursor<'a>, noted: bool) -> Option<Cursor<'a>>
    ensures next { MatchOption result (among (other_fields noted) (class_at (stand_of cursor.entry)) ≡ false) (λ r. (among (other_fields noted) (class_at (stand_of cursor.entry)) ≡ true) × (stand_of r ≡ moved (stand_of cursor.entry) 1)) }
    ensures inside { IfSome result (λ r. IsInside (stand_of r)) }
{
    if let Some(behind) = behind_any::<OtherFieldWord>(cursor) {
        return Some(behind);
    }
    if noted {
        behind_other_note(cursor)
    } else {
        None
    }
}

/// Takes what begins a field that is never written.
fn take_other(parser: &mut Parser<'_>, noted: bool) -> Result<(), Error>
    ensures gives { Gives (λ _. none) result parser.new (read (special (any_of (other_fields noted))) parser.old) }
    ensures text { parser.new.text ≡ parser.old.text }
    ensures forward { parser.old.at ≤ parser.new.at }
{
    match behind_other(parser.cursor(), noted) {
        Some(behind) => {
            parser.advance(behind);
            Ok(())
        }
        None => Err(parser.error()),
    }
}

/// Goes over a field that is never written.
#[tactic(auto, unfolding(wast_grammar::specs::CoreRows::other_field))]
pub fn other_field(parser: &mut Parser<'_>, noted: bool) -> Result<(), Error>
    ensures gives { Gives (λ _. none) result parser.new (read (other_field noted) parser.old) }
    ensures text { parser.new.text ≡ parser.old.text }
    ensures forward { parser.old.at ≤ parser.new.at }
{
    match take_other(parser, noted) {
        Ok(()) => skip_rest(parser),
        Err(error) => Err(error),
    }
}

/// Whether an annotation that is a field is next.
pub fn is_noted(parser: &Parser<'_>) -> bool
    ensures next { result ≡ holds (next other_field_notes) parser.now }
{
    behind_other_note(parser.cursor()).is_some()
}

/// Takes such an annotation.
fn take_note(parser: &mut Parser<'_>) -> Result<(), Error>
    ensures gives { Gives (λ _. none) result parser.new (read (special (any_of other_field_notes)) parser.old) }
    ensures text { parser.new.text ≡ parser.old.text }
    ensures forward { parser.old.at ≤ parser.new.at }
{
    match behind_other_note(parser.cursor()) {
        Some(behind) => {
            parser.advance(behind);
            Ok(())
        }
        None => Err(parser.error()),
    }
}

/// Goes over what stands in the group of such an annotation.
fn note_contents(parser: &mut Parser<'_>) -> Result<(), Error>
    ensures gives { Gives (λ _. none) result parser.new (read (skipping (special (any_of other_field_notes))) parser.old) }
    ensures text { parser.new.text ≡ parser.old.text }
    ensures forward { parser.old.at ≤ parser.new.at }
{
    match take_note(parser) {
        Ok(()) => skip_rest(parser),
        Err(error) => Err(error),
    }
}

/// Goes over the group of such an annotation.
#[tactic(auto, unfolding(wast_grammar::specs::CoreRows::note_group))]
pub fn note_group(parser: &mut Parser<'_>) -> Result<(), Error>
    ensures gives { Gives (λ _. none) result parser.new (read note_group parser.old) }
    ensures text { parser.new.text ≡ parser.old.text }
    ensures forward { parser.old.at ≤ parser.new.at }
{
    match note_contents(parser) {
        Ok(()) => parser.leave(),
        Err(error) => Err(error),
    }
}

/// The words that begin a type which is never written.
struct OtherTypeWord;

impl Words for OtherTypeWord {
    ghost use Rattle.std.specs.Prelude.{refl};
    ghost use Rattle.wast_grammar.specs.CoreRows.{other_type_words};

    ghost classes = { other_type_words };

    ghost are_words = { refl };

    fn has(word: &str) -> bool {
        match word {
            "sub" | "struct" | "array" | "cont" | "shared" => true,
            _ => false,
        }
    }
}

/// Goes over a type that is never written, up to the end of its group; the place of its word is kept.
#[tactic(auto, unfolding(wast_grammar::specs::CoreRows::other_type))]
pub fn other_type(parser: &mut Parser<'_>) -> Result<Span, Error>
    ensures gives { Gives (λ s. part_at s.offset none) result parser.new (read other_type parser.old) }
    ensures text { parser.new.text ≡ parser.old.text }
    ensures forward { parser.old.at ≤ parser.new.at }
{
    let span = parser.cur_span();
    match over_any::<OtherTypeWord>(parser) {
        Ok(()) => Ok(span),
        Err(error) => Err(error),
    }
}
