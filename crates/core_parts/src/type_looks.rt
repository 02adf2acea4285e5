//! Whether a value type or a reference type is next, and reference types that are gone over.

ghost use Rattle.std.specs.Prelude.{◌≡◌, ◌≤◌, ◌∷◌, [], false, true, MatchOption, IfSome, codes};
ghost use Rattle.wast_grammar.specs.Classes.{same, among, closing, numeral, keyword, is_keyword};
ghost use Rattle.wast_grammar.specs.Stand.{IsInside, class_at, moved};
ghost use Rattle.wast_grammar.specs.Grammar.{group, holds, form, word_in, skipping, word, nothing, none, part_at};
ghost use Rattle.wast_grammar.specs.Read.{Gives, read};
ghost use Rattle.wast_parser.specs.View.{stand_of};
ghost use Rattle.wast_grammar.specs.CoreRows.{heap_classes, is_value_type, reference_words, is_reference_type, is_reference_group, other_reference, other_references};

use crate::keywords::{Words, behind_word, is_any_next, is_group_of, is_word, over_word};
use wast_parser::{Cursor, Error, Parser, Span};
use wast_tokens::numeral;

/// The words of number and vector types.
struct NumberWord;

impl Words for NumberWord {
    ghost use Rattle.std.specs.Prelude.{refl};
    ghost use Rattle.wast_grammar.specs.Grammar.{one_of};
    ghost use Rattle.wast_grammar.specs.CoreRows.{number_words};

    ghost classes = { one_of number_words };

    ghost are_words = { refl };

    fn has(word: &str) -> bool {
        match word {
            "i32" | "i64" | "f32" | "f64" | "v128" => true,
            _ => false,
        }
    }
}

/// The place behind an integer without `-` below 2^32, if it is next.
#[tactic(auto, using(crate::proofs::Looks::no_numeral))]
fn behind_numeral<'a>(cursor: Cursor<'a>) -> Option<Cursor<'a>>
    ensures next { MatchOption result (same (class_at (stand_of cursor.entry)) numeral ≡ false) (λ r. (class_at (stand_of cursor.entry) ≡ numeral) × (stand_of r ≡ moved (stand_of cursor.entry) 1)) }
{
    match cursor.integer() {
        Some((spelled, behind)) => match numeral(spelled.as_bytes()) {
            Some(_) => Some(behind),
            None => None,
        },
        None => None,
    }
}

/// The place behind the token of a heap type, if one is next.
fn behind_heap_type<'a>(cursor: Cursor<'a>) -> Option<Cursor<'a>>
    ensures next { MatchOption result (among heap_classes (class_at (stand_of cursor.entry)) ≡ false) (λ r. (among heap_classes (class_at (stand_of cursor.entry)) ≡ true) × (stand_of r ≡ moved (stand_of cursor.entry) 1)) }
{
    if let Some(behind) = behind_word(cursor, "func") {
        return Some(behind);
    }
    if let Some(behind) = behind_word(cursor, "extern") {
        return Some(behind);
    }
    if let Some((_, behind)) = cursor.id() {
        return Some(behind);
    }
    behind_numeral(cursor)
}

/// Whether a heap type is next, and its group ends behind it.
fn is_last_heap_type(cursor: Cursor<'_>) -> bool
    ensures form { result ≡ holds (form (heap_classes ∷ (closing ∷ []) ∷ [])) (stand_of cursor.entry) }
{
    match behind_heap_type(cursor) {
        Some(behind) => behind.rparen().is_some(),
        None => false,
    }
}

/// Whether `null`, a heap type and the end of its group are next.
fn is_last_null_type(cursor: Cursor<'_>) -> bool
    ensures form { result ≡ holds (form ((keyword (codes "null") ∷ []) ∷ heap_classes ∷ (closing ∷ []) ∷ [])) (stand_of cursor.entry) }
{
    match behind_word(cursor, "null") {
        Some(behind) => is_last_heap_type(behind),
        None => false,
    }
}

/// Whether a whole group of a reference type is next.
fn is_reference_group(cursor: Cursor<'_>) -> bool
    ensures form { result ≡ holds is_reference_group (stand_of cursor.entry) }
{
    let Some(inner) = cursor.lparen() else {
        return false;
    };
    match behind_word(inner, "ref") {
        Some(behind) => is_last_heap_type(behind) || is_last_null_type(behind),
        None => false,
    }
}

/// Whether a whole reference type is next.
pub fn is_reference_type(parser: &Parser<'_>) -> bool
    ensures next { result ≡ holds is_reference_type parser.now }
{
    let cursor = parser.cursor();
    is_word(cursor, "funcref") || is_word(cursor, "externref") || is_reference_group(cursor)
}

/// Whether a word ends in `ref`.
#[tactic(auto, using(crate::proofs::Looks::no_keyword))]
fn is_ref_word(cursor: Cursor<'_>) -> bool
    ensures next { result ≡ holds (word_in reference_words) (stand_of cursor.entry) }
{
    match cursor.keyword() {
        Some((word, _)) => word.as_bytes().ends_with(b"ref"),
        None => false,
    }
}

/// Whether a value type is next.
pub fn is_value_type(parser: &Parser<'_>) -> bool
    ensures next { result ≡ holds is_value_type parser.now }
{
    is_any_next::<NumberWord>(parser)
        || is_ref_word(parser.cursor())
        || is_group_of(parser.cursor(), "ref")
}

/// Whether a word ends in `ref` and is no reference type.
fn is_other_word(word: &str) -> bool
    ensures other { result ≡ is_keyword other_references (keyword word.now) }
{
    word.as_bytes().ends_with(b"ref") && word != "funcref" && word != "externref"
}

/// The place behind such a word, if it is next.
#[tactic(auto, using(crate::proofs::Looks::no_keyword))]
fn behind_other_word<'a>(cursor: Cursor<'a>) -> Option<Cursor<'a>>
    ensures next { MatchOption result (is_keyword other_references (class_at (stand_of cursor.entry)) ≡ false) (λ r. (is_keyword other_references (class_at (stand_of cursor.entry)) ≡ true) × (stand_of r ≡ moved (stand_of cursor.entry) 1)) }
    ensures inside { IfSome result (λ r. IsInside (stand_of r)) }
{
    match cursor.keyword() {
        Some((word, behind)) if is_other_word(word) => Some(behind),
        _ => None,
    }
}

/// Goes over the group of a reference type that is never written.
fn other_group(parser: &mut Parser<'_>) -> Result<(), Error>
    ensures gives { Gives (λ _. none) result parser.new (read (group (skipping (word "ref" nothing))) parser.old) }
    ensures text { parser.new.text ≡ parser.old.text }
    ensures forward { parser.old.at ≤ parser.new.at }
{
    parser.enter()?;
    over_word(parser, "ref")?;
    parser.leave()?;
    Ok(())
}

/// Reads a reference type that is never written; its place is kept.
#[tactic(auto, unfolding(wast_grammar::specs::CoreRows::other_reference))]
pub fn other_reference(parser: &mut Parser<'_>) -> Result<Span, Error>
    ensures gives { Gives (λ s. part_at s.offset none) result parser.new (read other_reference parser.old) }
    ensures text { parser.new.text ≡ parser.old.text }
    ensures forward { parser.old.at ≤ parser.new.at }
{
    let span = parser.cur_span();
    if let Some(behind) = behind_other_word(parser.cursor()) {
        parser.advance(behind);
        return Ok(span);
    }
    match other_group(parser) {
        Ok(()) => Ok(span),
        Err(error) => Err(error),
    }
}
