//! Looks at tokens that have no type of their own, and keywords that stand in no table of words.

ghost use Rattle.std.specs.Prelude.{◌≡◌, ◌≤◌, ◌∷◌, List, [], false, true, MatchOption, IfSome};
ghost use Rattle.std.specs.Option.{is_some};
ghost use Rattle.wast_grammar.specs.Classes.{Class, same, among, each_class, annotation, opening, keyword};
ghost use Rattle.wast_grammar.specs.Stand.{IsInside, class_at, moved};
ghost use Rattle.wast_grammar.specs.Grammar.{any_of, before, nothing, none, next, next2, holds, skipping, special};
ghost use Rattle.wast_grammar.specs.Read.{Gives, read};
ghost use Rattle.wast_parser.specs.Next.{keyword_in};
ghost use Rattle.wast_parser.specs.View.{stand_of};

use crate::unread::skip_rest;
use wast_parser::{Cursor, Error, Parser};

/// The place behind a word, if it is next.
#[inline]
pub fn behind_word<'a>(cursor: Cursor<'a>, word: &str) -> Option<Cursor<'a>>
    ensures next { MatchOption result (same (class_at (stand_of cursor.entry)) (keyword word.now) ≡ false) (λ r. (class_at (stand_of cursor.entry) ≡ keyword word.now) × (stand_of r ≡ moved (stand_of cursor.entry) 1)) }
    ensures inside { IfSome result (λ r. IsInside (stand_of r)) }
{
    match cursor.keyword() {
        Some((found, behind)) if found == word => Some(behind),
        _ => None,
    }
}

/// Whether a word is next.
pub fn is_word(cursor: Cursor<'_>, word: &str) -> bool
    ensures next { result ≡ holds (next (keyword word.now ∷ [])) (stand_of cursor.entry) }
{
    behind_word(cursor, word).is_some()
}

/// Whether a word is next where a reader stands.
#[inline]
pub fn is_word_next(parser: &Parser<'_>, word: &str) -> bool
    ensures next { result ≡ holds (next (keyword word.now ∷ [])) parser.now }
{
    is_word(parser.cursor(), word)
}

/// Whether a `(` is next, and the word behind it.
pub fn is_group_of(cursor: Cursor<'_>, word: &str) -> bool
    ensures next { result ≡ holds (next2 opening (keyword word.now ∷ [])) (stand_of cursor.entry) }
{
    match cursor.lparen() {
        Some(inner) => is_word(inner, word),
        None => false,
    }
}

/// Takes a word; where another token is next, the answer is `Parse` at its place.
pub fn take_word(parser: &mut Parser<'_>, word: &str) -> Result<(), Error>
    ensures gives { Gives (λ _. none) result parser.new (read (before (keyword word.now) nothing) parser.old) }
    ensures text { parser.new.text ≡ parser.old.text }
    ensures forward { parser.old.at ≤ parser.new.at }
{
    match behind_word(parser.cursor(), word) {
        Some(behind) => {
            parser.advance(behind);
            Ok(())
        }
        None => Err(parser.error()),
    }
}

/// The place behind an annotation of that name, if it is next.
pub fn behind_note<'a>(cursor: Cursor<'a>, name: &str) -> Option<Cursor<'a>>
    ensures next { MatchOption result (same (class_at (stand_of cursor.entry)) (annotation (40 ∷ 64 ∷ name.now)) ≡ false) (λ r. (class_at (stand_of cursor.entry) ≡ annotation (40 ∷ 64 ∷ name.now)) × (stand_of r ≡ moved (stand_of cursor.entry) 1)) }
    ensures inside { IfSome result (λ r. IsInside (stand_of r)) }
{
    match cursor.annotation() {
        Some((found, behind)) if found == name => Some(behind),
        _ => None,
    }
}

/// Whether an annotation of that name is next.
pub fn is_note(cursor: Cursor<'_>, name: &str) -> bool
    ensures next { result ≡ holds (next (annotation (40 ∷ 64 ∷ name.now) ∷ [])) (stand_of cursor.entry) }
{
    behind_note(cursor, name).is_some()
}

/// Takes an annotation of that name, which opens its group; where another token is next, the answer is `Parse` at its place.
pub fn take_note(parser: &mut Parser<'_>, name: &str) -> Result<(), Error>
    ensures gives { Gives (λ _. none) result parser.new (read (before (annotation (40 ∷ 64 ∷ name.now)) nothing) parser.old) }
    ensures text { parser.new.text ≡ parser.old.text }
    ensures forward { parser.old.at ≤ parser.new.at }
{
    match behind_note(parser.cursor(), name) {
        Some(behind) => {
            parser.advance(behind);
            Ok(())
        }
        None => Err(parser.error()),
    }
}

/// Words that begin the same form, and aren't told apart.
pub trait Words {
    /// The words.
    ghost classes: { List Class };

    /// They are words.
    ghost are_words: { each_class (λ c. is_some (keyword_in c)) classes ≡ true };

    /// Whether a word is one of them.
    fn has(word: &str) -> bool
        ensures among { result ≡ among classes (keyword word.now) };
}

/// The place behind one of the words, if it is next.
#[tactic(auto, using(crate::proofs::Looks::no_word))]
pub fn behind_any<'a, W: Words>(cursor: Cursor<'a>) -> Option<Cursor<'a>>
    ensures next { MatchOption result (among W.classes (class_at (stand_of cursor.entry)) ≡ false) (λ r. (among W.classes (class_at (stand_of cursor.entry)) ≡ true) × (stand_of r ≡ moved (stand_of cursor.entry) 1)) }
    ensures inside { IfSome result (λ r. IsInside (stand_of r)) }
{
    match cursor.keyword() {
        Some((word, behind)) if W::has(word) => Some(behind),
        _ => None,
    }
}

/// Whether one of the words is next where a reader stands.
pub fn is_any_next<W: Words>(parser: &Parser<'_>) -> bool
    ensures next { result ≡ among W.classes (class_at parser.now) }
{
    behind_any::<W>(parser.cursor()).is_some()
}

/// Takes one of the words; where another token is next, the answer is `Parse` at its place.
pub fn take_any<W: Words>(parser: &mut Parser<'_>) -> Result<(), Error>
    ensures gives { Gives (λ _. none) result parser.new (read (special (any_of W.classes)) parser.old) }
    ensures text { parser.new.text ≡ parser.old.text }
    ensures forward { parser.old.at ≤ parser.new.at }
{
    match behind_any::<W>(parser.cursor()) {
        Some(behind) => {
            parser.advance(behind);
            Ok(())
        }
        None => Err(parser.error()),
    }
}

/// Goes over one of the words and all that is left of its group.
pub fn over_any<W: Words>(parser: &mut Parser<'_>) -> Result<(), Error>
    ensures gives { Gives (λ _. none) result parser.new (read (skipping (special (any_of W.classes))) parser.old) }
    ensures text { parser.new.text ≡ parser.old.text }
    ensures forward { parser.old.at ≤ parser.new.at }
{
    match take_any::<W>(parser) {
        Ok(()) => skip_rest(parser),
        Err(error) => Err(error),
    }
}

/// Goes over a word and all that is left of its group.
pub fn over_word(parser: &mut Parser<'_>, word: &str) -> Result<(), Error>
    ensures gives { Gives (λ _. none) result parser.new (read (skipping (before (keyword word.now) nothing)) parser.old) }
    ensures text { parser.new.text ≡ parser.old.text }
    ensures forward { parser.old.at ≤ parser.new.at }
{
    match take_word(parser, word) {
        Ok(()) => skip_rest(parser),
        Err(error) => Err(error),
    }
}
