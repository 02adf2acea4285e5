//! What is left of a group that counts as another form: gone over unread, with a count of the groups that are open.

ghost use Rattle.std.specs.Prelude.{◌≡◌, ◌≤◌, false, true, MatchOption, IfSome};
ghost use Rattle.std.specs.Bool.{MatchBool};
ghost use Rattle.wast_grammar.specs.Classes.{among, is_inner};
ghost use Rattle.wast_grammar.specs.Skips.{bracket};
ghost use Rattle.wast_grammar.specs.Stand.{IsInside, class_at, moved};
ghost use Rattle.wast_grammar.specs.Grammar.{none, group_ends};
ghost use Rattle.wast_grammar.specs.Read.{Gives, skip_rest};
ghost use Rattle.wast_parser.specs.View.{stand_of};
ghost use Rattle.core_parts.specs.Over.{OneOver, stops};

use wast_parser::{Cursor, Error, Parser};

/// The place behind a token that begins and ends no group, if it is next.
#[tactic(auto, using(crate::proofs::Looks::not_inner))]
fn behind_inner<'a>(cursor: Cursor<'a>) -> Option<Cursor<'a>>
    ensures next { MatchOption result (is_inner (class_at (stand_of cursor.entry)) ≡ false) (λ r. (is_inner (class_at (stand_of cursor.entry)) ≡ true) × (stand_of r ≡ moved (stand_of cursor.entry) 1)) }
    ensures inside { IfSome result (λ r. IsInside (stand_of r)) }
{
    if let Some((_, behind)) = cursor.keyword() {
        return Some(behind);
    }
    if let Some((_, behind)) = cursor.id() {
        return Some(behind);
    }
    if let Some((_, behind)) = cursor.string() {
        return Some(behind);
    }
    match cursor.integer() {
        Some((_, behind)) => Some(behind),
        None => None,
    }
}

/// The place behind the next token, and how many groups are open there, where so many are open before it. There is none where
/// the group ends in which all of these stand, nor before a token that stands in no group.
#[tactic(auto, using(crate::proofs::OneByOne::is_over_inner, crate::proofs::OneByOne::is_over_opening, crate::proofs::OneByOne::is_over_annotation, crate::proofs::OneByOne::is_over_closing, crate::proofs::OneByOne::is_stuck))]
fn behind_token<'a>(cursor: Cursor<'a>, count: usize) -> Option<(Cursor<'a>, usize)>
    requires few { count ≤ cursor.at }
    ensures over { MatchOption result (stops count (bracket (class_at (stand_of cursor.entry))) ≡ true) (λ r. OneOver count r.1 (stand_of cursor.entry)) }
    ensures next { IfSome result (λ r. stand_of r.0 ≡ moved (stand_of cursor.entry) 1) }
    ensures inside { IfSome result (λ r. IsInside (stand_of r.0)) }
{
    if let Some(behind) = behind_inner(cursor) {
        return Some((behind, count));
    }
    if let Some(behind) = cursor.lparen() {
        return Some((behind, count + 1));
    }
    if let Some((_, behind)) = cursor.annotation() {
        return Some((behind, count + 1));
    }
    match cursor.rparen() {
        Some(behind) if count > 0 => Some((behind, count - 1)),
        _ => None,
    }
}

/// Whether all is gone over: no group is open, and the one that holds them ends.
fn is_done(parser: &Parser<'_>, count: usize) -> bool
    ensures done { MatchBool result ((count ≡ 0) × (among group_ends (class_at parser.now) ≡ true)) (count ≡ 0 → among group_ends (class_at parser.now) ≡ false) }
{
    count == 0 && parser.is_empty()
}

/// Goes over all that is left of the group; a reserved token, or the end of the text where a group is still open, is refused by
/// `Parse` at its place.
pub fn skip_rest(parser: &mut Parser<'_>) -> Result<(), Error>
    ensures gives { Gives (λ _. none) result parser.new (skip_rest parser.old) }
    ensures text { parser.new.text ≡ parser.old.text }
    ensures forward { parser.old.at ≤ parser.new.at }
{
    let mut count: usize = 0;
    'tokens: while !is_done(parser, count) {
        match behind_token(parser.cursor(), count) {
            Some((behind, left)) => {
                parser.advance(behind);
                count = left;
            }
            None => return Err(parser.error()),
        }
    }
    Ok(())
}
