//! The groups of the annotation `@producers`: how a module was made, by what and in which version of it.

ghost use Rattle.std.specs.Prelude.{◌≡◌, true, None, MatchOption, IfSome};
ghost use Rattle.std.specs.Option.{is_some};
ghost use Rattle.wast_grammar.specs.Classes.{keyword};
ghost use Rattle.wast_grammar.specs.Stand.{IsInside, class_at, moved};
ghost use Rattle.wast_grammar.specs.Grammar.{number_in};
ghost use Rattle.wast_parser.specs.View.{stand_of};
ghost use Rattle.wast_grammar.specs.CoreRows.{producer_words};

use crate::parts::{Joined, Part, in_parentheses, in_turn};
use crate::word_groups::GroupItem;
use std::alloc::Global;
use wast_parser::{Cursor, Error, Parser};

/// Whether a word says how a module was made.
fn is_producer_word(word: &str) -> bool
    ensures word { result ≡ is_some (number_in producer_words (keyword word.now)) }
{
    match word {
        "language" | "sdk" | "processed-by" => true,
        _ => false,
    }
}

/// Such a word and the place behind it, if it is next.
#[tactic(auto, using(crate::proofs::Looks::no_number, crate::proofs::Looks::none_is))]
fn next_word<'a>(cursor: Cursor<'a>) -> Option<(&'a str, Cursor<'a>)>
    ensures next { MatchOption result (number_in producer_words (class_at (stand_of cursor.entry)) ≡ None) (λ r. (class_at (stand_of cursor.entry) ≡ keyword r.0.now) × (stand_of r.1 ≡ moved (stand_of cursor.entry) 1)) }
    ensures known { IfSome result (λ r. is_some (number_in producer_words (keyword r.0.now)) ≡ true) }
    ensures inside { IfSome result (λ r. IsInside (stand_of r.1)) }
{
    match cursor.keyword() {
        Some((word, behind)) if is_producer_word(word) => Some((word, behind)),
        _ => None,
    }
}

/// A word that says how a module was made.
#[derive(Drop)]
struct ProducerWord<'a> {
    word: &'a str,
}

impl<'a> Part<'a> for ProducerWord<'a> {
    ghost use Rattle.wast_grammar.specs.Grammar.{words};
    ghost use Rattle.wast_grammar.specs.CoreRows.{producer_words};
    ghost use Rattle.core_parts.specs.PartViews.{producer_word_view};

    ghost part_row = { words producer_words };

    ghost view = { λ x. producer_word_view x.word };

    fn part(_alloc: Global, parser: &mut Parser<'a>) -> Result<ProducerWord<'a>, Error> {
        match next_word(parser.cursor()) {
            Some((word, behind)) => {
                parser.advance(behind);
                Ok(ProducerWord { word })
            }
            None => Err(parser.error()),
        }
    }
}

/// Such a word, a name and a version.
#[derive(Drop)]
struct Made<'a> {
    parts: (&'a str, &'a str, &'a str),
}

impl<'a> Part<'a> for Made<'a> {
    ghost use Rattle.wast_grammar.specs.CoreRows.{producer};
    ghost use Rattle.core_parts.specs.PartViews.{producer_view};

    ghost part_row = { producer };

    ghost view = { λ x. producer_view x.parts };

    #[tactic(auto, unfolding(wast_grammar::specs::CoreRows::producer))]
    fn part(alloc: Global, parser: &mut Parser<'a>) -> Result<Made<'a>, Error> {
        match in_turn::<ProducerWord<'a>, Joined<&'a str, &'a str>>(alloc, parser) {
            Ok((ProducerWord { word }, Joined { first, second })) => Ok(Made {
                parts: (word, first, second),
            }),
            Err(error) => Err(error),
        }
    }
}

/// These in their parentheses.
impl<'a> GroupItem<'a> for (&'a str, &'a str, &'a str) {
    ghost use Rattle.std.specs.Prelude.{refl};
    ghost use Rattle.wast_grammar.specs.Grammar.{group};
    ghost use Rattle.wast_grammar.specs.CoreRows.{producer};
    ghost use Rattle.core_parts.specs.PartLaws.{sound_producer_group};
    ghost use Rattle.core_parts.specs.PartViews.{producer_view};

    ghost item_row = { group producer };

    ghost is_sound = { sound_producer_group };

    ghost has_token = { refl };

    ghost view = { producer_view };

    fn item(alloc: Global, parser: &mut Parser<'a>) -> Result<(&'a str, &'a str, &'a str), Error> {
        match in_parentheses::<Made<'a>>(alloc, parser) {
            Ok(made) => Ok(made.parts),
            Err(error) => Err(error),
        }
    }
}
