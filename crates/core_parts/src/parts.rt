//! Parts that stand one behind the other, or in their parentheses.

ghost use Rattle.std.specs.Prelude.{◌≡◌, ◌≤◌};
ghost use Rattle.wast_grammar.specs.Classes.{keyword};
ghost use Rattle.wast_grammar.specs.Grammar.{Grammar, Value, before, both, group, led, pair};
ghost use Rattle.wast_grammar.specs.Read.{Gives, read};
ghost use Rattle.wast_grammar.specs.CoreForms.{filling};
ghost use Rattle.wast_grammar.specs.CoreRows.{Place as Where};
ghost use Rattle.core_parts.specs.PartViews.{perhaps_view};
ghost use Rattle.core_parts.specs.Places.{place_of};

use crate::keywords::take_word;
use crate::type_place::Place;
use std::alloc::Global;
use wast_parser::{Error, ParseView, Parser};

/// What is read as one of several parts: all that can be read, and what stands nowhere alone.
pub trait Part<'a>: Sized + Drop {
    /// The row.
    ghost part_row: { Grammar };

    /// What a value stands for.
    ghost view: { Self → Value };

    /// Reads a value, and refuses as `Parse::parse` does.
    fn part(alloc: Global, parser: &mut Parser<'a>) -> Result<Self, Error>
        ensures gives { Gives view result parser.new (read part_row parser.old) }
        ensures text { parser.new.text ≡ parser.old.text }
        ensures forward { parser.old.at ≤ parser.new.at };
}

impl<'a, T: ParseView<'a>> Part<'a> for T {
    ghost part_row = { T.grammar };

    ghost view = { T.view };

    fn part(alloc: Global, parser: &mut Parser<'a>) -> Result<T, Error> {
        parser.parse_view::<T>(alloc)
    }
}

/// Reads two parts, one behind the other.
pub fn in_turn<'a, A: Part<'a>, B: Part<'a>>(
    alloc: Global,
    parser: &mut Parser<'a>,
) -> Result<(A, B), Error>
    ensures gives { Gives (λ x. both (A.view x.0) (B.view x.1)) result parser.new (read (pair A.part_row B.part_row) parser.old) }
    ensures text { parser.new.text ≡ parser.old.text }
    ensures forward { parser.old.at ≤ parser.new.at }
{
    let first = A::part(alloc, parser)?;
    let second = B::part(alloc, parser)?;
    Ok((first, second))
}

/// Two parts as one.
#[derive(Drop)]
pub struct Joined<A, B> {
    pub first: A,
    pub second: B,
}

/// They stand one behind the other.
impl<'a, A: Part<'a>, B: Part<'a>> Part<'a> for Joined<A, B> {
    ghost use Rattle.wast_grammar.specs.Grammar.{both, pair};

    ghost part_row = { pair A.part_row B.part_row };

    ghost view = { λ x. both (A.view x.first) (B.view x.second) };

    fn part(alloc: Global, parser: &mut Parser<'a>) -> Result<Joined<A, B>, Error> {
        let first = A::part(alloc, parser)?;
        let second = B::part(alloc, parser)?;
        Ok(Joined { first, second })
    }
}

/// Reads a word and a part behind it.
pub fn word_then<'a, T: Part<'a>>(
    alloc: Global,
    parser: &mut Parser<'a>,
    word: &str,
) -> Result<T, Error>
    ensures gives { Gives T.view result parser.new (read (before (keyword word.now) T.part_row) parser.old) }
    ensures text { parser.new.text ≡ parser.old.text }
    ensures forward { parser.old.at ≤ parser.new.at }
{
    match take_word(parser, word) {
        Ok(()) => T::part(alloc, parser),
        Err(error) => Err(error),
    }
}

/// Reads a word and a part behind it, and another part behind these.
pub fn word_and_two<'a, A: Part<'a>, B: Part<'a>>(
    alloc: Global,
    parser: &mut Parser<'a>,
    word: &str,
) -> Result<(A, B), Error>
    ensures gives { Gives (λ x. both (A.view x.0) (B.view x.1)) result parser.new (read (pair (before (keyword word.now) A.part_row) B.part_row) parser.old) }
    ensures text { parser.new.text ≡ parser.old.text }
    ensures forward { parser.old.at ≤ parser.new.at }
{
    take_word(parser, word)?;
    let first = A::part(alloc, parser)?;
    let second = B::part(alloc, parser)?;
    Ok((first, second))
}

/// Reads a part in its parentheses. Where it holds more, or anything else stands in its place, the answer is `Parse` at the first
/// token that doesn't fit.
pub fn in_parentheses<'a, T: Part<'a>>(alloc: Global, parser: &mut Parser<'a>) -> Result<T, Error>
    ensures gives { Gives T.view result parser.new (read (group T.part_row) parser.old) }
    ensures text { parser.new.text ≡ parser.old.text }
    ensures forward { parser.old.at ≤ parser.new.at }
{
    parser.enter()?;
    let part = T::part(alloc, parser)?;
    parser.leave()?;
    Ok(part)
}

/// Reads a word and a part behind it in their parentheses.
pub fn word_group<'a, T: Part<'a>>(
    alloc: Global,
    parser: &mut Parser<'a>,
    word: &str,
) -> Result<T, Error>
    ensures gives { Gives T.view result parser.new (read (group (before (keyword word.now) T.part_row)) parser.old) }
    ensures text { parser.new.text ≡ parser.old.text }
    ensures forward { parser.old.at ≤ parser.new.at }
{
    parser.enter()?;
    let part = word_then::<T>(alloc, parser, word)?;
    parser.leave()?;
    Ok(part)
}

/// A part in its parentheses.
#[derive(Drop)]
pub struct Grouped<T> {
    pub part: T,
}

impl<'a, T: Part<'a>> Part<'a> for Grouped<T> {
    ghost use Rattle.wast_grammar.specs.Grammar.{group};

    ghost part_row = { group T.part_row };

    ghost view = { λ x. T.view x.part };

    fn part(alloc: Global, parser: &mut Parser<'a>) -> Result<Grouped<T>, Error> {
        match in_parentheses::<T>(alloc, parser) {
            Ok(part) => Ok(Grouped { part }),
            Err(error) => Err(error),
        }
    }
}

/// Reads two parts behind which their group ends.
pub fn two_alone<'a, A: Part<'a>, B: Part<'a>>(
    alloc: Global,
    parser: &mut Parser<'a>,
) -> Result<(A, B), Error>
    ensures gives { Gives (λ x. both (A.view x.0) (B.view x.1)) result parser.new (read (filling (pair A.part_row B.part_row)) parser.old) }
    ensures text { parser.new.text ≡ parser.old.text }
    ensures forward { parser.old.at ≤ parser.new.at }
{
    match in_turn::<A, B>(alloc, parser) {
        Ok(parts) => match parser.filled() {
            Ok(()) => Ok(parts),
            Err(error) => Err(error),
        },
        Err(error) => Err(error),
    }
}

/// What is given up where it is never written: the answer is then none.
pub trait Perhaps<'a>: Sized + Drop {
    /// The row, in a field or a signature.
    ghost perhaps_row: { Where → Grammar };

    /// What a value stands for.
    ghost kept: { Self → Value };

    /// What stands there where it is given up.
    ghost lost: { Value };

    /// Reads a value, and refuses as `Parse::parse` does.
    fn perhaps(alloc: Global, parser: &mut Parser<'a>, place: Place) -> Result<Option<Self>, Error>
        ensures gives { Gives (perhaps_view kept lost) result parser.new (read (perhaps_row (place_of place)) parser.old) }
        ensures text { parser.new.text ≡ parser.old.text }
        ensures forward { parser.old.at ≤ parser.new.at };
}

/// Reads a part and what may be given up behind it, which gives up both.
pub fn part_and_perhaps<'a, A: Part<'a>, B: Perhaps<'a>>(
    alloc: Global,
    parser: &mut Parser<'a>,
    place: Place,
) -> Result<Option<(A, B)>, Error>
    ensures gives { Gives (perhaps_view (λ x. both (A.view x.0) (B.kept x.1)) B.lost) result parser.new (read (led A.part_row (B.perhaps_row (place_of place))) parser.old) }
    ensures text { parser.new.text ≡ parser.old.text }
    ensures forward { parser.old.at ≤ parser.new.at }
{
    match A::part(alloc, parser) {
        Ok(first) => match B::perhaps(alloc, parser, place) {
            Ok(Some(second)) => Ok(Some((first, second))),
            Ok(None) => Ok(None),
            Err(error) => Err(error),
        },
        Err(error) => Err(error),
    }
}

/// The same where a word stands before the part.
pub fn word_and_perhaps<'a, A: Part<'a>, B: Perhaps<'a>>(
    alloc: Global,
    parser: &mut Parser<'a>,
    word: &str,
    place: Place,
) -> Result<Option<(A, B)>, Error>
    ensures gives { Gives (perhaps_view (λ x. both (A.view x.0) (B.kept x.1)) B.lost) result parser.new (read (led (before (keyword word.now) A.part_row) (B.perhaps_row (place_of place))) parser.old) }
    ensures text { parser.new.text ≡ parser.old.text }
    ensures forward { parser.old.at ≤ parser.new.at }
{
    match word_then::<A>(alloc, parser, word) {
        Ok(first) => match B::perhaps(alloc, parser, place) {
            Ok(Some(second)) => Ok(Some((first, second))),
            Ok(None) => Ok(None),
            Err(error) => Err(error),
        },
        Err(error) => Err(error),
    }
}
