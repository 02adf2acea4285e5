//! The readers of what a field has before its type: the id, the label, the inline exports and the inline import.

ghost use Rattle.std.specs.Prelude.{◌≡◌, ◌≤◌, [], false, true, MatchOption};
ghost use Rattle.std.specs.Str.{is_utf8};
ghost use Rattle.wast_grammar.specs.Classes.{same, utf8};
ghost use Rattle.wast_grammar.specs.Stand.{class_at, moved};
ghost use Rattle.wast_grammar.specs.Grammar.{holds};
ghost use Rattle.wast_grammar.specs.Read.{Gives, read};
ghost use Rattle.wast_parser.specs.View.{many_view, stand_of};
ghost use Rattle.wast_grammar.specs.CoreRows.{inline_export, inline_exports, is_inline_export, is_inline_import};
ghost use Rattle.core_parts.specs.PartViews.{text_view};

use crate::keywords::behind_word;
use crate::names::{NameParts, Names};
use crate::parts::{Joined, Part, in_turn, word_group};
use std::alloc::Global;
use wast_parser::{Cursor, Error, Parser, kw};

/// The id and the label of a field, and the names under which it is exported.
#[derive(Drop)]
pub struct Head<'a> {
    pub names: Names<'a>,
    pub exports: Vec<&'a str>,
}

/// Bytes as characters, if they are UTF-8.
fn as_text(bytes: &[u8]) -> Option<&str>
    ensures text { MatchOption result (is_utf8 bytes.now ≡ false) (λ _. is_utf8 bytes.now ≡ true) }
{
    str::from_utf8(bytes).ok()
}

/// The place behind a string that is UTF-8, if it is next.
#[tactic(auto, using(wast_parser::proofs::NoText::no_text))]
fn behind_text<'a>(cursor: Cursor<'a>) -> Option<Cursor<'a>>
    ensures next { MatchOption result (same (class_at (stand_of cursor.entry)) utf8 ≡ false) (λ r. (class_at (stand_of cursor.entry) ≡ utf8) × (stand_of r ≡ moved (stand_of cursor.entry) 1)) }
{
    match cursor.string() {
        Some((bytes, behind)) => match as_text(bytes) {
            Some(_) => Some(behind),
            None => None,
        },
        None => None,
    }
}

/// Whether a whole inline export is next.
fn is_inline_export(parser: &Parser<'_>) -> bool
    ensures form { result ≡ holds is_inline_export parser.now }
{
    let Some(inner) = parser.cursor().lparen() else {
        return false;
    };
    let Some(name) = behind_word(inner, "export") else {
        return false;
    };
    match behind_text(name) {
        Some(end) => end.rparen().is_some(),
        None => false,
    }
}

/// Reads an inline export.
#[tactic(auto, unfolding(wast_parser::specs::Words::spelled_at))]
fn export_name<'a>(alloc: Global, parser: &mut Parser<'a>) -> Result<&'a str, Error>
    ensures gives { Gives text_view result parser.new (read inline_export parser.old) }
    ensures text { parser.new.text ≡ parser.old.text }
    ensures forward { parser.old.at ≤ parser.new.at }
{
    kw::export::parse_group::<&'a str>(alloc, parser)
}

/// Reads inline exports onto an empty list as long as a whole one is next. What a refusal leaves in it is nothing to go by.
#[tactic(auto, unfolding(wast_grammar::specs::CoreRows::inline_exports))]
fn inline_exports<'a>(
    alloc: Global,
    parser: &mut Parser<'a>,
    names: &mut Vec<&'a str>,
) -> Result<(), Error>
    requires none { names.old.items ≡ [] }
    ensures gives { Gives (λ _. many_view text_view names.new.items) result parser.new (read inline_exports parser.old) }
    ensures text { parser.new.text ≡ parser.old.text }
    ensures forward { parser.old.at ≤ parser.new.at }
{
    'names: while is_inline_export(parser) {
        let name = export_name(alloc, parser)?;
        names.push(name)?;
    }
    Ok(())
}

/// The names under which a field is exported.
#[derive(Drop)]
struct InlineExports<'a> {
    names: Vec<&'a str>,
}

impl<'a> Part<'a> for InlineExports<'a> {
    ghost use Rattle.wast_grammar.specs.CoreRows.{inline_exports};
    ghost use Rattle.wast_parser.specs.View.{many_view};
    ghost use Rattle.core_parts.specs.PartViews.{text_view};

    ghost part_row = { inline_exports };

    ghost view = { λ x. many_view text_view x.names.items };

    fn part(alloc: Global, parser: &mut Parser<'a>) -> Result<InlineExports<'a>, Error> {
        let mut names = Vec::new(alloc);
        match inline_exports(alloc, parser, &mut names) {
            Ok(()) => Ok(InlineExports { names }),
            Err(error) => Err(error),
        }
    }
}

/// Whether a whole inline import is next.
pub fn is_inline_import(parser: &Parser<'_>) -> bool
    ensures form { result ≡ holds is_inline_import parser.now }
{
    let Some(inner) = parser.cursor().lparen() else {
        return false;
    };
    let Some(module) = behind_word(inner, "import") else {
        return false;
    };
    let Some(name) = behind_text(module) else {
        return false;
    };
    match behind_text(name) {
        Some(end) => end.rparen().is_some(),
        None => false,
    }
}

/// The module and the name of an inline import.
#[derive(Drop)]
pub struct InlineImport<'a> {
    pub names: (&'a str, &'a str),
}

impl<'a> Part<'a> for InlineImport<'a> {
    ghost use Rattle.wast_grammar.specs.CoreRows.{inline_import};
    ghost use Rattle.core_parts.specs.PartViews.{import_names_view};

    ghost part_row = { inline_import };

    ghost view = { λ x. import_names_view x.names };

    #[tactic(auto, unfolding(wast_grammar::specs::CoreRows::inline_import, wast_grammar::specs::CoreRows::import_names))]
    fn part(alloc: Global, parser: &mut Parser<'a>) -> Result<InlineImport<'a>, Error> {
        match word_group::<Joined<&'a str, &'a str>>(alloc, parser, "import") {
            Ok(Joined { first, second }) => Ok(InlineImport {
                names: (first, second),
            }),
            Err(error) => Err(error),
        }
    }
}

/// An inline import or none.
#[derive(Drop)]
pub struct OptionalImport<'a> {
    pub names: Option<(&'a str, &'a str)>,
}

/// It is read where a whole one is next.
impl<'a> Part<'a> for OptionalImport<'a> {
    ghost use Rattle.wast_grammar.specs.CoreRows.{optional_import};
    ghost use Rattle.core_parts.specs.PartViews.{optional_import_view};

    ghost part_row = { optional_import };

    ghost view = { λ x. optional_import_view x.names };

    #[tactic(auto, unfolding(wast_grammar::specs::CoreRows::optional_import))]
    fn part(alloc: Global, parser: &mut Parser<'a>) -> Result<OptionalImport<'a>, Error> {
        if is_inline_import(parser) {
            return match InlineImport::part(alloc, parser) {
                Ok(InlineImport { names }) => Ok(OptionalImport { names: Some(names) }),
                Err(error) => Err(error),
            };
        }
        Ok(OptionalImport { names: None })
    }
}

/// The id, the label and the inline exports.
impl<'a> Part<'a> for Head<'a> {
    ghost use Rattle.wast_grammar.specs.CoreRows.{head};
    ghost use Rattle.core_parts.specs.PartViews.{head_view};

    ghost part_row = { head };

    ghost view = { λ h. head_view h.names h.exports.items };

    #[tactic(auto, unfolding(wast_grammar::specs::CoreRows::head, wast_grammar::specs::CoreRows::names, wast_parser::specs::Words::noted_at))]
    fn part(alloc: Global, parser: &mut Parser<'a>) -> Result<Head<'a>, Error> {
        match in_turn::<NameParts<'a>, InlineExports<'a>>(alloc, parser) {
            Ok((Joined { first, second }, InlineExports { names: exports })) => Ok(Head {
                names: (first, second),
                exports,
            }),
            Err(error) => Err(error),
        }
    }
}
