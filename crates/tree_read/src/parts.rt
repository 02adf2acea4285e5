//! What comes first or last by a rule, and the choice between two rules.

ghost use Rattle.std.specs.Prelude.{◌≡◌, cond};
ghost use Rattle.wast_grammar.specs.Grammar.{holds};
ghost use Rattle.text_table.specs.Code.{rule_of, test_of};
ghost use Rattle.tree_read.specs.Comes.{as_result};
ghost use Rattle.tree_read.specs.declared.parts.First.TheVariants as firsts;
ghost use Rattle.tree_read.specs.Parts.{HasNumber, ReadsFirst, ReadsLast};

use crate::fault::{Answer, Fault, answered, made};
use crate::outside::outside;
use crate::own_names::{optional_id, optional_label};
use crate::reader::Reader;
use crate::skip::skip_rest;
use crate::steps::{keep, keep_place, placed, reference};
use crate::told::read_told;
use crate::unwritten::add;
use comp_model::Space;
use text_table::rule::{Add, Keep, Outside, Reach, Rule, Test, Told};
use token_codes::numbers::CLOSING;
use tree_build::Scratch;

/// What comes first by a rule.
#[derive(Clone, Copy)]
pub(crate) enum First {
    /// A token that is kept.
    Keep(Keep),
    /// An index into a space, whose name is looked for so far.
    Reference(Space, Reach),
    /// The word of a table.
    Told(Told),
    /// A part with a row of its own.
    Outside(Outside),
    /// A token of the class of a number, with its offset where the flag is set.
    Placed(bool, u8),
    /// The id and the label of a definition.
    Named,
    /// The offset of the next token.
    Offset,
    /// What may not stand too deep.
    Depth,
}

/// What comes last by a rule.
#[derive(Clone, Copy)]
pub(crate) enum Last {
    /// What stands for no token.
    Add(Add),
    /// A `)`.
    Closing,
    /// All that is left of the group, unread.
    Skipping,
}

/// Takes the id and the label of a definition.
fn read_names<'a>(reader: &mut Reader<'a>, scratch: &mut Scratch<'_, 'a>) -> Result<(), Fault>
    ensures { ReadsFirst firsts.Named result reader.old reader.new scratch.old scratch.new }
{
    match optional_id(reader, scratch) {
        Ok(()) => optional_label(reader, scratch),
        Err(fault) => Err(fault),
    }
}

/// Reads what comes first.
#[inline(always)]
pub(crate) fn read_first<'a>(
    first: First,
    reader: &mut Reader<'a>,
    scratch: &mut Scratch<'_, 'a>,
) -> Result<(), Fault>
    requires { HasNumber first }
    ensures { ReadsFirst first result reader.old reader.new scratch.old scratch.new }
{
    match first {
        First::Keep(kept) => keep(kept, reader, scratch),
        First::Reference(space, reach) => reference(space, reach, reader, scratch),
        First::Told(table) => read_told(reader, scratch, table),
        First::Outside(part) => outside(part, reader, scratch),
        First::Placed(first, code) => placed(first, code, reader, scratch),
        First::Named => read_names(reader, scratch),
        First::Offset => keep_place(reader.offset(), scratch),
        First::Depth => reader.depth_check(),
    }
}

/// Reads what comes last.
#[inline]
pub(crate) fn read_last<'a>(
    last: Last,
    reader: &mut Reader<'a>,
    scratch: &mut Scratch<'_, 'a>,
) -> Answer
    ensures { ReadsLast last (as_result result) reader.old reader.new scratch.old scratch.new }
{
    match last {
        Last::Add(unwritten) => made(add(unwritten, scratch)),
        Last::Closing => answered(reader.take(CLOSING)),
        Last::Skipping => answered(skip_rest(reader)),
    }
}

/// The first of two rules where a test holds, else the second.
#[inline]
pub(crate) fn one_of(
    reader: &Reader<'_>,
    test: &Test<'_>,
    one: &'static Rule<'static>,
    other: &'static Rule<'static>,
) -> &'static Rule<'static>
    ensures { rule_of result.now ≡ cond (holds (test_of test.now) reader.now) (rule_of one.now) (rule_of other.now) }
{
    if reader.holds(test) { one } else { other }
}
