//! Reading by one rule of the table, for what stands in a text as a part of it.

ghost use Rattle.std.specs.Prelude.{◌≡◌, ◌≤◌};
ghost use Rattle.tree_build.specs.Cores.{fields_read, cores_of};
ghost use Rattle.tree_build.specs.Held.{held};
ghost use Rattle.text_rules.specs.Measure.{Fit};
ghost use Rattle.text_rules.specs.Rule.{reads};
ghost use Rattle.text_table.specs.Code.{rule_of};
ghost use Rattle.tree_read.specs.Comes.{FailsBy};
ghost use Rattle.tree_read.specs.Left.{AreLeft, PartGiven, parts_of};
ghost use Rattle.wast_grammar.specs.Read.{Outcome, FailsAs, read as comes_to};
ghost use Rattle.wast_parser.specs.Standing.{ComesBy};

use crate::fault::{Answer, Fault};
use crate::read::read;
use crate::reader::Reader;
use crate::text::refusal;
use comp_model::Row;
use comp_tree::{Def, Leaf, Node};
use std::alloc::Global;
use text_table::rule::Rule;
use tree_build::{Cores, Scratch};
use wast_parser::{Error, ErrorKind, Id, Parser};

/// All that a rule leaves of what is read by it, each kind of part in the order of the text.
///
/// Most rules leave parts of few kinds: a row and leaves where they stand for a node, entries for a list, one definition for a field.
#[derive(Drop)]
pub struct LeftParts<'t, 'a> {
    /// The rows of nodes.
    pub rows: Vec<Row>,
    /// Leaves of nodes.
    pub leaves: Vec<Leaf<'t, 'a>>,
    /// The entries of lists.
    pub nodes: Vec<Node<'t, 'a>>,
    /// The ids of definitions, None for one that has none.
    pub ids: Vec<Option<Id<'a>>>,
    /// The labels of definitions, None for one that has none.
    pub labels: Vec<Option<&'a str>>,
    /// The names of inline exports.
    pub exports: Vec<&'a str>,
    /// The offsets of definitions into the text, in bytes.
    pub places: Vec<u32>,
    /// Definitions.
    pub defs: Vec<Def<'t, 'a>>,
    /// The core modules that leaves and definitions name by their numbers.
    pub cores: Cores<'a>,
}

/// What stands loose, as what is left.
fn left_parts<'t, 'a>(scratch: Scratch<'t, 'a>) -> LeftParts<'t, 'a>
    ensures { parts_of result ≡ held (fields_read scratch.entry.cores) (cores_of scratch.entry.cores) scratch.entry }
{
    LeftParts {
        rows: scratch.rows,
        leaves: scratch.leaves,
        nodes: scratch.nodes,
        ids: scratch.ids,
        labels: scratch.labels,
        exports: scratch.exports,
        places: scratch.places,
        defs: scratch.defs,
        cores: scratch.cores,
    }
}

/// The refusal of a reader, by a parser that goes where the reader stands.
fn refused<'a>(fault: Fault, reader: Reader<'a>, parser: &mut Parser<'a>) -> Error
    ensures refusal { (o : Outcome) → FailsBy fault reader.entry o → FailsAs result.kind result.offset reader.entry o }
    ensures place { parser.new ≡ reader.entry }
{
    let refused = refusal(fault, &reader);
    *parser = reader.into_parser();
    refused
}

/// Reads by a rule of the table, and gives all that the rule leaves.
fn part<'a>(
    alloc: Global,
    rule: &'static Rule<'static>,
    parser: &mut Parser<'a>,
) -> Result<LeftParts<'a, 'a>, Error>
    requires fit { Fit (rule_of rule.now) }
    ensures { PartGiven (rule_of rule.now) result parser.old parser.new }
{
    let mut scratch = Scratch::new(alloc, parser.arena());
    let mut reader = Reader::behind(parser);
    match read(rule, &mut reader, &mut scratch) {
        Answer::Done => {
            *parser = reader.into_parser();
            Ok(left_parts(scratch))
        }
        Answer::Parse => Err(refused(Fault::Parse, reader, parser)),
        Answer::TooDeep => Err(refused(Fault::TooDeep, reader, parser)),
        Answer::NoMemory => Err(Error {
            kind: ErrorKind::NoMemory,
            offset: 0,
        }),
    }
}

/// Reads by a rule of the table, into the arena of the parser's buffer, and gives all that the rule leaves of it.
///
/// A refusal is `Parse` at the token that doesn't fit, or at the end of the text; `TooDeep` at a checked item below more than 100 open parentheses;
/// or `NoMemory` at offset 0. After either of the first two the parser stands at the token that the offset names, after the last where it did.
pub fn read_parts<'a>(
    alloc: Global,
    rule: &'static Rule<'static>,
    parser: &mut Parser<'a>,
) -> Result<LeftParts<'a, 'a>, Error>
    requires fit { Fit (rule_of rule.now) }
    ensures gives { ComesBy (AreLeft (rule_of rule.now)) result parser.new (comes_to (reads (rule_of rule.now)) parser.old) }
    ensures text { parser.new.text ≡ parser.old.text }
    ensures forward { parser.old.at ≤ parser.new.at }
{
    part(alloc, rule, parser)
}
