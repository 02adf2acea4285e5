//! Reading by rules.

ghost use Rattle.std.specs.Prelude.{◌≡◌};
ghost use Rattle.text_rules.specs.Rule.{pair, row, many, many_by, wraps, a_list, a_part, a_def, a_scope};
ghost use Rattle.text_rules.specs.Forms.{of_row, entry};
ghost use Rattle.text_rules.specs.Measure.{Fit};
ghost use Rattle.text_table.specs.Code.{rule_of, test_of, row_of, choice_of, a_word, a_note, wrap_of};
ghost use Rattle.tree_read.specs.Comes.{Reads, as_result};
ghost use Rattle.tree_build.specs.Making.{wraps_of};
ghost use Rattle.tree_read.specs.Parts.{before_last, behind_first};

use crate::fault::{Answer, answered, made, stopped};
use crate::making::wrap;
use crate::outside::step;
use crate::parts::{First, Last, one_of, read_first, read_last};
use crate::path::read_path;
use crate::plain::{plain_type, read_plain};
use crate::reader::Reader;
use crate::told::{is_prim, read_primitive, read_told};
use crate::unwritten::add;
use comp_model::{Row, ScopeKind, Space};
use text_table::rule::{Choice, RowName, Rule, Test, Told, Wrap};
use text_table::{chosen, part_rule, row_rule};
use token_codes::numbers::{CLOSING, OPENING};
use tree_build::{
    DefEnds, Ends, Making, Scratch, wrap_def, wrap_entry, wrap_list, wrap_made, wrap_part,
    wrap_scope,
};

/// Reads by a rule.
#[cycle(reading)]
pub(crate) fn read<'a>(
    rule: &'static Rule<'static>,
    reader: &mut Reader<'a>,
    scratch: &mut Scratch<'_, 'a>,
) -> Answer
    requires fit { Fit (rule_of rule.now) }
    ensures { Reads (rule_of rule.now) (as_result result) reader.old reader.new scratch.old scratch.new }
{
    match rule {
        Rule::End => Answer::Done,
        Rule::Adds(unwritten) => made(add(*unwritten, scratch)),
        Rule::Also(rest, add) => read_before(Last::Add(*add), rest, reader, scratch),
        Rule::Of(row, rest) => read_of(*row, rest, reader, scratch),
        Rule::Word(code, rest) => read_word(*code, rest, reader, scratch),
        Rule::Placed(first, code, rest) => read_behind(
            First::Placed(*first, *code),
            rest,
            reader,
            scratch,
        ),
        Rule::Keep(kept, rest) => read_behind(First::Keep(*kept), rest, reader, scratch),
        Rule::Reference(space, reach, rest) => read_behind(
            First::Reference(*space, *reach),
            rest,
            reader,
            scratch,
        ),
        Rule::Told(table, rest) => read_behind(First::Told(*table), rest, reader, scratch),
        Rule::Outside(part, rest) => read_behind(First::Outside(*part), rest, reader, scratch),
        Rule::Alone(alone) => answered(step(*alone, reader, scratch)),
        Rule::Path(space, steps) => answered(read_path(reader, scratch, *space, *steps)),
        Rule::Named(rest) => read_behind(First::Named, rest, reader, scratch),
        Rule::Then(one, rest) => read_then(one, rest, reader, scratch),
        Rule::Either(test, one, other) => read(one_of(reader, test, one, other), reader, scratch),
        Rule::ByTest(test, one, other) => read(one_of(reader, test, one, other), reader, scratch),
        Rule::Case(_, test, one, other) => read(one_of(reader, test, one, other), reader, scratch),
        Rule::NoCase => Answer::Parse,
        Rule::Choice(choice) => read_choice(*choice, reader, scratch),
        Rule::Many(test, item) => read_many(test, item, reader, scratch),
        Rule::ManyBy(test, item, rest) => read_many_then(test, item, rest, reader, scratch),
        Rule::Group(rest) => read_group(OPENING, rest, reader, scratch),
        Rule::Noted(code, rest) => read_group(*code, rest, reader, scratch),
        Rule::Closes(rest) => read_before(Last::Closing, rest, reader, scratch),
        Rule::Marks(rest) => read_behind(First::Offset, rest, reader, scratch),
        Rule::Checked(rest) => read_behind(First::Depth, rest, reader, scratch),
        Rule::Row(name) => read_row(*name, reader, scratch),
        Rule::Use(part) => read(part_rule(*part), reader, scratch),
        Rule::Skipping(rest) => read_before(Last::Skipping, rest, reader, scratch),
        Rule::List(test, item) => read_list(test, item, reader, scratch),
        Rule::Entry(row, rest) => read_entry(*row, rest, reader, scratch),
        Rule::Inline(space, rest) => read_made(Making::Inline(*space), rest, reader, scratch),
        Rule::InlineOf(space, row, rest) => read_made_of(
            Making::Inline(*space),
            *row,
            rest,
            reader,
            scratch,
        ),
        Rule::Bundle(space, row, rest) => read_made_of(
            Making::Bundle(*space),
            *row,
            rest,
            reader,
            scratch,
        ),
        Rule::Node(rest) => read_made(Making::Node, rest, reader, scratch),
        Rule::NodeOf(row, rest) => read_made_of(Making::Node, *row, rest, reader, scratch),
        Rule::Part(rest) => read_part(rest, reader, scratch),
        Rule::Def(rest) => read_def(rest, reader, scratch),
        Rule::DefOf(row, rest) => read_def_of(*row, rest, reader, scratch),
        Rule::Scope(kind, rest) => read_scope(*kind, rest, reader, scratch),
        Rule::Wraps(kind, rest) => read_wraps(*kind, rest, reader, scratch),
    }
}

/// Reads by a rule, and what comes last.
#[cycle(reading)]
fn read_before<'a>(
    last: Last,
    rest: &'static Rule<'static>,
    reader: &mut Reader<'a>,
    scratch: &mut Scratch<'_, 'a>,
) -> Answer
    requires fit { Fit (before_last last (rule_of rest.now)) }
    ensures { Reads (before_last last (rule_of rest.now)) (as_result result) reader.old reader.new scratch.old scratch.new }
{
    match read(rest, reader, scratch) {
        Answer::Done => read_last(last, reader, scratch),
        stop => stop,
    }
}

/// Reads by a rule, and adds the row of the node.
#[cycle(reading)]
fn read_of<'a>(
    row: Row,
    rest: &'static Rule<'static>,
    reader: &mut Reader<'a>,
    scratch: &mut Scratch<'_, 'a>,
) -> Answer
    requires fit { Fit (of_row row (rule_of rest.now)) }
    ensures { Reads (of_row row (rule_of rest.now)) (as_result result) reader.old reader.new scratch.old scratch.new }
{
    match read(rest, reader, scratch) {
        Answer::Done => made(scratch.row(row)),
        stop => stop,
    }
}

/// Reads a word, and by the rule behind it.
#[cycle(reading)]
fn read_word<'a>(
    code: u8,
    rest: &'static Rule<'static>,
    reader: &mut Reader<'a>,
    scratch: &mut Scratch<'_, 'a>,
) -> Answer
    requires fit { Fit (a_word code (rule_of rest.now)) }
    ensures { Reads (a_word code (rule_of rest.now)) (as_result result) reader.old reader.new scratch.old scratch.new }
{
    match reader.take(code) {
        Ok(()) => read(rest, reader, scratch),
        Err(fault) => stopped(fault),
    }
}

/// Reads what comes first, and by the rule behind it. It stands where it is called, so that what comes first is chosen once.
#[inline(always)]
#[cycle(reading)]
fn read_behind<'a>(
    first: First,
    rest: &'static Rule<'static>,
    reader: &mut Reader<'a>,
    scratch: &mut Scratch<'_, 'a>,
) -> Answer
    requires fit { Fit (behind_first first (rule_of rest.now)) }
    ensures { Reads (behind_first first (rule_of rest.now)) (as_result result) reader.old reader.new scratch.old scratch.new }
{
    match read_first(first, reader, scratch) {
        Ok(()) => read(rest, reader, scratch),
        Err(fault) => stopped(fault),
    }
}

/// Reads by one rule behind another.
#[cycle(reading)]
fn read_then<'a>(
    one: &'static Rule<'static>,
    rest: &'static Rule<'static>,
    reader: &mut Reader<'a>,
    scratch: &mut Scratch<'_, 'a>,
) -> Answer
    requires fit { Fit (pair (rule_of one.now) (rule_of rest.now)) }
    ensures { Reads (pair (rule_of one.now) (rule_of rest.now)) (as_result result) reader.old reader.new scratch.old scratch.new }
{
    match read(one, reader, scratch) {
        Answer::Done => read(rest, reader, scratch),
        stop => stop,
    }
}

/// Reads by one of many rules, by its word.
#[cycle(reading)]
fn read_choice<'a>(choice: Choice, reader: &mut Reader<'a>, scratch: &mut Scratch<'_, 'a>) -> Answer
    requires fit { Fit (choice_of choice) }
    ensures { Reads (choice_of choice) (as_result result) reader.old reader.new scratch.old scratch.new }
{
    match chosen(choice, reader.code(), reader.ahead()) {
        Some(one) => read(one, reader, scratch),
        None => Answer::Parse,
    }
}

/// Reads by a rule while a test holds, be it one of several tokens.
#[cycle(reading)]
fn read_many<'a>(
    test: &'static Test<'static>,
    item: &'static Rule<'static>,
    reader: &mut Reader<'a>,
    scratch: &mut Scratch<'_, 'a>,
) -> Answer
    requires fit { Fit (many (test_of test.now) (rule_of item.now)) }
    ensures items { Reads (many (test_of test.now) (rule_of item.now)) (as_result result) reader.old reader.new scratch.old scratch.new }
    ensures by_test { Reads (many_by (test_of test.now) (rule_of item.now)) (as_result result) reader.old reader.new scratch.old scratch.new }
{
    'items: while reader.holds(test) {
        match read(item, reader, scratch) {
            Answer::Done => {}
            stop => return stop,
        }
    }
    Answer::Done
}

/// Reads a list, and by the rule behind it.
#[cycle(reading)]
fn read_many_then<'a>(
    test: &'static Test<'static>,
    item: &'static Rule<'static>,
    rest: &'static Rule<'static>,
    reader: &mut Reader<'a>,
    scratch: &mut Scratch<'_, 'a>,
) -> Answer
    requires fit { Fit (pair (many_by (test_of test.now) (rule_of item.now)) (rule_of rest.now)) }
    ensures { Reads (pair (many_by (test_of test.now) (rule_of item.now)) (rule_of rest.now)) (as_result result) reader.old reader.new scratch.old scratch.new }
{
    match read_many(test, item, reader, scratch) {
        Answer::Done => read(rest, reader, scratch),
        stop => stop,
    }
}

/// Reads by a rule in the group that a token opens: a parenthesis, or an annotation.
#[cycle(reading)]
fn read_group<'a>(
    code: u8,
    rest: &'static Rule<'static>,
    reader: &mut Reader<'a>,
    scratch: &mut Scratch<'_, 'a>,
) -> Answer
    requires fit { Fit (a_note code (rule_of rest.now)) }
    ensures { Reads (a_note code (rule_of rest.now)) (as_result result) reader.old reader.new scratch.old scratch.new }
{
    match reader.take(code) {
        Ok(()) => match read(rest, reader, scratch) {
            Answer::Done => answered(reader.take(CLOSING)),
            stop => stop,
        },
        Err(fault) => stopped(fault),
    }
}

/// Reads a row; a type of one word at once, and so its definition without names as a field of a component.
#[cycle(reading)]
fn read_row<'a>(name: RowName, reader: &mut Reader<'a>, scratch: &mut Scratch<'_, 'a>) -> Answer
    requires fit { Fit (row (row_of name)) }
    ensures { Reads (row (row_of name)) (as_result result) reader.old reader.new scratch.old scratch.new }
{
    let is_word = is_prim(reader);
    match name {
        RowName::Val if is_word => answered(read_told(reader, scratch, Told::Primitive)),
        RowName::TypeDefinition if is_word => answered(read_primitive(reader, scratch)),
        RowName::ComponentItem => match plain_type(reader) {
            Some(plain) => made(read_plain(plain, reader, scratch)),
            None => read(row_rule(name), reader, scratch),
        },
        _ => read(row_rule(name), reader, scratch),
    }
}

/// Reads entries while a test holds, as a leaf.
#[cycle(reading)]
fn read_list<'a>(
    test: &'static Test<'static>,
    item: &'static Rule<'static>,
    reader: &mut Reader<'a>,
    scratch: &mut Scratch<'_, 'a>,
) -> Answer
    requires fit { Fit (wraps a_list (many (test_of test.now) (rule_of item.now))) }
    ensures { Reads (wraps a_list (many (test_of test.now) (rule_of item.now))) (as_result result) reader.old reader.new scratch.old scratch.new }
{
    let nodes = scratch.nodes.as_slice().len();
    match read_many(test, item, reader, scratch) {
        Answer::Done => made(wrap_list(scratch, nodes)),
        stop => stop,
    }
}

/// Reads a node of a row, as an entry of a list.
#[cycle(reading)]
fn read_entry<'a>(
    row: Row,
    rest: &'static Rule<'static>,
    reader: &mut Reader<'a>,
    scratch: &mut Scratch<'_, 'a>,
) -> Answer
    requires fit { Fit (entry row (rule_of rest.now)) }
    ensures { Reads (entry row (rule_of rest.now)) (as_result result) reader.old reader.new scratch.old scratch.new }
{
    let span = reader.word();
    let rows = scratch.rows.as_slice().len();
    let leaves = scratch.leaves.as_slice().len();
    match read_of(row, rest, reader, scratch) {
        Answer::Done => made(wrap_entry(scratch, span, rows, leaves)),
        stop => stop,
    }
}

/// Reads a node, as a leaf of a kind.
#[cycle(reading)]
fn read_made<'a>(
    making: Making,
    rest: &'static Rule<'static>,
    reader: &mut Reader<'a>,
    scratch: &mut Scratch<'_, 'a>,
) -> Answer
    requires fit { Fit (wraps (wraps_of making) (rule_of rest.now)) }
    ensures { Reads (wraps (wraps_of making) (rule_of rest.now)) (as_result result) reader.old reader.new scratch.old scratch.new }
{
    let span = reader.word();
    let rows = scratch.rows.as_slice().len();
    let leaves = scratch.leaves.as_slice().len();
    match read(rest, reader, scratch) {
        Answer::Done => made(wrap_made(scratch, making, span, rows, leaves)),
        stop => stop,
    }
}

/// Reads a node of a row, as a leaf of a kind.
#[cycle(reading)]
fn read_made_of<'a>(
    making: Making,
    row: Row,
    rest: &'static Rule<'static>,
    reader: &mut Reader<'a>,
    scratch: &mut Scratch<'_, 'a>,
) -> Answer
    requires fit { Fit (wraps (wraps_of making) (of_row row (rule_of rest.now))) }
    ensures { Reads (wraps (wraps_of making) (of_row row (rule_of rest.now))) (as_result result) reader.old reader.new scratch.old scratch.new }
{
    let span = reader.word();
    let rows = scratch.rows.as_slice().len();
    let leaves = scratch.leaves.as_slice().len();
    match read_of(row, rest, reader, scratch) {
        Answer::Done => made(wrap_made(scratch, making, span, rows, leaves)),
        stop => stop,
    }
}

/// Reads an optional part.
#[cycle(reading)]
fn read_part<'a>(
    rest: &'static Rule<'static>,
    reader: &mut Reader<'a>,
    scratch: &mut Scratch<'_, 'a>,
) -> Answer
    requires fit { Fit (wraps a_part (rule_of rest.now)) }
    ensures { Reads (wraps a_part (rule_of rest.now)) (as_result result) reader.old reader.new scratch.old scratch.new }
{
    let leaves = scratch.leaves.as_slice().len();
    match read(rest, reader, scratch) {
        Answer::Done => made(wrap_part(scratch, leaves)),
        stop => stop,
    }
}

/// Reads a definition.
#[cycle(reading)]
fn read_def<'a>(
    rest: &'static Rule<'static>,
    reader: &mut Reader<'a>,
    scratch: &mut Scratch<'_, 'a>,
) -> Answer
    requires fit { Fit (wraps a_def (rule_of rest.now)) }
    ensures { Reads (wraps a_def (rule_of rest.now)) (as_result result) reader.old reader.new scratch.old scratch.new }
{
    let ends = DefEnds::of(scratch);
    match read(rest, reader, scratch) {
        Answer::Done => made(wrap_def(scratch, ends)),
        stop => stop,
    }
}

/// Reads a definition of a row.
#[cycle(reading)]
fn read_def_of<'a>(
    row: Row,
    rest: &'static Rule<'static>,
    reader: &mut Reader<'a>,
    scratch: &mut Scratch<'_, 'a>,
) -> Answer
    requires fit { Fit (wraps a_def (of_row row (rule_of rest.now))) }
    ensures { Reads (wraps a_def (of_row row (rule_of rest.now))) (as_result result) reader.old reader.new scratch.old scratch.new }
{
    let ends = DefEnds::of(scratch);
    match read_of(row, rest, reader, scratch) {
        Answer::Done => made(wrap_def(scratch, ends)),
        stop => stop,
    }
}

/// Reads the definitions of a scope.
#[cycle(reading)]
fn read_scope<'a>(
    kind: ScopeKind,
    rest: &'static Rule<'static>,
    reader: &mut Reader<'a>,
    scratch: &mut Scratch<'_, 'a>,
) -> Answer
    requires fit { Fit (wraps (a_scope kind) (rule_of rest.now)) }
    ensures { Reads (wraps (a_scope kind) (rule_of rest.now)) (as_result result) reader.old reader.new scratch.old scratch.new }
{
    let defs = scratch.defs.as_slice().len();
    match read(rest, reader, scratch) {
        Answer::Done => made(wrap_scope(scratch, kind, defs)),
        stop => stop,
    }
}

/// Reads by a rule, of which something else is made.
#[cycle(reading)]
fn read_wraps<'a>(
    kind: Wrap,
    rest: &'static Rule<'static>,
    reader: &mut Reader<'a>,
    scratch: &mut Scratch<'_, 'a>,
) -> Answer
    requires fit { Fit (wraps (wrap_of kind) (rule_of rest.now)) }
    ensures { Reads (wraps (wrap_of kind) (rule_of rest.now)) (as_result result) reader.old reader.new scratch.old scratch.new }
{
    let span = reader.word();
    let ends = Ends::of(scratch);
    match read(rest, reader, scratch) {
        Answer::Done => made(wrap(scratch, kind, span, ends)),
        stop => stop,
    }
}
