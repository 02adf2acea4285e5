//! One token, and what it leaves.

ghost use Rattle.std.specs.Prelude.{◌≡◌, ◌<◌, true};
ghost use Rattle.comp_model.specs.Model as m;
ghost use Rattle.wast_grammar.specs.Stand.{offset_of};
ghost use Rattle.text_rules.specs.Rule.{keeps, reference as reference_rule, a_text, a_string, a_count, an_id, a_case, a_label, an_export, a_row};
ghost use Rattle.text_rules.specs.Makes.{a_leaf, adds, a_place_made};
ghost use Rattle.text_table.specs.Code.{keep_of, reach_of};
ghost use Rattle.comp_tree.specs.Model.{reach_of as tree_reach};
ghost use Rattle.tree_build.specs.Adds.{Adds};
ghost use Rattle.tree_read.specs.Comes.{Reads, Stored, lone_placed};

use crate::fault::{Fault, stored};
use crate::reader::Reader;
use comp_model::{Row, Space};
use comp_tree::{Leaf, outward, own, place_all};
use std::alloc::AllocError;
use text_table::rule::{Keep, Reach};
use tree_build::Scratch;

/// Takes a text.
pub(crate) fn keep_text<'a>(
    reader: &mut Reader<'a>,
    scratch: &mut Scratch<'_, 'a>,
) -> Result<(), Fault>
    ensures { Reads (keeps a_text) result reader.old reader.new scratch.old scratch.new }
{
    match reader.text() {
        Ok(text) => stored(scratch.leaf(Leaf::Text(text))),
        Err(fault) => Err(fault),
    }
}

/// A string that isn't UTF-8, as a leaf.
fn bytes_leaf<'a>(scratch: &mut Scratch<'_, 'a>, bytes: &'a [u8]) -> Result<(), AllocError>
    ensures { Adds result scratch.old scratch.new (λ fs cs. a_leaf (m.text bytes.entry.now)) }
{
    match place_all(scratch.bump, &[bytes]) {
        Ok(pieces) => scratch.leaf(Leaf::Pieces(pieces)),
        Err(AllocError) => Err(AllocError),
    }
}

/// Takes a string that isn't UTF-8.
fn keep_bytes<'a>(reader: &mut Reader<'a>, scratch: &mut Scratch<'_, 'a>) -> Result<(), Fault>
    ensures { Reads (keeps a_string) result reader.old reader.new scratch.old scratch.new }
{
    match reader.bytes() {
        Ok(bytes) => stored(bytes_leaf(scratch, bytes)),
        Err(fault) => Err(fault),
    }
}

/// Takes a number.
fn keep_count<'a>(reader: &mut Reader<'a>, scratch: &mut Scratch<'_, 'a>) -> Result<(), Fault>
    ensures { Reads (keeps a_count) result reader.old reader.new scratch.old scratch.new }
{
    match reader.count() {
        Ok(count) => stored(scratch.leaf(Leaf::Number(count))),
        Err(fault) => Err(fault),
    }
}

/// Takes the id of a definition.
pub(crate) fn keep_id<'a>(
    reader: &mut Reader<'a>,
    scratch: &mut Scratch<'_, 'a>,
) -> Result<(), Fault>
    ensures { Reads (keeps an_id) result reader.old reader.new scratch.old scratch.new }
{
    match reader.id() {
        Ok(id) => stored(scratch.id(Some(id))),
        Err(fault) => Err(fault),
    }
}

/// Takes the id of a case.
fn keep_case<'a>(reader: &mut Reader<'a>, scratch: &mut Scratch<'_, 'a>) -> Result<(), Fault>
    ensures { Reads (keeps a_case) result reader.old reader.new scratch.old scratch.new }
{
    match reader.id() {
        Ok(id) => stored(scratch.case_id(id)),
        Err(fault) => Err(fault),
    }
}

/// Takes the label of a definition.
pub(crate) fn keep_label<'a>(
    reader: &mut Reader<'a>,
    scratch: &mut Scratch<'_, 'a>,
) -> Result<(), Fault>
    ensures { Reads (keeps a_label) result reader.old reader.new scratch.old scratch.new }
{
    match reader.text() {
        Ok(text) => stored(scratch.label(Some(text))),
        Err(fault) => Err(fault),
    }
}

/// Takes the name of an inline export.
fn keep_export<'a>(reader: &mut Reader<'a>, scratch: &mut Scratch<'_, 'a>) -> Result<(), Fault>
    ensures { Reads (keeps an_export) result reader.old reader.new scratch.old scratch.new }
{
    match reader.text() {
        Ok(text) => stored(scratch.export(text)),
        Err(fault) => Err(fault),
    }
}

/// Takes a token that is kept.
pub(crate) fn keep<'a>(
    keep: Keep,
    reader: &mut Reader<'a>,
    scratch: &mut Scratch<'_, 'a>,
) -> Result<(), Fault>
    ensures { Reads (keeps (keep_of keep)) result reader.old reader.new scratch.old scratch.new }
{
    match keep {
        Keep::Text => keep_text(reader, scratch),
        Keep::Bytes => keep_bytes(reader, scratch),
        Keep::Count => keep_count(reader, scratch),
        Keep::Id => keep_id(reader, scratch),
        Keep::CaseId => keep_case(reader, scratch),
        Keep::Label => keep_label(reader, scratch),
        Keep::Export => keep_export(reader, scratch),
    }
}

/// How far a name is looked for, as the tree has it.
fn tree_reach(reach: Reach) -> &'static comp_tree::Reach<'static, 'static>
    ensures { tree_reach result.now ≡ reach_of reach }
{
    match reach {
        Reach::Outward => outward(),
        Reach::Own => own(),
    }
}

/// Takes an index.
pub(crate) fn reference<'a>(
    space: Space,
    reach: Reach,
    reader: &mut Reader<'a>,
    scratch: &mut Scratch<'_, 'a>,
) -> Result<(), Fault>
    ensures { Reads (reference_rule space (reach_of reach)) result reader.old reader.new scratch.old scratch.new }
{
    match reader.index() {
        Ok(index) => stored(scratch.reference(space, tree_reach(reach), index)),
        Err(fault) => Err(fault),
    }
}

/// Keeps an offset as that of a definition.
#[inline]
pub(crate) fn keep_place(offset: u32, scratch: &mut Scratch<'_, '_>) -> Result<(), Fault>
    ensures { Stored result scratch.old scratch.new (λ fs cs. a_place_made true offset) }
{
    stored(scratch.place(offset))
}

/// Keeps the row of a node.
#[inline]
pub(crate) fn keep_row(row: Row, scratch: &mut Scratch<'_, '_>) -> Result<(), Fault>
    ensures { Stored result scratch.old scratch.new (λ fs cs. adds (a_row row)) }
{
    stored(scratch.row(row))
}

/// Takes a token of the class of a number, with its offset where the flag is set.
pub(crate) fn placed<'a>(
    first: bool,
    code: u8,
    reader: &mut Reader<'a>,
    scratch: &mut Scratch<'_, 'a>,
) -> Result<(), Fault>
    requires { 0 < code }
    ensures { Reads (lone_placed first code) result reader.old reader.new scratch.old scratch.new }
{
    let offset = reader.offset();
    match reader.take(code) {
        Ok(()) => {
            if first {
                keep_place(offset, scratch)
            } else {
                Ok(())
            }
        }
        Err(fault) => Err(fault),
    }
}
