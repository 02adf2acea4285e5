//! Parts of which nothing stands behind.

ghost use Rattle.text_rules.specs.Rule.{outside as outside_rule};
ghost use Rattle.text_table.specs.Code.{step_of, outside_of};
ghost use Rattle.tree_read.specs.Comes.{Reads};

use crate::fault::Fault;
use crate::fields::read_core_fields;
use crate::names::{read_extern_name, read_plain_name};
use crate::reader::Reader;
use crate::steps::{keep, reference};
use crate::told::{read_silent, read_told};
use text_table::rule::{Outside, Step};
use tree_build::Scratch;

/// Takes a part with a row of its own.
pub(crate) fn outside<'a>(
    part: Outside,
    reader: &mut Reader<'a>,
    scratch: &mut Scratch<'_, 'a>,
) -> Result<(), Fault>
    ensures { Reads (outside_rule (outside_of part)) result reader.old reader.new scratch.old scratch.new }
{
    match part {
        Outside::ExternName => read_extern_name(reader, scratch),
        Outside::PlainName => read_plain_name(reader, scratch),
        Outside::CoreFields => read_core_fields(reader, scratch, false),
        Outside::SomeCoreFields => read_core_fields(reader, scratch, true),
    }
}

/// Takes one part.
pub(crate) fn step<'a>(
    step: Step,
    reader: &mut Reader<'a>,
    scratch: &mut Scratch<'_, 'a>,
) -> Result<(), Fault>
    ensures { Reads (step_of step) result reader.old reader.new scratch.old scratch.new }
{
    match step {
        Step::Keep(kept) => keep(kept, reader, scratch),
        Step::Reference(space, reach) => reference(space, reach, reader, scratch),
        Step::Told(table) => read_told(reader, scratch, table),
        Step::Silent(kind) => read_silent(reader, kind),
        Step::Outside(part) => outside(part, reader, scratch),
    }
}
