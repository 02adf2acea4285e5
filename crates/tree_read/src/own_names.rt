//! The id and the label of a definition.

ghost use Rattle.text_rules.specs.Forms.{optional_id, optional_name, label};
ghost use Rattle.tree_read.specs.Comes.{Reads};

use crate::fault::Fault;
use crate::reader::Reader;
use crate::steps::{keep_id, keep_label};
use token_codes::numbers::{CLOSING, ID, NAME};
use tree_build::Scratch;

/// Takes the id of a definition, if it is written.
pub(crate) fn optional_id<'a>(
    reader: &mut Reader<'a>,
    scratch: &mut Scratch<'_, 'a>,
) -> Result<(), Fault>
    ensures { Reads optional_id result reader.old reader.new scratch.old scratch.new }
{
    if reader.is_next(ID) {
        keep_id(reader, scratch)
    } else {
        Ok(())
    }
}

/// Takes a label with its group.
fn label<'a>(reader: &mut Reader<'a>, scratch: &mut Scratch<'_, 'a>) -> Result<(), Fault>
    ensures { Reads label result reader.old reader.new scratch.old scratch.new }
{
    reader.take(NAME)?;
    keep_label(reader, scratch)?;
    reader.take(CLOSING)
}

/// Takes the label of a definition, if it is written.
pub(crate) fn optional_label<'a>(
    reader: &mut Reader<'a>,
    scratch: &mut Scratch<'_, 'a>,
) -> Result<(), Fault>
    ensures { Reads optional_name result reader.old reader.new scratch.old scratch.new }
{
    if reader.is_next(NAME) {
        label(reader, scratch)
    } else {
        Ok(())
    }
}
