//! Tokens that are told by a table or by more than their class.

ghost use Rattle.std.specs.Prelude.{◌≡◌};
ghost use Rattle.token_codes.specs.Numbers.{between};
ghost use Rattle.wast_grammar.specs.Grammar.{holds};
ghost use Rattle.wast_grammar.specs.ValueRows.{is_prim};
ghost use Rattle.comp_model.specs.declared.row.Row.TheVariants as rows;
ghost use Rattle.text_rules.specs.Forms.{of_row};
ghost use Rattle.text_rules.specs.Rule.{told, silent};
ghost use Rattle.text_rules.specs.ValueRules.{prim};
ghost use Rattle.text_table.specs.Code.{words_told, numbers_told, silent_of};
ghost use Rattle.tree_read.specs.Comes.{Reads};
ghost use Rattle.tree_build.specs.declared.scratch.Scratch.{Scratch};

use crate::fault::{Fault, stored};
use crate::reader::Reader;
use comp_model::Row;
use comp_tree::Leaf;
use text_table::rule::{Silent, Told};
use text_table::{is_silent, number_told};
use token_codes::numbers::{BOOL, ERROR_CONTEXT, OTHER};
use tree_build::Scratch;

/// Whether a number is that of the word of a primitive type.
#[inline]
fn is_prim_number(code: u8) -> bool
    ensures { result ≡ between 11 code 26 }
{
    BOOL <= code && code <= ERROR_CONTEXT && code < OTHER
}

/// Whether the word of a primitive type is next.
#[inline]
pub(crate) fn is_prim(reader: &Reader<'_>) -> bool
    ensures { result ≡ holds is_prim reader.now }
{
    is_prim_number(reader.code())
}

/// Reads the word of a table, as its number.
pub(crate) fn read_told<'a>(
    reader: &mut Reader<'a>,
    scratch: &mut Scratch<'_, 'a>,
    table: Told,
) -> Result<(), Fault>
    ensures { Reads (told (words_told table) (numbers_told table)) result reader.old reader.new scratch.old scratch.new }
{
    match number_told(table, reader.code()) {
        Some(number) => {
            reader.pass();
            stored(scratch.leaf(Leaf::Number(number)))
        }
        None => Err(Fault::Parse),
    }
}

/// Reads a primitive type as the definition of a type.
pub(crate) fn read_primitive<'a>(
    reader: &mut Reader<'a>,
    scratch: &mut Scratch<'_, 'a>,
) -> Result<(), Fault>
    ensures { Reads (of_row rows.Primitive prim) result reader.old reader.new scratch.old scratch.new }
{
    match read_told(reader, scratch, Told::Primitive) {
        Ok(()) => stored(scratch.row(Row::Primitive)),
        Err(fault) => Err(fault),
    }
}

/// Reads a token that isn't kept.
pub(crate) fn read_silent(reader: &mut Reader<'_>, kind: Silent) -> Result<(), Fault>
    ensures { (p : Scratch) → Reads (silent (silent_of kind)) result reader.old reader.new p p }
{
    if is_silent(kind, reader.parser(), reader.code()) {
        reader.pass();
        Ok(())
    } else {
        Err(Fault::Parse)
    }
}
