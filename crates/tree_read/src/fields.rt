//! The fields of core modules (WebAssembly text format, "Modules").

ghost use Rattle.std.specs.Prelude.{◌≡◌, ◌<◌, ◌∷◌, ◌++◌, [], List, IfOk, OnOk, length, true};
ghost use Rattle.std.proofs.Common.{Vec, Global};
ghost use Rattle.core_model.specs.Words.{FieldsWord};
ghost use Rattle.core_syntax.specs.Fields.{fields_of};
ghost use Rattle.core_syntax.specs.declared.fields.ModuleField.{ModuleField};
ghost use Rattle.text_rules.specs.Rule.{outside, reads, core_fields};
ghost use Rattle.wast_grammar.specs.Classes.{among};
ghost use Rattle.wast_grammar.specs.CoreRows.{field_group, module_field, other_field_notes};
ghost use Rattle.wast_grammar.specs.Grammar.{right};
ghost use Rattle.wast_grammar.specs.Read.{read};
ghost use Rattle.wast_grammar.specs.Stand.{class_at};
ghost use Rattle.wast_parser.proofs.Many.{with_front};
ghost use Rattle.wast_parser.specs.View.{many_view, stand_of};
ghost use Rattle.tree_read.specs.Comes.{Gives, Reads};
ghost use Rattle.tree_read.specs.FieldParts.{EntersField, ReadsItem, ReadsList, closed, fields_row, grouped};

use crate::fault::{Fault, stored};
use crate::reader::Reader;
use comp_tree::Leaf;
use core_bounds::read_numerals;
use core_made::laws::made_of_text_is_meant;
use core_syntax::ModuleField;
use std::alloc::{AllocError, Global};
use token_codes::numbers::{CLOSING, OPENING};
use tree_build::Scratch;
use wast_parser::{Cursor, ParseView};

/// Whether an annotation that is a field is next.
fn is_noted(cursor: Cursor<'_>) -> bool
    ensures { result ≡ among other_field_notes (class_at (stand_of cursor.entry)) }
{
    match cursor.annotation() {
        Some((name, _)) => name == "custom" || name == "producers" || name == "dylink.0",
        None => false,
    }
}

/// Takes the parenthesis in front of a field, if no annotation opens its group.
fn enter_field(reader: &mut Reader<'_>) -> Result<(), Fault>
    ensures { EntersField result reader.old reader.new }
{
    if is_noted(reader.parser().cursor()) {
        return Ok(());
    }
    reader.take(OPENING)?;
    if is_noted(reader.parser().cursor()) {
        return Err(Fault::Parse);
    }
    Ok(())
}

/// Reads a value, and takes the `)` behind it.
fn parse_closed<'a, T: ParseView<'a>>(reader: &mut Reader<'a>, alloc: Global) -> Result<T, Fault>
    ensures { Gives (grouped T.view) result reader.new (closed right (read T.grammar reader.old)) }
{
    let value = reader.parse::<T>(alloc)?;
    reader.take(CLOSING)?;
    Ok(value)
}

/// Reads a field in its parentheses, or from the annotation on that opens its group itself.
fn field_group<'a, T: ParseView<'a>>(reader: &mut Reader<'a>, alloc: Global) -> Result<T, Fault>
    requires { T.grammar ≡ module_field true }
    ensures { Gives (grouped T.view) result reader.new (read field_group reader.old) }
{
    match enter_field(reader) {
        Ok(()) => parse_closed::<T>(reader, alloc),
        Err(fault) => Err(fault),
    }
}

/// One more item.
fn push_item<T: Drop>(items: &mut Vec<T>, item: T) -> Result<(), AllocError>
    ensures { OnOk result (items.new.items ≡ items.old.items ++ (item ∷ [])) }
{
    items.push(item)?;
    Ok(())
}

/// Reads a field, behind others.
fn one_field<'a, T: ParseView<'a>>(
    reader: &mut Reader<'a>,
    alloc: Global,
    fields: &mut Vec<T>,
) -> Result<(), Fault>
    requires { T.grammar ≡ module_field true }
    ensures { ReadsItem (grouped T.view) result (read field_group reader.old) reader.new fields.old.items fields.new.items }
{
    match field_group::<T>(reader, alloc) {
        Ok(field) => stored(push_item(fields, field)),
        Err(fault) => Err(fault),
    }
}

/// Reads fields up to the end of their group, behind others.
fn more_fields<'a, T: ParseView<'a>>(
    reader: &mut Reader<'a>,
    alloc: Global,
    fields: &mut Vec<T>,
) -> Result<(), Fault>
    requires { T.grammar ≡ module_field true }
    ensures { Gives (λ _. many_view (grouped T.view) fields.new.items) result reader.new (with_front (grouped T.view) fields.old.items (read (reads (outside core_fields)) reader.old)) }
{
    'fields: while !reader.parser().is_empty() {
        match one_field::<T>(reader, alloc, fields) {
            Ok(()) => {}
            Err(fault) => return Err(fault),
        }
    }
    Ok(())
}

/// Reads fields up to the end of their group or their text; at least one where that is asked.
fn all_fields<'a, T: ParseView<'a>>(
    reader: &mut Reader<'a>,
    alloc: Global,
    at_least_one: bool,
    fields: &mut Vec<T>,
) -> Result<(), Fault>
    requires grammar { T.grammar ≡ module_field true }
    requires none { fields.old.items ≡ [] }
    ensures { Gives (λ _. many_view (grouped T.view) fields.new.items) result reader.new (read (reads (outside (fields_row at_least_one))) reader.old) }
{
    if at_least_one {
        match one_field::<T>(reader, alloc, fields) {
            Ok(()) => more_fields::<T>(reader, alloc, fields),
            Err(fault) => Err(fault),
        }
    } else {
        more_fields::<T>(reader, alloc, fields)
    }
}

/// Puts a list behind others, and gives its number.
fn put_list<T: Drop>(lists: &mut Vec<Vec<T>>, list: Vec<T>) -> Result<usize, AllocError>
    ensures number { IfOk result (λ n. n ≡ length lists.old.items) }
    ensures lists { OnOk result (lists.new.items ≡ lists.old.items ++ (list ∷ [])) }
{
    let number = lists.as_slice().len();
    lists.push(list)?;
    Ok(number)
}

/// Reads fields up to the end of their group or their text as one more list, and gives its number.
fn read_fields<'a, T: ParseView<'a>>(
    reader: &mut Reader<'a>,
    alloc: Global,
    at_least_one: bool,
    lists: &mut Vec<Vec<T>>,
) -> Result<usize, Fault>
    requires { T.grammar ≡ module_field true }
    ensures { ReadsList (grouped T.view) result (read (reads (outside (fields_row at_least_one))) reader.old) reader.new lists.old.items lists.new.items }
{
    let mut fields = Vec::new(alloc);
    match all_fields::<T>(reader, alloc, at_least_one, &mut fields) {
        Ok(()) => match put_list(lists, fields) {
            Ok(number) => Ok(number),
            Err(AllocError) => Err(Fault::NoMemory),
        },
        Err(fault) => Err(fault),
    }
}

/// Goes over the numerals of the last list: each is within its bits.
fn read_last_numerals(lists: &[Vec<ModuleField<'_>>], number: usize)
    requires { number < length lists.now }
    ensures { (before : List (Vec ModuleField Global)) (last : Vec ModuleField Global) → lists.now ≡ before ++ (last ∷ []) → number ≡ length before → FieldsWord (fields_of last.items) }
{
    let last = &lists[number];
    read_numerals(last.as_slice());
}

/// Reads the fields of a core module, as a leaf: those in its group, or at least one of a text that is a core module without its group.
pub(crate) fn read_core_fields<'a>(
    reader: &mut Reader<'a>,
    scratch: &mut Scratch<'_, 'a>,
    at_least_one: bool,
) -> Result<(), Fault>
    ensures { Reads (outside (fields_row at_least_one)) result reader.old reader.new scratch.old scratch.new }
{
    made_of_text_is_meant();
    match read_fields::<ModuleField<'a>>(
        reader,
        scratch.alloc,
        at_least_one,
        &mut scratch.cores.fields,
    ) {
        Ok(number) => {
            read_last_numerals(scratch.cores.fields.as_slice(), number);
            stored(scratch.leaf(Leaf::Core(number)))
        }
        Err(fault) => Err(fault),
    }
}
