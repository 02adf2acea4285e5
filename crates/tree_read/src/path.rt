//! References, with the names of exports behind them.

ghost use Rattle.std.specs.Prelude.{◌≡◌};
ghost use Rattle.wast_grammar.specs.Grammar.{holds, next};
ghost use Rattle.wast_grammar.specs.ValueRows.{strings};
ghost use Rattle.text_rules.specs.Rule.{keeps, a_text};
ghost use Rattle.text_table.specs.Code.{path_rule};
ghost use Rattle.comp_model.specs.Model as m;
ghost use Rattle.comp_tree.specs.Model.{path_of};
ghost use Rattle.text_rules.specs.Makes.{a_leaf};
ghost use Rattle.tree_build.specs.Adds.{Adds};
ghost use Rattle.tree_read.specs.Comes.{Reads};
ghost use Rattle.tree_read.specs.Paths.{ReadsTexts, a_text_if, texts, steps_rule};

use crate::fault::{Fault, stored};
use crate::reader::Reader;
use comp_model::Space;
use comp_tree::{Leaf, PathUse, outward, place};
use std::alloc::AllocError;
use text_table::rule::Steps;
use token_codes::numbers::{BYTES, TEXT};
use tree_build::{Scratch, take_all};
use wast_parser::Index;

/// Whether a string is next.
#[inline]
fn is_string(reader: &Reader<'_>) -> bool
    ensures { result ≡ holds (next strings) reader.now }
{
    reader.is_next(TEXT) || reader.is_next(BYTES)
}

/// Reads a text, and puts it behind others.
fn read_text<'a>(reader: &mut Reader<'a>, names: &mut Vec<&'a str>) -> Result<(), Fault>
    ensures { ReadsTexts (keeps a_text) result reader.old reader.new names.old.items names.new.items }
{
    match reader.text() {
        Ok(text) => match names.push(text) {
            Ok(()) => Ok(()),
            Err(_) => Err(Fault::NoMemory),
        },
        Err(fault) => Err(fault),
    }
}

/// Reads a text if a string is next.
fn read_text_if<'a>(reader: &mut Reader<'a>, names: &mut Vec<&'a str>) -> Result<(), Fault>
    ensures { ReadsTexts a_text_if result reader.old reader.new names.old.items names.new.items }
{
    if is_string(reader) {
        read_text(reader, names)
    } else {
        Ok(())
    }
}

/// Reads texts as long as strings are next.
fn read_texts<'a>(reader: &mut Reader<'a>, names: &mut Vec<&'a str>) -> Result<(), Fault>
    ensures { ReadsTexts texts result reader.old reader.new names.old.items names.new.items }
{
    'texts: while is_string(reader) {
        match read_text(reader, names) {
            Ok(()) => {}
            Err(fault) => return Err(fault),
        }
    }
    Ok(())
}

/// Reads the names of exports behind an index, and puts them behind others.
fn read_steps<'a>(
    reader: &mut Reader<'a>,
    names: &mut Vec<&'a str>,
    steps: Steps,
) -> Result<(), Fault>
    ensures { ReadsTexts (steps_rule steps) result reader.old reader.new names.old.items names.new.items }
{
    match steps {
        Steps::Many => read_texts(reader, names),
        Steps::One => read_text_if(reader, names),
        Steps::Legacy => {
            if reader.parser().legacy() {
                read_text_if(reader, names)
            } else {
                Ok(())
            }
        }
    }
}

/// Adds a reference by a path, which looks outward where no names stand behind its root.
fn add_path<'t, 'a>(
    scratch: &mut Scratch<'t, 'a>,
    space: Space,
    root: Index<'a>,
    names: &'t [&'a str],
) -> Result<(), AllocError>
    ensures { Adds result scratch.old scratch.new (λ fs cs. a_leaf (m.ref space (path_of root.entry names.entry.now))) }
{
    if names.len() == 0 {
        scratch.reference(space, outward(), root)
    } else {
        let path = PathUse {
            root,
            exports: names,
        };
        match place(scratch.bump, path) {
            Ok(path) => scratch.leaf(Leaf::Path(space, path)),
            Err(AllocError) => Err(AllocError),
        }
    }
}

/// Reads an index into a space, with the names of exports behind it.
pub(crate) fn read_path<'a>(
    reader: &mut Reader<'a>,
    scratch: &mut Scratch<'_, 'a>,
    space: Space,
    steps: Steps,
) -> Result<(), Fault>
    ensures { Reads (path_rule space steps) result reader.old reader.new scratch.old scratch.new }
{
    let index = reader.index()?;
    let end = scratch.exports.len();
    read_steps(reader, &mut scratch.exports, steps)?;
    match take_all(scratch.bump, &mut scratch.exports, end) {
        Ok(names) => stored(add_path(scratch, space, index, names)),
        Err(AllocError) => Err(Fault::NoMemory),
    }
}
