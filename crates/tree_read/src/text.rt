//! The reading of a whole text.

ghost use Rattle.wast_parser.specs.View.{text_of};
ghost use Rattle.std.specs.Prelude.{◌≡◌, ◌<◌, length};
ghost use Rattle.std.proofs.Common.{get_or};
ghost use Rattle.wast_grammar.specs.Read.{Outcome, FailsAs};
ghost use Rattle.tree_read.specs.Comes.{FailsBy};
ghost use Rattle.wast_grammar.specs.Stand.{Stand};
ghost use Rattle.tree_read.specs.Whole.{GivesText, ToTheEnd, refused_at};

use crate::fault::{Answer, Fault};
use crate::read::read;
use crate::reader::Reader;
use bumpalo::Bump;
use comp_tree::Def;
use std::alloc::Global;
use text_rules::laws::text_is_component;
use text_table::whole_text;
use token_codes::numbers::FINISH;
use tree_build::{Cores, Scratch};
use wast_parser::{Error, ErrorKind, ParseBuffer};

/// What a text spells: one definition, and the core modules that its tree names.
#[derive(Drop)]
pub struct TextTree<'t, 'a> {
    /// The definition of a component or of a core module.
    pub def: Def<'t, 'a>,
    /// The core modules.
    pub cores: Cores<'a>,
}

/// Reads by the rule of a text, behind which the text ends.
fn to_the_end<'a>(reader: &mut Reader<'a>, scratch: &mut Scratch<'_, 'a>) -> Result<(), Fault>
    ensures { ToTheEnd result reader.old reader.new scratch.old scratch.new }
{
    match read(whole_text(), reader, scratch) {
        Answer::Done => {
            if reader.is_next(FINISH) {
                Ok(())
            } else {
                Err(Fault::Parse)
            }
        }
        Answer::Parse => Err(Fault::Parse),
        Answer::TooDeep => Err(Fault::TooDeep),
        Answer::NoMemory => Err(Fault::NoMemory),
    }
}

/// The refusal of a reader's next token.
pub(crate) fn refusal(fault: Fault, reader: &Reader<'_>) -> Error
    ensures { (s : Stand) (o : Outcome) → FailsBy fault reader.now o → FailsAs result.kind result.offset (refused_at fault s reader.now) o }
{
    match fault {
        Fault::Parse => Error {
            kind: ErrorKind::Parse,
            offset: reader.offset(),
        },
        Fault::TooDeep => Error {
            kind: ErrorKind::TooDeep,
            offset: reader.offset(),
        },
        Fault::NoMemory => Error {
            kind: ErrorKind::NoMemory,
            offset: 0,
        },
    }
}

/// The first definition of all that was made, with the core modules.
fn first_def<'t, 'a>(scratch: Scratch<'t, 'a>) -> TextTree<'t, 'a>
    requires { 0 < length scratch.defs.items }
    ensures def { (d : Def) → result.def ≡ get_or scratch.entry.defs.items 0 d }
    ensures cores { result.cores ≡ scratch.entry.cores }
{
    TextTree {
        def: scratch.defs[0],
        cores: scratch.cores,
    }
}

/// Reads what all the tokens of a buffer spell: a component, or a core module (Component Model, Explainer.md, Component Definitions; WebAssembly
/// text format, Modules).
///
/// Refused are tokens that spell neither, by `Parse` at the token that doesn't fit, or at the length of the text where it ends too soon, and by
/// `TooDeep` at a checked item below more than 100 open parentheses; want of memory is `NoMemory` at offset 0.
pub fn read_text<'t, 'a>(
    alloc: Global,
    bump: &'t Bump,
    buffer: &'a ParseBuffer<'a>,
) -> Result<TextTree<'t, 'a>, Error>
    ensures gives { GivesText result (text_of buffer.now) }
{
    text_is_component();
    let mut reader = Reader::at_start(buffer);
    let mut scratch = Scratch::new(alloc, bump);
    match to_the_end(&mut reader, &mut scratch) {
        Ok(()) => Ok(first_def(scratch)),
        Err(fault) => Err(refusal(fault, &reader)),
    }
}
