//! The names of imports and exports (Component Model text format, "Import and Export Definitions").

ghost use Rattle.std.specs.Prelude.{◌≡◌, ◌∷◌, ◌<◌, ◌&&◌, [], List, IfOk, not, is_some};
ghost use Rattle.comp_model.specs.CoreModules.{CoreModule, Field};
ghost use Rattle.comp_tree.specs.Model.{leaf_of};
ghost use Rattle.wast_grammar.specs.Classes.{Class, among, opening};
ghost use Rattle.wast_grammar.specs.Grammar.{holds, next2};
ghost use Rattle.wast_grammar.specs.NameRows.{plain_name, attributes};
ghost use Rattle.wast_grammar.specs.Read.{read};
ghost use Rattle.text_rules.specs.Makes.{a_leaf, attribute};
ghost use Rattle.text_rules.specs.Rule.{outside, an_extern_name, a_plain_name};
ghost use Rattle.token_codes.specs.Numbers.{number};
ghost use Rattle.text_table.specs.Code.{one_class};
ghost use Rattle.tree_build.specs.Adds.{Adds};
ghost use Rattle.tree_read.specs.Comes.{Gives, Reads};
ghost use Rattle.tree_build.specs.Held.{loose};
ghost use Rattle.tree_read.specs.NameParts.{said, attribute_view, attributes_view, text_group, attributed, name_made, none_said};

use crate::fault::{Fault, stored};
use crate::reader::Reader;
use bumpalo::Bump;
use comp_model::Row;
use comp_tree::{Leaf, Node, place, place_all};
use std::alloc::AllocError;
use token_codes::numbers::{
    CLOSING, EXTERNAL_ID, IMPLEMENTS, INTERFACE, OPENING, OTHER, VERSION_SUFFIX,
};
use tree_build::Scratch;
use wast_parser::Span;

/// What may be said of a name, each at most once.
#[derive(Clone, Copy)]
struct NameAttributes<'a> {
    implements: Option<&'a str>,
    version_suffix: Option<&'a str>,
    external_id: Option<&'a str>,
}

/// Reads a text in the group of the word with a number.
fn text_group<'a>(reader: &mut Reader<'a>, word: u8) -> Result<&'a str, Fault>
    requires { 0 < word }
    ensures { (c : Class) → one_class word ≡ c ∷ [] → Gives said result reader.new (read (text_group c) reader.old) }
{
    reader.take(OPENING)?;
    reader.take(word)?;
    let text = reader.text()?;
    reader.take(CLOSING)?;
    Ok(text)
}

/// Reads a name without attributes: a text, or that of an interface in its group.
fn plain_name<'a>(reader: &mut Reader<'a>) -> Result<&'a str, Fault>
    ensures { Gives said result reader.new (read plain_name reader.old) }
{
    if reader.is_next(OPENING) {
        text_group(reader, INTERFACE)
    } else {
        reader.text()
    }
}

/// Reads a name without attributes, as a leaf.
pub(crate) fn read_plain_name<'a>(
    reader: &mut Reader<'a>,
    scratch: &mut Scratch<'_, 'a>,
) -> Result<(), Fault>
    ensures { Reads (outside a_plain_name) result reader.old reader.new scratch.old scratch.new }
{
    match plain_name(reader) {
        Ok(name) => stored(scratch.leaf(Leaf::Text(name))),
        Err(fault) => Err(fault),
    }
}

/// Whether a class, by its number, is that of a word.
#[inline]
fn is_word(code: u8, word: u8) -> bool
    ensures { (c : Class) → code ≡ number c → result ≡ among (one_class word) c }
{
    code == word && word < OTHER
}

/// Whether the group of a word is next.
#[inline]
fn leads(reader: &Reader<'_>, word: u8) -> bool
    ensures { result ≡ holds (next2 opening (one_class word)) reader.now }
{
    reader.is_next(OPENING) && is_word(reader.ahead(), word)
}

/// Whether the attribute of a word is next, and wasn't found before.
#[inline]
fn begins(reader: &Reader<'_>, word: u8, found: Option<&str>) -> bool
    ensures { result ≡ (not (is_some found.entry) && holds (next2 opening (one_class word)) reader.now) }
{
    found.is_none() && leads(reader, word)
}

/// Reads attributes until none is next that wasn't found before.
fn attributes<'a>(reader: &mut Reader<'a>) -> Result<NameAttributes<'a>, Fault>
    ensures { Gives attributes_view result reader.new (read attributes reader.old) }
{
    let mut implements = None;
    let mut version_suffix = None;
    let mut external_id = None;
    'parts: loop {
        if begins(reader, IMPLEMENTS, implements) {
            implements = Some(text_group(reader, IMPLEMENTS)?);
        } else if begins(reader, VERSION_SUFFIX, version_suffix) {
            version_suffix = Some(text_group(reader, VERSION_SUFFIX)?);
        } else if begins(reader, EXTERNAL_ID, external_id) {
            external_id = Some(text_group(reader, EXTERNAL_ID)?);
        } else {
            return Ok(NameAttributes {
                implements,
                version_suffix,
                external_id,
            });
        }
    }
}

/// An attribute, or none, as a leaf.
fn attribute_leaf<'t, 'a>(bump: &'t Bump, text: Option<&'a str>) -> Result<Leaf<'t, 'a>, AllocError>
    ensures { (cs : List CoreModule) → IfOk result (λ l. leaf_of cs l ≡ attribute (attribute_view text.entry)) }
{
    match text {
        Some(text) => {
            let placed = place(bump, Leaf::Text(text))?;
            Ok(Leaf::Present(placed))
        }
        None => Ok(Leaf::Absent),
    }
}

/// A name and its attributes as a node, whose first word stands there.
fn name_node<'t, 'a>(
    bump: &'t Bump,
    span: Span,
    name: &'a str,
    attributes: NameAttributes<'a>,
) -> Result<Leaf<'t, 'a>, AllocError>
    ensures { (fs : List (List Field)) (cs : List CoreModule) → IfOk result (λ l. loose fs cs l ≡ attributed name.entry.now attributes.entry) }
{
    let leaves = [
        Leaf::Text(name),
        attribute_leaf(bump, attributes.implements)?,
        attribute_leaf(bump, attributes.version_suffix)?,
        attribute_leaf(bump, attributes.external_id)?,
    ];
    let node = Node {
        row: Row::AttributedName,
        span,
        leaves: place_all(bump, &leaves)?,
    };
    Ok(Leaf::Node(place(bump, node)?))
}

/// Whether a name has no attributes.
fn is_plain(attributes: NameAttributes<'_>) -> bool
    ensures { result ≡ none_said attributes.entry }
{
    attributes.implements.is_none()
        && attributes.version_suffix.is_none()
        && attributes.external_id.is_none()
}

/// A name as a leaf: a text, or a node of it and its attributes if it has any. Its first word stands there.
fn name_leaf<'t, 'a>(
    bump: &'t Bump,
    span: Span,
    name: &'a str,
    attributes: NameAttributes<'a>,
) -> Result<Leaf<'t, 'a>, AllocError>
    ensures { (fs : List (List Field)) (cs : List CoreModule) → IfOk result (λ l. loose fs cs l ≡ name_made name.entry attributes.entry) }
{
    if is_plain(attributes) {
        Ok(Leaf::Text(name))
    } else {
        name_node(bump, span, name, attributes)
    }
}

/// Adds a name, whose first word stands there.
fn add_name<'a>(
    scratch: &mut Scratch<'_, 'a>,
    span: Span,
    name: &'a str,
    attributes: NameAttributes<'a>,
) -> Result<(), AllocError>
    ensures { Adds result scratch.old scratch.new (λ fs cs. a_leaf (name_made name.entry attributes.entry)) }
{
    let leaf = name_leaf(scratch.bump, span, name, attributes)?;
    scratch.leaf(leaf)
}

/// Reads the name of an import or an export with its attributes, as a leaf.
pub(crate) fn read_extern_name<'a>(
    reader: &mut Reader<'a>,
    scratch: &mut Scratch<'_, 'a>,
) -> Result<(), Fault>
    ensures { Reads (outside an_extern_name) result reader.old reader.new scratch.old scratch.new }
{
    let span = reader.word();
    match plain_name(reader) {
        Ok(name) => match attributes(reader) {
            Ok(attributes) => stored(add_name(scratch, span, name, attributes)),
            Err(fault) => Err(fault),
        },
        Err(fault) => Err(fault),
    }
}
