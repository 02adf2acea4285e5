//! Definitions of types of one word without names, which are read at once.

ghost use Rattle.std.specs.Prelude.{◌≡◌, ◌<◌, ◌≤◌, ◌∷◌, [], List, map, take, drop, length, IfOk, IfSome};
ghost use Rattle.comp_model.specs.CoreModules.{CoreModule};
ghost use Rattle.comp_tree.specs.Model.{leaf_of};
ghost use Rattle.comp_model.specs.Model as m;
ghost use Rattle.text_rules.specs.Rule.{row};
ghost use Rattle.text_table.specs.Code.{row_of};
ghost use Rattle.text_table.specs.declared.rule.RowName.TheVariants as rows;
ghost use Rattle.wast_parser.specs.View.{stand_of};
ghost use Rattle.tree_build.specs.Adds.{Adds};
ghost use Rattle.tree_read.specs.Comes.{Reads, as_fault};
ghost use Rattle.tree_read.specs.Plain.{numbers_down, plain_made, IsClosed, IsWord, IsPlain};

use crate::reader::Reader;
use bumpalo::Bump;
use comp_model::Row;
use comp_tree::{Leaf, no_names, place_all};
use std::alloc::AllocError;
use text_table::number_told;
use text_table::rule::Told;
use token_codes::number_at;
use token_codes::numbers::{OPENING, TYPE};
use tree_build::{Scratch, def_from};
use wast_parser::Cursor;

/// The bytes of primitive types as leaves, from the first on, downward.
static BYTES: [Leaf<'static, 'static>; 13] = [
    Leaf::Number(0x7f),
    Leaf::Number(0x7e),
    Leaf::Number(0x7d),
    Leaf::Number(0x7c),
    Leaf::Number(0x7b),
    Leaf::Number(0x7a),
    Leaf::Number(0x79),
    Leaf::Number(0x78),
    Leaf::Number(0x77),
    Leaf::Number(0x76),
    Leaf::Number(0x75),
    Leaf::Number(0x74),
    Leaf::Number(0x73),
];

/// These leaves.
fn bytes() -> &'static [Leaf<'static, 'static>]
    ensures long { length result.now ≡ 13 }
    ensures numbers { (cs : List CoreModule) → map (leaf_of cs) result.now ≡ numbers_down 13 127 }
{
    &BYTES
}

/// The one leaf at a place.
#[inline]
fn leaf_at(
    leaves: &'static [Leaf<'static, 'static>],
    place: usize,
) -> &'static [Leaf<'static, 'static>]
    requires { place < length leaves.now }
    ensures { result.now ≡ take 1 (drop place leaves.now) }
{
    &leaves[place..place + 1]
}

/// The byte of a primitive type as the one leaf of a node, which all nodes of that type share.
fn shared_leaf(number: u32) -> &'static [Leaf<'static, 'static>]
    requires first { 115 ≤ number }
    requires last { number ≤ 127 }
    ensures { (cs : List CoreModule) → map (leaf_of cs) result.now ≡ m.number number ∷ [] }
{
    leaf_at(bytes(), (127 - number) as usize)
}

/// A leaf as the one of a node, in the arena.
fn placed_leaf<'t, 'a>(bump: &'t Bump, leaf: Leaf<'t, 'a>) -> Result<&'t [Leaf<'t, 'a>], AllocError>
    ensures { (cs : List CoreModule) → IfOk result (λ n. map (leaf_of cs) n.now ≡ leaf_of cs leaf.entry ∷ []) }
{
    place_all(bump, &[leaf])
}

/// The byte of a primitive type as the one leaf of a node.
#[inline]
fn number_leaf<'t, 'a>(
    scratch: &Scratch<'t, 'a>,
    number: u32,
) -> Result<&'t [Leaf<'t, 'a>], AllocError>
    ensures { (cs : List CoreModule) → IfOk result (λ n. map (leaf_of cs) n.now ≡ m.number number ∷ []) }
{
    if 115 <= number && number <= 127 {
        Ok(shared_leaf(number))
    } else {
        placed_leaf(scratch.bump, Leaf::Number(number))
    }
}

/// The number of a type of one word, and the place behind its definition.
#[derive(Clone, Copy)]
pub(crate) struct Plain<'a> {
    pub(crate) number: u32,
    pub(crate) behind: Cursor<'a>,
}

/// The type of a word, if a `)` is next at a place.
#[inline]
fn closed<'a>(number: u32, place: Cursor<'a>) -> Option<Plain<'a>>
    ensures { IfSome result (λ p. IsClosed number p (stand_of place.entry)) }
{
    match place.rparen() {
        Some(behind) => Some(Plain { number, behind }),
        None => None,
    }
}

/// The type of one word that is next at a place, with a `)` behind it.
#[inline]
fn word_at<'a>(place: Cursor<'a>) -> Option<Plain<'a>>
    ensures { IfSome result (λ p. IsWord p (stand_of place.entry)) }
{
    match number_told(Told::Primitive, number_at(place)) {
        Some(number) => closed(number, place.behind()),
        None => None,
    }
}

/// The type of one word that is next as a definition without names.
#[inline]
pub(crate) fn plain_type<'a>(reader: &Reader<'a>) -> Option<Plain<'a>>
    ensures { IfSome result (λ p. IsPlain p reader.now) }
{
    if reader.is_next(OPENING) && reader.is_behind(TYPE) {
        word_at(reader.parser().cursor().behind().behind())
    } else {
        None
    }
}

/// One more definition of a type of one word, without names.
#[inline]
fn push_plain(scratch: &mut Scratch<'_, '_>, offset: u32, number: u32) -> Result<(), AllocError>
    ensures { Adds result scratch.old scratch.new (λ fs cs. plain_made offset number) }
{
    match number_leaf(scratch, number) {
        Ok(leaves) => {
            let def = def_from(offset, no_names(), Row::Primitive, leaves);
            match scratch.defs.push(def) {
                Ok(()) => Ok(()),
                Err(_) => Err(AllocError),
            }
        }
        Err(AllocError) => Err(AllocError),
    }
}

/// Reads a type of one word as a definition without names.
#[inline]
pub(crate) fn read_plain<'a>(
    plain: Plain<'a>,
    reader: &mut Reader<'a>,
    scratch: &mut Scratch<'_, 'a>,
) -> Result<(), AllocError>
    requires { IsPlain plain reader.old }
    ensures { Reads (row (row_of rows.ComponentItem)) (as_fault result) reader.old reader.new scratch.old scratch.new }
{
    let offset = reader.go(plain.behind);
    push_plain(scratch, offset, plain.number)
}
