//! What single leaves hold, by their shapes.

ghost use Rattle.std.specs.Prelude.{◌≡◌, ◌≤◌, IfOk, List, cond, length, option_map, true};
ghost use Rattle.std.specs.Str.{is_utf8};
ghost use Rattle.comp_model.specs.declared.Space.{Space as Kind};
ghost use Rattle.comp_model.specs.Core.{outward};
ghost use Rattle.comp_model.specs.CoreModules.{CoreModule};
ghost use Rattle.comp_model.specs.Model as m;
ghost use Rattle.comp_model.specs.Rows.{is_primitive_code, a_text, a_number, a_flag, a_primitive, a_case_id, an_index, a_ref};
ghost use Rattle.comp_tree.specs.Model.{leaf_of, index_of, id_of, joined};
ghost use Rattle.typed_nodes.specs.Fits.{FitLeaf};
ghost use Rattle.typed_nodes.specs.References.{lone_name, root_at, steps_at};

use bumpalo::Bump;
use comp_tree::{Leaf, place_all};
use std::alloc::{AllocError, Global};
use wast_parser::{Id, Index};

/// Pieces of a text as one, in the arena.
fn text_of_pieces<'a>(
    alloc: Global,
    bump: &'a Bump,
    pieces: &[&[u8]],
) -> Result<&'a str, AllocError>
    requires { is_utf8 (joined pieces.now) ≡ true }
    ensures { IfOk result (λ t. t.now ≡ joined pieces.now) }
{
    let mut bytes = Vec::new(alloc);
    'pieces: for piece in pieces {
        bytes.extend_from_slice(piece)?;
    }
    let placed = place_all(bump, bytes.as_slice())?;
    match str::from_utf8(placed) {
        Ok(text) => Ok(text),
        Err(_) => unreachable!(),
    }
}

/// The text of a leaf.
pub fn text_in<'a>(
    alloc: Global,
    bump: &'a Bump,
    leaf: &Leaf<'_, 'a>,
) -> Result<&'a str, AllocError>
    requires { (cores : List CoreModule) × FitLeaf a_text (leaf_of cores leaf.now) }
    ensures { (cores : List CoreModule) → FitLeaf a_text (leaf_of cores leaf.now) → IfOk result (λ t. m.text t.now ≡ leaf_of cores leaf.now) }
{
    match leaf {
        Leaf::Text(text) => Ok(text),
        Leaf::Pieces(pieces) => text_of_pieces(alloc, bump, pieces),
        _ => unreachable!(),
    }
}

/// The byte of a primitive type that a leaf is.
pub fn code_in(leaf: &Leaf<'_, '_>) -> u32
    requires { (cores : List CoreModule) × FitLeaf a_primitive (leaf_of cores leaf.now) }
    ensures number { (cores : List CoreModule) → FitLeaf a_primitive (leaf_of cores leaf.now) → m.number result ≡ leaf_of cores leaf.now }
    ensures code { is_primitive_code result ≡ true }
{
    match leaf {
        Leaf::Number(code) => *code,
        _ => unreachable!(),
    }
}

/// The flag of a leaf.
pub fn flag_in(leaf: &Leaf<'_, '_>) -> bool
    requires { (cores : List CoreModule) × FitLeaf a_flag (leaf_of cores leaf.now) }
    ensures { (cores : List CoreModule) → FitLeaf a_flag (leaf_of cores leaf.now) → m.number (cond result 1 0) ≡ leaf_of cores leaf.now }
{
    match leaf {
        Leaf::Number(number) => *number != 0,
        _ => unreachable!(),
    }
}

/// The number of a leaf.
pub fn number_in(leaf: &Leaf<'_, '_>) -> u32
    requires { (cores : List CoreModule) × FitLeaf a_number (leaf_of cores leaf.now) }
    ensures { (cores : List CoreModule) → FitLeaf a_number (leaf_of cores leaf.now) → m.number result ≡ leaf_of cores leaf.now }
{
    match leaf {
        Leaf::Number(number) => *number,
        _ => unreachable!(),
    }
}

/// The id of a case.
pub fn case_id_in<'a>(leaf: &Leaf<'_, 'a>) -> Option<Id<'a>>
    requires { (cores : List CoreModule) × FitLeaf a_case_id (leaf_of cores leaf.now) }
    ensures { (cores : List CoreModule) → FitLeaf a_case_id (leaf_of cores leaf.now) → m.case_id (option_map id_of result) ≡ leaf_of cores leaf.now }
{
    match leaf {
        Leaf::CaseId(id) => **id,
        _ => unreachable!(),
    }
}

/// The index of a leaf.
pub fn index_in<'a>(leaf: &Leaf<'_, 'a>) -> Index<'a>
    requires { (cores : List CoreModule) × (u : Kind) × FitLeaf (an_index u) (leaf_of cores leaf.now) }
    ensures { (cores : List CoreModule) (u : Kind) → FitLeaf (an_index u) (leaf_of cores leaf.now) → m.ref u (index_of outward result) ≡ leaf_of cores leaf.now }
{
    match leaf {
        Leaf::Numeral(_, number, span) => Index::Num(*number, *span),
        Leaf::Name(_, _, id) => Index::Id(**id),
        Leaf::Path(_, path) => path.root,
        _ => unreachable!(),
    }
}

/// The root of a leaf that is a reference.
pub fn root_in<'a>(leaf: &Leaf<'_, 'a>) -> Index<'a>
    requires { (cores : List CoreModule) × (u : Kind) × FitLeaf (a_ref u) (leaf_of cores leaf.now) }
    ensures { result ≡ root_at leaf.now }
{
    match leaf {
        Leaf::Numeral(_, number, span) => Index::Num(*number, *span),
        Leaf::Name(_, _, id) => Index::Id(**id),
        Leaf::Path(_, path) => path.root,
        _ => unreachable!(),
    }
}

/// The names of exports behind the root of a leaf that is a reference; none of another leaf.
pub fn steps_in<'a>(alloc: Global, leaf: &Leaf<'_, 'a>) -> Result<Vec<&'a str>, AllocError>
    ensures { IfOk result (λ names. names.items ≡ steps_at leaf.now) }
{
    let mut names = Vec::new(alloc);
    match leaf {
        Leaf::Path(_, path) => {
            names.extend_from_slice(path.exports)?;
            Ok(names)
        }
        _ => Ok(names),
    }
}

/// The first of some names.
fn first_of<'a>(names: &[&'a str]) -> Option<&'a str>
    ensures { length names.now ≤ 1 → lone_name result ≡ names.now }
{
    if names.len() > 0 {
        Some(names[0])
    } else {
        None
    }
}

/// The name of an export behind the root of a leaf that is a reference with one at most.
pub fn step_in<'a>(leaf: &Leaf<'_, 'a>) -> Option<&'a str>
    ensures { length (steps_at leaf.now) ≤ 1 → lone_name result ≡ steps_at leaf.now }
{
    match leaf {
        Leaf::Path(_, path) => first_of(path.exports),
        _ => None,
    }
}
