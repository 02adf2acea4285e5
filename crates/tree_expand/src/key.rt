//! What leaves add to the key of the type in which they stand.

ghost use Rattle.std.specs.Prelude.{◌≡◌, ◌++◌, ◌∷◌, [], List, OnOk, OnErr, IfOk, None, option_map};
ghost use Rattle.comp_model.specs.CoreModules.{CoreModule};
ghost use Rattle.comp_model.specs.Spaces.{code_of_space};
ghost use Rattle.comp_scopes.specs.Reused.{is_shared};
ghost use Rattle.comp_tree.specs.Model.{leaf_of, index_of, path_of, root_of, id_of, reach_of};
ghost use Rattle.type_keys.specs.Keys.{Part, part_space, part_case, key_case, key_reach, path_key, target_key};
ghost use Rattle.type_keys.specs.PartsOf.{part_of, reach_of as key_reach_of};
ghost use Rattle.tree_expand.specs.KeyParts.{head_parts, begun_parts, KeyShows};

use crate::known::push_part;
use comp_model::{Row, Space};
use comp_tree::{Leaf, PathUse, Reach, outward};
use std::alloc::{AllocError, Global};
use type_keys::{KeyPart, KeyReach, TypeKey};
use wast_parser::{Id, Index};

/// Whether a row is that of a value type or of a component's function type, which alone are shared.
pub(crate) fn is_shared(row: Row) -> bool
    ensures { result ≡ is_shared row }
{
    match row {
        Row::FunctionType => true,
        Row::RecordType => true,
        Row::VariantType => true,
        Row::ListType => true,
        Row::FixedLengthListType => true,
        Row::MapType => true,
        Row::TupleType => true,
        Row::FlagsType => true,
        Row::EnumType => true,
        Row::OptionType => true,
        Row::ResultType => true,
        Row::OwnType => true,
        Row::BorrowType => true,
        Row::StreamType => true,
        Row::FutureType => true,
        _ => false,
    }
}

/// The number of a space.
fn space_number(space: Space) -> u8
    ensures { result ≡ code_of_space space }
{
    match space {
        Space::CoreFunc => 0,
        Space::CoreTable => 1,
        Space::CoreMemory => 2,
        Space::CoreGlobal => 3,
        Space::CoreTag => 4,
        Space::CoreType => 5,
        Space::CoreModule => 6,
        Space::CoreInstance => 7,
        Space::Func => 8,
        Space::Value => 9,
        Space::Ty => 10,
        Space::Component => 11,
        Space::Instance => 12,
    }
}

/// How far a name is looked for.
fn reach_part<'t, 'a>(reach: &Reach<'t, 'a>) -> KeyReach<'a>
    ensures { key_reach_of result ≡ key_reach (reach_of reach.now) }
{
    match reach {
        Reach::Outward => KeyReach::Outward,
        Reach::Own => KeyReach::Own,
        Reach::At(place) => match place.scope {
            Index::Num(count, _) => KeyReach::Counted(count),
            Index::Id(id) => KeyReach::Named(id.name(), id.number()),
        },
    }
}

/// A reference by an index.
fn index_part<'t, 'a>(reach: &Reach<'t, 'a>, index: Index<'a>) -> KeyPart<'a>
    ensures { part_of result ∷ [] ≡ target_key [] (index_of (reach_of reach.now) index.entry) [] }
{
    match index {
        Index::Num(number, _) => KeyPart::Numeral(number),
        Index::Id(id) => KeyPart::Name(reach_part(reach), id.name(), id.number()),
    }
}

/// The root of a path.
fn root_part<'a>(index: Index<'a>) -> KeyPart<'a>
    ensures { part_of result ∷ [] ≡ path_key (root_of index.entry) [] }
{
    match index {
        Index::Num(number, _) => KeyPart::Root(number),
        Index::Id(id) => KeyPart::RootName(id.name(), id.number()),
    }
}

/// The id of a case.
fn case_part<'a>(id: &Option<Id<'a>>) -> KeyPart<'a>
    ensures { part_of result ≡ part_case (key_case (option_map id_of id.now)) }
{
    match id {
        Some(id) => KeyPart::Case(id.name(), id.number()),
        None => KeyPart::NoCase,
    }
}

/// Puts a path behind the parts of a key: its export names, the last one first, and its root.
fn push_path<'t, 'a>(
    key: &mut Option<TypeKey<'a>>,
    path: &PathUse<'t, 'a>,
) -> Result<(), AllocError>
    ensures { (ps : List Part) → KeyShows key.old ps → OnOk result (KeyShows key.new (ps ++ target_key [] (path_of path.now.root path.now.exports.now) [])) }
{
    if path.exports.len() == 0 {
        return push_part(key, index_part(outward(), path.root));
    }
    for i in (0..path.exports.len()).rev() {
        push_part(key, KeyPart::Export(path.exports[i]))?;
    }
    push_part(key, root_part(path.root))
}

/// Puts a reference into a space behind the parts of a key.
fn push_reference<'a>(
    key: &mut Option<TypeKey<'a>>,
    space: Space,
    target: KeyPart<'a>,
) -> Result<(), AllocError>
    ensures { (ps : List Part) → KeyShows key.old ps → OnOk result (KeyShows key.new (ps ++ part_space (code_of_space space) ∷ part_of target.entry ∷ [])) }
{
    push_part(key, KeyPart::Space(space_number(space)))?;
    push_part(key, target)
}

/// Puts what a leaf adds in front of what stands in it behind the parts of a key, if there is one. Behind a leaf that no type which is
/// shared has, the key is equal to none. It is refused for a text in pieces and for a core module, which no rule of the text has in a type.
pub(crate) fn push_leaf<'t, 'a>(
    key: &mut Option<TypeKey<'a>>,
    leaf: &Leaf<'t, 'a>,
) -> Result<(), AllocError>
    ensures { (cores : List CoreModule) (ps : List Part) → KeyShows key.old ps → OnOk result (KeyShows key.new (ps ++ head_parts (leaf_of cores leaf.now))) }
{
    if key.is_none() {
        return Ok(());
    }
    match leaf {
        Leaf::Text(text) => push_part(key, KeyPart::Text(*text)),
        Leaf::Number(number) => push_part(key, KeyPart::Number(*number)),
        Leaf::Absent => push_part(key, KeyPart::Absent),
        Leaf::Present(_) => push_part(key, KeyPart::Present),
        Leaf::Nodes(_) => push_part(key, KeyPart::Nodes),
        Leaf::CaseId(id) => push_part(key, case_part(*id)),
        Leaf::Numeral(space, number, _) => {
            push_reference(key, *space, KeyPart::Numeral(*number))
        }
        Leaf::Name(space, reach, id) => push_reference(
            key,
            *space,
            KeyPart::Name(reach_part(*reach), id.name(), id.number()),
        ),
        Leaf::Path(space, path) => {
            push_part(key, KeyPart::Space(space_number(*space)))?;
            push_path(key, *path)
        }
        Leaf::Inline(space, _) => push_part(key, KeyPart::Space(space_number(*space))),
        Leaf::Pieces(_) => Err(AllocError),
        Leaf::Core(_) => Err(AllocError),
        Leaf::Kind(_) => give_up(key),
        Leaf::CoreValue(_) => give_up(key),
        Leaf::Place(_) => give_up(key),
        Leaf::Node(_) => give_up(key),
        Leaf::Bundle(_, _) => give_up(key),
        Leaf::Results(_) => give_up(key),
        Leaf::Scope(_) => give_up(key),
    }
}

/// From here on the key is equal to none.
pub(crate) fn give_up<'a>(key: &mut Option<TypeKey<'a>>) -> Result<(), AllocError>
    ensures none { key.new ≡ None }
    ensures ok { OnErr result ⊥ }
{
    *key = None;
    Ok(())
}

/// A key with the row of a type alone, if the type is to be looked up.
pub(crate) fn begun<'a>(
    alloc: Global,
    row: Row,
    wanted: bool,
) -> Result<Option<TypeKey<'a>>, AllocError>
    ensures { IfOk result (λ k. KeyShows k (begun_parts wanted row)) }
{
    if !wanted {
        return Ok(None);
    }
    if !is_shared(row) {
        return Ok(None);
    }
    let mut key = TypeKey::new(alloc);
    key.push(KeyPart::Row(row.number()))?;
    Ok(Some(key))
}
