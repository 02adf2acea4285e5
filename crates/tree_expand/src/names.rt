//! Ids that are given to definitions of the text.

ghost use Rattle.std.specs.Prelude.{◌≡◌, ◌+◌, IfOk, OnOk, Some, None, option_map};
ghost use Rattle.comp_expanded.specs.Expansion.{first_id, with_given, given_names, the_id};
ghost use Rattle.comp_tree.specs.Model.{id_of, names_at};
ghost use Rattle.tree_expand.specs.Numbering.{is_given, given_id, id_numbered, names_given};
ghost use Rattle.tree_expand.specs.Standing.{ids_of};

use crate::key::is_shared;
use crate::position::{is_function_type, is_module_type};
use bumpalo::Bump;
use comp_model::{Row, ScopeKind};
use comp_tree::{Def, Names, no_exports, place, place_all};
use std::alloc::{AllocError, Global};
use wast_parser::{Gensym, Id, Span};

/// A new name. It is refused where the counter can count no further.
pub(crate) fn generate<'a>(gensym: &mut Gensym) -> Result<Id<'a>, AllocError>
    ensures id { IfOk result (λ id. id_of id ≡ id_numbered (gensym.old.made + 1)) }
    ensures made { OnOk result (gensym.new.made ≡ gensym.old.made + 1) }
{
    if gensym.made() == u64::MAX {
        return Err(AllocError);
    }
    Ok(gensym.generate(Span::from_offset(0)))
}

/// The id of the first part, if it has one.
pub(crate) fn first_id_of<'a>(ids: &[Option<Id<'a>>]) -> Option<Id<'a>>
    ensures { option_map id_of result ≡ first_id (ids_of ids.now) None }
{
    if ids.len() > 0 { ids[0] } else { None }
}

/// An id, or one that stands for none.
pub(crate) fn id_or_none<'a>(id: Option<Id<'a>>) -> Id<'a>
    ensures { id_of result ≡ the_id (option_map id_of id.entry) }
{
    match id {
        Some(id) => id,
        None => Id::new("", Span::from_offset(0)),
    }
}

/// The ids of a definition whose first part had none, with this one.
fn with_first<'t, 'a>(
    alloc: Global,
    bump: &'t Bump,
    ids: &[Option<Id<'a>>],
    id: Id<'a>,
) -> Result<&'t [Option<Id<'a>>], AllocError>
    requires { first_id (ids_of ids.now) None ≡ None }
    ensures { IfOk result (λ r. ids_of r.now ≡ with_given (ids_of ids.now) (Some (id_of id.entry))) }
{
    let mut given = Vec::new(alloc);
    given.push(Some(id))?;
    for i in 1..ids.len() {
        given.push(ids[i])?;
    }
    place_all(bump, &given)
}

/// Whether a definition is given an id: for its inline exports, as a function type of a module type that a signature may reuse, or as a
/// type of a scope in which types stand inline, which may be equal to it.
pub(crate) fn needs_id<'t, 'a>(
    kind: ScopeKind,
    inlines: bool,
    row: Row,
    names: &Names<'t, 'a>,
) -> bool
    ensures { result ≡ is_given kind inlines row (names_at 0 names.now) }
{
    if first_id_of(names.ids).is_some() {
        return false;
    }
    if names.exports.len() > 0 {
        return true;
    }
    if is_module_type(kind) && is_function_type(row) {
        return true;
    }
    inlines && is_shared(row)
}

/// The ids of a definition of a scope of this kind: with one more, if it needs it.
fn given_ids<'t, 'a>(
    alloc: Global,
    bump: &'t Bump,
    kind: ScopeKind,
    inlines: bool,
    def: &'t Def<'t, 'a>,
    gensym: &mut Gensym,
) -> Result<&'t [Option<Id<'a>>], AllocError>
    ensures ids { IfOk result (λ r. ids_of r.now ≡ with_given (ids_of def.now.names.now.ids.now) (given_id kind inlines def.now.node.row (names_at 0 def.now.names.now) gensym.old.made)) }
    ensures made { OnOk result (gensym.new.made ≡ gensym.old.made + names_given kind inlines def.now.node.row (names_at 0 def.now.names.now)) }
{
    if !needs_id(kind, inlines, def.node.row, def.names) {
        return Ok(def.names.ids);
    }
    let id = generate(gensym)?;
    with_first(alloc, bump, def.names.ids, id)
}

/// The names of a definition of the text in a scope of this kind: with an id, if it needs one, and without its inline exports. They are
/// shared where nothing changes.
pub(crate) fn given_names_of<'t, 'a>(
    alloc: Global,
    bump: &'t Bump,
    kind: ScopeKind,
    inlines: bool,
    def: &'t Def<'t, 'a>,
    gensym: &mut Gensym,
) -> Result<&'t Names<'t, 'a>, AllocError>
    ensures names { IfOk result (λ r. names_at def.now.span.offset r.now ≡ given_names (names_at def.now.span.offset def.now.names.now) (given_id kind inlines def.now.node.row (names_at 0 def.now.names.now) gensym.old.made)) }
    ensures made { OnOk result (gensym.new.made ≡ gensym.old.made + names_given kind inlines def.now.node.row (names_at 0 def.now.names.now)) }
{
    if def.names.exports.len() == 0 && !needs_id(kind, inlines, def.node.row, def.names) {
        return Ok(def.names);
    }
    let ids = given_ids(alloc, bump, kind, inlines, def, gensym)?;
    place(
        bump,
        Names {
            ids,
            labels: def.names.labels,
            exports: no_exports(),
        },
    )
}
