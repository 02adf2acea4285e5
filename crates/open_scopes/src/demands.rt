//! What is asked of a name that was looked up, and of the first part of an outer alias.

ghost use Rattle.std.specs.Prelude.{◌≡◌, ◌<◌, ◌^◌, List, Option, Some, None, length, option_map};
ghost use Rattle.comp_model.specs.Core.{at_place};
ghost use Rattle.comp_scopes.specs.Names.{Denoted};
ghost use Rattle.comp_scopes.specs.Outward.{leads_out};
ghost use Rattle.comp_scopes.specs.Rule.{reaches_out};
ghost use Rattle.comp_scopes.specs.Unmet.{unmet_kind};
ghost use Rattle.comp_tables.specs.Built.{missing_name, missing_place};
ghost use Rattle.comp_tables.specs.Tables.{Opened};
ghost use Rattle.comp_walks.specs.Lent.{id_of, place_of, reach_of};
ghost use Rattle.open_scopes.specs.Refusals.{refusal, refusal_of};
ghost use Rattle.open_scopes.specs.Shown.{OpenScopesShow, found_of};
ghost use Rattle.wast_tokens.specs.declared.error.ErrorKind.TheVariants.{Unknown};

use crate::lookup::Found;
use crate::scopes::{Open, depth_named};
use comp_model::Space;
use comp_walks::Reach;
use wast_parser::{Error, ErrorKind, Id, Index, Span};

/// Whether names of a space reach past their own scope: those of core modules, core types, types and components (Component Model text
/// format, `alias`).
fn reaches_out(space: Space) -> bool
    ensures { result ≡ reaches_out space }
{
    match space {
        Space::CoreType | Space::CoreModule | Space::Ty | Space::Component => true,
        _ => false,
    }
}

/// Whether a name that is looked for outward was found in an enclosing scope, so that it needs an outer alias.
pub fn leads_out(reach: Reach<'_>, found: Option<Found>) -> bool
    ensures { (d : Option Denoted) → found ≡ option_map found_of d → result ≡ leads_out (reach_of reach.entry) d }
{
    match reach {
        Reach::Outward => match found {
            Some(found) => found.depth > 0,
            None => false,
        },
        _ => false,
    }
}

/// What is refused of the name of an item of a space that was found: one that leads out, in a space whose names don't reach out, is
/// `OuterKind`, at the name.
pub fn unmet_kind(reach: Reach<'_>, space: Space, id: Id<'_>, found: Option<Found>) -> Option<Error>
    ensures { (d : Option Denoted) → found ≡ option_map found_of d → result ≡ option_map refusal_of (unmet_kind (reach_of reach.entry) space (id_of id.entry) d) }
{
    if !leads_out(reach, found) || reaches_out(space) {
        return None;
    }
    Some(Error {
        kind: ErrorKind::OuterKind,
        offset: id.span().offset,
    })
}

/// The refusal of a name that denotes nothing.
fn unknown(id: Id<'_>) -> Error
    ensures { result ≡ refusal Unknown (id_of id.entry).offset }
{
    Error {
        kind: ErrorKind::Unknown,
        offset: id.span().offset,
    }
}

/// The refusal of a name that the scope at a place doesn't have.
fn missing_at(scopes: &[Open<'_>], alias: Span, place: Index<'_>, id: Id<'_>) -> Error
    ensures { (ms : List Opened) → OpenScopesShow scopes.now ms → Some result ≡ option_map refusal_of (missing_name ms (at_place (place_of alias.offset place.entry)) (id_of id.entry) None) }
{
    match place {
        Index::Num(count, _) => {
            if (count as usize) < scopes.len() {
                return unknown(id);
            }
            Error {
                kind: ErrorKind::OuterCount,
                offset: alias.offset,
            }
        }
        Index::Id(_) => unknown(id),
    }
}

/// What is refused of a name that was looked for: where nothing was found, `Unknown`, at the name; but if it was looked for in the scope
/// of a count outward, and as many scopes aren't open, `OuterCount`, at the word `alias`.
pub fn missing_name(
    scopes: &[Open<'_>],
    reach: Reach<'_>,
    id: Id<'_>,
    found: Option<Found>,
) -> Option<Error>
    ensures { (ms : List Opened) (d : Option Denoted) → OpenScopesShow scopes.now ms → found ≡ option_map found_of d → result ≡ option_map refusal_of (missing_name ms (reach_of reach.entry) (id_of id.entry) d) }
{
    if found.is_some() {
        return None;
    }
    match reach {
        Reach::At(alias, place) => Some(missing_at(scopes, alias, place, id)),
        _ => Some(unknown(id)),
    }
}

/// What is refused of the first part of an outer alias, whose word stands at `alias`: the id of no open scope is `OuterComponent`, at the
/// word. A count is looked at where the name behind it isn't found.
pub fn missing_place(scopes: &[Open<'_>], alias: Span, place: Index<'_>) -> Option<Error>
    requires few { length scopes.now < 2 ^ 32 }
    ensures { (ms : List Opened) → OpenScopesShow scopes.now ms → result ≡ option_map refusal_of (missing_place ms (place_of alias.offset place.entry)) }
{
    match place {
        Index::Num(_, _) => None,
        Index::Id(id) => {
            if depth_named(scopes, id).is_some() {
                return None;
            }
            Some(Error {
                kind: ErrorKind::OuterComponent,
                offset: alias.offset,
            })
        }
    }
}
