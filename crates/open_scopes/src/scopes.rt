//! Open scopes, and the depths that the first parts of outer aliases name.

ghost use Rattle.std.specs.Prelude.{◌≡◌, ◌<◌, ◌^◌, ℕ, List, length, reverse, slice_get, Some, option_map};
ghost use Rattle.comp_model.specs.Spaces.{bears};
ghost use Rattle.comp_tables.specs.Tables.{Opened, opened_named, opened_depth};
ghost use Rattle.comp_walks.specs.Lent.{id_of, place_of};
ghost use Rattle.open_scopes.specs.Shown.{OpenScopesShow};

use crate::registry::Registry;
use wast_parser::{Id, Index};

/// An open scope. Open scopes are a stack, whose top, the innermost, stands last.
#[derive(Drop)]
pub struct Open<'a> {
    /// Its own id, if it has one.
    pub id: Option<Id<'a>>,
    /// The ids of its items.
    pub names: Registry<'a>,
    /// For each of its definitions the index of the first item that it declares; empty while these are counted.
    pub table: Vec<u32>,
}

/// The scope of a depth, which is 0 of the innermost.
pub(crate) fn scope_at<'s, 'a>(scopes: &'s [Open<'a>], depth: usize) -> &'s Open<'a>
    requires { depth < length scopes.now }
    ensures { slice_get (reverse scopes.now) depth ≡ Some result.now }
{
    &scopes[scopes.len() - 1 - depth]
}

/// Whether an id is that of a scope.
fn bears(id: Id<'_>, own: Option<Id<'_>>) -> bool
    ensures { result ≡ bears (id_of id.entry) (option_map id_of own.entry) }
{
    match own {
        Some(own) => id.number() == own.number() && id.name() == own.name(),
        None => false,
    }
}

/// The depth of the innermost scope of an id.
pub(crate) fn depth_named(scopes: &[Open<'_>], id: Id<'_>) -> Option<u32>
    requires few { length scopes.now < 2 ^ 32 }
    ensures depth { (ms : List Opened) → OpenScopesShow scopes.now ms → result ≡ opened_named 0 ms (id_of id.entry) }
{
    for depth in 0..scopes.len() {
        if bears(id, scope_at(scopes, depth).id) {
            return Some(depth as u32);
        }
    }
    None
}

/// The depth of the scope that the first part of an outer alias names (Component Model text format, `alias`): a count of scopes outward,
/// which is below the number of open scopes, or the id of one, the innermost of which is meant. `None` where it is of no open scope.
pub fn depth_of(scopes: &[Open<'_>], place: Index<'_>) -> Option<u32>
    requires few { length scopes.now < 2 ^ 32 }
    ensures depth { (ms : List Opened) (offset : ℕ) → OpenScopesShow scopes.now ms → result ≡ opened_depth ms (place_of offset place.entry) }
{
    match place {
        Index::Num(count, _) => {
            if (count as usize) < scopes.len() {
                Some(count)
            } else {
                None
            }
        }
        Index::Id(id) => depth_named(scopes, id),
    }
}
