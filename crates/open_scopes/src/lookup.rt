//! Names, looked up among open scopes.

ghost use Rattle.std.specs.Prelude.{◌≡◌, ◌<◌, ◌^◌, List, length, IfSome, option_map};
ghost use Rattle.comp_scopes.specs.Names.{Denoted};
ghost use Rattle.comp_tables.specs.Tables.{Opened, found_outward, found_at, found, index_at};
ghost use Rattle.comp_walks.specs.Lent.{id_of, reach_of};
ghost use Rattle.open_scopes.specs.Shown.{OpenScopesShow, found_of};
ghost use Rattle.open_scopes.specs.Indexed.{OpenIndexed, IsIndexed};

use crate::registry::{Item, key_of};
use crate::scopes::{Open, depth_of, scope_at};
use comp_model::Space;
use comp_walks::Reach;
use wast_parser::Id;

/// What a name denotes.
#[derive(Clone, Copy, Drop)]
pub struct Found {
    /// How many scopes outward it was found, from 0 for the innermost.
    pub depth: u32,
    /// The item, by the numbers of that scope.
    pub item: Item,
}

/// What bears an id in the scope of a depth alone; `None` where there is no such scope.
fn find_at<'a>(scopes: &[Open<'a>], depth: u32, space: Space, id: Id<'a>) -> Option<Found>
    ensures found { (ms : List Opened) → OpenScopesShow scopes.now ms → result ≡ option_map found_of (found_at 0 ms depth space (id_of id.entry)) }
    ensures indexed { OpenIndexed scopes.now → IfSome result (λ f. IsIndexed scopes.now f) }
{
    if depth as usize >= scopes.len() {
        return None;
    }
    match scope_at(scopes, depth as usize).names.find(space, id) {
        Some(item) => Some(Found { depth, item }),
        None => None,
    }
}

/// What bears an id in the innermost scope that has such an item.
fn find_outward<'a>(scopes: &[Open<'a>], space: Space, id: Id<'a>) -> Option<Found>
    requires few { length scopes.now < 2 ^ 32 }
    ensures found { (ms : List Opened) → OpenScopesShow scopes.now ms → result ≡ option_map found_of (found_outward 0 ms space (id_of id.entry)) }
    ensures indexed { OpenIndexed scopes.now → IfSome result (λ f. IsIndexed scopes.now f) }
{
    let key = key_of(space, id);
    for depth in 0..scopes.len() {
        if let Some(item) = scope_at(scopes, depth).names.at(space, id, &key) {
            return Some(Found {
                depth: depth as u32,
                item,
            });
        }
    }
    None
}

/// What the name of an item of a space denotes among open scopes, as far as it is looked for; `None` where it denotes nothing.
pub fn find<'a>(scopes: &[Open<'a>], space: Space, reach: Reach<'_>, id: Id<'a>) -> Option<Found>
    requires few { length scopes.now < 2 ^ 32 }
    ensures found { (ms : List Opened) → OpenScopesShow scopes.now ms → result ≡ option_map found_of (found ms space (reach_of reach.entry) (id_of id.entry)) }
    ensures indexed { OpenIndexed scopes.now → IfSome result (λ f. IsIndexed scopes.now f) }
{
    match reach {
        Reach::Outward => find_outward(scopes, space, id),
        Reach::Own => find_at(scopes, 0, space, id),
        Reach::At(_, place) => match depth_of(scopes, place) {
            Some(depth) => find_at(scopes, depth, space, id),
            None => None,
        },
    }
}

/// The index of what was found, in its own scope.
pub fn index_of(scopes: &[Open<'_>], found: Found) -> u32
    requires indexed { IsIndexed scopes.now found }
    ensures index { (ms : List Opened) (d : Denoted) → OpenScopesShow scopes.now ms → found ≡ found_of d → result ≡ index_at ms d }
{
    let scope = scope_at(scopes, found.depth as usize);
    scope.table[found.item.definition as usize] + found.item.part
}
