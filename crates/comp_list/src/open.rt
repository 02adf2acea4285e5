//! The scopes that are open during a walk.

ghost use Rattle.std.specs.Prelude.{◌≡◌, ◌<◌, ◌^◌, ℕ, true, is_some, List, length, drop, slice_get};
ghost use Rattle.comp_model.specs.Model.{Defs};
ghost use Rattle.comp_list.specs.Alias.{led_by_alias};
ghost use Rattle.comp_list.specs.Open.{defs_in, scopes_of, AllFound};
ghost use Rattle.comp_list.specs.Listing.{spot_at, led_there, led_in, led_by_def, def_at};

use crate::alias::{OuterAlias, alias_of_item, alias_of_node};
use crate::line::{Led, Spot};
use crate::spots::Spots;
use comp_model::Space;
use item_tree::Item;
use wire_tree::Node;

/// The definitions of an open scope.
#[derive(Clone, Copy)]
pub enum OpenDefs<'t, 'a> {
    /// Those of a scope of rows.
    Rows(&'t [Node<'t, 'a>]),
    /// Those of a tree.
    Items(&'t [Item<'a>]),
}

/// The scopes that are open, the innermost first.
#[derive(Clone, Copy)]
#[cycle(open)]
pub enum Around<'s, 't, 'a> {
    /// None.
    Nothing,
    /// A scope, and those around it.
    Scope(&'s Open<'s, 't, 'a>),
}

/// An open scope.
#[derive(Clone, Copy)]
#[cycle(open)]
pub struct Open<'s, 't, 'a> {
    /// Its items.
    pub spots: &'s Spots,
    /// Its definitions.
    pub defs: OpenDefs<'t, 'a>,
    /// The scopes around it.
    pub outer: Around<'s, 't, 'a>,
}

/// The open scopes from the one so many outward on.
pub fn outward<'s, 't, 'a>(around: Around<'s, 't, 'a>, up: u64) -> Around<'s, 't, 'a>
    ensures scopes { scopes_of result ≡ drop up (scopes_of around.entry) }
    ensures found { AllFound around.entry → AllFound result }
{
    let mut at = around;
    let mut left = up;
    while left > 0 {
        match at {
            Around::Nothing => return Around::Nothing,
            Around::Scope(open) => at = open.outer,
        }
        left -= 1;
    }
    at
}

/// The part that declares an item of a space in the scope so many outward.
pub fn spot_at(around: Around<'_, '_, '_>, up: u64, space: Space, index: u32) -> Option<Spot>
    ensures spot { AllFound around.entry → result ≡ spot_at (scopes_of around.entry) up space index }
    ensures inside { is_some result ≡ true → up < length (scopes_of around.entry) }
{
    match outward(around, up) {
        Around::Nothing => None,
        Around::Scope(open) => open.spots.find(space, index),
    }
}

/// Where something leads that is so many scopes outward.
fn led_there(up: u64, spot: Option<Spot>) -> Led
    requires few { is_some spot ≡ true → up < 2 ^ 32 }
    ensures { result ≡ led_there up spot }
{
    match spot {
        None => Led::Nowhere,
        Some(spot) => Led::To {
            up: up as u32,
            spot,
        },
    }
}

/// The outer alias that a definition of an open scope is.
fn alias_at(defs: OpenDefs<'_, '_>, def: usize) -> Option<OuterAlias>
    ensures { (scopes : List Defs) (up : ℕ) → led_by_alias scopes up result ≡ led_by_def scopes up (def_at (defs_in defs.entry) def) }
{
    match defs {
        OpenDefs::Rows(nodes) => {
            if def < nodes.len() {
                return alias_of_node(&nodes[def]);
            }
            None
        }
        OpenDefs::Items(items) => {
            if def < items.len() {
                return alias_of_item(&items[def]);
            }
            None
        }
    }
}

/// Where an outer alias leads that stands so many scopes outward.
fn led_by(around: Around<'_, '_, '_>, up: u32, alias: Option<OuterAlias>) -> Led
    requires depth { length (scopes_of around) < 2 ^ 32 }
    ensures { AllFound around.entry → result ≡ led_by_alias (scopes_of around.entry) up alias }
{
    match alias {
        None => Led::Not,
        Some(alias) => {
            let all = alias.count as u64 + up as u64;
            let reference = alias.reference;
            led_there(all, spot_at(around, all, reference.space, reference.index))
        }
    }
}

/// Where a reference leads to this part of the scope so many outward, if that is an outer alias.
pub fn led_in(around: Around<'_, '_, '_>, up: u32, spot: Option<Spot>) -> Led
    requires depth { length (scopes_of around) < 2 ^ 32 }
    ensures { AllFound around.entry → result ≡ led_in (scopes_of around.entry) up (slice_get (scopes_of around.entry) up) spot }
{
    match spot {
        None => Led::Not,
        Some(spot) => match outward(around, up as u64) {
            Around::Nothing => Led::Not,
            Around::Scope(open) => led_by(around, up, alias_at(open.defs, spot.def as usize)),
        },
    }
}
