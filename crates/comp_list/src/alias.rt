//! The outer alias that a definition is.

ghost use Rattle.std.specs.Prelude.{◌≡◌, ℕ, List, option_map};
ghost use Rattle.comp_model.specs.Model.{Defs};
ghost use Rattle.wire_tree.specs.Lists.{listed};
ghost use Rattle.wire_tree.specs.Model.{leaf_of};
ghost use Rattle.item_tree.specs.Model.{item_row, alias_row};
ghost use Rattle.comp_list.specs.Listing.{led_by, index_in};
ghost use Rattle.comp_list.specs.Alias.{led_by_alias, row_led, row_outer};

use crate::reference::{Reference, outer_count};
use item_tree::{Item, ItemAlias};
use wire_tree::{Leaf, Node};

/// An outer alias.
#[derive(Clone, Copy)]
pub struct OuterAlias {
    /// How many scopes outward.
    pub count: u32,
    /// The index there.
    pub reference: Reference,
}

/// What a leaf says of the index of an outer alias: its space, and the index.
fn index_in(leaf: &Leaf<'_, '_>) -> Option<Reference>
    ensures { result ≡ index_in (leaf_of leaf.now) }
{
    match leaf {
        Leaf::Index(space, index) => Some(Reference {
            space: *space,
            index: *index,
        }),
        Leaf::CoreValue(_) => None,
        Leaf::Present(_) => None,
        Leaf::Node(_) => None,
        Leaf::Nodes(_) => None,
        Leaf::Text(_) => None,
        Leaf::Number(_) => None,
        Leaf::Kind(_) => None,
        Leaf::Outward(_) => None,
        Leaf::Absent => None,
        Leaf::NoId => None,
        Leaf::Results(_) => None,
        Leaf::Module(_) => None,
        Leaf::Scope(_) => None,
    }
}

/// The outer alias that a row is.
pub fn alias_of_node(node: &Node<'_, '_>) -> Option<OuterAlias>
    ensures { (scopes : List Defs) (up : ℕ) → led_by_alias scopes up result ≡ led_by scopes up node.now.row (listed node.now.leaves.now) }
{
    match outer_count(node) {
        None => None,
        Some(count) => {
            if node.leaves.len() < 2 {
                return None;
            }
            match index_in(&node.leaves[1]) {
                None => None,
                Some(reference) => Some(OuterAlias { count, reference }),
            }
        }
    }
}

/// The outer alias that an alias is.
fn outer_alias(alias: &ItemAlias<'_>) -> Option<OuterAlias>
    ensures outer { option_map (λ a. a.count) result ≡ row_outer (alias_row alias.now) }
    ensures led { (scopes : List Defs) (up : ℕ) → led_by_alias scopes up result ≡ row_led scopes up (alias_row alias.now) }
{
    match alias {
        ItemAlias::InstanceExport { .. } => None,
        ItemAlias::CoreInstanceExport { .. } => None,
        ItemAlias::Outer { count, kind, index } => Some(OuterAlias {
            count: *count,
            reference: Reference {
                space: *kind,
                index: *index,
            },
        }),
    }
}

/// The outer alias that a definition of a tree is.
pub fn alias_of_item(item: &Item<'_>) -> Option<OuterAlias>
    ensures outer { option_map (λ a. a.count) result ≡ row_outer (item_row item.now) }
    ensures led { (scopes : List Defs) (up : ℕ) → led_by_alias scopes up result ≡ row_led scopes up (item_row item.now) }
{
    match item {
        Item::Alias(alias) => outer_alias(alias),
        _ => None,
    }
}

/// How many scopes outward a definition refers, where it is an outer alias.
pub fn outer_count_of(item: &Item<'_>) -> Option<u32>
    ensures { result ≡ row_outer (item_row item.now) }
{
    match alias_of_item(item) {
        None => None,
        Some(alias) => Some(alias.count),
    }
}
