//! Aliases.

ghost use Rattle.std.specs.Prelude.{◌≡◌};
ghost use Rattle.wire_tree.specs.Lists.{node_of};
ghost use Rattle.item_tree.specs.Model.{alias_row};
ghost use Rattle.item_read.specs.Rows.{IsAlias};

use crate::leaves::{index, kind, outward, text};
use crate::parts::three;
use comp_model::Row;
use item_tree::ItemAlias;
use wire_tree::Node;

/// The alias that a node is.
pub fn alias_of<'a>(node: &Node<'_, 'a>) -> ItemAlias<'a>
    requires { IsAlias (node_of node.now) }
    ensures { alias_row result ≡ node_of node.now }
{
    match node.row {
        Row::AliasExport => {
            let (first, second, third) = three(node.leaves);
            ItemAlias::InstanceExport {
                instance: index(first),
                name: text(second),
                kind: kind(third),
            }
        }
        Row::AliasCoreExport => {
            let (first, second, third) = three(node.leaves);
            ItemAlias::CoreInstanceExport {
                instance: index(first),
                name: text(second),
                kind: kind(third),
            }
        }
        Row::AliasOuter => {
            let (first, second, third) = three(node.leaves);
            ItemAlias::Outer {
                count: outward(first),
                index: index(second),
                kind: kind(third),
            }
        }
        _ => unreachable!(),
    }
}
