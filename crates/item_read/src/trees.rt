//! Scopes, and definitions of all kinds.

ghost use Rattle.std.specs.Prelude.{◌≡◌, IfOk};
ghost use Rattle.comp_model.specs.Model as m;
ghost use Rattle.comp_model.specs.Model.{kind_of, no_leaf, ◌▸◌};
ghost use Rattle.wire_tree.specs.Lists.{node_of, defs_listed};
ghost use Rattle.wire_tree.specs.Model.{scope_of};
ghost use Rattle.item_tree.specs.Model.{item_row, scope_of_tree, defs_listed as items_listed};
ghost use Rattle.item_read.specs.Scopes.{AreDefinitions, HoldsOne, HoldsScope, IsDefinition, ScopeFits, held_kind};

use crate::aliases::alias_of;
use crate::canons::{built_in_of, canon_of, canon_with_options_of, type_canon_of};
use crate::core_types::core_type_of;
use crate::items::{declaration_of, listed_item_of, plain_item_of};
use crate::kinds::{Kind, kind_of};
use crate::types::{listed_type_of, type_of};
use comp_model::Row;
use comp_wire::Seq;
use item_tree::{Item, ItemCoreType, ItemType, Tree};
use std::alloc::{AllocError, Global};
use wire_tree::{Leaf, Node, Scope};

/// The definition of a row that holds a tree.
#[tactic(auto, using(item_tree::proofs::Scopes::component_item, item_tree::proofs::Scopes::component_type_item, item_tree::proofs::Scopes::instance_type_item, item_tree::proofs::Scopes::module_type_item))]
fn holder<'a>(row: Row, tree: Tree<'a>) -> Item<'a>
    requires { HoldsScope row }
    ensures { item_row result ≡ m.row row (m.scope (scope_of_tree (held_kind row) tree.entry) ▸ no_leaf) }
{
    match row {
        Row::Component => Item::Component(tree),
        Row::ComponentType => Item::Ty(ItemType::Component(tree)),
        Row::InstanceType => Item::Ty(ItemType::Instance(tree)),
        Row::ModuleType => Item::CoreType(ItemCoreType::Module(tree)),
        _ => unreachable!(),
    }
}

/// The definition that a node is which holds a scope.
#[tactic(auto, using(crate::proofs::ByLength::counted_leaves, crate::proofs::Scopes::holder_row))]
#[cycle(trees)]
fn holder_of<'a>(alloc: Global, node: &Node<'_, 'a>) -> Result<Item<'a>, AllocError>
    requires { HoldsOne (node_of node.now) }
    ensures { IfOk result (λ v. item_row v ≡ node_of node.now) }
{
    match &node.leaves[0] {
        Leaf::Scope(scope) => {
            let tree = tree_of(alloc, scope)?;
            Ok(holder(node.row, tree))
        }
        _ => unreachable!(),
    }
}

/// The definition that a node is.
#[cycle(trees)]
fn item_of<'a>(alloc: Global, node: &Node<'_, 'a>) -> Result<Item<'a>, AllocError>
    requires { IsDefinition (node_of node.now) }
    ensures { IfOk result (λ v. item_row v ≡ node_of node.now) }
{
    match kind_of(node.row) {
        Kind::CoreType => {
            let found = core_type_of(alloc, node)?;
            Ok(Item::CoreType(found))
        }
        Kind::Alias => Ok(Item::Alias(alias_of(node))),
        Kind::Ty => Ok(Item::Ty(type_of(node))),
        Kind::ListedType => {
            let found = listed_type_of(alloc, node)?;
            Ok(Item::Ty(found))
        }
        Kind::BuiltIn => Ok(Item::Canon(built_in_of(node))),
        Kind::OfType => Ok(Item::Canon(type_canon_of(node))),
        Kind::Canon => Ok(Item::Canon(canon_of(node))),
        Kind::WithOptions => {
            let found = canon_with_options_of(alloc, node)?;
            Ok(Item::Canon(found))
        }
        Kind::Plain => Ok(plain_item_of(node)),
        Kind::Declared => Ok(declaration_of(node)),
        Kind::Listed => listed_item_of(alloc, node),
        Kind::Scope => holder_of(alloc, node),
    }
}

/// The definitions that nodes are.
#[tactic(auto, using(crate::proofs::Scopes::all_items))]
#[cycle(trees)]
fn items_of<'a>(alloc: Global, nodes: &[Node<'_, 'a>]) -> Result<Seq<Item<'a>>, AllocError>
    requires { AreDefinitions (defs_listed nodes.now) }
    ensures { IfOk result (λ v. items_listed v ≡ defs_listed nodes.now) }
{
    let mut found = Vec::new(alloc);
    for node in nodes {
        let item = item_of(alloc, node)?;
        found.push(item)?;
    }
    Ok(Seq::from_vec(found))
}

/// The tree of a scope.
#[tactic(auto, using(crate::proofs::Scopes::tree_stands))]
#[cycle(trees)]
pub fn tree_of<'a>(alloc: Global, scope: &Scope<'_, 'a>) -> Result<Tree<'a>, AllocError>
    requires { ScopeFits (scope_of scope.now) }
    ensures { IfOk result (λ v. scope_of_tree (kind_of (scope_of scope.now)) v ≡ scope_of scope.now) }
{
    let defs = items_of(alloc, scope.defs)?;
    Ok(Tree { defs })
}
