//! Values that stand for single leaves, and for the nodes of lists: each goes into the tree and comes out of it.

ghost use Rattle.std.specs.Prelude.{◌≡◌, IfOk, List};
ghost use Rattle.comp_model.specs.CoreModules.{CoreModule};
ghost use Rattle.comp_model.specs.Model as m;
ghost use Rattle.comp_model.specs.Rows.{Shape};
ghost use Rattle.comp_model.specs.declared.row.Row.{Row as Line};
ghost use Rattle.comp_tree.specs.Lists.{node_of};
ghost use Rattle.comp_tree.specs.Model.{leaf_of};
ghost use Rattle.typed_nodes.specs.Fits.{FitLeaf, FitNode};

use bumpalo::Bump;
use comp_tree::{Leaf, Node};
use std::alloc::{AllocError, Global};

/// A type whose values stand for one leaf of a node.
pub trait OfLeaf<'a>: Sized + Drop {
    /// What the leaf is in its row.
    ghost shape: { Shape };

    /// The leaf that a value stands for.
    ghost leaf: { Self → m.Leaf };

    /// The leaf, whose parts lie in the arena. It is refused where memory ran out.
    fn into_leaf<'t>(&self, alloc: Global, bump: &'t Bump) -> Result<Leaf<'t, 'a>, AllocError>
        ensures { (cores : List CoreModule) → IfOk result (λ x. leaf_of cores x ≡ leaf self.now) };

    /// The value that stands for a leaf, with its texts in the arena. It is refused where memory ran out.
    fn from_leaf(alloc: Global, bump: &'a Bump, part: &Leaf<'_, 'a>) -> Result<Self, AllocError>
        requires { (cores : List CoreModule) × FitLeaf shape (leaf_of cores part.now) }
        ensures { (cores : List CoreModule) → FitLeaf shape (leaf_of cores part.now) → IfOk result (λ x. leaf x ≡ leaf_of cores part.now) };
}

/// A type whose values stand for nodes of a list.
pub trait OfNode<'a>: Sized + Drop {
    /// The rows of the nodes.
    ghost node_rows: { List Line };

    /// The node that a value stands for.
    ghost node: { Self → m.Node };

    /// The node, whose leaves lie in the arena. It is refused where memory ran out.
    fn into_node<'t>(&self, alloc: Global, bump: &'t Bump) -> Result<Node<'t, 'a>, AllocError>
        ensures { (cores : List CoreModule) → IfOk result (λ n. node_of cores n ≡ node self.now) };

    /// The value that stands for a node, with its texts in the arena. It is refused where memory ran out.
    fn from_node(alloc: Global, bump: &'a Bump, part: &Node<'_, 'a>) -> Result<Self, AllocError>
        requires { (cores : List CoreModule) × FitNode node_rows (node_of cores part.now) }
        ensures { (cores : List CoreModule) → FitNode node_rows (node_of cores part.now) → IfOk result (λ x. node x ≡ node_of cores part.now) };
}
