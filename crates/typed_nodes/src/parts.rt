//! Nodes made of their leaves, and lists of names.

ghost use Rattle.std.specs.Prelude.{◌≡◌, IfOk, IsOkAnd, List};
ghost use Rattle.comp_model.specs.CoreModules.{CoreModule};
ghost use Rattle.comp_model.specs.declared.Space.TheVariants.{Ty};
ghost use Rattle.comp_model.specs.Model as m;
ghost use Rattle.comp_model.specs.Model.{◌▸◌, no_leaf};
ghost use Rattle.comp_tree.specs.Lists.{listed, node_of, nodes_listed};
ghost use Rattle.comp_tree.specs.Model.{leaf_of, path_of};
ghost use Rattle.typed_nodes.specs.NameRows.{name_nodes};

use bumpalo::Bump;
use comp_model::{Row, Space};
use comp_tree::{Leaf, Node, PathUse, place, place_all};
use std::alloc::{AllocError, Global};
use wast_parser::{Index, Span};

/// A node that stands nowhere in a text.
pub fn node<'t, 'a>(row: Row, leaves: &'t [Leaf<'t, 'a>]) -> Node<'t, 'a>
    ensures { (cores : List CoreModule) → node_of cores result ≡ m.row row (listed cores leaves.now) }
{
    Node {
        row,
        span: Span::from_offset(0),
        leaves,
    }
}

/// A node of one leaf.
pub fn node_of_one<'t, 'a>(
    bump: &'t Bump,
    row: Row,
    leaf: Leaf<'t, 'a>,
) -> Result<Node<'t, 'a>, AllocError>
    ensures { (cores : List CoreModule) → IfOk result (λ n. node_of cores n ≡ m.row row (leaf_of cores leaf.entry ▸ no_leaf)) }
{
    let leaves = place_all(bump, &[leaf])?;
    Ok(node(row, leaves))
}

/// A node of two leaves.
pub fn node_of_two<'t, 'a>(
    bump: &'t Bump,
    row: Row,
    first: Leaf<'t, 'a>,
    second: Leaf<'t, 'a>,
) -> Result<Node<'t, 'a>, AllocError>
    ensures { (cores : List CoreModule) → IfOk result (λ n. node_of cores n ≡ m.row row (leaf_of cores first.entry ▸ leaf_of cores second.entry ▸ no_leaf)) }
{
    let leaves = place_all(bump, &[first, second])?;
    Ok(node(row, leaves))
}

/// A node of three leaves.
pub fn node_of_three<'t, 'a>(
    bump: &'t Bump,
    row: Row,
    first: Leaf<'t, 'a>,
    second: Leaf<'t, 'a>,
    third: Leaf<'t, 'a>,
) -> Result<Node<'t, 'a>, AllocError>
    ensures { (cores : List CoreModule) → IfOk result (λ n. node_of cores n ≡ m.row row (leaf_of cores first.entry ▸ leaf_of cores second.entry ▸ leaf_of cores third.entry ▸ no_leaf)) }
{
    let leaves = place_all(bump, &[first, second, third])?;
    Ok(node(row, leaves))
}

/// Nodes of a name each.
pub fn nodes_of_names<'t, 'a>(
    alloc: Global,
    bump: &'t Bump,
    names: &[&'a str],
) -> Result<&'t [Node<'t, 'a>], AllocError>
    ensures { (cores : List CoreModule) → IfOk result (λ ns. nodes_listed cores ns.now ≡ name_nodes names.now) }
{
    let mut nodes = Vec::new(alloc);
    for i in 0..names.len() {
        nodes.push(node_of_one(bump, Row::LoneName, Leaf::Text(names[i]))?)?;
    }
    place_all(bump, nodes.as_slice())
}

/// A node of a leaf that was made.
pub fn lone_node<'t, 'a>(
    bump: &'t Bump,
    row: Row,
    leaf: Result<Leaf<'t, 'a>, AllocError>,
) -> Result<Node<'t, 'a>, AllocError>
    ensures { (cores : List CoreModule) → IfOk result (λ n. IsOkAnd leaf.entry (λ x. node_of cores n ≡ m.row row (leaf_of cores x ▸ no_leaf))) }
{
    match leaf {
        Ok(leaf) => node_of_one(bump, row, leaf),
        Err(AllocError) => Err(AllocError),
    }
}

/// A node of two leaves that were made.
pub fn pair_node<'t, 'a>(
    bump: &'t Bump,
    row: Row,
    first: Result<Leaf<'t, 'a>, AllocError>,
    second: Result<Leaf<'t, 'a>, AllocError>,
) -> Result<Node<'t, 'a>, AllocError>
    ensures { (cores : List CoreModule) → IfOk result (λ n. IsOkAnd first.entry (λ x. IsOkAnd second.entry (λ y. node_of cores n ≡ m.row row (leaf_of cores x ▸ leaf_of cores y ▸ no_leaf)))) }
{
    match first {
        Ok(first) => match second {
            Ok(second) => node_of_two(bump, row, first, second),
            Err(AllocError) => Err(AllocError),
        },
        Err(AllocError) => Err(AllocError),
    }
}

/// A node of a list that was made.
pub fn list_node<'t, 'a>(
    bump: &'t Bump,
    row: Row,
    nodes: Result<&'t [Node<'t, 'a>], AllocError>,
) -> Result<Node<'t, 'a>, AllocError>
    ensures { (cores : List CoreModule) → IfOk result (λ n. IsOkAnd nodes.entry (λ x. node_of cores n ≡ m.row row (m.nodes (nodes_listed cores x.now) ▸ no_leaf))) }
{
    match nodes {
        Ok(nodes) => node_of_one(bump, row, Leaf::Nodes(nodes)),
        Err(AllocError) => Err(AllocError),
    }
}

/// An optional part that is there, as a leaf.
pub fn present<'t, 'a>(
    bump: &'t Bump,
    leaf: Result<Leaf<'t, 'a>, AllocError>,
) -> Result<Leaf<'t, 'a>, AllocError>
    ensures { (cores : List CoreModule) → IfOk result (λ r. IsOkAnd leaf.entry (λ x. leaf_of cores r ≡ m.present (leaf_of cores x))) }
{
    match leaf {
        Ok(leaf) => match place(bump, leaf) {
            Ok(placed) => Ok(Leaf::Present(placed)),
            Err(AllocError) => Err(AllocError),
        },
        Err(AllocError) => Err(AllocError),
    }
}

/// A node in the place of a type, as a leaf.
pub fn inlined<'t, 'a>(
    bump: &'t Bump,
    node: Result<Node<'t, 'a>, AllocError>,
) -> Result<Leaf<'t, 'a>, AllocError>
    ensures { (cores : List CoreModule) → IfOk result (λ r. IsOkAnd node.entry (λ n. leaf_of cores r ≡ m.ref Ty (m.inline (node_of cores n)))) }
{
    match node {
        Ok(node) => match place(bump, node) {
            Ok(placed) => Ok(Leaf::Inline(Space::Ty, placed)),
            Err(AllocError) => Err(AllocError),
        },
        Err(AllocError) => Err(AllocError),
    }
}

/// A reference into a space by its root and the names of exports behind it, as a leaf.
pub fn reference_leaf<'t, 'a>(
    bump: &'t Bump,
    space: Space,
    root: Index<'a>,
    names: &[&'a str],
) -> Result<Leaf<'t, 'a>, AllocError>
    ensures { (cores : List CoreModule) → IfOk result (λ x. leaf_of cores x ≡ m.ref space (path_of root.entry names.now)) }
{
    let exports = place_all(bump, names)?;
    let path = place(bump, PathUse { root, exports })?;
    Ok(Leaf::Path(space, path))
}
