//! Flags, numbers, texts, optional parts and lists, as one leaf each; and the leaves of a node with one part or two.

ghost use Rattle.std.specs.Prelude.{◌≡◌, [], ◌∷◌, IfOk, List};
ghost use Rattle.comp_model.specs.CoreModules.{CoreModule};
ghost use Rattle.comp_model.specs.Model as m;
ghost use Rattle.comp_model.specs.Model.{◌▸◌, no_leaf};
ghost use Rattle.comp_model.specs.Rows.{a_list};
ghost use Rattle.comp_tree.specs.Lists.{listed, node_of, nodes_listed};
ghost use Rattle.comp_tree.specs.Model.{leaf_of};
ghost use Rattle.typed_nodes.specs.Fits.{FitLeaf, FitLeaves, FitNodes};
ghost use Rattle.typed_nodes.specs.Lists.{nodes_from};

use crate::parts::node;
use crate::taken::flag_in;
use crate::typed::{OfLeaf, OfNode};
use bumpalo::Bump;
use comp_model::Row;
use comp_tree::{Leaf, Node, place_all};
use std::alloc::{AllocError, Global};

/// A flag, as the number 0 or 1.
impl<'a> OfLeaf<'a> for bool {
    ghost use Rattle.std.specs.Prelude.{cond};
    ghost use Rattle.comp_model.specs.Rows.{a_flag};

    ghost shape = { a_flag };

    ghost leaf = { λ b. m.number (cond b 1 0) };

    fn into_leaf<'t>(&self, alloc: Global, bump: &'t Bump) -> Result<Leaf<'t, 'a>, AllocError> {
        match *self {
            true => Ok(Leaf::Number(1)),
            false => Ok(Leaf::Number(0)),
        }
    }

    fn from_leaf(alloc: Global, bump: &'a Bump, part: &Leaf<'_, 'a>) -> Result<bool, AllocError> {
        Ok(flag_in(part))
    }
}

/// Nodes of values, in the arena.
fn nodes_of<'t, 'a, T: OfNode<'a>>(
    alloc: Global,
    bump: &'t Bump,
    values: &[T],
) -> Result<&'t [Node<'t, 'a>], AllocError>
    ensures { (cores : List CoreModule) → IfOk result (λ ns. nodes_listed cores ns.now ≡ nodes_from T.node values.now) }
{
    let mut nodes = Vec::new(alloc);
    for i in 0..values.len() {
        let value = &values[i];
        nodes.push(value.into_node(alloc, bump)?)?;
    }
    place_all(bump, nodes.as_slice())
}

/// The values that nodes stand for.
fn values_of<'a, T: OfNode<'a>>(
    alloc: Global,
    bump: &'a Bump,
    nodes: &[Node<'_, 'a>],
) -> Result<Vec<T>, AllocError>
    requires { (cores : List CoreModule) × FitNodes T.node_rows (nodes_listed cores nodes.now) }
    ensures { (cores : List CoreModule) → FitNodes T.node_rows (nodes_listed cores nodes.now) → IfOk result (λ v. nodes_from T.node v.items ≡ nodes_listed cores nodes.now) }
{
    let mut values = Vec::new(alloc);
    for i in 0..nodes.len() {
        let node = &nodes[i];
        values.push(T::from_node(alloc, bump, node)?)?;
    }
    Ok(values)
}

/// A list, as one leaf that is its nodes.
impl<'a, T: OfNode<'a>> OfLeaf<'a> for Vec<T> {
    ghost shape = { a_list T.node_rows };

    ghost leaf = { λ v. m.nodes (nodes_from T.node v.items) };

    fn into_leaf<'t>(&self, alloc: Global, bump: &'t Bump) -> Result<Leaf<'t, 'a>, AllocError> {
        Ok(Leaf::Nodes(nodes_of(alloc, bump, self.as_slice())?))
    }

    fn from_leaf(alloc: Global, bump: &'a Bump, part: &Leaf<'_, 'a>) -> Result<Vec<T>, AllocError> {
        match part {
            Leaf::Nodes(nodes) => values_of(alloc, bump, nodes),
            Leaf::Text(_) => unreachable!(),
            Leaf::Pieces(_) => unreachable!(),
            Leaf::Number(_) => unreachable!(),
            Leaf::Kind(_) => unreachable!(),
            Leaf::CoreValue(_) => unreachable!(),
            Leaf::Numeral(_, _, _) => unreachable!(),
            Leaf::Name(_, _, _) => unreachable!(),
            Leaf::Path(_, _) => unreachable!(),
            Leaf::Place(_) => unreachable!(),
            Leaf::Absent => unreachable!(),
            Leaf::Present(_) => unreachable!(),
            Leaf::Node(_) => unreachable!(),
            Leaf::Inline(_, _) => unreachable!(),
            Leaf::Bundle(_, _) => unreachable!(),
            Leaf::CaseId(_) => unreachable!(),
            Leaf::Results(_) => unreachable!(),
            Leaf::Core(_) => unreachable!(),
            Leaf::Scope(_) => unreachable!(),
        }
    }
}

/// The leaf of a part, alone.
pub fn one_into<'t, 'a, A: OfLeaf<'a>>(
    alloc: Global,
    bump: &'t Bump,
    part: &A,
) -> Result<&'t [Leaf<'t, 'a>], AllocError>
    ensures { (cores : List CoreModule) → IfOk result (λ ls. listed cores ls.now ≡ A.leaf part.now ▸ no_leaf) }
{
    let leaf = part.into_leaf(alloc, bump)?;
    place_all(bump, &[leaf])
}

/// A node of the leaf of a part.
pub fn node_of_part<'t, 'a, A: OfLeaf<'a>>(
    alloc: Global,
    bump: &'t Bump,
    row: Row,
    part: &A,
) -> Result<Node<'t, 'a>, AllocError>
    ensures { (cores : List CoreModule) → IfOk result (λ n. node_of cores n ≡ m.row row (A.leaf part.now ▸ no_leaf)) }
{
    Ok(node(row, one_into(alloc, bump, part)?))
}

/// The leaves of two parts.
pub fn two_into<'t, 'a, A: OfLeaf<'a>, B: OfLeaf<'a>>(
    alloc: Global,
    bump: &'t Bump,
    first: &A,
    second: &B,
) -> Result<&'t [Leaf<'t, 'a>], AllocError>
    ensures { (cores : List CoreModule) → IfOk result (λ ls. listed cores ls.now ≡ A.leaf first.now ▸ B.leaf second.now ▸ no_leaf) }
{
    let first = first.into_leaf(alloc, bump)?;
    let second = second.into_leaf(alloc, bump)?;
    place_all(bump, &[first, second])
}

/// The part that a lone leaf stands for.
pub fn one_from<'a, A: OfLeaf<'a>>(
    alloc: Global,
    bump: &'a Bump,
    leaves: &[Leaf<'_, 'a>],
) -> Result<A, AllocError>
    requires { (cores : List CoreModule) × FitLeaves (A.shape ∷ []) (listed cores leaves.now) }
    ensures { (cores : List CoreModule) → FitLeaves (A.shape ∷ []) (listed cores leaves.now) → IfOk result (λ x. A.leaf x ▸ no_leaf ≡ listed cores leaves.now) }
{
    A::from_leaf(alloc, bump, &leaves[0])
}

/// The parts that two leaves stand for.
pub fn two_from<'a, A: OfLeaf<'a>, B: OfLeaf<'a>>(
    alloc: Global,
    bump: &'a Bump,
    leaves: &[Leaf<'_, 'a>],
) -> Result<(A, B), AllocError>
    requires { (cores : List CoreModule) × FitLeaves (A.shape ∷ B.shape ∷ []) (listed cores leaves.now) }
    ensures { (cores : List CoreModule) → FitLeaves (A.shape ∷ B.shape ∷ []) (listed cores leaves.now) → IfOk result (λ x. A.leaf x.0 ▸ B.leaf x.1 ▸ no_leaf ≡ listed cores leaves.now) }
{
    let first = A::from_leaf(alloc, bump, &leaves[0])?;
    let second = B::from_leaf(alloc, bump, &leaves[1])?;
    Ok((first, second))
}
