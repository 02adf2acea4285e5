//! The leaves of a row, as its shape has them.

ghost use Rattle.std.specs.Prelude.{◌≡◌, ◌<◌};
ghost use Rattle.comp_model.specs.Model.{no_leaf, ◌▸◌};
ghost use Rattle.wire_tree.specs.Lists.{listed};
ghost use Rattle.wire_tree.specs.Model.{leaf_of};
ghost use Rattle.item_read.specs.Parts.{count, last as last_leaf};

use wire_tree::Leaf;

/// The one leaf of a row.
#[tactic(auto, using(crate::proofs::ByLength::one_leaf, crate::proofs::ByLength::counted_leaves))]
pub fn one<'t, 'a>(leaves: &'t [Leaf<'t, 'a>]) -> &'t Leaf<'t, 'a>
    requires { count (listed leaves.now) ≡ 1 }
    ensures { listed leaves.now ≡ leaf_of result.now ▸ no_leaf }
{
    &leaves[0]
}

/// The two leaves of a row.
#[tactic(auto, using(crate::proofs::ByLength::two_leaves, crate::proofs::ByLength::counted_leaves))]
pub fn two<'t, 'a>(leaves: &'t [Leaf<'t, 'a>]) -> (&'t Leaf<'t, 'a>, &'t Leaf<'t, 'a>)
    requires { count (listed leaves.now) ≡ 2 }
    ensures { listed leaves.now ≡ leaf_of result.0.now ▸ leaf_of result.1.now ▸ no_leaf }
{
    (&leaves[0], &leaves[1])
}

/// The three leaves of a row.
#[tactic(auto, using(crate::proofs::ByLength::three_leaves, crate::proofs::ByLength::counted_leaves))]
pub fn three<'t, 'a>(
    leaves: &'t [Leaf<'t, 'a>],
) -> (&'t Leaf<'t, 'a>, &'t Leaf<'t, 'a>, &'t Leaf<'t, 'a>)
    requires { count (listed leaves.now) ≡ 3 }
    ensures { listed leaves.now ≡ leaf_of result.0.now ▸ leaf_of result.1.now ▸ leaf_of result.2.now ▸ no_leaf }
{
    (&leaves[0], &leaves[1], &leaves[2])
}

/// The last leaf of a row.
#[tactic(auto, using(crate::proofs::ByLength::last_one, crate::proofs::ByLength::counted_leaves))]
pub fn last<'t, 'a>(leaves: &'t [Leaf<'t, 'a>]) -> &'t Leaf<'t, 'a>
    requires { 0 < count (listed leaves.now) }
    ensures { leaf_of result.now ≡ last_leaf (listed leaves.now) }
{
    &leaves[leaves.len() - 1]
}
