//! References to core items by an index, or by the name of an export of a core instance (Component Model, "Alias Definitions" and "Canonical
//! Definitions").

ghost use Rattle.std.specs.Prelude.{◌≡◌, ◌∷◌, []};
ghost use Rattle.comp_model.specs.Model.{◌▸◌, no_leaf};
ghost use Rattle.comp_model.specs.Rows.{a_ref};
ghost use Rattle.text_rules.specs.ReferenceRules.{core_item_of};
ghost use Rattle.text_rules.specs.Rule.{reads};
ghost use Rattle.text_table.specs.Code.{rule_of};
ghost use Rattle.text_table.specs.ItemKinds.{core_item_space};
ghost use Rattle.typed_parts.specs.Leaves.{left_by};
ghost use Rattle.wast_parser.specs.Standing.{by_relation};
ghost use Rattle.comp_items.specs.Items.{core_item_leaf};
ghost use Rattle.comp_items.specs.ReferenceLaws.{reads_core_item};

use crate::refusals::no_room;
use crate::words::{CoreItemWord, core_space_of};
use bumpalo::Bump;
use comp_tree::{Leaf, place_all};
use std::alloc::{AllocError, Global};
use text_table::core_item_reference;
use text_table::rule::Rule;
use typed_nodes::{OfLeaf, reference_leaf, root_in, step_in};
use typed_parts::{OfLeaves, read_leaves};
use wast_parser::{Error, Index, Parse, Parser};

/// A reference to a core item, with the name of the export that it is of a core instance.
#[derive(Clone, Drop)]
pub struct CoreItemRef<'a, K> {
    /// The word of its kind. Where it stands isn't kept in the tree: the place is 0.
    pub kind: K,
    /// The item, or the core instance that exports it.
    pub idx: Index<'a>,
    /// The name of the export.
    pub export_name: Option<&'a str>,
}

impl<'a, K: CoreItemWord> OfLeaf<'a> for CoreItemRef<'a, K> {
    ghost shape = { a_ref (core_item_space K.core_item_kind) };

    ghost leaf = { λ x. core_item_leaf (core_item_space K.core_item_kind) x.idx x.export_name };

    fn into_leaf<'t>(&self, alloc: Global, bump: &'t Bump) -> Result<Leaf<'t, 'a>, AllocError> {
        let space = core_space_of(K::core_kind());
        match self.export_name {
            Some(name) => reference_leaf(bump, space, self.idx, &[name]),
            None => reference_leaf(bump, space, self.idx, &[]),
        }
    }

    fn from_leaf(alloc: Global, bump: &'a Bump, part: &Leaf<'_, 'a>) -> Result<Self, AllocError> {
        Ok(CoreItemRef {
            kind: K::default(),
            idx: root_in(part),
            export_name: step_in(part),
        })
    }
}

impl<'a, K: CoreItemWord> OfLeaves<'a> for CoreItemRef<'a, K> {
    ghost line = { core_item_of (core_item_space K.core_item_kind) };

    ghost is_readable = { (reads_core_item K.core_item_kind).taken };

    ghost shapes = { a_ref (core_item_space K.core_item_kind) ∷ [] };

    ghost is_of_shapes = { (reads_core_item K.core_item_kind).shaped };

    ghost leaves = { λ x. core_item_leaf (core_item_space K.core_item_kind) x.idx x.export_name ▸ no_leaf };

    fn rule() -> &'static Rule<'static>
        ensures { rule_of result.now ≡ core_item_of (core_item_space K.core_item_kind) }
    {
        core_item_reference(K::core_kind())
    }

    fn into_tree<'t>(
        &self,
        alloc: Global,
        bump: &'t Bump,
    ) -> Result<&'t [Leaf<'t, 'a>], AllocError> {
        let leaf = self.into_leaf(alloc, bump)?;
        place_all(bump, &[leaf])
    }

    fn from_tree(
        alloc: Global,
        bump: &'a Bump,
        parts: &[Leaf<'_, 'a>],
    ) -> Result<CoreItemRef<'a, K>, AllocError> {
        <CoreItemRef<'a, K> as OfLeaf<'a>>::from_leaf(alloc, bump, &parts[0])
    }
}

/// `k idx text?`, where `k` is the word of the kind.
impl<'a, K: CoreItemWord> Parse<'a> for CoreItemRef<'a, K> {
    ghost grammar = { reads (core_item_of (core_item_space K.core_item_kind)) };

    ghost is_sound = { (reads_core_item K.core_item_kind).read_on };

    ghost is_clear = { (reads_core_item K.core_item_kind).decided };

    ghost stands = { by_relation (λ x v. core_item_leaf (core_item_space K.core_item_kind) x.idx x.export_name ▸ no_leaf ≡ left_by (core_item_of (core_item_space K.core_item_kind)) v) };

    fn parse(alloc: Global, parser: &mut Parser<'a>) -> Result<CoreItemRef<'a, K>, Error> {
        let bump = parser.arena();
        match read_leaves(alloc, <CoreItemRef<'a, K> as OfLeaves<'a>>::rule(), parser) {
            Ok(leaves) => {
                match <CoreItemRef<'a, K> as OfLeaves<'a>>::from_tree(
                    alloc,
                    bump,
                    leaves.as_slice(),
                ) {
                    Ok(item) => Ok(item),
                    Err(AllocError) => Err(no_room()),
                }
            }
            Err(refusal) => Err(refusal),
        }
    }
}
