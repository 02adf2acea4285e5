//! References to items by an index or a path (Component Model, "Alias Definitions").

ghost use Rattle.std.specs.Prelude.{◌≡◌, ◌∷◌, [], MatchResult};
ghost use Rattle.comp_model.specs.Model.{◌▸◌, no_leaf};
ghost use Rattle.comp_model.specs.Rows.{a_ref};
ghost use Rattle.text_rules.specs.ReferenceRules.{item_of};
ghost use Rattle.text_rules.specs.Rule.{reads};
ghost use Rattle.text_table.specs.Code.{rule_of};
ghost use Rattle.text_table.specs.ItemKinds.{item_space};
ghost use Rattle.typed_parts.specs.Leaves.{left_by};
ghost use Rattle.wast_parser.specs.Standing.{by_relation};
ghost use Rattle.comp_items.specs.Items.{item_leaf};
ghost use Rattle.comp_items.specs.Copies.{AreSame, NoRoom};
ghost use Rattle.comp_items.specs.ReferenceLaws.{reads_item};

use crate::refusals::no_room;
use crate::words::{ItemWord, space_of};
use bumpalo::Bump;
use comp_tree::{Leaf, place_all};
use std::alloc::{AllocError, Global};
use text_table::item_reference;
use text_table::rule::Rule;
use typed_nodes::{OfLeaf, reference_leaf, root_in, steps_in};
use typed_parts::{OfLeaves, read_leaves};
use wast_parser::{Error, Index, Parse, Parser};

/// A reference to an item, with the names of exports that lead to it from an instance.
#[derive(Drop)]
pub struct ItemRef<'a, K> {
    /// The word of its kind. Where it stands isn't kept in the tree: the place is 0.
    pub kind: K,
    /// The item, or the instance from which the names lead to it.
    pub idx: Index<'a>,
    /// The names of exports, in the order in which they are followed.
    pub export_names: Vec<&'a str>,
}

impl<'a, K: Copy> ItemRef<'a, K> {
    /// An equal reference. It is refused where memory ran out, as `NoMemory` at offset 0.
    pub fn copy(&self, alloc: Global) -> Result<ItemRef<'a, K>, Error>
        ensures { MatchResult result (AreSame self.now) NoRoom }
    {
        let mut export_names = Vec::new(alloc);
        export_names.extend_from_slice(self.export_names.as_slice())?;
        Ok(ItemRef {
            kind: self.kind,
            idx: self.idx,
            export_names,
        })
    }
}

impl<'a, K: ItemWord> OfLeaf<'a> for ItemRef<'a, K> {
    ghost shape = { a_ref (item_space K.item_kind) };

    ghost leaf = { λ x. item_leaf (item_space K.item_kind) x.idx x.export_names.items };

    fn into_leaf<'t>(&self, alloc: Global, bump: &'t Bump) -> Result<Leaf<'t, 'a>, AllocError> {
        reference_leaf(
            bump,
            space_of(K::kind()),
            self.idx,
            self.export_names.as_slice(),
        )
    }

    fn from_leaf(alloc: Global, bump: &'a Bump, part: &Leaf<'_, 'a>) -> Result<Self, AllocError> {
        Ok(ItemRef {
            kind: K::default(),
            idx: root_in(part),
            export_names: steps_in(alloc, part)?,
        })
    }
}

impl<'a, K: ItemWord> OfLeaves<'a> for ItemRef<'a, K> {
    ghost line = { item_of (item_space K.item_kind) };

    ghost is_readable = { (reads_item K.item_kind).taken };

    ghost shapes = { a_ref (item_space K.item_kind) ∷ [] };

    ghost is_of_shapes = { (reads_item K.item_kind).shaped };

    ghost leaves = { λ x. item_leaf (item_space K.item_kind) x.idx x.export_names.items ▸ no_leaf };

    fn rule() -> &'static Rule<'static>
        ensures { rule_of result.now ≡ item_of (item_space K.item_kind) }
    {
        item_reference(K::kind())
    }

    fn into_tree<'t>(
        &self,
        alloc: Global,
        bump: &'t Bump,
    ) -> Result<&'t [Leaf<'t, 'a>], AllocError> {
        let leaf = self.into_leaf(alloc, bump)?;
        place_all(bump, &[leaf])
    }

    fn from_tree(
        alloc: Global,
        bump: &'a Bump,
        parts: &[Leaf<'_, 'a>],
    ) -> Result<ItemRef<'a, K>, AllocError> {
        <ItemRef<'a, K> as OfLeaf<'a>>::from_leaf(alloc, bump, &parts[0])
    }
}

/// `k idx text*`, where `k` is the word of the kind.
impl<'a, K: ItemWord> Parse<'a> for ItemRef<'a, K> {
    ghost grammar = { reads (item_of (item_space K.item_kind)) };

    ghost is_sound = { (reads_item K.item_kind).read_on };

    ghost is_clear = { (reads_item K.item_kind).decided };

    ghost stands = { by_relation (λ x v. item_leaf (item_space K.item_kind) x.idx x.export_names.items ▸ no_leaf ≡ left_by (item_of (item_space K.item_kind)) v) };

    fn parse(alloc: Global, parser: &mut Parser<'a>) -> Result<ItemRef<'a, K>, Error> {
        let bump = parser.arena();
        match read_leaves(alloc, <ItemRef<'a, K> as OfLeaves<'a>>::rule(), parser) {
            Ok(leaves) => {
                match <ItemRef<'a, K> as OfLeaves<'a>>::from_tree(alloc, bump, leaves.as_slice()) {
                    Ok(item) => Ok(item),
                    Err(AllocError) => Err(no_room()),
                }
            }
            Err(refusal) => Err(refusal),
        }
    }
}
