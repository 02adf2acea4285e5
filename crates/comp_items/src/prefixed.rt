//! References that may be an index alone (Component Model, "Alias Definitions" and "Canonical Definitions").

ghost use Rattle.std.specs.Prelude.{◌≡◌, ◌≤◌, ◌∷◌, [], MatchResult};
ghost use Rattle.comp_model.specs.Model.{◌▸◌, no_leaf};
ghost use Rattle.comp_model.specs.Rows.{a_ref};
ghost use Rattle.text_rules.specs.Rule.{reads};
ghost use Rattle.text_table.specs.Code.{rule_of};
ghost use Rattle.text_table.specs.ItemKinds.{item_space, core_item_space};
ghost use Rattle.typed_parts.specs.Leaves.{left_by};
ghost use Rattle.wast_grammar.specs.Read.{read};
ghost use Rattle.wast_parser.specs.Standing.{ComesBy, by_relation};
ghost use Rattle.comp_items.specs.Copies.{AreSame, NoRoom};
ghost use Rattle.comp_items.specs.Items.{item_leaf, core_item_leaf, item_or_index, prefixed_core_item};
ghost use Rattle.comp_items.specs.ReferenceLaws.{reads_item_or_index, reads_prefixed};

use crate::core_items::CoreItemRef;
use crate::items::ItemRef;
use crate::refusals::no_room;
use crate::words::{CoreItemWord, ItemWord};
use bumpalo::Bump;
use comp_tree::Leaf;
use std::alloc::{AllocError, Global};
use text_table::rule::Rule;
use text_table::{core_item_of_either_form, index_or_core_item, index_or_item_reference};
use typed_parts::{OfLeaves, read_leaves};
use wast_parser::{Error, Parse, Parser};

/// A reference to an item: its index alone, or in parentheses the word of its kind with the names that lead to it.
#[derive(Drop)]
pub struct IndexOrRef<'a, K>(pub ItemRef<'a, K>);

impl<'a, K: Copy> IndexOrRef<'a, K> {
    /// An equal reference. It is refused where memory ran out, as `NoMemory` at offset 0.
    pub fn copy(&self, alloc: Global) -> Result<IndexOrRef<'a, K>, Error>
        ensures { MatchResult result (λ x. AreSame self.now.0 x.0) NoRoom }
    {
        match self.0.copy(alloc) {
            Ok(item) => Ok(IndexOrRef(item)),
            Err(refusal) => Err(refusal),
        }
    }
}

impl<'a, K: ItemWord> OfLeaves<'a> for IndexOrRef<'a, K> {
    ghost line = { item_or_index (item_space K.item_kind) };

    ghost is_readable = { (reads_item_or_index K.item_kind).taken };

    ghost shapes = { a_ref (item_space K.item_kind) ∷ [] };

    ghost is_of_shapes = { (reads_item_or_index K.item_kind).shaped };

    ghost leaves = { λ x. item_leaf (item_space K.item_kind) x.0.idx x.0.export_names.items ▸ no_leaf };

    fn rule() -> &'static Rule<'static>
        ensures { rule_of result.now ≡ item_or_index (item_space K.item_kind) }
    {
        index_or_item_reference(K::kind())
    }

    fn into_tree<'t>(
        &self,
        alloc: Global,
        bump: &'t Bump,
    ) -> Result<&'t [Leaf<'t, 'a>], AllocError> {
        self.0.into_tree(alloc, bump)
    }

    fn from_tree(
        alloc: Global,
        bump: &'a Bump,
        parts: &[Leaf<'_, 'a>],
    ) -> Result<IndexOrRef<'a, K>, AllocError> {
        let item = <ItemRef<'a, K> as OfLeaves<'a>>::from_tree(alloc, bump, parts)?;
        Ok(IndexOrRef(item))
    }
}

/// `ior(k) = idx | "(" k idx text* ")"`, where `k` is the word of the kind.
impl<'a, K: ItemWord> Parse<'a> for IndexOrRef<'a, K> {
    ghost grammar = { reads (item_or_index (item_space K.item_kind)) };

    ghost is_sound = { (reads_item_or_index K.item_kind).read_on };

    ghost is_clear = { (reads_item_or_index K.item_kind).decided };

    ghost stands = { by_relation (λ x v. item_leaf (item_space K.item_kind) x.0.idx x.0.export_names.items ▸ no_leaf ≡ left_by (item_or_index (item_space K.item_kind)) v) };

    fn parse(alloc: Global, parser: &mut Parser<'a>) -> Result<IndexOrRef<'a, K>, Error> {
        let bump = parser.arena();
        match read_leaves(alloc, <IndexOrRef<'a, K> as OfLeaves<'a>>::rule(), parser) {
            Ok(leaves) => {
                match <IndexOrRef<'a, K> as OfLeaves<'a>>::from_tree(
                    alloc,
                    bump,
                    leaves.as_slice(),
                ) {
                    Ok(item) => Ok(item),
                    Err(AllocError) => Err(no_room()),
                }
            }
            Err(refusal) => Err(refusal),
        }
    }
}

/// A reference to a core item: its index alone, or in parentheses `core`, the word of its kind and the name of the export that it is.
///
/// Where `LEGACY` is set and the text is read in older forms too, `core` may be missing.
#[derive(Clone, Drop)]
pub struct CorePrefixedRef<'a, K, const LEGACY: bool>(pub CoreItemRef<'a, K>);

/// The rule of a reference in either form, or in the newer one.
fn prefixed_rule<K: CoreItemWord>(legacy: bool) -> &'static Rule<'static>
    ensures { rule_of result.now ≡ prefixed_core_item legacy (core_item_space K.core_item_kind) }
{
    match legacy {
        true => core_item_of_either_form(K::core_kind()),
        false => index_or_core_item(K::core_kind()),
    }
}

/// Reads a reference in either form, or in the newer one.
fn read_prefixed<'a, K: CoreItemWord>(
    alloc: Global,
    legacy: bool,
    parser: &mut Parser<'a>,
) -> Result<CoreItemRef<'a, K>, Error>
    ensures gives { ComesBy (λ x v. core_item_leaf (core_item_space K.core_item_kind) x.idx x.export_name ▸ no_leaf ≡ left_by (prefixed_core_item legacy (core_item_space K.core_item_kind)) v) result parser.new (read (reads (prefixed_core_item legacy (core_item_space K.core_item_kind))) parser.old) }
    ensures text { parser.new.text ≡ parser.old.text }
    ensures forward { parser.old.at ≤ parser.new.at }
{
    let bump = parser.arena();
    match read_leaves(alloc, prefixed_rule::<K>(legacy), parser) {
        Ok(leaves) => {
            match <CoreItemRef<'a, K> as OfLeaves<'a>>::from_tree(alloc, bump, leaves.as_slice()) {
                Ok(item) => Ok(item),
                Err(AllocError) => Err(no_room()),
            }
        }
        Err(refusal) => Err(refusal),
    }
}

impl<'a, K: CoreItemWord, const LEGACY: bool> OfLeaves<'a> for CorePrefixedRef<'a, K, LEGACY> {
    ghost line = { prefixed_core_item LEGACY (core_item_space K.core_item_kind) };

    ghost is_readable = { (reads_prefixed LEGACY K.core_item_kind).taken };

    ghost shapes = { a_ref (core_item_space K.core_item_kind) ∷ [] };

    ghost is_of_shapes = { (reads_prefixed LEGACY K.core_item_kind).shaped };

    ghost leaves = { λ x. core_item_leaf (core_item_space K.core_item_kind) x.0.idx x.0.export_name ▸ no_leaf };

    fn rule() -> &'static Rule<'static>
        ensures { rule_of result.now ≡ prefixed_core_item LEGACY (core_item_space K.core_item_kind) }
    {
        prefixed_rule::<K>(LEGACY)
    }

    fn into_tree<'t>(
        &self,
        alloc: Global,
        bump: &'t Bump,
    ) -> Result<&'t [Leaf<'t, 'a>], AllocError> {
        self.0.into_tree(alloc, bump)
    }

    fn from_tree(
        alloc: Global,
        bump: &'a Bump,
        parts: &[Leaf<'_, 'a>],
    ) -> Result<CorePrefixedRef<'a, K, LEGACY>, AllocError> {
        let item = <CoreItemRef<'a, K> as OfLeaves<'a>>::from_tree(alloc, bump, parts)?;
        Ok(CorePrefixedRef(item))
    }
}

/// `cref(k)`, or without the older form `nref(k)`, where `k` is the word of the kind.
impl<'a, K: CoreItemWord, const LEGACY: bool> Parse<'a> for CorePrefixedRef<'a, K, LEGACY> {
    ghost grammar = { reads (prefixed_core_item LEGACY (core_item_space K.core_item_kind)) };

    ghost is_sound = { (reads_prefixed LEGACY K.core_item_kind).read_on };

    ghost is_clear = { (reads_prefixed LEGACY K.core_item_kind).decided };

    ghost stands = { by_relation (λ x v. core_item_leaf (core_item_space K.core_item_kind) x.0.idx x.0.export_name ▸ no_leaf ≡ left_by (prefixed_core_item LEGACY (core_item_space K.core_item_kind)) v) };

    fn parse(
        alloc: Global,
        parser: &mut Parser<'a>,
    ) -> Result<CorePrefixedRef<'a, K, LEGACY>, Error> {
        match read_prefixed::<K>(alloc, LEGACY, parser) {
            Ok(item) => Ok(CorePrefixedRef(item)),
            Err(refusal) => Err(refusal),
        }
    }
}
