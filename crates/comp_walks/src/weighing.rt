//! The weight of a tree, by which it is limited.

ghost use Rattle.std.specs.Prelude.{◌≡◌, ◌<◌, ◌+◌, ◌*◌, ◌^◌, length, option_map};
ghost use Rattle.comp_model.specs.Model.{Leaf, ref, text, scope_of};
ghost use Rattle.comp_model.specs.declared.row.ScopeKind.TheVariants as kinds;
ghost use Rattle.comp_model.specs.Weight.{weight, weight_of_leaf, weight_of_leaves, weight_of_names, weight_of_id, weight_of_label, weight_of_all};
ghost use Rattle.core_model.specs.Weight.{module_weight};
ghost use Rattle.comp_walks.specs.Lent.{id_of, ids_of, label_of, labels_of, texts_of, joined, names_of, target_of};
ghost use Rattle.comp_walks.specs.Lists.{definitions};
ghost use Rattle.comp_walks.specs.Weigh.{capped, weight_of_exports};

use crate::part::{Names, Part};
use crate::visitor::{CoreSource, Visitor};
use crate::walk::{Definition, Node, Walk, walk_definitions};
use comp_model::{ScopeKind, Space};
use std::marker::Model;
use wast_parser::{Id, Index};

/// What a tree weighs as far as it was told.
#[derive(Drop)]
struct Total {
    sum: u64,
}

impl Model for Total {
    ghost use Rattle.std.specs.Prelude.{ℕ};

    ghost Value = { ℕ };

    ghost view = { λ t. t.sum };
}

impl Total {
    /// The weight of nothing.
    fn new() -> Total
        ensures { result ≡ 0 }
    {
        Total { sum: 0 }
    }

    /// The weight so far.
    fn sum(&self) -> u64
        ensures { result ≡ self.now }
    {
        self.sum
    }

    /// Adds to the weight.
    #[inline]
    fn add(&mut self, more: u64)
        ensures { self.new ≡ capped (self.old + more) }
    {
        self.sum = self.sum.saturating_add(more);
    }

    /// Adds the weight of a part with a text.
    #[inline]
    fn add_text(&mut self, length: usize)
        ensures { self.new ≡ capped (self.old + (32 + length)) }
    {
        self.add(32);
        self.add(length as u64);
    }
}

impl Total {
    /// Adds the length of an id.
    fn add_id(&mut self, id: Option<Id<'_>>)
        requires { self.old < 2 ^ 64 }
        ensures { self.new ≡ capped (self.old + weight_of_id (option_map id_of id.entry)) }
    {
        if let Some(id) = id {
            self.add(id.name().len() as u64);
        }
    }

    /// Adds the length of a label.
    fn add_label(&mut self, label: Option<&str>)
        requires { self.old < 2 ^ 64 }
        ensures { self.new ≡ capped (self.old + weight_of_label (label_of label.entry)) }
    {
        if let Some(label) = label {
            self.add(label.len() as u64);
        }
    }

    /// Adds the lengths of ids.
    fn add_ids(&mut self, ids: &[Option<Id<'_>>])
        requires { self.old < 2 ^ 64 }
        ensures { self.new ≡ capped (self.old + weight_of_all weight_of_id (ids_of ids.now)) }
    {
        for id in ids {
            self.add_id(*id);
        }
    }

    /// Adds the lengths of labels.
    fn add_labels(&mut self, labels: &[Option<&str>])
        requires { self.old < 2 ^ 64 }
        ensures { self.new ≡ capped (self.old + weight_of_all weight_of_label (labels_of labels.now)) }
    {
        for label in labels {
            self.add_label(*label);
        }
    }

    /// Adds the weight of export names.
    fn add_exports(&mut self, names: &[&str])
        requires { self.old < 2 ^ 64 }
        ensures { self.new ≡ capped (self.old + weight_of_exports (texts_of names.now)) }
    {
        for name in names {
            self.add_text(name.len());
        }
    }
}

impl Total {
    /// Adds the weight of a text in pieces.
    fn add_pieces(&mut self, pieces: &[&[u8]])
        ensures { self.new ≡ capped (self.old + (32 + length (joined pieces.now))) }
    {
        self.add(32);
        for piece in pieces {
            self.add(piece.len() as u64);
        }
    }

    /// Adds the weight of the results of a start function.
    fn add_results(&mut self, results: usize)
        ensures { self.new ≡ capped (self.old + (32 + 32 * results)) }
    {
        self.add(32);
        self.add((results as u64).saturating_mul(32));
    }

    /// Adds the weight of a reference.
    #[tactic(auto, using(crate::proofs::WeightTold::target_weighed))]
    fn add_reference(&mut self, space: Space, index: Index<'_>, exports: &[&str])
        ensures { self.new ≡ capped (self.old + weight_of_leaf module_weight (ref space (target_of index.entry (texts_of exports.now)))) }
    {
        self.add(32);
        self.add_exports(exports);
    }

    /// Adds the weight of the names of a definition.
    fn add_names(&mut self, names: Names<'_>)
        ensures { self.new ≡ capped (self.old + (32 + weight_of_names (names_of names.entry))) }
    {
        self.add(32);
        self.add_ids(names.ids);
        self.add_labels(names.labels);
        self.add_exports(names.exports);
    }
}

impl Visitor for Total {
    ghost use Rattle.comp_model.specs.Events.{enters_all};
    ghost use Rattle.core_model.specs.Weight.{module_weight};
    ghost use Rattle.comp_walks.specs.Weigh.{weigh_step};

    ghost step = { weigh_step module_weight };

    ghost enters = { enters_all };

    fn enters(&self) -> bool {
        true
    }

    #[inline(always)]
    fn tell(&mut self, part: Part<'_>) {
        match part {
            Part::Text(text) => self.add_text(text.len()),
            Part::Pieces(pieces) => self.add_pieces(pieces),
            Part::Reference(space, index, exports) => self.add_reference(space, index, exports),
            Part::Results(results) => self.add_results(results.len()),
            Part::Definition(names) => self.add_names(names),
            Part::Ended(_) | Part::Closed => {}
            Part::Index(_, _, Index::Num(..)) => self.add(32),
            Part::Index(_, _, Index::Id(_)) => self.add(32),
            _ => self.add(32),
        }
    }

    fn tell_module<M: CoreSource>(&mut self, source: &M) {
        self.add(32);
        self.add(source.weight());
    }
}

/// The weight of a leaf.
pub fn weigh<T: Walk>(part: &T) -> u64
    ensures { result ≡ capped (weight_of_leaf module_weight (T.leaf part.now)) }
{
    let mut total = Total::new();
    part.walk(&mut total);
    total.sum()
}

/// The weight of the leaves of a node.
pub fn weigh_leaves<T: Node>(node: &T) -> u64
    ensures { result ≡ capped (weight_of_leaves module_weight (T.leaves node.now)) }
{
    let mut total = Total::new();
    node.walk_leaves(&mut total);
    total.sum()
}

/// The weight of a component with an id, a label and definitions.
///
/// It counts 32 for each scope, definition, node, leaf, export name and result of a start function, and the lengths in bytes of
/// all texts, ids and labels. `u64::MAX` stands for every greater weight.
pub fn weigh_component<T: Definition>(id: Option<Id<'_>>, label: Option<&str>, items: &[T]) -> u64
    ensures { result ≡ capped (weight module_weight (scope_of kinds.Component (option_map id_of id.entry) (label_of label.entry) (definitions T.def items.now))) }
{
    let mut total = Total::new();
    total.add_id(id);
    total.add_label(label);
    total.tell(Part::Scope(ScopeKind::Component, id, label));
    walk_definitions(items, &mut total);
    total.sum()
}
