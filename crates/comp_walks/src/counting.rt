//! How many references a tree has.

ghost use Rattle.std.specs.Prelude.{◌≡◌, ◌+◌};
ghost use Rattle.comp_model.specs.Events.{leaf};
ghost use Rattle.comp_model.specs.Model.{ref, core_value};
ghost use Rattle.comp_scopes.specs.References.{references};
ghost use Rattle.comp_walks.specs.Counting.{count_step};
ghost use Rattle.comp_walks.specs.Lent.{target_of, texts_of, core_value_of};
ghost use Rattle.comp_walks.specs.Weigh.{capped};

use crate::part::{CoreValue, Part};
use crate::visitor::{CoreSource, Visitor};
use crate::walk::Node;
use comp_model::Space;
use std::marker::Model;
use wast_parser::Index;

/// The number of references so far, inner scopes not entered.
#[derive(Drop)]
struct Tally {
    count: u64,
}

impl Model for Tally {
    ghost use Rattle.std.specs.Prelude.{ℕ};

    ghost Value = { ℕ };

    ghost view = { λ t. t.count };
}

impl Tally {
    /// Of nothing.
    fn new() -> Tally
        ensures { result ≡ 0 }
    {
        Tally { count: 0 }
    }

    /// The number.
    fn count(&self) -> u64
        ensures { result ≡ self.now }
    {
        self.count
    }

    /// One more.
    fn add(&mut self)
        ensures { self.new ≡ capped (self.old + 1) }
    {
        self.count = self.count.saturating_add(1);
    }

    /// A reference by its index or a path.
    fn add_reference(&mut self, space: Space, index: Index<'_>, exports: &[&str])
        ensures { self.new ≡ count_step self.old (leaf (ref space (target_of index.entry (texts_of exports.now)))) }
    {
        if !exports.is_empty() {
            self.add();
            return;
        }
        match index {
            Index::Num(..) => self.add(),
            Index::Id(_) => self.add(),
        }
    }

    /// A core value type.
    fn add_core_value(&mut self, value: CoreValue<'_>)
        ensures { self.new ≡ count_step self.old (leaf (core_value (core_value_of value.entry))) }
    {
        match value {
            CoreValue::RefConcrete(_, _, Index::Num(..)) => self.add(),
            CoreValue::RefConcrete(_, _, Index::Id(_)) => self.add(),
            _ => {}
        }
    }
}

impl Visitor for Tally {
    ghost use Rattle.comp_model.specs.Events.{enters_none};
    ghost use Rattle.comp_walks.specs.Counting.{count_step};

    ghost step = { count_step };

    ghost enters = { enters_none };

    fn enters(&self) -> bool {
        false
    }

    #[inline(always)]
    fn tell(&mut self, part: Part<'_>) {
        match part {
            Part::CoreValue(value) => self.add_core_value(value),
            Part::Index(_, _, Index::Num(..)) => self.add(),
            Part::Index(_, _, Index::Id(_)) => self.add(),
            Part::Reference(space, index, exports) => self.add_reference(space, index, exports),
            Part::Inline(_) | Part::Bundle(_) => self.add(),
            _ => {}
        }
    }

    fn tell_module<M: CoreSource>(&mut self, _source: &M) {}
}

/// The number of references in a node, scopes in it not entered. `u64::MAX` stands for every greater number.
pub fn count_references<T: Node>(node: &T) -> u64
    ensures { result ≡ capped (references (T.leaves node.now)) }
{
    let mut tally = Tally::new();
    node.walk_leaves(&mut tally);
    tally.count()
}
