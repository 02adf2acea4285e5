//! How many items of each space there are.

ghost use Rattle.std.specs.Prelude.{◌≡◌, ◌+◌, ◌<◌, ◌^◌, ℕ, List, nat_lt, cond};
ghost use Rattle.comp_model.specs.declared.Space.{Space as ModelSpace};
ghost use Rattle.comp_model.specs.Spaces.{same_space, count_in, declares_row, leaves_spaces};
ghost use Rattle.wire_tree.specs.Lists.{listed};
ghost use Rattle.item_tree.specs.Model.{item_row};
ghost use Rattle.comp_list.specs.Places.{row_spaces};
ghost use Rattle.comp_list.specs.Runs.{run_of};
ghost use Rattle.comp_order.specs.Counts.{capped, counted};

use comp_list::{Run, item_run, leaf_run};
use comp_model::{Declares, Space, declares_by};
use comp_wire::space_number;
use item_tree::Item;
use std::marker::Model;
use wire_tree::{Leaf, Node};

/// How many items of each space there are; `u64::MAX` stands for every greater number.
#[derive(Drop)]
pub struct Counts {
    counts: [u64; 13],
}

impl Model for Counts {
    ghost use Rattle.std.specs.Prelude.{ℕ, List};

    ghost Value = { List ℕ };

    ghost view = { λ c. c.counts };
}

impl Counts {
    /// None of any space.
    #[tactic(auto, using(crate::proofs::Tables::none_counted))]
    pub fn none() -> Counts
        ensures { (s : ModelSpace) → counted result s ≡ 0 }
    {
        Counts { counts: [0; 13] }
    }

    /// How many items of a space there are.
    pub fn of(&self, space: Space) -> u64
        ensures { result ≡ counted self.now space }
    {
        self.counts[space_number(space) as usize]
    }

    /// So many more items of a space.
    fn add(&mut self, space: Space, count: u64)
        ensures { (s : ModelSpace) → counted self.new s ≡ cond (same_space s space) (capped (counted self.old s + count)) (counted self.old s) }
    {
        self.counts[space_number(space) as usize] = self.of(space).saturating_add(count);
    }

    /// A run of items more.
    #[tactic(auto, using(crate::proofs::Counting::run_counted))]
    fn add_run(&mut self, run: Run)
        ensures { (s : ModelSpace) → capped (counted self.new s) ≡ capped (counted self.old s + count_in s (run_of run)) }
    {
        self.add(run.space, run.count);
    }

    /// The items that leaves give more.
    fn add_leaves(&mut self, leaves: &[Leaf<'_, '_>], by: Declares)
        ensures { (s : ModelSpace) → capped (counted self.new s) ≡ capped (counted self.old s + count_in s (leaves_spaces (listed leaves.now) by)) }
    {
        for leaf in leaves {
            self.add_run(leaf_run(leaf, by));
        }
    }

    /// The items that a definition of a tree declares more.
    pub fn add_item(&mut self, item: &Item<'_>)
        ensures { (s : ModelSpace) → capped (counted self.new s) ≡ capped (counted self.old s + count_in s (row_spaces (item_row item.now))) }
    {
        self.add_run(item_run(item));
    }

    /// The items that a definition declares more.
    pub fn add_def(&mut self, node: &Node<'_, '_>)
        ensures { (s : ModelSpace) → capped (counted self.new s) ≡ capped (counted self.old s + count_in s (declares_row node.now.row (listed node.now.leaves.now))) }
    {
        match declares_by(node.row) {
            Declares::Always(space) => self.add(space, 1),
            Declares::ByKind => self.add_leaves(node.leaves, Declares::ByKind),
            Declares::ByDescription => self.add_leaves(node.leaves, Declares::ByDescription),
            Declares::ByReference => self.add_leaves(node.leaves, Declares::ByReference),
            Declares::ByList => self.add_leaves(node.leaves, Declares::ByList),
            Declares::ByResults => self.add_leaves(node.leaves, Declares::ByResults),
            Declares::Nothing => {}
        }
    }
}
