//! How many items of each space stand in front of a place.

ghost use Rattle.std.specs.Prelude.{◌≡◌, ◌<◌, ◌^◌, ◌-◌, length, replicate};
ghost use Rattle.comp_tables.specs.Walks.{counters_in, one_more};

use comp_model::Space;
use comp_wire::space_number;
use std::marker::Model;

/// How many items there were of each space.
#[derive(Drop)]
pub struct Counters {
    counts: [u32; 13],
}

impl Model for Counters {
    ghost use Rattle.std.specs.Prelude.{ℕ, List};

    ghost Value = { List ℕ };

    ghost view = { λ c. c.counts };
}

impl Counters {
    /// At the head of a scope: none of any space.
    pub fn new() -> Counters
        ensures { result ≡ replicate 13 0 }
    {
        Counters { counts: [0; 13] }
    }

    /// As many of each space.
    pub fn copy(&self) -> Counters
        ensures { result ≡ self.now }
    {
        Counters {
            counts: self.counts,
        }
    }

    /// How many items of a space there were, which is the index of the next one.
    pub fn of(&self, space: Space) -> u32
        ensures count { result ≡ counters_in self.now space }
    {
        self.counts[space_number(space) as usize]
    }

    /// One more item of a space, of which there are fewer than 2^32 - 1.
    pub fn advance(&mut self, space: Space)
        requires { counters_in self.old space < 2 ^ 32 - 1 }
        ensures { self.new ≡ one_more self.old space }
    {
        self.counts[space_number(space) as usize] += 1;
    }
}
