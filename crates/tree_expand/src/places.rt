//! The numbers in the text of the references that are left in a definition.

ghost use Rattle.std.specs.Prelude.{◌≡◌, ◌+◌, ◌++◌, ◌∷◌, [], OnOk, IfOk};
ghost use Rattle.tree_expand.specs.Placed.{places_now};

use bumpalo::Bump;
use comp_tree::{first_places, place_all};
use std::alloc::{AllocError, Global};

/// Places, in leaf order. While they are 0 and those after it, they are counted and take no memory.
#[derive(Drop)]
pub(crate) struct Places {
    /// How many there are, while there is no list.
    count: u32,
    /// All of them, once one is not the next.
    list: Vec<u32>,
}

/// No places.
pub(crate) fn no_places<'t>() -> &'t [u32]
    ensures { result.now ≡ [] }
{
    &[]
}

impl Places {
    /// None. It takes no memory.
    pub(crate) fn new(alloc: Global) -> Places
        ensures { places_now result ≡ [] }
    {
        Places {
            count: 0,
            list: Vec::new(alloc),
        }
    }

    /// Puts a place behind the others; `next` is the one after it.
    pub(crate) fn push(&mut self, alloc: Global, place: u32, next: u32) -> Result<(), AllocError>
        requires { next ≡ place + 1 }
        ensures { OnOk result (places_now self.new ≡ places_now self.old ++ place ∷ []) }
    {
        if self.list.len() > 0 {
            self.list.push(place)?;
            return Ok(());
        }
        if place == self.count {
            self.count = next;
            return Ok(());
        }
        self.list = first_places(alloc, self.count)?;
        self.list.push(place)?;
        Ok(())
    }

    /// The places of a definition, in the arena: none where they are 0 and those after it.
    pub(crate) fn placed<'t>(&self, bump: &'t Bump) -> Result<&'t [u32], AllocError>
        ensures { IfOk result (λ r. r.now ≡ self.now.list.items) }
    {
        if self.list.len() == 0 {
            return Ok(no_places());
        }
        place_all(bump, &self.list)
    }
}
