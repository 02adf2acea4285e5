//! The outer aliases of a scope, each looked up by the item of an enclosing scope that it is of (Component Model text format, "Alias
//! Definitions").
//!
//! There is one alias for each outer item, however many names lead to it. A name is no key: equal names of different items have different
//! aliases.

ghost use Rattle.std.specs.Prelude.{◌≡◌, ◌++◌, ◌∷◌, [], List, OnOk, None};
ghost use Rattle.comp_scopes.specs.Names.{Denoted};
ghost use Rattle.comp_tables.specs.Tables.{Aliased, alias_of};
ghost use Rattle.open_scopes.specs.Aliases.{IsAliasKey, AliasesShow};
ghost use Rattle.open_scopes.specs.Shown.{found_of};

use crate::lookup::Found;
use comp_model::Space;
use comp_wire::space_number;
use std::alloc::{AllocError, Global};
use std::collections::BTreeMap;

/// By what an alias is looked up: the depth and the definition of its item, the part, and the number of its space.
type AliasKey = ((u32, u32), (u32, u8));

/// The key of the alias of an item of a space.
fn alias_key(space: Space, found: Found) -> AliasKey
    ensures { (d : Denoted) → found ≡ found_of d → IsAliasKey result space d }
{
    (
        (found.depth, found.item.definition),
        (found.item.part, space_number(space)),
    )
}

/// The outer aliases of one scope so far, and the index of each.
#[derive(Drop)]
pub struct Aliases {
    by_item: BTreeMap<AliasKey, u32>,
}

impl Aliases {
    /// None. It takes no memory.
    pub fn new(alloc: Global) -> Aliases
        ensures { AliasesShow result [] }
    {
        Aliases {
            by_item: BTreeMap::new(alloc),
        }
    }

    /// The index, in the scope itself, of the alias of an item of a space that was found in an enclosing one; `None` where there is none.
    /// It takes no memory.
    pub fn find(&self, space: Space, found: Found) -> Option<u32>
        ensures { (xs : List Aliased) (d : Denoted) → AliasesShow self.now xs → found ≡ found_of d → result ≡ alias_of space d xs }
    {
        self.by_item.get(&alias_key(space, found)).copied()
    }

    /// Notes the alias of an item of which there is none, under its index in the scope itself.
    ///
    /// An `Err` is want of memory; behind it nothing is said of the aliases.
    pub fn note(&mut self, space: Space, found: Found, index: u32) -> Result<(), AllocError>
        ensures { OnOk result ((xs : List Aliased) (d : Denoted) → AliasesShow self.old xs → found ≡ found_of d → alias_of space d xs ≡ None → AliasesShow self.new (xs ++ record { space = space; denoted = d; index = index } ∷ [])) }
    {
        match self.by_item.insert(alias_key(space, found), index) {
            Ok(_) => Ok(()),
            Err(_) => Err(AllocError),
        }
    }
}
