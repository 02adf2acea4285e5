//! What the names of definitions denote: looked up as references are counted, and taken as indices are written.

ghost use Rattle.std.specs.Prelude.{◌≡◌, ◌<◌, ◌^◌, ◌∷◌, [], ℕ, List, Option, length, IfOk, IfErr, OnOk};
ghost use Rattle.comp_tables.specs.Tables.{Opened};
ghost use Rattle.comp_walks.specs.Lent.{id_of, reach_of};
ghost use Rattle.open_scopes.specs.declared.lookup.Found.{Found as Denoted};
ghost use Rattle.open_scopes.specs.Refusals.{no_memory};
ghost use Rattle.open_scopes.specs.Shown.{OpenScopesShow};
ghost use Rattle.tree_names.specs.AllFound.{name_found, FoundBehind};

use crate::refusals::no_memory;
use comp_model::Space;
use comp_walks::Reach;
use open_scopes::{Found, Open, find};
use wast_parser::{Error, Id};

/// Looks a name up, and keeps what it denotes behind what others do. Want of memory is `NoMemory` at 0.
pub(crate) fn find_kept<'a>(
    scopes: &[Open<'a>],
    space: Space,
    reach: Reach<'_>,
    id: Id<'a>,
    found: &mut Vec<Option<Found>>,
) -> Result<Option<Found>, Error>
    requires few { length scopes.now < 2 ^ 32 }
    ensures denoted { IfOk result (λ d. (ms : List Opened) → OpenScopesShow scopes.now ms → d ≡ name_found ms space (reach_of reach.entry) (id_of id.entry)) }
    ensures kept { OnOk result (FoundBehind scopes.now (λ ms. name_found ms space (reach_of reach.entry) (id_of id.entry) ∷ []) found.old.items found.new.items) }
    ensures refused { IfErr result (λ e. e ≡ no_memory) }
{
    let denoted = find(scopes, space, reach, id);
    match found.push(denoted) {
        Ok(()) => Ok(denoted),
        Err(_) => Err(no_memory()),
    }
}

/// What was kept, from the next name on.
#[derive(Clone, Copy, Drop)]
pub struct Denotations<'k> {
    /// What the next name denotes, and those behind it; `None` where it denotes nothing.
    pub left: &'k [Option<Found>],
    /// Which outer alias serves the next name that leads out, and those behind it, as [`Sums`](crate::Sums) has it.
    pub served: &'k [Option<u32>],
}

impl<'k> Denotations<'k> {
    /// What the next name denotes; `None` where it denotes nothing, or none is left.
    pub(crate) fn next(&mut self) -> Option<Found>
        ensures next { (first : Option Denoted) (more : List (Option Denoted)) → self.old.left.now ≡ first ∷ more → (result ≡ first) × (self.new.left.now ≡ more) }
        ensures served { self.new.served ≡ self.old.served }
    {
        if self.left.is_empty() {
            return None;
        }
        let first = self.left[0];
        self.left = &self.left[1..];
        first
    }

    /// The index of the alias that serves the next name that leads out; `None` where the name has its own, or none is left.
    pub(crate) fn next_alias(&mut self) -> Option<u32>
        ensures next { (first : Option ℕ) (more : List (Option ℕ)) → self.old.served.now ≡ first ∷ more → (result ≡ first) × (self.new.served.now ≡ more) }
        ensures left { self.new.left ≡ self.old.left }
    {
        if self.served.is_empty() {
            return None;
        }
        let first = self.served[0];
        self.served = &self.served[1..];
        first
    }
}
