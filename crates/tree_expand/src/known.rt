//! The types of a scope that were passed, by their keys and with their ids.

ghost use Rattle.std.specs.Prelude.{◌≡◌, ◌++◌, ◌∷◌, [], List, OnOk, IfOk, IsSome, None, length, option_map};
ghost use Rattle.comp_model.specs.declared.row.Row.{Row as Rows};
ghost use Rattle.comp_model.specs.Model.{Leaves};
ghost use Rattle.comp_model.specs.Origins.{Origin};
ghost use Rattle.comp_tree.specs.Model.{id_of};
ghost use Rattle.type_keys.specs.Keys.{Part, part_type, type_key, first_key, first_equal, LeavesPassed};
ghost use Rattle.type_keys.specs.Shown.{KeysShow};
ghost use Rattle.type_keys.specs.PartsOf.{part_of};
ghost use Rattle.tree_expand.specs.KeyParts.{KeyShows};
ghost use Rattle.tree_expand.specs.Known.{Shows};
ghost use Rattle.tree_expand.specs.Passed.{Noted, types_in};

use std::alloc::{AllocError, Global};
use type_keys::{KeyPart, TypeKey, Types};
use wast_parser::Id;

/// The types of a scope so far, in the order of their marks: the number of each key, and the id of each definition.
#[derive(Drop)]
pub(crate) struct Known<'a> {
    pub(crate) types: Types<'a>,
    pub(crate) ids: Vec<Option<Id<'a>>>,
}

/// Puts a part behind those of a key, if there is one.
pub(crate) fn push_part<'a>(
    key: &mut Option<TypeKey<'a>>,
    part: KeyPart<'a>,
) -> Result<(), AllocError>
    ensures { (ps : List Part) → KeyShows key.old ps → OnOk result (KeyShows key.new (ps ++ part_of part.entry ∷ [])) }
{
    match key {
        Some(key) => key.push(part),
        None => Ok(()),
    }
}

/// Puts the number of an inline type behind the parts of a key; where there is none, the key is equal to none from here on.
pub(crate) fn push_type<'a>(
    key: &mut Option<TypeKey<'a>>,
    number: Option<u32>,
) -> Result<(), AllocError>
    ensures { (ps : List Part) → KeyShows key.old ps → OnOk result (KeyShows key.new (ps ++ part_type number ∷ [])) }
{
    match number {
        Some(number) => push_part(key, KeyPart::Inline(number)),
        None => {
            *key = None;
            Ok(())
        }
    }
}

/// How many ids there are. It is refused beyond 2^32.
fn count<'a>(ids: &[Option<Id<'a>>]) -> Result<u32, AllocError>
    ensures { IfOk result (λ n. n ≡ length ids.now) }
{
    match u32::try_from(ids.len()) {
        Ok(number) => Ok(number),
        Err(_) => Err(AllocError),
    }
}

/// Notes a key under this number, if there is one; one that is missing is equal to none.
fn note_key<'a>(
    types: &mut Types<'a>,
    key: Option<TypeKey<'a>>,
    number: u32,
) -> Result<(), AllocError>
    ensures { (ks : List (List Part)) (q : List Part) → KeysShow types.old ks → KeyShows key.entry q → first_key q ks ≡ None → length ks ≡ number → OnOk result (KeysShow types.new (ks ++ q ∷ [])) }
{
    match key {
        Some(key) => types.note(key, number),
        None => Ok(()),
    }
}

impl<'a> Known<'a> {
    /// None. It takes no memory.
    pub(crate) fn new(alloc: Global) -> Known<'a>
        ensures { Shows result [] }
    {
        Known {
            types: Types::new(alloc),
            ids: Vec::new(alloc),
        }
    }

    /// The number of the first type with this key; `None` where there is none, or no key.
    pub(crate) fn find(&self, key: &Option<TypeKey<'a>>) -> Option<u32>
        ensures { (xs : List Noted) (t : Rows) (ls : Leaves) → Shows self.now xs → KeyShows key.now (type_key (types_in xs) t ls) → LeavesPassed (types_in xs) ls → result ≡ first_equal t ls (types_in xs) }
    {
        match key {
            Some(key) => self.types.find(key),
            None => None,
        }
    }

    /// Notes a type of which there is no equal one, and the id of its definition; answers its number. It is refused beyond 2^32 types.
    pub(crate) fn note(
        &mut self,
        key: Option<TypeKey<'a>>,
        id: Option<Id<'a>>,
    ) -> Result<u32, AllocError>
        ensures number { (xs : List Noted) → Shows self.old xs → IfOk result (λ n. n ≡ length xs) }
        ensures noted { (xs : List Noted) (o : Origin) (t : Rows) (ls : Leaves) → Shows self.old xs → KeyShows key.entry (type_key (types_in xs) t ls) → LeavesPassed (types_in xs) ls → first_equal t ls (types_in xs) ≡ None → OnOk result (Shows self.new (xs ++ record { typed = record { origin = o; tag = t; leaves = ls }; id = option_map id_of id.entry } ∷ [])) }
    {
        let number = count(&self.ids)?;
        note_key(&mut self.types, key, number)?;
        self.ids.push(id)?;
        Ok(number)
    }

    /// Notes a type to which an earlier one is equal, and the id of its definition.
    pub(crate) fn again(&mut self, id: Option<Id<'a>>) -> Result<(), AllocError>
        ensures { (xs : List Noted) (o : Origin) (t : Rows) (ls : Leaves) → Shows self.old xs → LeavesPassed (types_in xs) ls → IsSome (first_equal t ls (types_in xs)) → OnOk result (Shows self.new (xs ++ record { typed = record { origin = o; tag = t; leaves = ls }; id = option_map id_of id.entry } ∷ [])) }
    {
        self.ids.push(id)?;
        Ok(())
    }

    /// Notes a type, and the id of its definition.
    pub(crate) fn add(
        &mut self,
        key: Option<TypeKey<'a>>,
        id: Option<Id<'a>>,
    ) -> Result<(), AllocError>
        ensures { (xs : List Noted) (o : Origin) (t : Rows) (ls : Leaves) → Shows self.old xs → KeyShows key.entry (type_key (types_in xs) t ls) → LeavesPassed (types_in xs) ls → OnOk result (Shows self.new (xs ++ record { typed = record { origin = o; tag = t; leaves = ls }; id = option_map id_of id.entry } ∷ [])) }
    {
        match self.find(&key) {
            Some(_) => self.again(id),
            None => match self.note(key, id) {
                Ok(_) => Ok(()),
                Err(error) => Err(error),
            },
        }
    }
}
