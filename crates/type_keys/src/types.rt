//! The types of a scope by their keys.

ghost use Rattle.std.specs.BTreeMap.{get};
ghost use Rattle.std.specs.Ordering.{is_eq};
ghost use Rattle.std.specs.Prelude.{◌≡◌, ◌++◌, ◌∷◌, [], List, OnOk, Some, None, cond, length};
ghost use Rattle.type_keys.specs.Keys.{Part, first_key};
ghost use Rattle.type_keys.specs.Order.{order};
ghost use Rattle.type_keys.specs.PartsOf.{parts_of};
ghost use Rattle.type_keys.specs.Shown.{KeysShow};
ghost use Rattle.type_keys.specs.declared.key.TypeKey.{TypeKey as Key};

use crate::key::TypeKey;
use std::alloc::{AllocError, Global};
use std::collections::BTreeMap;

/// Puts a key into a map.
fn put<'a>(
    by_key: &mut BTreeMap<TypeKey<'a>, u32>,
    key: TypeKey<'a>,
    number: u32,
) -> Result<(), AllocError>
    ensures put { (k : Key) → OnOk result (get order by_key.new k ≡ cond (is_eq (order key.entry k)) (Some number) (get order by_key.old k)) }
{
    match by_key.insert(key, number) {
        Ok(_) => Ok(()),
        Err(_) => Err(AllocError),
    }
}

/// The keys of the types of a scope so far, and of each the number of the first type that has it.
#[derive(Drop)]
pub struct Types<'a> {
    by_key: BTreeMap<TypeKey<'a>, u32>,
}

impl<'a> Types<'a> {
    /// None. It takes no memory.
    pub fn new(alloc: Global) -> Types<'a>
        ensures { KeysShow result [] }
    {
        Types {
            by_key: BTreeMap::new(alloc),
        }
    }

    /// The number, from 0 and among the types so far, of the first type with this key; `None` where there is none. It takes no memory and
    /// changes nothing.
    pub fn find(&self, key: &TypeKey<'a>) -> Option<u32>
        ensures { (ks : List (List Part)) → KeysShow self.now ks → result ≡ first_key (parts_of key.now) ks }
    {
        self.by_key.get(key).copied()
    }

    /// Notes the key of one type more, which no earlier type has, under the number of types in front of it. A type whose key is there
    /// already is not noted: the first one stands for it.
    ///
    /// An `Err` is want of memory; behind it nothing is said of the types.
    pub fn note(&mut self, key: TypeKey<'a>, number: u32) -> Result<(), AllocError>
        ensures { OnOk result ((ks : List (List Part)) → KeysShow self.old ks → first_key (parts_of key.entry) ks ≡ None → length ks ≡ number → KeysShow self.new (ks ++ parts_of key.entry ∷ [])) }
    {
        put(&mut self.by_key, key, number)
    }
}
