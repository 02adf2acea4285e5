//! The types of a module, written ones and those that are added.

ghost use Rattle.std.specs.Prelude.{◌≡◌, ◌<◌, ◌≤◌, ◌^◌, ◌++◌, ◌∷◌, [], drop, length, map, option_map, slice_get, is_some, true, Some, None, OnOk};
ghost use Rattle.core_model.specs.Types.{Signature as ModelSignature, params_of_type, type_place, new_type};
ghost use Rattle.core_resolve.specs.Signatures.{signature as signature_of};

use crate::signature::Signature;
use std::alloc::{AllocError, Global};
use std::collections::BTreeMap;
use std::marker::Model;

/// Types, in order; the place of one is its index. One that is no function type counts, and is equal to none.
#[derive(Drop)]
pub(crate) struct TypeTable {
    types: Vec<Option<Signature>>,
    places: BTreeMap<Signature, u32>,
}

impl Model for TypeTable {
    ghost use Rattle.std.specs.Prelude.{◌≡◌, List, Option, map, option_map};
    ghost use Rattle.std.specs.BTreeMap.{get};
    ghost use Rattle.core_model.specs.Types.{Signature as ModelSignature, type_place};
    ghost use Rattle.core_resolve.specs.Signatures.{signature as signature_of};
    ghost use Rattle.core_resolve.specs.Order.{order};
    ghost use Rattle.core_resolve.specs.declared.signature.Signature.{Signature as Key};

    ghost Value = { List (Option ModelSignature) };

    ghost view = { λ t. map (option_map signature_of) t.types.items };

    ghost invariant = { λ t. (k : Key) → get order t.places k ≡ type_place (signature_of k) (map (option_map signature_of) t.types.items) };
}

impl TypeTable {
    /// A table without types. It takes no memory.
    pub(crate) fn new(alloc: Global) -> TypeTable
        ensures { result ≡ [] }
    {
        TypeTable {
            types: Vec::new(alloc),
            places: BTreeMap::new(alloc),
        }
    }

    /// How many types it has.
    pub(crate) fn len(&self) -> usize
        ensures { result ≡ length self.now }
    {
        self.types.as_slice().len()
    }

    /// The index of the first type that is this one.
    pub(crate) fn place_of(&self, signature: &Signature) -> Option<u32>
        ensures { result ≡ type_place (signature_of signature.now) self.now }
    {
        self.places.get(signature).copied()
    }

    /// How many parameters the type of an index has; 0 where there is none, or it is no function type.
    pub(crate) fn param_count(&self, index: u32) -> usize
        ensures { result ≡ length (params_of_type (slice_get self.now index)) }
    {
        match self.types.get(index as usize) {
            Some(Some(signature)) => signature.params.as_slice().len(),
            _ => 0,
        }
    }

    /// The types from an index on.
    pub(crate) fn types_from(&self, from: usize) -> &[Option<Signature>]
        requires within { from ≤ length self.now }
        ensures { map (option_map signature_of) result.now ≡ drop from self.now }
    {
        &self.types.as_slice()[from..]
    }

    /// Adds the next type that is written.
    pub(crate) fn push(&mut self, alloc: Global, ty: Option<Signature>) -> Result<(), AllocError>
        requires room { length self.old < 2 ^ 32 }
        ensures { OnOk result (self.new ≡ self.old ++ option_map signature_of ty ∷ []) }
    {
        match ty {
            None => self.push_other(),
            Some(signature) => match self.place_of(&signature) {
                Some(_) => self.push_again(signature),
                None => self.push_new(alloc, signature),
            },
        }
    }

    /// Adds a type that is needed, where it isn't there.
    pub(crate) fn need(&mut self, alloc: Global, signature: &Signature) -> Result<(), AllocError>
        requires room { length self.old < 2 ^ 32 }
        ensures { OnOk result (self.new ≡ self.old ++ map Some (new_type self.old (signature_of signature.now))) }
    {
        match self.place_of(signature) {
            Some(_) => Ok(()),
            None => self.push_new(alloc, signature.duplicate(alloc)?),
        }
    }

    /// Adds a type that is no function type.
    fn push_other(&mut self) -> Result<(), AllocError>
        ensures { OnOk result (self.new ≡ self.old ++ None ∷ []) }
    {
        match self.types.push(None) {
            Ok(()) => Ok(()),
            Err(_) => Err(AllocError),
        }
    }

    /// Adds a type that is there already: the first of them is the one that is found.
    fn push_again(&mut self, signature: Signature) -> Result<(), AllocError>
        requires there { is_some (type_place (signature_of signature) self.old) ≡ true }
        ensures { OnOk result (self.new ≡ self.old ++ Some (signature_of signature) ∷ []) }
    {
        match self.types.push(Some(signature)) {
            Ok(()) => Ok(()),
            Err(_) => Err(AllocError),
        }
    }

    /// Adds a type that isn't there.
    fn push_new(&mut self, alloc: Global, signature: Signature) -> Result<(), AllocError>
        requires room { length self.old < 2 ^ 32 }
        requires absent { type_place (signature_of signature) self.old ≡ None }
        ensures { OnOk result (self.new ≡ self.old ++ Some (signature_of signature) ∷ []) }
    {
        let key = signature.duplicate(alloc)?;
        let index = self.types.as_slice().len() as u32;
        match self.types.push(Some(signature)) {
            Ok(()) => {}
            Err(_) => return Err(AllocError),
        }
        match self.places.insert(key, index) {
            Ok(_) => Ok(()),
            Err(_) => {
                self.types.truncate(index as usize);
                Err(AllocError)
            }
        }
    }
}
