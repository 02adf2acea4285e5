//! The ids of one index space, and what a reference into it means.

ghost use Rattle.std.specs.Prelude.{◌≡◌, ◌<◌, ◌^◌, ◌-◌, ◌++◌, ◌∷◌, [], cond, length, is_some, IfOk, IfErr, OnOk, OnErr, Some, None, false};
ghost use Rattle.std.specs.BTreeMap.{get, IsUnchanged};
ghost use Rattle.wast_tokens.specs.declared.error.ErrorKind.TheVariants.{Duplicate, NoMemory};
ghost use Rattle.core_model.specs.Items.{meant};
ghost use Rattle.core_model.specs.Resolved.{numbered};
ghost use Rattle.core_syntax.specs.Ids.{id_of, option_id, reference_of};
ghost use Rattle.core_names.specs.Names.{IsKey, refusal, is_taken, register_refusal, unknown_at};

use name_ends::ending;
use std::alloc::Global;
use std::collections::BTreeMap;
use std::marker::Model;
use wast_parser::{Error, ErrorKind, Id, Index, Span};

/// By what the place of an item is looked up: the end of its id's name as a number, the id's own number, and the name.
///
/// The end of the name tells most names apart, so that few are compared byte by byte.
type Key<'a> = (u64, (u64, &'a str));

/// The key of an id.
fn key_of<'a>(id: Id<'a>) -> Key<'a>
    ensures { IsKey result (id_of id.entry) }
{
    let name = id.name();
    (ending(name), (id.number(), name))
}

/// The ids of the items of one index space, in order; an item may have none. The place of an item is its index.
///
/// Two ids are one where their names and their numbers are equal (WebAssembly, text format, Indices).
#[derive(Drop)]
pub struct Namespace<'a> {
    ids: Vec<Option<Id<'a>>>,
    places: BTreeMap<Key<'a>, u32>,
}

impl<'a> Model for Namespace<'a> {
    ghost use Rattle.std.specs.Prelude.{◌≡◌, List, Option, map};
    ghost use Rattle.std.specs.BTreeMap.{get};
    ghost use Rattle.comp_model.specs.Core.{Id as ModelId};

    ghost Value = { List (Option ModelId) };

    ghost use Rattle.core_syntax.specs.Ids.{option_id};
    ghost use Rattle.core_names.specs.Names.{Places, key_cmp};

    ghost view = { λ s. map option_id s.ids.items };

    ghost invariant = { λ s. Places (get key_cmp s.places) (map option_id s.ids.items) };
}

fn no_memory() -> Error
    ensures { result ≡ refusal NoMemory 0 }
{
    Error {
        kind: ErrorKind::NoMemory,
        offset: 0,
    }
}

fn duplicate(id: Id<'_>) -> Error
    ensures { result ≡ refusal Duplicate (id_of id.entry).offset }
{
    Error {
        kind: ErrorKind::Duplicate,
        offset: id.span().offset,
    }
}

impl<'a> Namespace<'a> {
    /// A space without items. It takes no memory.
    pub fn new(alloc: Global) -> Namespace<'a>
        ensures { result ≡ [] }
    {
        Namespace {
            ids: Vec::new(alloc),
            places: BTreeMap::new(alloc),
        }
    }

    /// Adds an item and answers its index.
    ///
    /// An id that an earlier item has is `Duplicate`, at the id; otherwise want of memory is `NoMemory` at 0. A refusal
    /// leaves the items as they were.
    pub fn register(&mut self, id: Option<Id<'a>>) -> Result<u32, Error>
        requires room { length self.old < 2 ^ 32 - 1 }
        ensures index { IfOk result (λ n. n ≡ length self.old) }
        ensures added { OnOk result (self.new ≡ self.old ++ option_id id.entry ∷ []) }
        ensures free { OnOk result (is_taken self.old (option_id id.entry) ≡ false) }
        ensures refused { IfErr result (λ e. e ≡ register_refusal self.old (option_id id.entry)) }
        ensures unchanged { OnErr result (self.new ≡ self.old) }
    {
        match id {
            None => self.register_nameless(),
            Some(id) => self.register_named(id),
        }
    }

    /// Adds an item without an id.
    fn register_nameless(&mut self) -> Result<u32, Error>
        requires room { length self.old < 2 ^ 32 - 1 }
        ensures index { IfOk result (λ n. n ≡ length self.old) }
        ensures added { OnOk result (self.new ≡ self.old ++ None ∷ []) }
        ensures refused { IfErr result (λ e. e ≡ refusal NoMemory 0) }
        ensures unchanged { OnErr result (self.new ≡ self.old) }
    {
        let index = self.ids.as_slice().len() as u32;
        match self.ids.push(None) {
            Ok(()) => Ok(index),
            Err(_) => Err(no_memory()),
        }
    }

    /// Adds an item with an id.
    fn register_named(&mut self, id: Id<'a>) -> Result<u32, Error>
        requires room { length self.old < 2 ^ 32 - 1 }
        ensures index { IfOk result (λ n. n ≡ length self.old) }
        ensures added { OnOk result (self.new ≡ self.old ++ Some (id_of id.entry) ∷ []) }
        ensures free { OnOk result (is_taken self.old (Some (id_of id.entry)) ≡ false) }
        ensures refused { IfErr result (λ e. e ≡ register_refusal self.old (Some (id_of id.entry))) }
        ensures unchanged { OnErr result (self.new ≡ self.old) }
    {
        let index = self.ids.as_slice().len() as u32;
        let key = key_of(id);
        match self.places.insert(key, index) {
            Ok(None) => {}
            Ok(Some(place)) => {
                return match self.places.insert(key, place) {
                    Ok(_) => Err(duplicate(id)),
                    Err(_) => unreachable!(),
                };
            }
            Err(_) => return Err(no_memory()),
        }
        match self.ids.push(Some(id)) {
            Ok(()) => Ok(index),
            Err(_) => {
                self.places.remove(&key);
                Err(no_memory())
            }
        }
    }

    /// What a reference means: a number itself, a name the index of the item that bears it; none where no item does.
    pub fn try_resolve(&self, idx: &Index<'a>) -> Option<u32>
        ensures { result ≡ meant self.now (reference_of idx.now) }
    {
        match idx {
            Index::Num(number, _) => Some(*number),
            Index::Id(id) => self.places.get(&key_of(*id)).copied(),
        }
    }

    /// What a reference means, and the reference as that number, at its place. A name that no item bears is `Unknown`, at
    /// the name, and the reference stays as it is. It takes no memory.
    pub fn resolve(&self, idx: &mut Index<'a>) -> Result<u32, Error>
        ensures meant { IfOk result (λ n. meant self.now (reference_of idx.old) ≡ Some n) }
        ensures numbered { OnOk result (reference_of idx.new ≡ numbered self.now (reference_of idx.old)) }
        ensures nothing { OnErr result (meant self.now (reference_of idx.old) ≡ None) }
        ensures refused { IfErr result (λ e. e ≡ unknown_at (reference_of idx.old)) }
        ensures unchanged { OnErr result (idx.new ≡ idx.old) }
    {
        let span = idx.span();
        match self.try_resolve(idx) {
            Some(number) => {
                *idx = Index::Num(number, span);
                Ok(number)
            }
            None => Err(Error {
                kind: ErrorKind::Unknown,
                offset: span.offset,
            }),
        }
    }
}
