//! The ids of one scope, by space.

ghost use Rattle.std.specs.Prelude.{◌≡◌, ◌&&◌, cond, OnOk, IfOk, IfErr, ◌⊎◌, is_some, true, false, Some, None};
ghost use Rattle.comp_model.specs.declared.Space.{Space as ModelSpace};
ghost use Rattle.comp_model.specs.Core.{Id as ModelId, same_id};
ghost use Rattle.comp_model.specs.Spaces.{same_space};
ghost use Rattle.comp_scopes.specs.Names.{first_of_two};
ghost use Rattle.comp_walks.specs.Lent.{id_of};
ghost use Rattle.open_scopes.specs.Refusals.{refusal, no_memory};
ghost use Rattle.open_scopes.specs.Registered.{IsKey, found_in, numbered_in};
ghost use Rattle.wast_tokens.specs.declared.error.ErrorKind.TheVariants.{Duplicate};

use crate::numbered::Numbered;
use comp_model::Space;
use comp_wire::space_number;
use name_ends::ending;
use std::alloc::{AllocError, Global};
use std::collections::BTreeMap;
use wast_parser::{Error, ErrorKind, Id};

/// An item that a definition declares.
#[derive(Clone, Copy, Drop)]
pub struct Item {
    /// The number of the definition in its scope.
    pub definition: u32,
    /// The number of the item among those that the definition declares.
    pub part: u32,
}

/// By what an item is looked up: the end of its id's name as a number, the number of its space, the id's own number, and the name.
///
/// The end of the name tells most names apart, so that few are compared byte by byte.
pub(crate) type Key<'a> = ((u64, u8), (u64, &'a str));

/// The key of the item of a space that bears an id.
pub(crate) fn key_of<'a>(space: Space, id: Id<'a>) -> Key<'a>
    ensures { IsKey result space (id_of id.entry) }
{
    let name = id.name();
    ((ending(name), space_number(space)), (id.number(), name))
}

/// The refusal of an id that an item bears already.
fn duplicate(id: Id<'_>) -> Error
    ensures { result ≡ refusal Duplicate (id_of id.entry).offset }
{
    Error {
        kind: ErrorKind::Duplicate,
        offset: id.span().offset,
    }
}

/// Want of memory.
fn no_memory() -> Error
    ensures { result ≡ no_memory }
{
    Error {
        kind: ErrorKind::NoMemory,
        offset: 0,
    }
}

/// The items of one scope that bear an id, by space and id. Those of generated ids are found by their numbers.
///
/// Two ids are one where their names and their numbers are equal, wherever they stand.
#[derive(Drop)]
pub struct Registry<'a> {
    items: BTreeMap<Key<'a>, Item>,
    numbered: Numbered,
}

impl<'a> Registry<'a> {
    /// The registry of no item. It takes no memory.
    pub fn new(alloc: Global) -> Registry<'a>
        ensures { (s : ModelSpace) (x : ModelId) → found_in result s x ≡ None }
    {
        Registry {
            items: BTreeMap::new(alloc),
            numbered: Numbered::new(alloc),
        }
    }

    /// The item of a space and an id without a name, in the slot of its number.
    #[inline]
    fn numbered_at(&self, space: Space, id: Id<'a>) -> Option<Item>
        ensures { result ≡ numbered_in self.now space (id_of id.entry) }
    {
        if !id.name().is_empty() {
            return None;
        }
        self.numbered.at(space_number(space), id.number())
    }

    /// The item of a space that bears an id, whose key is at hand; `None` where none does.
    #[inline(always)]
    pub(crate) fn at(&self, space: Space, id: Id<'a>, key: &Key<'a>) -> Option<Item>
        requires key { IsKey key.now space (id_of id) }
        ensures { result ≡ found_in self.now space (id_of id.entry) }
    {
        match self.numbered_at(space, id) {
            Some(item) => Some(item),
            None => self.items.get(key).copied(),
        }
    }

    /// The item of a space that bears an id; `None` where none does.
    pub fn find(&self, space: Space, id: Id<'a>) -> Option<Item>
        ensures { result ≡ found_in self.now space (id_of id.entry) }
    {
        self.at(space, id, &key_of(space, id))
    }

    /// Puts an item in the slot of its id's number. Where the id has a name, or there is no slot for it, it is `false`, and nothing has
    /// changed.
    fn put_numbered(&mut self, space: Space, id: Id<'a>, item: Item) -> Result<bool, AllocError>
        ensures put { IfOk result (λ b. b ≡ true → (s : ModelSpace) (x : ModelId) → numbered_in self.new s x ≡ cond (same_space s space && same_id x (id_of id.entry)) (Some item) (numbered_in self.old s x)) }
        ensures left { IfOk result (λ b. b ≡ false → (numbered_in self.old space (id_of id.entry) ≡ None) × ((s : ModelSpace) (x : ModelId) → numbered_in self.new s x ≡ numbered_in self.old s x)) }
        ensures items { self.new.items ≡ self.old.items }
    {
        if !id.name().is_empty() {
            return Ok(false);
        }
        self.numbered.put(space_number(space), id.number(), item)
    }

    /// Puts an item in the place of the one of a space that bears an id, or beside the others where none does.
    ///
    /// An `Err` is want of memory; behind it nothing is said of the items.
    pub fn replace(&mut self, space: Space, id: Id<'a>, item: Item) -> Result<(), AllocError>
        ensures { OnOk result ((s : ModelSpace) (x : ModelId) → found_in self.new s x ≡ cond (same_space s space && same_id x (id_of id.entry)) (Some item) (found_in self.old s x)) }
    {
        match self.put_numbered(space, id, item) {
            Ok(true) => Ok(()),
            Ok(false) => match self.items.insert(key_of(space, id), item) {
                Ok(_) => Ok(()),
                Err(_) => Err(AllocError),
            },
            Err(_) => Err(AllocError),
        }
    }

    /// Adds the item of a space that bears an id for which there is no slot, as `register` has it.
    fn register_named(&mut self, space: Space, id: Id<'a>, item: Item) -> Result<(), Error>
        requires named { numbered_in self.old space (id_of id) ≡ None }
        ensures free { OnOk result (found_in self.old space (id_of id.entry) ≡ None) }
        ensures added { OnOk result ((s : ModelSpace) (x : ModelId) → found_in self.new s x ≡ first_of_two (found_in self.old s x) (cond (same_space s space && same_id x (id_of id.entry)) (Some item) None)) }
        ensures refused { IfErr result (λ e. (e ≡ no_memory) ⊎ ((e ≡ refusal Duplicate (id_of id.entry).offset) × (is_some (found_in self.old space (id_of id.entry)) ≡ true))) }
    {
        match self.items.insert(key_of(space, id), item) {
            Ok(None) => Ok(()),
            Ok(Some(_)) => Err(duplicate(id)),
            Err(_) => Err(no_memory()),
        }
    }

    /// Adds the item of a space that bears an id without a name, as `register` has it.
    fn register_numbered(&mut self, space: Space, id: Id<'a>, item: Item) -> Result<(), Error>
        ensures free { OnOk result (found_in self.old space (id_of id.entry) ≡ None) }
        ensures added { OnOk result ((s : ModelSpace) (x : ModelId) → found_in self.new s x ≡ first_of_two (found_in self.old s x) (cond (same_space s space && same_id x (id_of id.entry)) (Some item) None)) }
        ensures refused { IfErr result (λ e. (e ≡ no_memory) ⊎ ((e ≡ refusal Duplicate (id_of id.entry).offset) × (is_some (found_in self.old space (id_of id.entry)) ≡ true))) }
    {
        if self.find(space, id).is_some() {
            return Err(duplicate(id));
        }
        match self.put_numbered(space, id, item) {
            Ok(true) => Ok(()),
            Ok(false) => self.register_named(space, id, item),
            Err(_) => Err(no_memory()),
        }
    }

    /// Adds the item of a space that bears an id.
    ///
    /// An id that an item of the space bears already is `Duplicate`, at the id; otherwise want of memory is `NoMemory` at 0.
    pub fn register(&mut self, space: Space, id: Id<'a>, item: Item) -> Result<(), Error>
        ensures free { OnOk result (found_in self.old space (id_of id.entry) ≡ None) }
        ensures added { OnOk result ((s : ModelSpace) (x : ModelId) → found_in self.new s x ≡ first_of_two (found_in self.old s x) (cond (same_space s space && same_id x (id_of id.entry)) (Some item) None)) }
        ensures refused { IfErr result (λ e. (e ≡ no_memory) ⊎ ((e ≡ refusal Duplicate (id_of id.entry).offset) × (is_some (found_in self.old space (id_of id.entry)) ≡ true))) }
    {
        if id.name().is_empty() {
            return self.register_numbered(space, id, item);
        }
        self.register_named(space, id, item)
    }
}
